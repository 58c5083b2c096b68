// What an entry tells besides its place.

use crate::event::{Answer, Event};

/// The caller, the event and the answer of an entry.
#[derive(Clone, Copy)]
pub(crate) struct Parts<'a> {
    pub(crate) caller: u32,
    pub(crate) event: Event<'a>,
    pub(crate) answer: Answer<'a>,
}
