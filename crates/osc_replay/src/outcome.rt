// The result of an event.

use osc_record::Answer;

/// The result of an event of a caller.
#[derive(Clone, Copy)]
pub(crate) enum Outcome {
    /// An entry with this answer, which releases no unit.
    Answered(Answer<'static>),
    /// An entry of the release of the unit with this number, whose calls are kept next to it.
    Released(u64),
    /// No entry.
    Nothing,
}
