//! How datagrams are shown.
use osc_model::Late;
use osc_shown::{Look, Route};

/// How datagrams are shown.
#[derive(Clone, Copy)]
pub struct View<'a> {
    pub look: Look,
    /// What the server does with late units.
    pub late: Late,
    /// The methods by address, and where each sends.
    pub routes: &'a [Route],
}
