//! What a show ends with, and what comes after a part of it.
use crate::seam::SeamFault;
use osc_relay::Outlet;
use osc_stage::{Stage, Staged};

/// How a show ended.
#[derive(Drop)]
pub struct ShowEnd<O: Outlet, L> {
    /// The result of its last stage.
    pub staged: Staged<O, L>,
    /// Why it didn't go on in another recording, where it was to.
    pub fault: Option<SeamFault>,
}

/// What comes after a part of a show.
#[derive(Drop)]
pub(crate) enum Part<O: Outlet, L> {
    /// This stage.
    GoesOn(Stage<O, L>),
    /// Nothing.
    Over(ShowEnd<O, L>),
}
