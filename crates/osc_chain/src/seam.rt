//! From a stage to the next one, or why there is none.
use osc_relay::Outlet;
use osc_stage::{Stage, Staged};

/// Why a stage isn't carried on.
#[derive(Clone, Copy, Debug, PartialEq, Eq)]
pub enum SeamFault {
    /// A recording of these limits may have no room for what is carried on (`has_room`).
    NoRoom,
    /// The script of what is carried on is longer than a script may be.
    TooLong,
    /// The bytes aren't the recording of a server: they aren't what a stage hands back.
    Unlike,
}

/// What comes after a stage.
#[derive(Drop)]
pub enum Seam<O: Outlet, L> {
    /// The stage that carries it on.
    GoesOn(Stage<O, L>),
    /// Nothing: here it is as it was, and why.
    Ends(Staged<O, L>, SeamFault),
}
