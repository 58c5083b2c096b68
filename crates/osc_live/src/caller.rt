//! The tokens of callers.
ghost use Rattle.std.specs.Prelude.{◌≡◌, ◌<◌, IsTrue};
ghost use Rattle.osc_turn.specs.Rule.{number_of};
ghost use Rattle.osc_turn.specs.Passes.{view};
ghost use Rattle.osc_model.specs.Enrolled.{callers_in};
ghost use Rattle.osc_live.specs.Seen.{history_of, names_own};

use osc_turn::Pass;

/// An enrolled caller's token. What it has seen is known in the proofs alone. A token that is
/// dropped can't be handed in, so its server is never closed.
#[derive(Drop)]
pub struct Caller {
    pub(crate) pass: Pass,
    pub(crate) number: u32,
    ghost enrolled: { number < callers_in (history_of (view pass)) },
    ghost named: { IsTrue (names_own number (view pass)) },
    ghost first: { number ≡ 0 → number_of (view pass) ≡ 0 },
}

impl Caller {
    /// The caller's number.
    pub fn number(&self) -> u32
        ensures { result ≡ self.now.number }
    {
        self.number
    }
}
