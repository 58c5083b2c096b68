//! How what one caller has seen reaches another.
ghost use Rattle.std.specs.Prelude.{◌≡◌};
ghost use Rattle.osc_turn.specs.History.{StartsWith};
ghost use Rattle.osc_turn.specs.Steps.{longer};
ghost use Rattle.osc_turn.specs.Passes.{view, met_by};
ghost use Rattle.osc_turn.specs.Answers.{KeepsOwn};
ghost use Rattle.osc_live.specs.Tokens.{IsOurs};

use crate::caller::Caller;
use crate::live::Live;
use osc_method::Method;

impl<M: Method> Live<M> {
    /// Tells `into` what `from` has seen. Of what the two have seen, one list begins with the
    /// other.
    pub fn meet(&self, from: Caller, into: Caller) -> (Caller, Caller)
        requires from_ours { IsOurs self.now from }
        requires into_ours { IsOurs self.now into }
        ensures from_ours { IsOurs self.now result.0 }
        ensures into_ours { IsOurs self.now result.1 }
        ensures numbers { (result.0.number ≡ from.number) × (result.1.number ≡ into.number) }
        ensures from { view result.0.pass ≡ view from.pass }
        ensures into { view result.1.pass ≡ met_by (view into.pass) (view from.pass) }
        ensures longer { (view result.1.pass).seen
            ≡ longer (view into.pass).seen (view from.pass).seen }
        ensures seen { StartsWith (view result.1.pass).seen (view into.pass).seen }
        ensures told { StartsWith (view result.1.pass).seen (view from.pass).seen }
        ensures none_added { KeepsOwn (view into.pass) (view result.1.pass) }
    {
        osc_model::laws::callers_are_counted();
        let Caller { pass, number } = from;
        let Caller {
            pass: learner,
            number: learns,
        } = into;
        let (pass, learner) = self.turn.meet(pass, learner);
        (
            Caller { pass, number },
            Caller {
                pass: learner,
                number: learns,
            },
        )
    }
}
