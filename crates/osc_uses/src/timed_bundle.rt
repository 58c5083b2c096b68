//! A bundle that waits for its moment, and is then performed in one piece.
ghost use Rattle.std.specs.Prelude.{◌≡◌, [], ◌∷◌};
ghost use Rattle.osc_model.specs.Events.{submit, tick, release};
ghost use Rattle.osc_model.specs.Heard.{all_hear};
ghost use Rattle.osc_model.specs.History.{state_of, stepped_in, onward};
ghost use Rattle.osc_laws.specs.Laws.{KeepsTheLaws};
ghost use Rattle.osc_core.specs.Answers.{submitted_of, ticking_of, TellsRelease};
ghost use Rattle.osc_core.specs.Telling.{told};
ghost use Rattle.osc_uses.specs.Played.{played};
ghost use Rattle.osc_uses.specs.Early.{IsNotEarly};

use osc_core::{Core, Releasing, Submitted, Ticking};
use osc_method::Method;
use osc_packet::Packet;

/// The result of a bundle that waits for its moment: a release before it, and the tick and a release then.
#[derive(Clone, Copy, Debug, PartialEq, Eq)]
pub struct TimedRun {
    /// What the bundle was answered.
    pub submitted: Submitted,
    /// The answer to a release before the tick.
    pub early: Releasing,
    /// What the tick was answered.
    pub ticked: Ticking,
    /// The answer to a release after it.
    pub released: Releasing,
}

/// Releases the unit that is due first, and none before its tag.
pub fn release_due<M: Method>(core: &mut Core<M>) -> Releasing
    ensures answer { TellsRelease result (stepped_in core.old.performance release).answer }
    ensures in_time { IsNotEarly (state_of core.old.performance)
        (stepped_in core.old.performance release) }
    ensures performance { core.new.performance ≡ onward core.old.performance 0 release }
    ensures boxes { told M.keep M.heard core.new.boxes.items
        ≡ all_hear (stepped_in core.old.performance release).invocations
        (told M.keep M.heard core.old.boxes.items) }
{
    osc_model::laws::a_release_takes_the_least_unit();
    osc_laws::laws::a_queued_unit_waits_for_its_tag();
    // The history is legal, as the recording tells.
    let _ = core.bytes();
    core.release(0)
}

/// Sets the clock to the moment, and releases the unit that is due first then.
pub fn release_at<M: Method>(core: &mut Core<M>, moment: u64) -> (Ticking, Releasing)
    ensures ticked { ticking_of result.0 ≡ (stepped_in core.old.performance (tick moment)).answer }
    ensures released { TellsRelease result.1
        (stepped_in (played core.old.performance (tick moment ∷ [])) release).answer }
    ensures in_time { IsNotEarly (state_of (played core.old.performance (tick moment ∷ [])))
        (stepped_in (played core.old.performance (tick moment ∷ [])) release) }
    ensures performance { core.new.performance
        ≡ played core.old.performance (tick moment ∷ release ∷ []) }
    ensures boxes { told M.keep M.heard core.new.boxes.items
        ≡ all_hear (stepped_in (played core.old.performance (tick moment ∷ [])) release).invocations
        (told M.keep M.heard core.old.boxes.items) }
{
    let ticked = core.tick(0, moment);
    let released = release_due(core);
    (ticked, released)
}

/// Submits the bundle, tries a release at once, and releases at the moment. As `laws` says, the messages of a unit are
/// called together and in order.
pub fn timed_run<M: Method>(core: &mut Core<M>, bundle: &Packet<'_>, moment: u64) -> TimedRun
    ensures submitted { submitted_of result.submitted
        ≡ (stepped_in core.old.performance (submit bundle.now)).answer }
    ensures early { TellsRelease result.early
        (stepped_in (played core.old.performance (submit bundle.now ∷ [])) release).answer }
    ensures waits { IsNotEarly (state_of (played core.old.performance (submit bundle.now ∷ [])))
        (stepped_in (played core.old.performance (submit bundle.now ∷ [])) release) }
    ensures ticked { ticking_of result.ticked
        ≡ (stepped_in (played core.old.performance (submit bundle.now ∷ release ∷ []))
        (tick moment)).answer }
    ensures released { TellsRelease result.released
        (stepped_in (played core.old.performance (submit bundle.now ∷ release ∷ tick moment ∷ []))
        release).answer }
    ensures performance { core.new.performance
        ≡ played core.old.performance (submit bundle.now ∷ release ∷ tick moment ∷ release ∷ []) }
    ensures laws { KeepsTheLaws core.new.performance.caps core.new.performance.history }
{
    osc_laws::laws::every_history_keeps_the_laws();
    let submitted = core.submit(0, bundle);
    let early = release_due(core);
    let (ticked, released) = release_at(core, moment);
    let _ = core.bytes();
    TimedRun {
        submitted,
        early,
        ticked,
        released,
    }
}
