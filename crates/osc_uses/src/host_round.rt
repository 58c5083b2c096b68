//! A host on one thread: it releases what is due, reads the calls with their messages, looks at a fader, and asks when
//! to come again.
ghost use Rattle.std.specs.Prelude.{◌≡◌, None, map, option_map};
ghost use Rattle.std.specs.List.{slice_get, fold};
ghost use Rattle.osc_model.specs.Events.{release};
ghost use Rattle.osc_model.specs.Heard.{all_hear};
ghost use Rattle.osc_model.specs.History.{state_of, stepped_in, onward};
ghost use Rattle.osc_model.specs.Releases.{IsLeastDue};
ghost use Rattle.osc_core.specs.Answers.{TellsRelease, OnReleased};
ghost use Rattle.osc_core.specs.Invoked.{call_of, last_calls, shown};
ghost use Rattle.osc_core.specs.Telling.{told};
ghost use Rattle.osc_uses.specs.Host.{later_message, TellsLevel};

use crate::first_server::Fader;
use osc_core::{Called, Core, Releasing};
use osc_method::Method;

/// What a host does in one round.
#[derive(Clone, Copy, Debug, PartialEq, Eq)]
pub struct HostRound {
    /// What the release was answered.
    pub released: Releasing,
    /// The moment of the unit that is next, or `None` where none waits.
    pub next: Option<u64>,
}

/// Releases the unit that is due first, and asks when the next one is. Where one was released, its calls can be read
/// until another one is; a host reads them, and begins the next round at once. Else it may sleep until the moment
/// `next`, unless a packet comes before.
pub fn play_round<M: Method>(core: &mut Core<M>) -> HostRound
    ensures released { TellsRelease result.released
        (stepped_in core.old.performance release).answer }
    ensures calls { OnReleased result.released (λ _. last_calls core.new.performance
        ≡ map call_of (stepped_in core.old.performance release).invocations) }
    ensures next { IsLeastDue (state_of core.new.performance).queue result.next }
    ensures performance { core.new.performance ≡ onward core.old.performance 0 release }
    ensures boxes { told M.keep M.heard core.new.boxes.items
        ≡ all_hear (stepped_in core.old.performance release).invocations
        (told M.keep M.heard core.old.boxes.items) }
{
    let released = core.release(0);
    HostRound {
        released,
        next: core.due(),
    }
}

/// One of the calls that the last release made, counted from 0; none after the last one.
pub fn call_at<M: Method>(core: &Core<M>, place: u32) -> Option<Called<'_>>
    ensures { option_map shown result ≡ slice_get (last_calls core.now.performance) place }
{
    core.calls_from(place).next()
}

/// The message that the last release called the method with, and where it called it more than once, the last of them.
pub fn last_message<M: Method>(core: &Core<M>, id: u32) -> Option<&[u8]>
    ensures { option_map (λ message. message.now) result
        ≡ fold (later_message id) None (last_calls core.now.performance) }
{
    let mut last = None;
    for called in core.calls() {
        if called.method == id {
            last = Some(called.message);
        }
    }
    last
}

/// The number that the fader with this id was sent last. `None` where it was sent none, or where no method has the id.
pub fn fader_level(core: &Core<Fader>, id: u32) -> Option<u32>
    ensures { TellsLevel (map (λ method. method.id) (state_of core.now.performance).methods)
        (told ⟦<Fader as Method>⟧.keep ⟦<Fader as Method>⟧.heard core.now.boxes.items) id result }
{
    core.method(id)?.level()
}
