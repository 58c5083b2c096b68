//! Opening and closing.
ghost use Rattle.std.specs.Prelude.{◌≡◌, ◌≢◌, Some, None, [], IfOk, IfErr};
ghost use Rattle.osc_model.specs.Limits.{limit_fault};
ghost use Rattle.osc_c.specs.Held.{played, left};
ghost use Rattle.osc_c.specs.Opening.{caps_of, late_of, open_answered};
ghost use Rattle.osc_c.specs.Reading.{left_of};

use crate::answer::Answer;
use crate::handle::{Handle, put, take};
use crate::limits::Limits;
use crate::shown::{numbered, told};
use crate::state::State;
use crate::status;
use osc_core::Core;
use osc_method::Mute;
use osc_model::Late;
use osc_record::{CapFault, Caps};
use std::alloc::{AllocError, Global};

/// Opens a server. A handle that is open stays as it is.
#[unsafe(no_mangle)]
pub extern "C" fn osc_server_open(handle: &mut Handle, limits: &Limits, alloc: Global) -> Answer
    ensures answer { result.status ≢ 15 → result
        ≡ open_answered (played handle.old.spot.held) (limit_fault (caps_of limits.now)) }
    ensures no_memory { result.status ≡ 15
        → (handle.old.spot.held ≡ None) × (limit_fault (caps_of limits.now) ≡ None) }
    ensures opened { result.status ≡ 0 → played handle.new.spot.held
        ≡ Some (record { caps = caps_of limits.now; history = [] }) }
    ensures unread { result.status ≡ 0 → left handle.new.spot.held ≡ [] }
    ensures refused { result.status ≢ 0 → handle.new.spot.held ≡ handle.old.spot.held }
{
    if let Some(state) = take(handle, alloc) {
        put(handle, state);
        return told(status::IS_OPEN);
    }
    let caps = match read_limits(limits) {
        Ok(caps) => caps,
        Err(fault) => return numbered(status::BAD_LIMIT, u32::from(fault.field)),
    };
    match open_state(alloc, caps) {
        Ok(state) => {
            put(handle, state);
            told(status::OK)
        }
        Err(_) => told(status::NO_MEMORY),
    }
}

fn read_limits(limits: &Limits) -> Result<Caps, CapFault>
    ensures ok { IfOk result (λ caps. caps ≡ caps_of limits.now) }
    ensures within { IfOk result (λ _. limit_fault (caps_of limits.now) ≡ None) }
    ensures fault { IfErr result (λ fault. limit_fault (caps_of limits.now) ≡ Some fault.field) }
{
    Caps::new(
        limits.units,
        limits.blocks,
        limits.methods,
        limits.nodes,
        limits.callers,
        limits.recording,
        late_of(limits.discards_late),
    )
}

fn late_of(discards: bool) -> Late
    ensures { result ≡ late_of discards }
{
    if discards {
        Late::Discard
    } else {
        Late::Deliver
    }
}

fn open_state(alloc: Global, caps: Caps) -> Result<Box<State>, AllocError>
    ensures performance { IfOk result
        (λ state. state.value.core.performance ≡ record { caps = caps; history = [] }) }
    ensures unread { IfOk result (λ state. left_of state.value ≡ []) }
{
    let core: Core<Mute> = Core::open(alloc, caps)?;
    let state = State {
        core,
        calls: 0,
        read: 0,
    };
    Ok(Box::new(alloc, state)?)
}

/// Closes a server. A handle that is closed stays so.
#[unsafe(no_mangle)]
pub extern "C" fn osc_server_close(handle: &mut Handle, alloc: Global)
    ensures { handle.new.spot.held ≡ None }
{
    let _ = take(handle, alloc);
}
