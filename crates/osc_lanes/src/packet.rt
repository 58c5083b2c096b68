//! Sends bytes that may be a packet, and reports what is answered.
ghost use Rattle.std.specs.Prelude.{◌≡◌, ℕ, List, IfOk, None};
ghost use Rattle.std.specs.Option.{option_map};
ghost use Rattle.osc_record.specs.Shown.{room_of};
ghost use Rattle.osc_turn.specs.Passes.{view};
ghost use Rattle.osc_live.specs.Tokens.{IsOurs};
ghost use Rattle.osc_script.specs.declared.act.Act.TheVariants.{Send};
ghost use Rattle.osc_life.specs.Holders.{seen_by, holder_of};
ghost use Rattle.osc_lanes.specs.Sent.{IsAnswered, stop_of};
ghost use Rattle.osc_lanes.specs.Tells.{TellsAct};

use osc_atoms::{Fault, Room};
use osc_life::Gate;
use osc_live::{Caller, Live, Submission};
use osc_method::Method;
use osc_packet::{MAX_PACKET, Packet};
use std::alloc::AllocError;
use std::sync::Wait;

/// Submits bytes that are a packet, and else keeps their fault under the number. The `Some` is what
/// the server answered to the submit, and its clock; an `Err` means out of memory.
pub fn send<M: Method, W: Wait>(
    rt: &W,
    live: &Live<M>,
    caller: Caller,
    number: u32,
    bytes: &[u8],
    faults: &mut Vec<(u32, Fault)>,
) -> Result<(Caller, Option<Submission>), AllocError>
    requires ours { IsOurs live.now caller }
    ensures ours { IfOk result (λ r. IsOurs live.now r.0) }
    ensures holder { IfOk result
        (λ r. holder_of live.now.caps r.0 ≡ holder_of live.now.caps caller) }
    ensures made { IfOk result
        (λ r. (view r.0.pass).made ≡ (view caller.pass).made) }
    ensures answered { IfOk result (λ r. IsAnswered (holder_of live.now.caps caller) bytes.now r.1
        (seen_by caller) (seen_by r.0)) }
    ensures played { IfOk result (λ r. (boxes back : List M) (removed : List (ℕ × M))
        → TellsAct M.keep M.heard (holder_of live.now.caps caller) number (Send bytes.now) boxes
        boxes (record { faults = faults.old.items; removed = removed; back = back; stop = None })
        (record {
          faults = faults.new.items;
          removed = removed;
          back = back;
          stop = stop_of r.1;
        }) (seen_by caller) (seen_by r.0)) }
{
    match Packet::check(bytes, MAX_PACKET) {
        Ok(packet) => {
            let (caller, submission) = live.submit_clocked(rt, caller, &packet);
            Ok((caller, Some(submission)))
        }
        Err(fault) => {
            faults.push((number, fault))?;
            Ok((caller, None))
        }
    }
}

/// Reports the answer to the gate, if there is one. The `Some` is the room where the recording was
/// full.
pub fn report_answer<G: Gate>(
    gate: &G,
    worker: u32,
    step: u32,
    submission: Option<Submission>,
) -> Option<Room>
    ensures { option_map room_of result ≡ stop_of submission }
{
    match submission {
        Some(submission) => {
            gate.answered(worker, step, &submission);
            submission.answer.stop()
        }
        None => None,
    }
}
