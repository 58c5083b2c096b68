//! The top call that goes on from a recording.
ghost use Rattle.osc_ends.specs.declared.status.TheConstants.{CALLERS_FULL, DONE, EDGE_FAILED};
ghost use Rattle.osc_ends.specs.declared.status.TheConstants.{NO_MEMORY, SINK_FAILED};
ghost use Rattle.osc_ends.specs.declared.status.TheConstants.{SOURCE_FAILED, USAGE};
ghost use Rattle.std.specs.Prelude.{◌≡◌, ◌≢◌, ◌⊎◌, ◌≤◌, IsTrue, IfSome, Some, None, [], length};
ghost use Rattle.std.specs.Prelude.{map, string_bytes};
ghost use Rattle.osc_edge.specs.Faults.{Rose};
ghost use Rattle.osc_core.specs.Ids.{is_ascending};
ghost use Rattle.osc_model.specs.Limits.{max_recording};
ghost use Rattle.osc_script.specs.declared.script.TheConstants.{MAX_SCRIPT};
ghost use Rattle.osc_live.specs.Resuming.{roomier};
ghost use Rattle.osc_words.specs.Commands as said;
ghost use Rattle.osc_ends.specs.Ends.{left_behind};
ghost use Rattle.osc_ends.specs.Inputs.{OfInput};
ghost use Rattle.osc_ends.specs.Printing.{usage_text};
ghost use Rattle.osc_ends.specs.Sinks.{change, Fails, IsSteady, GainsUnless};
ghost use Rattle.osc_top.specs.EndsResumed.{EndsResumed, IsResumed, IsUnresumed};
ghost use Rattle.osc_top.specs.Resumed.{PlaysResumed, RecordsOneHistory};
ghost use Rattle.osc_top.specs.Taken.{OfInputs};

use crate::after::play_after;
use crate::intake::{judge_both, read_both};
use crate::live::unplayed;
use crate::venue::Venue;
use osc_edge::{Sink, Source};
use osc_ends::status::NO_MEMORY;
use osc_ends::{Ended, usage};
use osc_lanes::Gate;
use osc_method::Method;
use osc_words::resume_command_of;
use std::alloc::Global;
use std::sync::Wait;
use std::thread::Threads;

/// Does all that `oscd resume OLD FILE` does. Reads a recording from `past` and then a script from
/// `input`, each to its end, takes up the server that the recording leaves, plays each lane of the
/// script by a thread of its own on it, and writes the whole recording to `rec`, and then its
/// printed history and the faults of the lanes' packets to `out`. `osc replay` prints the same
/// history from the recording.
///
/// `words` are those of the command line, without the program's name. The k-th method that the past
/// adds gets the k-th box of `bank`, which hears the old invocations again, and the k-th add of the
/// script, whatever its lane, the k-th after these. `gate` is called round each line. What stands
/// in the sinks, and what becomes of the boxes, when out of memory isn't said.
pub fn resume_top<P: Source, S: Source, O: Sink, R: Sink, W: Threads + Wait + Sync, G: Gate + Sync>(
    rt: &W,
    alloc: Global,
    words: &[String],
    past: &mut P,
    input: &mut S,
    out: &mut O,
    rec: &mut R,
    bank: Vec<Box<dyn Method + Send>>,
    gate: &G,
) -> Ended
    ensures known { (result.status ≤ CALLERS_FULL) × (result.status ≢ EDGE_FAILED) }

    // Words that are no command are answered first, by a line on usage, and nothing is read then.
    ensures usage { result.status ≡ USAGE
        → said.resume_command_of (map string_bytes words.now) ≡ None }
    ensures no_command { said.resume_command_of (map string_bytes words.now) ≡ None
        → (result.status ≡ USAGE) ⊎ (result.status ≡ NO_MEMORY) }
    ensures unread { said.resume_command_of (map string_bytes words.now) ≡ None
        → (past.new ≡ past.old) × (input.new ≡ input.old) }
    ensures usage_text { result.status ≡ USAGE
        → GainsUnless (change O.Sink out.old out.new) usage_text }

    // Then a source that failed, of which nothing is written: the past's, and then nothing is read
    // of the input, or the input's. Any other answer but out of memory means that neither failed,
    // and that each was read to its end, or to the first byte that is too many.
    ensures source { result.status ≡ SOURCE_FAILED
        → (Rose (P.faults past.old) (P.faults past.new) × (input.new ≡ input.old))
        ⊎ ((P.faults past.new ≡ P.faults past.old)
        × Rose (S.faults input.old) (S.faults input.new)) }
    ensures unwritten { result.status ≡ SOURCE_FAILED → out.new ≡ out.old }
    ensures sound { result.status ≢ NO_MEMORY → result.status ≢ SOURCE_FAILED
        → (P.faults past.new ≡ P.faults past.old) × (S.faults input.new ≡ S.faults input.old) }
    ensures past_read { IfSome (said.resume_command_of (map string_bytes words.now))
        (λ command. IfSome (P.left past.old)
        (λ all. result.status ≢ NO_MEMORY → result.status ≢ SOURCE_FAILED →
        P.left past.new ≡ Some (left_behind max_recording all))) }
    ensures input_read { IfSome (said.resume_command_of (map string_bytes words.now))
        (λ command. IfSome (S.left input.old)
        (λ all. result.status ≢ NO_MEMORY → result.status ≢ SOURCE_FAILED →
        S.left input.new ≡ Some (left_behind MAX_SCRIPT all))) }

    // Then a past or a script that is refused, or that together add more methods than there are
    // boxes, or have more callers than the past's limits allow, or the result of the lanes, with
    // sinks that took all of it or failed. The past and the script are what the sources had left,
    // where they report that.
    ensures ends { IfSome (said.resume_command_of (map string_bytes words.now))
        (λ command. result.status ≢ SOURCE_FAILED
        → OfInputs (P.left past.old) (S.left input.old) (λ bytes script.
        EndsResumed (λ caps before lines. PlaysResumed (λ box. keep box) (λ box. heard box)
        (roomier caps command.room) before bank.items result.heard.items result.left.items
        lines)
        result.status bytes script (length bank.items)
        (change R.Sink rec.old rec.new) (change O.Sink out.old out.new))) }

    // Where all was written, the recording is that of one history, which begins with the past, the
    // boxes have heard it, and `osc replay` prints from the recording what begins the text. Where
    // the sink of the recording failed, nothing was done with the other.
    ensures one_history { IfSome (said.resume_command_of (map string_bytes words.now))
        (λ command. IsResumed result.status → OfInput (P.left past.old)
        (λ bytes. RecordsOneHistory (λ box. keep box) (λ box. heard box) command.room bytes
        result.heard.items (change R.Sink rec.old rec.new) (change O.Sink out.old out.new))) }
    ensures sink { result.status ≡ SINK_FAILED
        → Fails (change O.Sink out.old out.new)
        ⊎ (Fails (change R.Sink rec.old rec.new) × (out.new ≡ out.old)) }
    ensures unrecorded { IsUnresumed result.status → rec.new ≡ rec.old }

    // Done means that nothing failed and that both were read to their ends.
    ensures steady { result.status ≡ DONE
        → IsSteady (change O.Sink out.old out.new)
        × IsSteady (change R.Sink rec.old rec.new) }
    ensures ended { result.status ≡ DONE
        → IfSome (P.left past.old) (λ all. P.left past.new ≡ Some [])
        × IfSome (S.left input.old) (λ all. S.left input.new ≡ Some []) }

    // The boxes that were added stand by their ids. Where nothing was played, all of them come
    // back.
    ensures ascending { IsTrue (is_ascending (map (λ one. one.0) result.heard.items)) }
    ensures none_heard { IsUnresumed result.status → result.heard.items ≡ [] }
    ensures all_left { IsUnresumed result.status → result.left.items ≡ bank.items }
{
    let command = match resume_command_of(alloc, words) {
        Ok(Some(command)) => command,
        Ok(None) => return unplayed(alloc, usage(out), bank),
        Err(_) => return unplayed(alloc, NO_MEMORY, bank),
    };
    let (past, script) = match read_both(alloc, past, input) {
        Ok(both) => both,
        Err(status) => return unplayed(alloc, status, bank),
    };
    match judge_both(alloc, &past, script, out) {
        Ok(taken) => {
            let venue = Venue { rt, alloc, gate };
            play_after(&venue, command.room, taken, bank, out, rec)
        }
        Err(status) => unplayed(alloc, status, bank),
    }
}
