//! The top call of many threads.
ghost use Rattle.osc_links.specs.declared.limits.TheConstants.{MAX_LINKS};
ghost use Rattle.osc_ends.specs.declared.status.TheConstants.{BANK_SHORT, DONE, EDGE_FAILED};
ghost use Rattle.osc_ends.specs.declared.status.TheConstants.{NO_MEMORY, SINK_FAILED};
ghost use Rattle.osc_ends.specs.declared.status.TheConstants.{SOURCE_FAILED, USAGE};
ghost use Rattle.std.specs.Prelude.{◌≡◌, ◌≢◌, ◌⊎◌, ◌≤◌, ◌<◌, ℕ, Bool, true, IsTrue, IsOkAnd};
ghost use Rattle.std.specs.Prelude.{IfSome, Some, None, Ok, List, [], length, map, string_bytes};
ghost use Rattle.osc_edge.specs.Faults.{Rose};
ghost use Rattle.osc_core.specs.Ids.{is_ascending};
ghost use Rattle.osc_links.specs.Ticks.{clock_read};
ghost use Rattle.osc_script.specs.declared.script.TheConstants.{MAX_SCRIPT};
ghost use Rattle.osc_script.specs.declared.mode.Mode.TheVariants.{Lanes};
ghost use Rattle.osc_script.specs.Scripts.{script_of, AreOf};
ghost use Rattle.osc_words.specs.Commands as said;
ghost use Rattle.osc_words.specs.Ranges.{IsLawfulLive};
ghost use Rattle.osc_words.specs.declared.command.Capacities.{Capacities};
ghost use Rattle.osc_words.specs.declared.command.LiveCommand.TheVariants as live;
ghost use Rattle.osc_top.specs.Commands as commands;
ghost use Rattle.osc_top.specs.Commands.{mode_of};
ghost use Rattle.osc_top.specs.Edges.{TellsEdge};
ghost use Rattle.osc_top.specs.EndsCommand.{EndsCommand, LeavesAlone, MayEnd};
ghost use Rattle.osc_plain.specs.EndsPlain.{HandsBack};
ghost use Rattle.osc_script.specs.Adds.{count_adds};
ghost use Rattle.osc_ends.specs.Printing.{usage_text};
ghost use Rattle.osc_ends.specs.Ends.{left_behind, IsUnplayed, IsWritten};
ghost use Rattle.osc_top.specs.Enough.{enough_lanes};
ghost use Rattle.osc_top.specs.History.{RecordsHistory};
ghost use Rattle.osc_top.specs.Watched.{EndsListed};
ghost use Rattle.osc_ends.specs.Sinks.{change, Fails, IsSteady, GainsUnless};

use crate::caps::live_limits;
use crate::lanes::stage;
use crate::laws::enough_room_stops_no_lane;
use crate::links::stage_links;
use crate::outputs::end;
use crate::venue::Venue;
use osc_edge::{Clock, Link, Sink, Source};
use osc_ends::status::NO_MEMORY;
use osc_ends::{Ended, bank_short, count_adds, read_script, usage};
use osc_growing::Growth;
use osc_lanes::{Gate, LanePart};
use osc_links::{Bounds, HostPart, LinksPart};
use osc_method::Method;
use osc_script::{Line, Mode};
use osc_words::{LiveCommand, live_command_of};
use std::alloc::Global;
use std::sync::Wait;
use std::thread::Threads;

/// Does all that the program of many threads does. `lanes FILE` reads a script from `input` to its
/// end, plays each of its lanes by a thread of its own on one new server, and writes the recording
/// to `rec`, and then the printed history and the faults of the lanes' packets to `out`; with
/// `--watch` a watcher reads the list of methods meanwhile, and the list after the lanes follows
/// the faults. `serve FILE` reads a script of adds, plays it as caller 0, serves each of `links` by
/// a thread of its own and the ticker, who reads `clock`, by another, and writes the same of them;
/// what is recorded is written to `rec` while the links are served. `osc replay` prints the same
/// history from the recording.
///
/// `words` are those of the command line, without the program's name. The k-th add of the script,
/// whatever its lane, gets the k-th box of `bank`. `gate` is called round each line, or each
/// datagram. The links come back in their order, as they were left. What stands in the sinks, and
/// what becomes of the boxes, the links and the clock, when out of memory isn't said.
pub fn live_top<
    S: Source,
    O: Sink,
    R: Sink,
    L: Link + Send + Drop,
    C: Clock + Send,
    W: Threads + Wait + Sync,
    G: Gate + Sync,
>(
    rt: &W,
    alloc: Global,
    words: &[String],
    input: &mut S,
    out: &mut O,
    rec: &mut R,
    links: Vec<L>,
    clock: &mut C,
    bank: Vec<Box<dyn Method + Send>>,
    gate: &G,
) -> (Ended, Vec<L>)
    requires few { length links.items ≤ MAX_LINKS }
    ensures known { result.0.status ≤ BANK_SHORT }

    // Words that are no command are answered first, by a line on usage, and nothing is read then.
    ensures usage { result.0.status ≡ USAGE
        → said.live_command_of (map string_bytes words.now) ≡ None }
    ensures no_command { said.live_command_of (map string_bytes words.now) ≡ None
        → (result.0.status ≡ USAGE) ⊎ (result.0.status ≡ NO_MEMORY) }
    ensures unread { said.live_command_of (map string_bytes words.now) ≡ None
        → input.new ≡ input.old }
    ensures usage_text { result.0.status ≡ USAGE
        → GainsUnless (change O.Sink out.old out.new) usage_text }

    // Then a source that failed, of which nothing is written. Any other answer but out of memory
    // means that the source didn't fail, and that it was read to its end, or to the first byte that
    // is too many.
    ensures source { result.0.status ≡ SOURCE_FAILED
        → Rose (S.faults input.old) (S.faults input.new) }
    ensures unwritten { result.0.status ≡ SOURCE_FAILED → out.new ≡ out.old }
    ensures sound { result.0.status ≢ NO_MEMORY → result.0.status ≢ SOURCE_FAILED
        → S.faults input.new ≡ S.faults input.old }
    ensures read { IfSome (said.live_command_of (map string_bytes words.now))
        (λ command. IfSome (S.left input.old)
        (λ all. result.0.status ≢ NO_MEMORY → result.0.status ≢ SOURCE_FAILED →
        S.left input.new ≡ Some (left_behind MAX_SCRIPT all))) }

    // Then a script that is refused, or that adds more methods than there are boxes, or the result
    // of its lanes or of the links, with sinks that took all of it or failed. The script is what the
    // source had left, where it reports that.
    ensures ends { IfSome (said.live_command_of (map string_bytes words.now))
        (λ command. result.0.status ≢ SOURCE_FAILED → (script : List ℕ)
        × IfSome (S.left input.old) (λ all. script ≡ all)
        × EndsCommand (λ box. keep box) (λ box. heard box) L.left L.faults command
        result.0.status script bank.items result.0.heard.items result.0.left.items links.items
        result.1.items (clock_read C.left C.faults clock.old clock.new)
        (change R.Sink rec.old rec.new) (change O.Sink out.old out.new)) }

    // Where all was written, there is one history, which the boxes have heard, and `osc replay`
    // prints from its recording what begins the text.
    ensures one_history { IfSome (said.live_command_of (map string_bytes words.now))
        (λ command. IsWritten result.0.status →
        RecordsHistory (λ box. keep box) (λ box. heard box)
        (commands.live_limits (commands.capacities_of command)) result.0.heard.items
        (change R.Sink rec.old rec.new) (change O.Sink out.old out.new)) }
    ensures edge { result.0.status ≡ EDGE_FAILED → TellsEdge L.faults links.items
        result.1.items (clock_read C.left C.faults clock.old clock.new)
        (change O.Sink out.old out.new) }

    // Where the sink of the recording failed, nothing was done with the other.
    ensures sink { result.0.status ≡ SINK_FAILED
        → Fails (change O.Sink out.old out.new)
        ⊎ (Fails (change R.Sink rec.old rec.new) × (out.new ≡ out.old)) }
    ensures unrecorded { IsUnplayed result.0.status → rec.new ≡ rec.old }
    ensures unserved { IsUnplayed result.0.status
        → (result.1.items ≡ links.items) × (clock.new ≡ clock.old) }
    ensures lanes_serve_none { (caps : Capacities) (watch : Bool)
        → said.live_command_of (map string_bytes words.now) ≡ Some (live.Lanes caps watch)
        → (result.1.items ≡ links.items) × (clock.new ≡ clock.old) }

    // Where lanes are watched, the methods that stand after them are listed last, but for the line
    // on a full recording.
    ensures listed { (caps : Capacities)
        → said.live_command_of (map string_bytes words.now) ≡ Some (live.Lanes caps true)
        → IsWritten result.0.status → EndsListed result.0.status (commands.live_limits caps)
        (change R.Sink rec.old rec.new) (change O.Sink out.old out.new) }

    // Done means that nothing failed and that the input was read to its end.
    ensures steady { result.0.status ≡ DONE
        → IsSteady (change O.Sink out.old out.new)
        × IsSteady (change R.Sink rec.old rec.new) }
    ensures still { result.0.status ≡ DONE
        → (map L.faults result.1.items ≡ map L.faults links.items)
        × (C.faults clock.new ≡ C.faults clock.old) }
    ensures ended { result.0.status ≡ DONE
        → IfSome (S.left input.old) (λ all. S.left input.new ≡ Some []) }

    // The boxes that were added stand by their ids. Where nothing was played, all of them come
    // back.
    ensures ascending { IsTrue (is_ascending (map (λ one. one.0) result.0.heard.items)) }
    ensures none_heard { IsUnplayed result.0.status → result.0.heard.items ≡ [] }
    ensures all_left { IsUnplayed result.0.status → result.0.left.items ≡ bank.items }

    // A lawful script with enough boxes is played, over edges that don't fail, unless memory runs
    // out.
    ensures complete { IfSome (said.live_command_of (map string_bytes words.now))
        (λ command. IfSome (S.left input.old)
        (λ script. IsOkAnd (script_of (mode_of command) script)
        (λ lines. count_adds lines ≤ length bank.items)
        → ¬ Rose (S.faults input.old) (S.faults input.new)
        → ¬ Fails (change O.Sink out.old out.new)
        → ¬ Fails (change R.Sink rec.old rec.new)
        → MayEnd command result.0.status)) }

    // No lane stops where the recording may have as many bytes as `enough_lanes` says.
    ensures enough { (caps : Capacities) (watch : Bool)
        → said.live_command_of (map string_bytes words.now) ≡ Some (live.Lanes caps watch)
        → IfSome (S.left input.old) (λ script. IsOkAnd (script_of Lanes script)
        (λ lines. (count_adds lines ≤ length bank.items) × (enough_lanes lines ≤ caps.recording))
        → ¬ Rose (S.faults input.old) (S.faults input.new)
        → ¬ Fails (change O.Sink out.old out.new)
        → ¬ Fails (change R.Sink rec.old rec.new) →
        (result.0.status ≡ DONE) ⊎ (result.0.status ≡ NO_MEMORY)) }
{
    enough_room_stops_no_lane::<Box<dyn Method + Send>>();
    let command = match live_command_of(alloc, words) {
        Ok(Some(command)) => command,
        Ok(None) => return (unplayed(alloc, usage(out), bank), links),
        Err(_) => return (unplayed(alloc, NO_MEMORY, bank), links),
    };
    match read_script(alloc, mode_of(command), input, out) {
        Ok(lines) => {
            let venue = Venue { rt, alloc, gate };
            let plan = Plan { command, lines };
            let performers = Performers { bank, links };
            play_lines(&venue, plan, performers, clock, out, rec)
        }
        Err(status) => (unplayed(alloc, status, bank), links),
    }
}

/// The end of a program that played nothing.
pub(crate) fn unplayed(alloc: Global, status: u8, bank: Vec<Box<dyn Method + Send>>) -> Ended
    ensures status { result.status ≡ status }
    ensures heard { result.heard.items ≡ [] }
    ensures left { result.left.items ≡ bank.items }
{
    Ended {
        status,
        heard: Vec::new(alloc),
        left: bank,
    }
}

/// The mode of the script that the command reads.
fn mode_of(command: LiveCommand) -> Mode
    ensures { result ≡ commands.mode_of command }
{
    match command {
        LiveCommand::Lanes { .. } => Mode::Lanes,
        LiveCommand::Serve { .. } => Mode::Serve,
    }
}

/// What the words and the script say to play.
struct Plan {
    command: LiveCommand,
    lines: Vec<Line>,
}

/// The boxes that the lines add, and the links that are served.
struct Performers<M, L> {
    bank: Vec<M>,
    links: Vec<L>,
}

/// Plays the lines, if there is a box for each add.
fn play_lines<
    O: Sink,
    R: Sink,
    L: Link + Send + Drop,
    C: Clock + Send,
    W: Threads + Wait + Sync,
    G: Gate + Sync,
>(
    venue: &Venue<'_, W, G>,
    plan: Plan,
    performers: Performers<Box<dyn Method + Send>, L>,
    clock: &mut C,
    out: &mut O,
    rec: &mut R,
) -> (Ended, Vec<L>)
    requires lawful { IsLawfulLive plan.command }
    requires few { length performers.links.items ≤ MAX_LINKS }
    requires lines { AreOf (commands.mode_of plan.command) plan.lines.items }
    ensures ends { (script : List ℕ)
        → script_of (commands.mode_of plan.command) script ≡ Ok plan.lines.items
        → EndsCommand (λ box. keep box) (λ box. heard box) L.left L.faults plan.command
        result.0.status script performers.bank.items result.0.heard.items result.0.left.items
        performers.links.items result.1.items (clock_read C.left C.faults clock.old clock.new)
        (change R.Sink rec.old rec.new) (change O.Sink out.old out.new) }
    ensures back { HandsBack result.0.status performers.bank.items result.0.heard.items
        result.0.left.items }
    ensures alone { LeavesAlone plan.command result.0.status performers.links.items
        result.1.items clock.old clock.new rec.old rec.new }
    ensures sink { result.0.status ≡ SINK_FAILED
        → Fails (change O.Sink out.old out.new) ⊎ (out.new ≡ out.old) }
{
    let alloc = venue.alloc;
    let Plan { command, lines } = plan;
    let Performers { bank, links } = performers;
    let need = count_adds(&lines);
    if bank.len() < need {
        let status = bank_short(alloc, need, bank.len(), out);
        return (unplayed(alloc, status, bank), links);
    }
    match command {
        LiveCommand::Lanes { caps, watch } => {
            let growth = Growth::Written(0);
            match stage(venue, live_limits(caps), watch, lines, bank) {
                Ok(played) => (end(alloc, played, growth, None, out, rec), links),
                Err(_) => (unplayed(alloc, NO_MEMORY, Vec::new(alloc)), links),
            }
        }
        LiveCommand::Serve {
            count,
            idle,
            caps,
            ..
        } => {
            let bounds = Bounds { count, idle };
            let caps = live_limits(caps);
            let host = HostPart {
                caps,
                opening: LanePart { lines, boxes: bank },
                links: LinksPart {
                    from: links,
                    bounds,
                },
            };
            match stage_links(venue, host, clock, rec) {
                Ok((played, links, growth)) => (end(alloc, played, growth, None, out, rec), links),
                Err(_) => (unplayed(alloc, NO_MEMORY, Vec::new(alloc)), Vec::new(alloc)),
            }
        }
    }
}
