//! The top call of `osc`.
ghost use Rattle.osc_script.specs.declared.drawn_script.TheConstants.{MAX_GENERATED_LINES};
ghost use Rattle.osc_ends.specs.declared.status.TheConstants.{BANK_SHORT, DONE, NO_MEMORY};
ghost use Rattle.osc_ends.specs.declared.status.TheConstants.{RECORDING_FULL, USAGE};
ghost use Rattle.std.specs.Prelude.{◌≡◌, ◌⊎◌, ◌≤◌, IsTrue, List, IfSome, IsOkAnd, Some, [], None};
ghost use Rattle.std.specs.Prelude.{length, map, string_bytes};
ghost use Rattle.osc_edge.specs.Faults.{Rose};
ghost use Rattle.osc_core.specs.Ids.{is_ascending};
ghost use Rattle.osc_words.specs.declared.command.PlainCommand.TheVariants.{Read};
ghost use Rattle.osc_words.specs.declared.command.Reading.TheVariants.{Run};
ghost use Rattle.osc_words.specs.declared.command.Output.{Output};
ghost use Rattle.osc_words.specs.declared.command.Capacities.{Capacities};
ghost use Rattle.osc_words.specs.Commands as said;
ghost use Rattle.osc_words.specs.Ranges.{IsLawfulReading};
ghost use Rattle.osc_ends.specs.Ends.{IsUnplayed};
ghost use Rattle.osc_ends.specs.Printing.{usage_text};
ghost use Rattle.osc_ends.specs.Sinks.{change, Fails, GainsUnless};
ghost use Rattle.osc_player.specs.Enough.{enough};
ghost use Rattle.osc_script.specs.Adds.{count_adds};
ghost use Rattle.osc_script.specs.Scripts.{plain_script};
ghost use Rattle.osc_plain.specs.declared.report.Report.TheVariants.{Summary};
ghost use Rattle.osc_plain.specs.Commands as commands;
ghost use Rattle.osc_plain.specs.Runs.{EndsOver};
ghost use Rattle.osc_plain.specs.EndsPlain.{EndsPlain, HandsBack};

use crate::drawn::drawn_lines;
use crate::limits::{default_limits, plain_limits};
use crate::recordings::{dump, replay, upgrade};
use crate::report::{Report, report_of};
use crate::run::{run, run_lines, unplayed};
use crate::scores::{play_score, write_score};
use osc_edge::{Sink, Source};
use osc_ends::status::NO_MEMORY;
use osc_ends::{Ended, usage};
use osc_method::Method;
use osc_words::{PlainCommand, Reading, plain_command_of};
use std::alloc::Global;

/// Does all that the program does. `run` reads a script from `input` to its end, plays it on a new
/// server, and writes the printed history and the faults of its packets to `out`, or with `--bytes`
/// the recording. `replay` reads a recording, and writes the same printed history, each answer of
/// which it computes again. `dump` reads a recording, and writes its entries as they stand.
/// `upgrade` reads a recording of the first version, and writes it as one of today. `score` reads a
/// score, and writes its script, or with `--play` plays that as `run` does. `gen` reads nothing: it
/// draws a script from a seed, plays it, and writes how many entries of each kind there are.
///
/// `words` are those of the command line, without the program's name. The k-th add of a script gets
/// the k-th box of `bank`. Scripts, recordings, printed lines and statuses are those of
/// docs/FORMATS.md. What stands in `out`, and what becomes of the boxes, when out of memory isn't
/// said.
pub fn plain_top<S: Source, O: Sink>(
    alloc: Global,
    words: &[String],
    input: &mut S,
    out: &mut O,
    bank: Vec<Box<dyn Method + Send>>,
) -> Ended
    ensures known { (result.status ≤ RECORDING_FULL) ⊎ (result.status ≡ BANK_SHORT) }

    // Words that are no command are answered first, by a line on usage, and nothing is read then.
    ensures usage { result.status ≡ USAGE
        → said.plain_command_of (map string_bytes words.now) ≡ None }
    ensures no_command { said.plain_command_of (map string_bytes words.now) ≡ None
        → (result.status ≡ USAGE) ⊎ (result.status ≡ NO_MEMORY) }
    ensures unread { said.reading_of (map string_bytes words.now) ≡ None
        → input.new ≡ input.old }
    ensures usage_text { result.status ≡ USAGE
        → GainsUnless (change O.Sink out.old out.new) usage_text }

    // Then the command is done, as far as its edges go: a source that failed, of which nothing is
    // written; or a script or a recording that is refused, or a script that adds more methods than
    // there are boxes, or what the command writes, with a sink that took all of it or failed. Each
    // box that was added has heard what the history says, which keeps the four laws, and each other
    // one comes back as it was. What can be done is done over edges that don't fail, unless memory
    // runs out.
    ensures command { IfSome (said.plain_command_of (map string_bytes words.now))
        (λ command. EndsPlain S.Source O.Sink (λ box. keep box) (λ box. heard box)
        command result.status input.old input.new out.old out.new bank.items result.heard.items
        result.left.items) }

    // Where nothing was played, all boxes come back.
    ensures ascending { IsTrue (is_ascending (map (λ one. one.0) result.heard.items)) }
    ensures none_heard { IsUnplayed result.status → result.heard.items ≡ [] }
    ensures all_left { IsUnplayed result.status → result.left.items ≡ bank.items }

    // No run is stopped where the recording may have as many bytes as `enough` says.
    ensures enough { (output : Output) (caps : Capacities)
        → said.plain_command_of (map string_bytes words.now) ≡ Some (Read (Run output caps))
        → IfSome (S.left input.old) (λ script. IsOkAnd (plain_script script)
        (λ lines. (count_adds lines ≤ length bank.items) × (enough lines ≤ caps.recording))
        → ¬ Rose (S.faults input.old) (S.faults input.new)
        → ¬ Fails (change O.Sink out.old out.new) →
        (result.status ≡ DONE) ⊎ (result.status ≡ NO_MEMORY)) }
{
    osc_player::laws::enough_room_never_stops();
    match plain_command_of(alloc, words) {
        Ok(Some(PlainCommand::Read(reading))) => follow(alloc, reading, input, out, bank),
        Ok(Some(PlainCommand::Gen { seed, lines })) => generate(alloc, seed, lines, out, bank),
        Ok(None) => unplayed(alloc, usage(out), bank),
        Err(_) => unplayed(alloc, NO_MEMORY, bank),
    }
}

/// Does what a command says that reads an input.
fn follow<S: Source, O: Sink>(
    alloc: Global,
    reading: Reading,
    input: &mut S,
    out: &mut O,
    bank: Vec<Box<dyn Method + Send>>,
) -> Ended
    requires range { IsLawfulReading reading }
    ensures end { EndsPlain S.Source O.Sink (λ box. keep box) (λ box. heard box) (Read reading)
        result.status input.old input.new out.old out.new bank.items result.heard.items
        result.left.items }
    ensures back { HandsBack result.status bank.items result.heard.items result.left.items }
{
    match reading {
        Reading::Run { output, caps } => {
            run(
                alloc,
                report_of(output),
                plain_limits(caps),
                input,
                out,
                bank,
            )
        }
        Reading::Replay => unplayed(alloc, replay(alloc, input, out), bank),
        Reading::Dump => unplayed(alloc, dump(alloc, input, out), bank),
        Reading::Upgrade => unplayed(alloc, upgrade(alloc, input, out), bank),
        Reading::Score => unplayed(alloc, write_score(alloc, input, out), bank),
        Reading::PlayScore => play_score(alloc, input, out, bank),
    }
}

/// Draws a script, plays it, and writes its summary.
fn generate<O: Sink>(
    alloc: Global,
    seed: u64,
    lines: u32,
    out: &mut O,
    bank: Vec<Box<dyn Method + Send>>,
) -> Ended
    requires { lines ≤ MAX_GENERATED_LINES }
    ensures ends { EndsOver (λ box. keep box) (λ box. heard box) Summary commands.default_limits
        result.status bank.items result.heard.items result.left.items
        (change O.Sink out.old out.new) (commands.drawn_lines seed lines) }
    ensures back { HandsBack result.status bank.items result.heard.items result.left.items }
{
    match drawn_lines(alloc, seed, lines) {
        Ok(lines) => run_lines(alloc, Report::Summary, default_limits(), lines, out, bank),
        Err(_) => unplayed(alloc, NO_MEMORY, bank),
    }
}
