// Runs a script.
ghost use Rattle.osc_script.specs.declared.script.TheConstants.{MAX_SCRIPT};
ghost use Rattle.std.specs.Prelude.{◌≡◌, ◌≤◌, [], List, length, IsOkAnd};
ghost use Rattle.std.specs.Option.{option_map};
ghost use Rattle.osc_model.specs.Limits.{Limits};
ghost use Rattle.osc_record.specs.Shown.{room_of};
ghost use Rattle.osc_script.specs.declared.line.Line.{Line};
ghost use Rattle.osc_script.specs.Adds.{count_adds};
ghost use Rattle.osc_script.specs.Scripts.{plain_script};
ghost use Rattle.osc_ends.specs.CommandEnds.{IsCommandsEnd};
ghost use Rattle.osc_ends.specs.Printing.{refusal_text};
ghost use Rattle.osc_ends.specs.Sinks.{change};
ghost use Rattle.osc_player.specs.Runs.{IsRunOf};
ghost use Rattle.osc_plain.specs.EndsPlain.{HandsBack};
ghost use Rattle.osc_plain.specs.Runs.{EndsOver, EndsPlayed, EndsRead, IsUnstopped};

use crate::outputs::write_recorded;
use crate::report::Report;
use osc_edge::{Sink, Source};
use osc_ends::status::NO_MEMORY;
use osc_ends::{Ended, Recorded, bank_short, count_adds, read_script, stopped};
use osc_method::Method;
use osc_player::{Played, play};
use osc_record::Caps;
use osc_script::{Line, Mode};
use std::alloc::Global;

/// Reads the script and plays it.
pub(crate) fn run<S: Source, O: Sink>(
    alloc: Global,
    report: Report,
    caps: Caps,
    input: &mut S,
    out: &mut O,
    bank: Vec<Box<dyn Method + Send>>,
) -> Ended
    ensures end { IsCommandsEnd S.Source O.Sink MAX_SCRIPT result.status input.old input.new
        out.old out.new
        (λ script sink. EndsRead (plain_script script) refusal_text (EndsOver (λ box. keep box)
        (λ box. heard box) report caps result.status bank.items result.heard.items
        result.left.items sink) result.status sink)
        (λ script. IsOkAnd (plain_script script)
        (λ lines. (count_adds lines ≤ length bank.items) × IsUnstopped caps lines)) }
    ensures back { HandsBack result.status bank.items result.heard.items result.left.items }
{
    match read_script(alloc, Mode::Plain, input, out) {
        Ok(lines) => run_lines(alloc, report, caps, lines, out, bank),
        Err(status) => unplayed(alloc, status, bank),
    }
}

/// Plays the lines, if there is a box for each add, and writes the result of them.
pub(crate) fn run_lines<O: Sink>(
    alloc: Global,
    report: Report,
    caps: Caps,
    lines: Vec<Line>,
    out: &mut O,
    bank: Vec<Box<dyn Method + Send>>,
) -> Ended
    ensures ends { EndsOver (λ box. keep box) (λ box. heard box) report caps result.status
        bank.items result.heard.items result.left.items
        (change O.Sink out.old out.new) lines.items }
    ensures back { HandsBack result.status bank.items result.heard.items result.left.items }
{
    let need = count_adds(&lines);
    if bank.len() < need {
        let status = bank_short(alloc, need, bank.len(), out);
        return unplayed(alloc, status, bank);
    }
    match play(alloc, caps, lines, bank) {
        Ok(played) => end(alloc, report, played, out),
        Err(_) => unplayed(alloc, NO_MEMORY, Vec::new(alloc)),
    }
}

/// Writes the result of the lines.
fn end<O: Sink>(
    alloc: Global,
    report: Report,
    played: Played<Box<dyn Method + Send>>,
    out: &mut O,
) -> Ended
    requires { (caps : Limits) × (lines : List Line)
        × IsRunOf played.bytes.items played.faults (option_map room_of played.stop) caps lines }
    ensures ends { (caps : Limits) (lines : List Line)
        → IsRunOf played.bytes.items played.faults (option_map room_of played.stop) caps lines
        → EndsPlayed report caps result.status lines (change O.Sink out.old out.new) }
    ensures heard { result.heard.items ≡ played.heard.items }
    ensures left { result.left.items ≡ played.left.items }
{
    let Played {
        bytes,
        faults,
        stop,
        heard,
        left,
    } = played;
    let recorded = Recorded {
        bytes,
        faults,
        outcome: stopped(stop),
    };
    Ended {
        status: write_recorded(alloc, report, &recorded, out),
        heard,
        left,
    }
}

/// The end of a program that played nothing.
pub(crate) fn unplayed(alloc: Global, status: u8, bank: Vec<Box<dyn Method + Send>>) -> Ended
    ensures status { result.status ≡ status }
    ensures heard { result.heard.items ≡ [] }
    ensures left { result.left.items ≡ bank.items }
{
    Ended {
        status,
        heard: Vec::new(alloc),
        left: bank,
    }
}
