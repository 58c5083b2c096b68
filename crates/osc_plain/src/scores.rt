// Writes the script of a score, and plays it.
ghost use Rattle.osc_score.specs.declared.limits.TheConstants.{MAX_SCORE};
ghost use Rattle.osc_ends.specs.declared.status.TheConstants.{DONE};
ghost use Rattle.std.specs.Prelude.{◌≡◌, ◌≤◌, List, length, IfOk, IsOk, IsOkAnd};
ghost use Rattle.osc_score.specs.Plans.{plan_script};
ghost use Rattle.osc_score.specs.Reading.{score_of};
ghost use Rattle.osc_score.specs.Scores.{addresses_of};
ghost use Rattle.osc_script.specs.declared.line.Line.{Line};
ghost use Rattle.osc_ends.specs.CommandEnds.{IsCommandsEnd};
ghost use Rattle.osc_ends.specs.Ends.{EndsText};
ghost use Rattle.osc_ends.specs.Sinks.{change};
ghost use Rattle.osc_plain.specs.Commands as commands;
ghost use Rattle.osc_plain.specs.EndsPlain.{HandsBack};
ghost use Rattle.osc_plain.specs.declared.report.Report.TheVariants.{Text};
ghost use Rattle.osc_plain.specs.Runs.{EndsOver};
ghost use Rattle.osc_plain.specs.Scores.{EndsPlayedScore, EndsScore, IsScriptWith};

use crate::drawn::read_again;
use crate::limits::default_limits;
use crate::report::Report;
use crate::run::{run_lines, unplayed};
use osc_edge::{Sink, Source};
use osc_ends::status::{DONE, NO_MEMORY};
use osc_ends::{Ended, read_score, write_text};
use osc_method::Method;
use osc_score::Score;
use osc_script::Line;
use std::alloc::{AllocError, Global};

/// Writes the script of the score that the input is.
pub(crate) fn write_score<S: Source, O: Sink>(alloc: Global, input: &mut S, out: &mut O) -> u8
    ensures end { IsCommandsEnd S.Source O.Sink MAX_SCORE result input.old input.new
        out.old out.new (EndsScore result) (λ score. IsOk (score_of score)) }
{
    osc_score::laws::what_is_kept_plays_the_score();
    osc_score::laws::what_is_read_is_a_score();
    osc_score_laws::laws::a_score_script_is_read();
    match read_score(alloc, input, out) {
        Ok(score) => write_script(&score, out),
        Err(status) => status,
    }
}

/// Writes the script of the score.
fn write_script<O: Sink>(score: &Score, out: &mut O) -> u8
    ensures { EndsText DONE result (plan_script score.now) (change O.Sink out.old out.new) }
{
    match score.script() {
        Ok(script) => write_text(DONE, script.as_slice(), out),
        Err(_) => NO_MEMORY,
    }
}

/// Plays the score that the input is.
pub(crate) fn play_score<S: Source, O: Sink>(
    alloc: Global,
    input: &mut S,
    out: &mut O,
    bank: Vec<Box<dyn Method + Send>>,
) -> Ended
    ensures end { IsCommandsEnd S.Source O.Sink MAX_SCORE result.status input.old input.new
        out.old out.new
        (λ score sink. EndsPlayedScore (EndsOver (λ box. keep box) (λ box. heard box) Text
        commands.default_limits result.status bank.items result.heard.items result.left.items
        sink) result.status score sink)
        (λ score. IsOkAnd (score_of score)
        (λ notes. length (addresses_of notes) ≤ length bank.items)) }
    ensures back { HandsBack result.status bank.items result.heard.items result.left.items }
{
    osc_score::laws::what_is_kept_plays_the_score();
    osc_score::laws::what_is_read_is_a_score();
    osc_score_laws::laws::a_score_script_is_read();
    osc_score_laws::laws::a_read_score_is_played();
    osc_score_laws::laws::a_score_adds_its_addresses();
    match read_score(alloc, input, out) {
        Ok(score) => play_script(alloc, &score, out, bank),
        Err(status) => unplayed(alloc, status, bank),
    }
}

/// Plays the script of the score.
fn play_script<O: Sink>(
    alloc: Global,
    score: &Score,
    out: &mut O,
    bank: Vec<Box<dyn Method + Send>>,
) -> Ended
    requires { (lines : List Line) × IsScriptWith score.now lines }
    ensures ends { (lines : List Line) → IsScriptWith score.now lines
        → EndsOver (λ box. keep box) (λ box. heard box) Text commands.default_limits
        result.status bank.items result.heard.items result.left.items
        (change O.Sink out.old out.new) lines }
    ensures back { HandsBack result.status bank.items result.heard.items result.left.items }
{
    match script_lines(alloc, score) {
        Ok(lines) => run_lines(alloc, Report::Text, default_limits(), lines, out, bank),
        Err(_) => unplayed(alloc, NO_MEMORY, bank),
    }
}

/// The lines of the script of the score. An `Err` means out of memory.
fn script_lines(alloc: Global, score: &Score) -> Result<Vec<Line>, AllocError>
    requires { (lines : List Line) × IsScriptWith score.now lines }
    ensures { (lines : List Line) → IsScriptWith score.now lines
        → IfOk result (λ read. read.items ≡ lines) }
{
    let script = score.script()?;
    read_again(alloc, script.as_slice())
}
