//! Writes a recording piece by piece while it grows.
ghost use Rattle.std.specs.Prelude.{◌≡◌, ◌+◌, ◌<◌, ◌≤◌, ◌^◌, ℕ, List, length, take, drop};
ghost use Rattle.osc_ends.specs.Sinks.{change};
ghost use Rattle.osc_turn.specs.Passes.{view};
ghost use Rattle.osc_live.specs.Seen.{history_of};
ghost use Rattle.osc_live.specs.Tokens.{IsOurs};
ghost use Rattle.osc_live.specs.Looks.{HasLooked};
ghost use Rattle.osc_growing.specs.Growing.{HasGrown, recorded};
ghost use Rattle.osc_growing.specs.Entries.{EndsBetween, HasEndIn, IsWrittenTo, texts_of};
ghost use Rattle.osc_growing.specs.declared.growth.Growth.TheVariants.{Written};

use crate::entries::{told_size, whole_entries};
use crate::growth::Growth;
use osc_edge::Sink;
use osc_ends::status::{DONE, SINK_FAILED};
use osc_ends::write_text;
use osc_life::Progress;
use osc_live::{Caller, Live};
use osc_method::Method;
use std::alloc::Global;
use std::sync::Wait;

/// How many bytes of the recording are written at once.
const PIECE: usize = 65_536;

/// How many times it is looked at most before the work begins: for ten seconds, as nothing is done
/// then that ends a pause.
const LOOKS: u32 = 10;

/// Bytes of the recording, by the place of the first and that after the last.
#[derive(Clone, Copy)]
struct Span {
    from: u32,
    end: u32,
}

/// Writes what the recording gains until the work is over. It gives up where the work doesn't
/// begin, as it can't before this returns where no thread can be made. Each piece that is written
/// ends between two entries; an entry of more than 65,536 bytes is written in parts.
pub fn write_while<M: Method, W: Wait, R: Sink>(
    rt: &W,
    alloc: Global,
    live: &Live<M>,
    first: Caller,
    rec: &mut R,
    progress: &Progress,
) -> (Caller, Growth)
    requires ours { IsOurs live.now first }
    ensures ours { IsOurs live.now result.0 }
    ensures number { result.0.number ≡ first.number }
    ensures looked { HasLooked (view first.pass) (view result.0.pass) }
    ensures grown { HasGrown result.1 (change R.Sink rec.old rec.new)
        (recorded live.now.caps (view result.0.pass)) }
    ensures between { EndsBetween result.1 live.now.caps (history_of (view result.0.pass)) }
{
    let Ok(mut buffer) = vec![in alloc; 0; PIECE] else {
        return (first, Growth::Written(0));
    };
    let space = buffer.as_mut_slice();
    write_pieces(rt, live, first, rec, space, progress)
}

/// Writes piece by piece what the recording gains until the work is over, or doesn't begin.
fn write_pieces<M: Method, W: Wait, R: Sink>(
    rt: &W,
    live: &Live<M>,
    mut first: Caller,
    rec: &mut R,
    space: &mut [u8],
    progress: &Progress,
) -> (Caller, Growth)
    requires ours { IsOurs live.now first }
    requires space { 4 ≤ length space.now }
    ensures ours { IsOurs live.now result.0 }
    ensures number { result.0.number ≡ first.number }
    ensures looked { HasLooked (view first.pass) (view result.0.pass) }
    ensures grown { HasGrown result.1 (change R.Sink rec.old rec.new)
        (recorded live.now.caps (view result.0.pass)) }
    ensures between { HasEndIn result.1
        (texts_of live.now.caps (history_of (view result.0.pass))) }
{
    let mut growth = Growth::Written(0);
    let mut looks = 0u32;
    for _ in rt.forever() {
        let (next, then, more) = write_new(rt, live, first, rec, space, growth);
        first = next;
        growth = then;
        if is_done(progress, looks) {
            return (first, growth);
        }
        looks = next_look(looks);
        pause_unless(rt, progress, more);
    }
    unreachable!()
}

/// Whether the work is over, or hasn't begun after the most looks.
fn is_done(progress: &Progress, looks: u32) -> bool {
    progress.is_over() || (looks == LOOKS && !progress.has_begun())
}

/// Pauses, unless there may be more to write at once.
fn pause_unless<W: Wait>(rt: &W, progress: &Progress, more: bool) {
    if !more {
        progress.pause(rt);
    }
}

/// How many times it was looked, up to the most.
fn next_look(looks: u32) -> u32 {
    looks.saturating_add(1).min(LOOKS)
}

/// Writes what the recording has gained, up to a piece of it and between two entries, unless the
/// sink has failed. The third value is whether there may be more to write at once.
fn write_new<M: Method, W: Wait, R: Sink>(
    rt: &W,
    live: &Live<M>,
    caller: Caller,
    rec: &mut R,
    space: &mut [u8],
    growth: Growth,
) -> (Caller, Growth, bool)
    requires ours { IsOurs live.now caller }
    requires space { 4 ≤ length space.now }
    requires between { HasEndIn growth (texts_of live.now.caps (history_of (view caller.pass))) }
    ensures ours { IsOurs live.now result.0 }
    ensures number { result.0.number ≡ caller.number }
    ensures looked { HasLooked (view caller.pass) (view result.0.pass) }
    ensures space { length space.new ≡ length space.old }
    ensures between { HasEndIn result.1
        (texts_of live.now.caps (history_of (view result.0.pass))) }
    ensures grown { (start : R) → HasGrown growth (change R.Sink start rec.old)
        (recorded live.now.caps (view caller.pass))
        → HasGrown result.1 (change R.Sink start rec.new)
        (recorded live.now.caps (view result.0.pass)) }
{
    osc_model::laws::a_legal_history_is_recordable();
    let Growth::Written(from) = growth else {
        return (caller, growth, false);
    };
    let (caller, count) = live.read(rt, caller, from, space);
    let whole = whole_entries(&space[..count]);
    let full = count == space.len();
    if whole == 0 && full {
        let end = from + told_size(&space[..count]);
        let (caller, then) = write_large(rt, live, caller, rec, space, Span { from, end });
        return (caller, then, full);
    }
    let then = write_piece(&space[..whole], from, rec);
    (caller, then, full)
}

/// Writes an entry that is larger than the space, in parts.
fn write_large<M: Method, W: Wait, R: Sink>(
    rt: &W,
    live: &Live<M>,
    mut caller: Caller,
    rec: &mut R,
    space: &mut [u8],
    span: Span,
) -> (Caller, Growth)
    requires ours { IsOurs live.now caller }
    requires space { 4 ≤ length space.now }
    requires forward { span.from ≤ span.end }
    requires within { span.end ≤ length (recorded live.now.caps (view caller.pass)) }
    ensures ours { IsOurs live.now result.0 }
    ensures number { result.0.number ≡ caller.number }
    ensures looked { HasLooked (view caller.pass) (view result.0.pass) }
    ensures space { length space.new ≡ length space.old }
    ensures place { IsWrittenTo span.end result.1 }
    ensures grown { (start : R)
        → HasGrown (Written span.from) (change R.Sink start rec.old)
        (recorded live.now.caps (view caller.pass))
        → HasGrown result.1 (change R.Sink start rec.new)
        (recorded live.now.caps (view result.0.pass)) }
{
    let mut at = span.from;
    while at < span.end {
        let (next, count) = live.read(rt, caller, at, space);
        caller = next;
        let size = count.min((span.end - at) as usize);
        match write_piece(&space[..size], at, rec) {
            Growth::Written(then) => at = then,
            Growth::Failed => return (caller, Growth::Failed),
            Growth::NoMemory => return (caller, Growth::NoMemory),
        }
    }
    (caller, Growth::Written(at))
}

/// Writes a piece of the recording, after so many bytes of it.
fn write_piece<R: Sink>(piece: &[u8], from: u32, rec: &mut R) -> Growth
    requires { from + length piece.now < 2 ^ 32 }
    ensures place { IsWrittenTo (from + length piece.now) result }
    ensures grown { (start : R) (text : List ℕ) → from + length piece.now ≤ length text
        → piece.now ≡ take (length piece.now) (drop from text)
        → HasGrown (Written from) (change R.Sink start rec.old) text
        → HasGrown result (change R.Sink start rec.new) text }
{
    match write_text(DONE, piece, rec) {
        DONE => Growth::Written(from + piece.len() as u32),
        SINK_FAILED => Growth::Failed,
        _ => Growth::NoMemory,
    }
}
