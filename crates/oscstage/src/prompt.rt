// Prints the cues of a sheet as they are called.
use osc_console::{Lines, Rounds, Shutdown};
use osc_edge::Sink;
use std::sync::Wait;

/// Writes the lines of the units that are called, after each of the ticker's rounds, until it is
/// over; then those that are left.
pub(crate) fn prompt_while<W: Wait, O: Sink>(
    rt: &W,
    rounds: &Rounds,
    over: &Shutdown,
    lines: &mut Lines<'_>,
    out: &mut O,
) {
    for _ in rt.forever() {
        let is_over = over.is_asked();
        let round = rounds.handed();
        lines.show(None, round, out);
        if is_over {
            return;
        }
        rounds.wait(rt, round);
    }
    unreachable!()
}
