//! Who writes a recording while others play.
ghost use Rattle.osc_ends.specs.Sinks.{change};
ghost use Rattle.osc_growing.specs.Growing.{HasGrown, recorded};

use crate::growth::Growth;
use crate::pieces::write_while;
use osc_edge::Sink;
use osc_life::{Aside, Desk, Gate, Progress};
use osc_live::Caller;
use osc_method::Method;
use std::sync::Wait;

/// Writes what the recording gains to a sink that it is lent, as [`write_while`] does.
#[derive(Clone, Copy)]
pub struct Writer;

impl<M: Method, R: Sink> Aside<M, R> for Writer {
    type End = Growth;

    ghost looks = { λ before after end caps v. HasGrown end
        (change R.Sink before after) (recorded caps v) };

    fn look<W: Wait, G: Gate>(
        self,
        on: &mut R,
        desk: &Desk<'_, M, W, G>,
        first: Caller,
        progress: &Progress,
    ) -> (Caller, Growth) {
        write_while(desk.rt, desk.alloc, desk.live, first, on, progress)
    }
}
