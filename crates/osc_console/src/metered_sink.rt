//! A sink whose bytes are counted.
ghost use Rattle.std.specs.Prelude.{◌≡◌};

use crate::Changeover;
use osc_edge::{Put, Sink};

/// A sink that notes how many bytes the sink below has taken.
#[derive(Drop)]
pub struct MeteredSink<'a, S> {
    sink: S,
    changeover: &'a Changeover,
}

impl<'a, S: Sink> MeteredSink<'a, S> {
    /// A sink that writes to this one.
    pub fn new(sink: S, changeover: &'a Changeover) -> Self
        ensures held { ⟦<MeteredSink<'a, S> as Sink>⟧.held result ≡ S.held sink }
        ensures faults { ⟦<MeteredSink<'a, S> as Sink>⟧.faults result ≡ S.faults sink }
    {
        MeteredSink { sink, changeover }
    }
}

impl<S: Sink> Sink for MeteredSink<'_, S> {
    ghost held = { λ m. S.held m.sink };

    ghost faults = { λ m. S.faults m.sink };

    fn write(&mut self, piece: &[u8]) -> Put {
        let put = self.sink.write(piece);
        if let Put::Took(count) = put {
            self.changeover.note(count);
        }
        put
    }
}
