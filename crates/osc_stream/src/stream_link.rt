//! A link that gives the packets of a source's bytes.
ghost use Rattle.std.specs.Prelude.{◌≡◌, ◌≤◌, length, take, IfOk, IsTrue};
ghost use Rattle.osc_stream.specs.Feeding.{at_start};
ghost use Rattle.osc_stream.specs.Links.{is_below, is_sound};

use crate::source_frame::read_frame;
use crate::state::StreamState;
use crate::stream::Stream;
use osc_edge::{Datagram, Link, Source};
use std::alloc::{AllocError, Global};

/// The packets of a source's bytes, one a call, however the source's reads cut them. Once the stream ended within a
/// frame or at a word that is no size of a packet the link answers `Failed`, and then `End`. It is never quiet.
#[derive(Drop)]
pub struct StreamLink<S: Source> {
    stream: Stream,
    source: S,
    state: StreamState,
    ghost told: { IsTrue (is_below stream (S.left source)) },
    ghost sound: { IsTrue (is_sound state stream.held) },
}

impl<S: Source + Drop> StreamLink<S> {
    ghost use Rattle.std.specs.Prelude.{option_map};
    ghost use Rattle.osc_stream.specs.Frames.{Frames};
    ghost use Rattle.osc_stream.specs.Links.{turns_of};

    /// A link over the source, which is yet to be read. The `Err` means that there is no memory for a size and a
    /// packet. A source that tells has fewer than 2^63 bytes left.
    pub fn open(alloc: Global, source: S) -> Result<StreamLink<S>, AllocError>
        requires { IsTrue (is_below at_start (S.left source)) }
        ensures source { IfOk result (λ link. link.source ≡ source) }
        ensures state { IfOk result (λ link. link.state ≡ StreamState.Going) }
        ensures stream { IfOk result (λ link. link.stream ≡ at_start) }
        ensures left { IfOk result (λ link. ⟦<StreamLink<S> as Link>⟧.left link
            ≡ option_map (λ bytes. turns_of (Frames bytes)) (S.left source)) }
        ensures faults { IfOk result
            (λ link. ⟦<StreamLink<S> as Link>⟧.faults link ≡ S.faults source) }
    {
        Ok(StreamLink {
            stream: Stream::open(alloc)?,
            source,
            state: StreamState::Going,
        })
    }

    /// Why the last call answered `Failed` or `End`, or else `Going`.
    pub fn state(&self) -> StreamState
        ensures { result ≡ self.now.state }
    {
        self.state
    }
}

impl<S: Source> Link for StreamLink<S> {
    ghost use Rattle.std.specs.Prelude.{◌+◌, ◌^◌, false};
    ghost use Rattle.osc_stream.specs.Feeding.{taken};
    ghost use Rattle.osc_edge.specs.Link.{IsGotWithin, TakesTurn, HasLinkCause, HasQuietCause};
    ghost use Rattle.osc_edge.specs.declared.limits.TheConstants.{MAX_DATAGRAM};
    ghost use Rattle.osc_stream.specs.Links.{turns_left, framing_left, own_faults, TakesFrame};
    ghost use Rattle.osc_stream.specs.Links.{HasAnswered, IsSourceCause, IsAtLimit, is_end};

    ghost left = { λ l. turns_left l.state l.stream (S.left l.source) };

    ghost faults = { λ l. S.faults l.source + own_faults l.state };

    ghost quiets = { λ _. 0 };

    fn next(&mut self, into: &mut [u8]) -> Datagram
        requires space { length into.old ≡ MAX_DATAGRAM }
        ensures within { IsGotWithin result into.new }
        ensures turns { TakesTurn
            (turns_left self.old.state self.old.stream (S.left self.old.source))
            (turns_left self.new.state self.new.stream (S.left self.new.source)) result into.new }
        ensures cause { HasLinkCause (S.faults self.old.source + own_faults self.old.state)
            (S.faults self.new.source + own_faults self.new.state) result }
        ensures ready { HasQuietCause 0 0 result }
        ensures frames { TakesFrame
            (framing_left self.old.state self.old.stream (S.left self.old.source))
            (framing_left self.new.state self.new.stream (S.left self.new.source)) result into.new }
        ensures answer { HasAnswered self.old.state self.new.state result }
        ensures limit { 2 ^ 63 ≤ taken self.old.stream → result ≡ Datagram.End }
        ensures reached { is_end self.old.state ≡ false → 2 ^ 63 ≤ taken self.new.stream
            → IsAtLimit self.new.state }
        ensures source { IsSourceCause self.old.state self.new.state (S.faults self.old.source)
            (S.faults self.new.source) }
    {
        if self.state.is_end() {
            return Datagram::End;
        }
        self.state = read_frame(&mut self.stream, &mut self.source, into);
        match self.state {
            StreamState::Going => Datagram::Got(put_front(self.stream.packet(), into)),
            StreamState::Clean => Datagram::End,
            StreamState::Cut { .. } | StreamState::Broken { .. } | StreamState::SourceFailed => {
                Datagram::Failed
            }
        }
    }
}

/// Copies a packet to the front of the slice, and says how many bytes it has.
fn put_front(packet: &[u8], into: &mut [u8]) -> usize
    requires { length packet.now ≤ length into.old }
    ensures count { result ≡ length packet.now }
    ensures bytes { take result into.new ≡ packet.now }
{
    let count = packet.len();
    into[..count].copy_from_slice(packet);
    count
}
