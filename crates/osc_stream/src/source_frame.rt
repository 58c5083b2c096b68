// Reads a source through a stream, up to the end of a frame.
ghost use Rattle.std.specs.Prelude.{◌≡◌, ◌<◌, ◌≤◌, ◌^◌, length, IfSome, IsTrue};
ghost use Rattle.osc_edge.specs.declared.limits.TheConstants.{MAX_DATAGRAM};
ghost use Rattle.osc_stream.specs.declared.front.Front.TheVariants.{Short};
ghost use Rattle.osc_stream.specs.Frames.{front, wanted};
ghost use Rattle.osc_stream.specs.Feeding.{taken};
ghost use Rattle.osc_stream.specs.Links.{HasFound, HasRead, HasReadCause, HasSourceCause, is_below};
ghost use Rattle.osc_stream.specs.Links.{is_sound, ending_of, found_of, IsAtLimit};

use crate::fed::Fed;
use crate::state::StreamState;
use crate::stream::Stream;
use osc_edge::{Source, Taken};

/// Reads up to the end of a frame, in as many reads as the source makes of it, and says what is found then. `Going`
/// means that a packet is in hand. The bytes go through the slice.
#[tactic(auto, using(crate::proofs::ReadLaws::reads, crate::proofs::Fullness::limits))]
pub(crate) fn read_frame<S: Source>(
    stream: &mut Stream,
    source: &mut S,
    into: &mut [u8],
) -> StreamState
    requires space { length into.old ≡ MAX_DATAGRAM }
    requires short { front stream.old.held ≡ Short }
    requires told { IsTrue (is_below stream.old (S.left source.old)) }
    ensures found { HasFound result stream.old stream.new (S.left source.old) (S.left source.new) }
    ensures cause { HasSourceCause result (S.faults source.old) (S.faults source.new) }
    ensures told { IsTrue (is_below stream.new (S.left source.new)) }
    ensures sound { IsTrue (is_sound result stream.new.held) }
    ensures limit { 2 ^ 63 ≤ taken stream.old → result ≡ StreamState.Clean }
    ensures reached { 2 ^ 63 ≤ taken stream.new → IsAtLimit result }
{
    while stream.can_take() {
        if let Some(found) = read_some(stream, source, into) {
            return found;
        }
    }
    StreamState::Clean
}

/// Reads once, at most what the frame lacks, and says what is found then, or nothing where the frame lacks more.
#[tactic(auto, using(crate::proofs::ReadLaws::reads))]
fn read_some<S: Source>(stream: &mut Stream, source: &mut S, into: &mut [u8]) -> Option<StreamState>
    requires space { length into.old ≡ MAX_DATAGRAM }
    requires short { front stream.old.held ≡ Short }
    requires below { taken stream.old < 2 ^ 63 }
    requires told { IsTrue (is_below stream.old (S.left source.old)) }
    ensures read { HasRead result stream.old stream.new (S.left source.old) (S.left source.new) }
    ensures cause { HasReadCause result (S.faults source.old) (S.faults source.new) }
    ensures reached { IfSome result
        (λ found. 2 ^ 63 ≤ taken stream.new → IsAtLimit found) }
    ensures told { IsTrue (is_below stream.new (S.left source.new)) }
{
    let room = stream.wanted();
    read_piece(stream, source, &mut into[..room])
}

/// Reads once, into a piece of as many bytes as are wanted.
fn read_piece<S: Source>(
    stream: &mut Stream,
    source: &mut S,
    piece: &mut [u8],
) -> Option<StreamState>
    requires space { length piece.old ≡ wanted stream.old.held }
    requires short { front stream.old.held ≡ Short }
    requires below { taken stream.old < 2 ^ 63 }
    requires told { IsTrue (is_below stream.old (S.left source.old)) }
    ensures read { HasRead result stream.old stream.new (S.left source.old) (S.left source.new) }
    ensures cause { HasReadCause result (S.faults source.old) (S.faults source.new) }
    ensures reached { IfSome result
        (λ found. 2 ^ 63 ≤ taken stream.new → IsAtLimit found) }
    ensures told { IsTrue (is_below stream.new (S.left source.new)) }
{
    match source.read(piece) {
        Taken::Bytes(0) => Some(end_of(stream)),
        Taken::Bytes(count) => found_by(stream.take(&piece[..count]).1),
        Taken::Failed => Some(StreamState::SourceFailed),
    }
}

/// How the stream ends where no byte is left.
fn end_of(stream: &Stream) -> StreamState
    ensures { result ≡ ending_of stream.now }
{
    if stream.held().is_empty() {
        StreamState::Clean
    } else {
        StreamState::Cut { at: stream.place() }
    }
}

/// What was found, by what the stream answers.
fn found_by(fed: Fed) -> Option<StreamState>
    ensures { result ≡ found_of fed }
{
    match fed {
        Fed::More => None,
        Fed::Ready => Some(StreamState::Going),
        Fed::Broken { at, size } => Some(StreamState::Broken { at, size }),
    }
}
