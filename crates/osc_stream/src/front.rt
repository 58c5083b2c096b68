//! What stands at the front of bytes.
ghost use Rattle.std.specs.Prelude.{◌≡◌, ◌≤◌, ◌-◌, ◌+◌, length, min, take, ◌++◌};
ghost use Rattle.std.specs.Int.{w32, from_be_bytes};
ghost use Rattle.osc_stream.specs.Frames.{is_length, front, wanted};

use osc_atoms::MAX_PACKET;

/// What stands at the front of bytes.
#[derive(Clone, Copy, Debug, PartialEq, Eq)]
pub enum Front {
    /// Less than a size and its packet.
    Short,
    /// A size, and a packet of so many bytes.
    Whole(u32),
    /// A word that is no size of a packet.
    Bad(u32),
}

/// Whether a packet on a stream may have so many bytes.
fn is_packet_size(size: u32) -> bool
    ensures { result ≡ is_length size }
{
    size % 4 == 0 && size <= MAX_PACKET
}

/// The word that the bytes begin with.
fn first_word(bytes: &[u8]) -> u32
    requires { 4 ≤ length bytes.now }
    ensures { result ≡ from_be_bytes w32 (take 4 bytes.now) }
{
    u32::from_be_bytes([bytes[0], bytes[1], bytes[2], bytes[3]])
}

/// What stands at the front of the bytes.
pub(crate) fn front_of(bytes: &[u8]) -> Front
    ensures { result ≡ front bytes.now }
{
    if bytes.len() < 4 {
        return Front::Short;
    }
    let size = first_word(bytes);
    if !is_packet_size(size) {
        return Front::Bad(size);
    }
    if bytes.len() < 4 + size as usize {
        return Front::Short;
    }
    Front::Whole(size)
}

/// How many more bytes there have to be before more can be told of the front.
pub(crate) fn wanted_after(bytes: &[u8]) -> usize
    ensures { result ≡ wanted bytes.now }
{
    if bytes.len() < 4 {
        return 4 - bytes.len();
    }
    let size = first_word(bytes);
    if !is_packet_size(size) {
        return 0;
    }
    (4 + size as usize).saturating_sub(bytes.len())
}
