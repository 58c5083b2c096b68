// The bytes of a frame, as they come.
ghost use Rattle.osc_stream.specs.declared.limits.TheConstants.{MAX_FRAME};
ghost use Rattle.std.specs.Prelude.{◌≡◌, ◌≤◌, ◌++◌, length, take, min, IsTrue, vec_capacity};
ghost use Rattle.osc_stream.specs.Frames.{wanted};
ghost use Rattle.osc_stream.specs.Feeding.{is_held, HasFilled};

use crate::front::{Front, front_of, wanted_after};

/// Adds bytes from the front of the piece, up to the end of a frame, and says how many and what is found.
pub(crate) fn fill(bytes: &mut Vec<u8>, piece: &[u8]) -> (usize, Front)
    requires held { IsTrue (is_held bytes.old.items) }
    requires room { MAX_FRAME ≤ vec_capacity bytes.old }
    ensures room { MAX_FRAME ≤ vec_capacity bytes.new }
    ensures filled { HasFilled result.1 result.0 piece.now bytes.old.items bytes.new.items }
{
    let first = grow(bytes, piece);
    let second = grow(bytes, &piece[first..]);
    (first + second, front_of(bytes))
}

/// Adds as many bytes from the front of the piece as are wanted before more can be told, and says how many.
fn grow(bytes: &mut Vec<u8>, piece: &[u8]) -> usize
    requires within { length bytes.old.items ≤ MAX_FRAME }
    requires room { MAX_FRAME ≤ vec_capacity bytes.old }
    ensures room { MAX_FRAME ≤ vec_capacity bytes.new }
    ensures count { result ≡ min (wanted bytes.old.items) (length piece.now) }
    ensures items { bytes.new.items ≡ bytes.old.items ++ take result piece.now }
{
    let count = wanted_after(bytes).min(piece.len());
    match bytes.extend_from_slice(&piece[..count]) {
        Ok(()) => count,
        Err(_) => unreachable!(),
    }
}
