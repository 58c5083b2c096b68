//! How many bytes atoms have.
ghost use Rattle.std.specs.Prelude.{◌≡◌, ◌+◌, ◌<◌, ◌^◌};
ghost use Rattle.osc_atoms.specs.Atoms as atoms;

use crate::padding::{blob_end, string_end};

/// How many bytes the string of a text of `size` bytes has.
pub fn string_size(size: usize) -> usize
    requires { size < 2 ^ 63 }
    ensures { result ≡ size + atoms.string_end size }
{
    size + string_end(size)
}

/// How many bytes the blob of `size` bytes has.
pub fn blob_size(size: usize) -> usize
    requires { size < 2 ^ 63 }
    ensures { result ≡ 4 + (size + atoms.blob_end size) }
{
    4 + (size + blob_end(size))
}
