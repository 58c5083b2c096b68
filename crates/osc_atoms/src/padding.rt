// The zero bytes that bring an atom to a multiple of 4.
ghost use Rattle.osc_atoms.specs.declared.limits.TheConstants.{MAX_BYTES};
ghost use Rattle.std.specs.Prelude.{◌≡◌, ◌+◌, ◌<◌, ◌≤◌, length, position};
ghost use Rattle.osc_atoms.specs.Atoms;
ghost use Rattle.osc_atoms.specs.Reading.{padding_read, is_other};

use crate::fault::Fault;

/// How many zero bytes end a string of `size` bytes.
pub(crate) fn string_end(size: usize) -> usize
    ensures value { result ≡ Atoms.string_end size }
    ensures above { 0 < result }
    ensures below { result ≤ 4 }
{
    4 - size % 4
}

/// How many zero bytes pad a blob of `size` bytes.
pub(crate) fn blob_end(size: usize) -> usize
    ensures value { result ≡ Atoms.blob_end size }
    ensures below { result < 4 }
{
    (4 - size % 4) % 4
}

/// The place after `size` zero bytes from `from` on.
pub(crate) fn skip_padding(bytes: &[u8], from: u32, size: u32) -> Result<u32, Fault>
    requires inside { from + size ≤ length bytes.now }
    requires small { length bytes.now ≤ MAX_BYTES }
    ensures { result ≡ padding_read bytes.now from size }
{
    let end = from + size;
    match first_other(&bytes[from as usize..end as usize]) {
        None => Ok(end),
        Some(place) => Err(Fault {
            kind: Fault::PADDING,
            at: from + place as u32,
        }),
    }
}

fn first_other(bytes: &[u8]) -> Option<usize>
    ensures { result ≡ position is_other bytes.now }
{
    bytes.iter().position(|byte| *byte != 0)
}
