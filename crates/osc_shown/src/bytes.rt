// Bytes at the end of a text.
ghost use Rattle.std.specs.Prelude.{◌≡◌, ◌++◌, ◌∷◌, [], OnOk, take};
ghost use Rattle.hex.specs.Hex.{encode_lower};

use std::alloc::AllocError;

/// Adds the bytes.
pub(crate) fn add(out: &mut Vec<u8>, bytes: &[u8]) -> Result<(), AllocError>
    ensures { OnOk result (out.new.items ≡ out.old.items ++ bytes.now) }
{
    out.extend_from_slice(bytes)
}

/// Adds a byte.
pub(crate) fn add_byte(out: &mut Vec<u8>, byte: u8) -> Result<(), AllocError>
    ensures { OnOk result (out.new.items ≡ out.old.items ++ byte ∷ []) }
{
    out.push(byte)?;
    Ok(())
}

/// Adds two lower-case hexadecimal digits for each byte.
pub(crate) fn add_hex(out: &mut Vec<u8>, bytes: &[u8]) -> Result<(), AllocError>
    ensures { OnOk result (out.new.items ≡ out.old.items ++ encode_lower bytes.now) }
{
    let start = out.len();
    let Some(size) = bytes.len().checked_mul(2) else {
        return Err(AllocError);
    };
    let Some(end) = start.checked_add(size) else {
        return Err(AllocError);
    };
    out.resize(end, 0)?;
    match hex::encode_to_slice(bytes, &mut out[start..]) {
        Ok(()) => Ok(()),
        Err(_) => unreachable!(),
    }
}

/// The first so many bytes, or all.
pub(crate) fn front(bytes: &[u8], most: usize) -> &[u8]
    ensures { result.now ≡ take most bytes.now }
{
    &bytes[..most.min(bytes.len())]
}
