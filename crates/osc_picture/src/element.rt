// The elements of a picture, and the steps of its paths.
ghost use Rattle.std.specs.Prelude.{◌≡◌, ◌++◌, ◌∷◌, OnOk};
ghost use Rattle.std.specs.Fmt.{decimal};
ghost use Rattle.std.specs.List.{flat_map};
ghost use Rattle.osc_picture.specs.Elements as spec;

use itoa::Buffer;
use std::alloc::AllocError;

/// Adds the bytes.
pub(crate) fn add(out: &mut Vec<u8>, bytes: &[u8]) -> Result<(), AllocError>
    ensures { OnOk result (out.new.items ≡ out.old.items ++ bytes.now) }
{
    out.extend_from_slice(bytes)
}

/// Adds the number in decimal.
pub(crate) fn add_decimal(out: &mut Vec<u8>, number: u64) -> Result<(), AllocError>
    ensures { OnOk result (out.new.items ≡ out.old.items ++ decimal number) }
{
    add(out, Buffer::new().format(number).as_bytes())
}

/// Adds a step of a path, or a part of one: its letter and a number.
pub(crate) fn add_step(out: &mut Vec<u8>, letter: u8, number: u64) -> Result<(), AllocError>
    ensures { OnOk result (out.new.items ≡ out.old.items ++ spec.step letter number) }
{
    out.push(letter)?;
    add_decimal(out, number)
}

/// Adds a step to a point, by its letter.
pub(crate) fn add_point(out: &mut Vec<u8>, letter: u8, x: u64, y: u64) -> Result<(), AllocError>
    ensures { OnOk result (out.new.items ≡ out.old.items ++ spec.point letter x y) }
{
    add_step(out, letter, x)?;
    add_step(out, b' ', y)
}

/// Adds a path of a kind, unless it has no step.
#[tactic(auto, unfolding(crate::specs::Elements::path_text))]
pub(crate) fn add_path(out: &mut Vec<u8>, kind: &[u8], steps: &[u8]) -> Result<(), AllocError>
    ensures { OnOk result (out.new.items ≡ out.old.items ++ spec.path_text kind.now steps.now) }
{
    if steps.is_empty() {
        return Ok(());
    }
    add(out, b"<path ")?;
    add(out, kind)?;
    add(out, b"d=\"")?;
    add(out, steps)?;
    add(out, b"\"/>\n")
}

/// Adds words of a kind at a place.
#[tactic(auto, unfolding(crate::specs::Elements::words_text))]
pub(crate) fn add_text(
    out: &mut Vec<u8>,
    kind: &[u8],
    x: u64,
    y: u64,
    words: &[u8],
) -> Result<(), AllocError>
    ensures { OnOk result
        (out.new.items ≡ out.old.items ++ spec.words_text kind.now x y words.now) }
{
    add(out, b"<text class=\"")?;
    add(out, kind)?;
    add_attribute(out, b"\" x=\"", x)?;
    add_attribute(out, b"\" y=\"", y)?;
    add(out, b"\">")?;
    add_escaped(out, words)?;
    add(out, b"</text>\n")
}

/// Adds words as XML wants them.
fn add_escaped(out: &mut Vec<u8>, words: &[u8]) -> Result<(), AllocError>
    ensures { OnOk result (out.new.items ≡ out.old.items ++ flat_map spec.escaped words.now) }
{
    for byte in words {
        add_escape(out, *byte)?;
    }
    Ok(())
}

/// Adds a byte as XML wants it, and a control as a point.
fn add_escape(out: &mut Vec<u8>, byte: u8) -> Result<(), AllocError>
    ensures { OnOk result (out.new.items ≡ out.old.items ++ spec.escaped byte) }
{
    if byte < 32 || byte == 127 {
        return add(out, b".");
    }
    match byte {
        b'&' => add(out, b"&amp;"),
        b'<' => add(out, b"&lt;"),
        _ => add(out, &[byte]),
    }
}

/// Adds a rectangle of a kind: the place of its upper left corner, and its size.
#[tactic(auto, unfolding(crate::specs::Elements::rect_text))]
pub(crate) fn add_rect(
    out: &mut Vec<u8>,
    kind: &[u8],
    x: u64,
    y: u64,
    width: u64,
    height: u64,
) -> Result<(), AllocError>
    ensures { OnOk result (out.new.items
        ≡ out.old.items ++ spec.rect_text kind.now x y width height) }
{
    add(out, b"<rect class=\"")?;
    add(out, kind)?;
    add_attribute(out, b"\" x=\"", x)?;
    add_attribute(out, b"\" y=\"", y)?;
    add_attribute(out, b"\" width=\"", width)?;
    add_attribute(out, b"\" height=\"", height)?;
    add(out, b"\"/>\n")
}

/// Adds a number after the name of what it is.
fn add_attribute(out: &mut Vec<u8>, name: &[u8], number: u64) -> Result<(), AllocError>
    ensures { OnOk result (out.new.items ≡ out.old.items ++ (name.now ++ decimal number)) }
{
    add(out, name)?;
    add_decimal(out, number)
}
