// The texts above the marks of calls.
ghost use Rattle.std.specs.Prelude.{◌≡◌, ◌≤◌, ◌++◌, OnOk};
ghost use Rattle.osc_picture.specs.Captions as spec;

use crate::element::add_text;
use crate::frame::Frame;
use crate::said::Said;
use std::alloc::AllocError;

/// Where a text stands, by its call.
#[derive(Clone, Copy, PartialEq, Eq)]
pub(crate) enum Side {
    After,
    Before,
    /// There is no room.
    Nowhere,
}

/// Adds the texts of calls, each where there is room after those before it.
pub(crate) fn add_captions(
    out: &mut Vec<u8>,
    frame: Frame,
    y: u64,
    texts: &[Said],
) -> Result<(), AllocError>
    ensures { OnOk result (out.new.items ≡ out.old.items ++ spec.captions frame y 0 texts.now) }
{
    let mut free = 0;
    let mut rest = texts;
    while let Some((said, others)) = rest.split_first() {
        let x = frame.x(said.at());
        let room = room_of(said.words());
        let side = side_of(free, x, room);
        add_caption(out, side, x, y, said.words())?;
        free = free_after(side, free, x, room);
        rest = others;
    }
    Ok(())
}

/// How much room words take: 84 a character, up to 24 of them.
fn room_of(words: &[u8]) -> u64
    ensures value { result ≡ spec.room_of words.now }
    ensures small { result ≤ 2016 }
{
    count(words).min(24) as u64 * 84
}

/// How many characters the bytes are.
fn count(words: &[u8]) -> usize
    ensures { result ≡ spec.width words.now }
{
    words.iter().filter(|byte| begins_char(**byte)).count()
}

fn begins_char(byte: u8) -> bool
    ensures { result ≡ spec.begins_char byte }
{
    byte < 0x80 || byte >= 0xC0
}

/// Where words stand that take so much room, at a place, where it is free from another on.
fn side_of(free: u64, x: u64, room: u64) -> Side
    requires x { x ≤ 7740 }
    requires room { room ≤ 2016 }
    requires free { free ≤ 10_000 }
    ensures { result ≡ spec.side_of free x room }
{
    if free <= x && x + room <= 7940 {
        return Side::After;
    }
    if free + room <= x {
        return Side::Before;
    }
    Side::Nowhere
}

/// From where on it is free then.
fn free_after(side: Side, free: u64, x: u64, room: u64) -> u64
    requires x { x ≤ 7740 }
    requires room { room ≤ 2016 }
    requires free { free ≤ 10_000 }
    ensures value { result ≡ spec.free_after side free x room }
    ensures small { result ≤ 10_000 }
{
    match side {
        Side::After => x + room + 84,
        Side::Before => x + 84,
        Side::Nowhere => free,
    }
}

fn add_caption(
    out: &mut Vec<u8>,
    side: Side,
    x: u64,
    y: u64,
    words: &[u8],
) -> Result<(), AllocError>
    ensures { OnOk result (out.new.items ≡ out.old.items ++ spec.caption side x y words.now) }
{
    match side {
        Side::After => add_text(out, b"q", x, y, words),
        Side::Before => add_text(out, b"q e", x, y, words),
        Side::Nowhere => Ok(()),
    }
}
