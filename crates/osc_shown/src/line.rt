//! One line, whose words and tail its writer chooses.
ghost use Rattle.std.specs.Prelude.{◌≡◌, ◌++◌, [], OnOk, OnErr};
ghost use Rattle.osc_shown.specs.Columns.{painted};
ghost use Rattle.osc_shown.specs.Told.{AddsHeaded, AddsTold, headed, note_text};

use crate::bytes::add;
use crate::columns::{add_head, add_line, is_left_out};
use crate::message::add_message;
use crate::{Head, Look};
use osc_message::Message;
use std::alloc::{AllocError, Global};

/// Adds the line of a message, unless it is left out. An `Err` means out of memory.
pub fn message_line(
    text: &mut Vec<u8>,
    head: Head,
    message: &Message<'_>,
    tail: &[u8],
) -> Result<(), AllocError>
    ensures ok { OnOk result (AddsTold head message.now tail.now text.old.items text.new.items) }
    ensures err { OnErr result (text.new.items ≡ text.old.items) }
{
    let alloc: Global = *text.allocator();
    let mut line = Vec::new(alloc);
    add_told(&mut line, head, message, tail)?;
    text.extend_from_slice(&line)
}

fn add_told(
    out: &mut Vec<u8>,
    head: Head,
    message: &Message<'_>,
    tail: &[u8],
) -> Result<(), AllocError>
    ensures { OnOk result (AddsTold head message.now tail.now out.old.items out.new.items) }
{
    if is_left_out(head.look, head.mark) {
        return Ok(());
    }
    add_headed(out, head, message, tail)
}

/// Adds the line of a message.
pub(crate) fn add_headed(
    out: &mut Vec<u8>,
    head: Head,
    message: &Message<'_>,
    tail: &[u8],
) -> Result<(), AllocError>
    ensures { OnOk result (AddsHeaded head message.now tail.now out.old.items out.new.items) }
{
    let alloc: Global = *out.allocator();
    let mut front = Vec::new(alloc);
    add_head(&mut front, head.look, head.moment, head.mark, head.join)?;
    add_message(&mut front, head.look.whole, message)?;
    add_line(out, head.look.colours, head.mark, &front, tail)
}

/// Adds a line of these words, unless it is left out. They are to be printable, since they stand as
/// they are. An `Err` means out of memory.
pub fn note_line(
    text: &mut Vec<u8>,
    head: Head,
    words: &[u8],
    tail: &[u8],
) -> Result<(), AllocError>
    ensures ok { OnOk result
        (text.new.items ≡ text.old.items ++ note_text head words.now tail.now) }
    ensures err { OnErr result (text.new.items ≡ text.old.items) }
{
    if is_left_out(head.look, head.mark) {
        return Ok(());
    }
    let alloc: Global = *text.allocator();
    let mut line = Vec::new(alloc);
    add_note(&mut line, head, words, tail)?;
    text.extend_from_slice(&line)
}

/// Adds the line of words.
fn add_note(out: &mut Vec<u8>, head: Head, words: &[u8], tail: &[u8]) -> Result<(), AllocError>
    ensures { OnOk result (out.new.items ≡ out.old.items ++ headed head words.now tail.now) }
{
    let alloc: Global = *out.allocator();
    let mut front = Vec::new(alloc);
    add_head(&mut front, head.look, head.moment, head.mark, head.join)?;
    add(&mut front, words)?;
    add_line(out, head.look.colours, head.mark, &front, tail)
}

/// Adds a line that has no time, in the colour of this mark.
pub(crate) fn remark(
    text: &mut Vec<u8>,
    look: Look,
    mark: u8,
    words: &[u8],
) -> Result<(), AllocError>
    ensures ok { OnOk result
        (text.new.items ≡ text.old.items ++ painted look.colours mark words.now []) }
    ensures err { OnErr result (text.new.items ≡ text.old.items) }
{
    let alloc: Global = *text.allocator();
    let mut line = Vec::new(alloc);
    add_line(&mut line, look.colours, mark, words, b"")?;
    text.extend_from_slice(&line)
}
