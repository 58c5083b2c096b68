//! The entries of a recording.
ghost use Rattle.std.specs.Prelude.{◌≡◌, IfOk};
ghost use Rattle.osc_drawing.specs.Readings.{HasReadAll};

use osc_record::{Entry, Unread};
use std::alloc::{AllocError, Global};

/// Reads the entries of a recording that are left, up to where no whole entry begins: that place is
/// told.
/// An `Err` means out of memory.
pub fn entries_of<'a>(
    alloc: Global,
    unread: &mut Unread<'a>,
) -> Result<(Vec<Entry<'a>>, Option<u32>), AllocError>
    ensures { IfOk result (λ read. HasReadAll unread.old read.0.items read.1 unread.new) }
{
    let mut entries = Vec::new(alloc);
    loop {
        match unread.next_entry() {
            Ok(Some(entry)) => {
                entries.push(entry)?;
            }
            Ok(None) => return Ok((entries, None)),
            Err(malformed) => return Ok((entries, Some(malformed.at))),
        }
    }
}
