// A look at bytes that begin with the header of a recording.
ghost use Rattle.std.specs.Prelude.{◌≡◌, ◌≤◌, length};
ghost use Rattle.osc_model.specs.Limits.{max_recording};
ghost use Rattle.osc_board.specs.Looks.{LooksAt, begun};

use crate::reader::see_all;
use crate::sight::Sight;
use osc_record::{Late, Unread};
use osc_story::Stop;
use std::alloc::Global;

/// What was seen at a look.
#[derive(Clone, Copy, Debug, PartialEq, Eq)]
pub(crate) enum Look {
    /// The first bytes are no header.
    Malformed,
    /// More bytes have come than the header allows.
    TooLong,
    /// All that is whole, or up to an entry that can't be seen.
    Saw(Stop),
}

/// Sees the entries after the header, where so many bytes have come in all.
pub(crate) fn look_at(alloc: Global, sight: &mut Option<Sight>, bytes: &[u8], came: u32) -> Look
    requires { length bytes.now ≤ max_recording }
    ensures { LooksAt result bytes.now came sight.old sight.new }
{
    let Ok(mut unread) = Unread::open(bytes) else {
        return Look::Malformed;
    };
    let caps = unread.caps();
    if came > caps.recording() {
        return Look::TooLong;
    }
    let mut now = begun(alloc, sight, caps.late());
    let stop = see_all(&mut now, &mut unread);
    *sight = Some(now);
    Look::Saw(stop)
}

/// What is seen, which is begun where it isn't yet.
fn begun(alloc: Global, sight: &mut Option<Sight>, late: Late) -> Sight
    ensures { result ≡ begun sight.old late }
{
    match sight.take() {
        Some(sight) => sight,
        None => Sight::open(alloc, late),
    }
}
