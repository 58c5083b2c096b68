// A look at bytes that begin with the header of a recording.
ghost use Rattle.std.specs.Prelude.{◌≡◌, ◌≤◌, length};
ghost use Rattle.osc_model.specs.Limits.{max_recording};
ghost use Rattle.osc_story.specs.Looks.{LooksAt, begun};

use crate::reader::{Stop, see_all};
use crate::story::Story;
use osc_record::{Late, Unread};
use std::alloc::Global;

/// What was seen at a look.
#[derive(Clone, Copy, Debug, PartialEq, Eq)]
pub(crate) enum Look {
    /// The first bytes are no header.
    Malformed,
    /// More bytes have come than the header allows.
    TooLong,
    /// All that is whole, or up to an entry that can't be seen.
    Saw(Stop),
}

/// Sees the entries after the header, where so many bytes have come in all.
pub(crate) fn look_at(alloc: Global, story: &mut Option<Story>, bytes: &[u8], came: u32) -> Look
    requires { length bytes.now ≤ max_recording }
    ensures { LooksAt result bytes.now came story.old story.new }
{
    let Ok(mut unread) = Unread::open(bytes) else {
        return Look::Malformed;
    };
    let caps = unread.caps();
    if came > caps.recording() {
        return Look::TooLong;
    }
    let mut standing = begun(alloc, story, caps.late());
    let stop = see_all(&mut standing, &mut unread);
    *story = Some(standing);
    Look::Saw(stop)
}

/// The story, which is begun where it isn't yet.
fn begun(alloc: Global, story: &mut Option<Story>, late: Late) -> Story
    ensures { result ≡ begun story.old late }
{
    match story.take() {
        Some(story) => story,
        None => Story::open(alloc, late),
    }
}
