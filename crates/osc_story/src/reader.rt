//! All that is left of a recording, entry by entry.
ghost use Rattle.std.specs.Prelude.{◌≡◌};
ghost use Rattle.osc_story.specs.Seen.{HasSeen, SeesNext};

use crate::disagreement::{Disagreement, SeeFault};
use crate::story::Story;
use osc_record::Unread;

/// Why no more was seen, and at which place of the recording.
#[derive(Clone, Copy, Debug, PartialEq, Eq)]
pub enum Stop {
    /// Nothing is left.
    End,
    /// What is left begins with no whole entry.
    NotWhole { at: u32 },
    /// What is left begins with an entry that no server gives there.
    Disagrees { at: u32, why: Disagreement },
    /// There is no memory for what the next entry brings. It can be seen later.
    NoMemory { at: u32 },
}

/// Sees the entries that are left, until there is no more of them, or one can't be seen.
pub fn see_all(story: &mut Story, unread: &mut Unread<'_>) -> Stop
    ensures { HasSeen story.old unread.old result story.new }
{
    loop {
        if let Some(stop) = see_next(story, unread) {
            return stop;
        }
    }
}

/// Sees the next entry, or tells why it doesn't.
fn see_next(story: &mut Story, unread: &mut Unread<'_>) -> Option<Stop>
    ensures { SeesNext story.old unread.old result story.new unread.new }
{
    match unread.next_entry() {
        Ok(Some(entry)) => match story.see(&entry) {
            Ok(()) => None,
            Err(SeeFault::NoMemory) => Some(Stop::NoMemory { at: entry.at }),
            Err(SeeFault::Disagrees(why)) => Some(Stop::Disagrees { at: entry.at, why }),
        },
        Ok(None) => Some(Stop::End),
        Err(malformed) => Some(Stop::NotWhole { at: malformed.at }),
    }
}
