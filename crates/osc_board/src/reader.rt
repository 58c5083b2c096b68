// All that is left of a recording, entry by entry.
ghost use Rattle.std.specs.Prelude.{◌≡◌};
ghost use Rattle.osc_board.specs.Seen.{HasSeen, SeesNext};

use crate::sight::Sight;
use osc_record::Unread;
use osc_story::{SeeFault, Stop};

/// Sees the entries that are left, until there is no more of them, or one can't be seen.
pub(crate) fn see_all(sight: &mut Sight, unread: &mut Unread<'_>) -> Stop
    ensures { HasSeen sight.old unread.old result sight.new }
{
    loop {
        if let Some(stop) = see_next(sight, unread) {
            return stop;
        }
    }
}

/// Sees the next entry, or tells why it doesn't.
fn see_next(sight: &mut Sight, unread: &mut Unread<'_>) -> Option<Stop>
    ensures { SeesNext sight.old unread.old result sight.new unread.new }
{
    match unread.next_entry() {
        Ok(Some(entry)) => match sight.see(&entry) {
            Ok(()) => None,
            Err(SeeFault::NoMemory) => Some(Stop::NoMemory { at: entry.at }),
            Err(SeeFault::Disagrees(why)) => Some(Stop::Disagrees { at: entry.at, why }),
        },
        Ok(None) => Some(Stop::End),
        Err(malformed) => Some(Stop::NotWhole { at: malformed.at }),
    }
}
