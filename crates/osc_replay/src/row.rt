// Entries that can be played.
ghost use Rattle.std.specs.Prelude.{◌≡◌, true};
ghost use Rattle.osc_record.specs.Shown.{event_of};
ghost use Rattle.osc_replay.specs.Events.{event_in};
ghost use Rattle.osc_replay.specs.Lawful.{is_lawful};

use crate::event::LawfulEvent;
use osc_record::Entry;

/// An entry that was read, and its event, which is lawful.
#[derive(Drop)]
pub(crate) struct Row<'a> {
    pub(crate) entry: Entry<'a>,
    pub(crate) event: LawfulEvent<'a>,
    ghost same: { event_in event ≡ event_of entry.event },
    ghost lawful: { is_lawful (event_in event) ≡ true },
}
