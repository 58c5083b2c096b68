//! Whether the packets and addresses of a recording are lawful.
ghost use Rattle.std.specs.Prelude.{◌≡◌, ◌≤◌, ℕ, [], List, length, Err, IfOk, IfErr, IsOkAnd};
ghost use Rattle.std.specs.Prelude.{IfSome, IfNone, true, false};
ghost use Rattle.osc_model.specs.Limits.{Limits, header_size, max_recording};
ghost use Rattle.osc_model.specs.Events.{Entry as Recorded};
ghost use Rattle.osc_model.specs.Recordings.{record_text};
ghost use Rattle.osc_record.specs.Reading.{placed_from, unplaced};
ghost use Rattle.osc_record.specs.Left.{placed_of};
ghost use Rattle.osc_record.specs.Shown.{event_of};
ghost use Rattle.osc_record.specs.Unread.{Reads};
ghost use Rattle.osc_replay.specs.Formed.{IsFormed, IsUnformedAt, HasNoLawful, EndsFormed};
ghost use Rattle.osc_replay.specs.Formed.{IsStuckAt};
ghost use Rattle.osc_replay.specs.Lawful.{is_lawful};
ghost use Rattle.osc_replay.specs.Events.{event_in};

use crate::event::LawfulEvent;
use crate::row::Row;
use osc_packet::{MAX_PACKET, Packet};
use osc_pattern::Address;
use osc_record::{Event, Malformed, Reader, Unread};

/// Accepts exactly a recording whose packets are valid and whose addresses are lawful, and borrows
/// it. Else tells the first malformed place (docs/FORMATS.md, "The recording"). Takes no memory.
pub fn well_formed(bytes: &[u8]) -> Result<Reader<'_>, Malformed>
    requires { length bytes.now ≤ max_recording }
    ensures ok { IfOk result
        (λ reader. IsFormed reader.caps (unplaced reader.entries)
        × (bytes.now ≡ record_text reader.caps (unplaced reader.entries))) }
    ensures first { IfErr result (λ malformed. IsUnformedAt bytes.now malformed.at) }
    ensures complete { (limits : Limits) (entries : List Recorded) → IsFormed limits entries
        → bytes.now ≡ record_text limits entries
        → IsOkAnd result
        (λ reader. (reader.caps ≡ limits)
        × (reader.entries ≡ placed_from header_size entries)) }
    ensures exact { (at : ℕ) → IsUnformedAt bytes.now at → result ≡ Err (record { at = at }) }
{
    let unread = Unread::open(bytes)?;
    match first_malformed(unread) {
        Some(at) => Err(Malformed { at }),
        None => Reader::check(bytes),
    }
}

/// Reads the next entry, whose packet or address has to be lawful.
#[inline(always)]
pub(crate) fn next_row<'a>(unread: &mut Unread<'a>) -> Result<Option<Row<'a>>, Malformed>
    ensures end { IfOk result (λ next. IfNone next (unread.old.rest ≡ [])) }
    ensures read { IfOk result
        (λ next. IfSome next (λ row. Reads unread.old (placed_of row.entry) unread.new)) }
    ensures err { IfErr result (λ malformed. HasNoLawful unread.old malformed.at) }
{
    let Some(entry) = unread.next_entry()? else {
        return Ok(None);
    };
    match lawful_event(entry.event) {
        Some(event) => Ok(Some(Row { entry, event })),
        None => Err(Malformed { at: entry.at }),
    }
}

/// The event, if its packet or address is lawful.
pub(crate) fn lawful_event(event: Event<'_>) -> Option<LawfulEvent<'_>>
    ensures same { IfSome result (λ lawful. event_in lawful ≡ event_of event.entry) }
    ensures lawful { IfSome result (λ lawful. is_lawful (event_in lawful) ≡ true) }
    ensures none { IfNone result (is_lawful (event_of event.entry) ≡ false) }
{
    match event {
        Event::Enrol => Some(LawfulEvent::Enrol),
        Event::Submit(packet) => match Packet::check(packet, MAX_PACKET) {
            Ok(packet) => Some(LawfulEvent::Submit(packet)),
            Err(_) => None,
        },
        Event::Add(address) if Address::is_lawful(address) => Some(LawfulEvent::Add(address)),
        Event::Remove(address) if Address::is_lawful(address) => Some(LawfulEvent::Remove(address)),
        Event::Add(_) | Event::Remove(_) => None,
        Event::Tick(moment) => Some(LawfulEvent::Tick(moment)),
        Event::Release => Some(LawfulEvent::Release),
    }
}

/// The first malformed place among the entries that are left.
pub(crate) fn first_malformed(mut unread: Unread<'_>) -> Option<u32>
    ensures none { IfNone result (EndsFormed unread.entry) }
    ensures some { IfSome result (λ at. IsStuckAt unread.entry at) }
{
    loop {
        match next_row(&mut unread) {
            Ok(Some(_)) => {}
            Ok(None) => return None,
            Err(malformed) => return Some(malformed.at),
        }
    }
}
