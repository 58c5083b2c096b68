//! How much entries told.
ghost use Rattle.std.specs.Prelude.{◌≡◌, ◌-◌, length, true};
ghost use Rattle.osc_packet.specs.Reading.{is_packet, units_read};
ghost use Rattle.osc_atoms.specs.declared.limits.TheConstants.{MAX_PACKET};
ghost use Rattle.osc_model.specs.Recordings.{hits_in};
ghost use Rattle.osc_story.specs.Totals as spec;

use crate::calls::split_hit;
use osc_model::{Late, keeps};
use osc_packet::{MAX_PACKET, Packet};
use osc_record::Answer;

/// How much the entries told that were seen. A count stays at the greatest number of 64 bits.
#[derive(Clone, Copy, Debug, PartialEq, Eq)]
pub struct Totals {
    pub entries: u64,
    /// The messages that were performed.
    pub messages: u64,
    /// The calls that they made.
    pub calls: u64,
    /// How many of them called no method.
    pub unheard: u64,
    /// The messages that came late and were discarded.
    pub discarded: u64,
    /// The messages of packets for which there was no room.
    pub refused: u64,
}

impl Totals {
    ghost use Rattle.std.specs.Prelude.{◌≡◌, true};
    ghost use Rattle.osc_packet.specs.Reading.{is_packet, units_read};
    ghost use Rattle.osc_record.specs.Shown.{answer_of};
    ghost use Rattle.osc_story.specs.Totals as spec;

    /// Nothing was told.
    pub fn none() -> Totals
        ensures { result ≡ spec.none }
    {
        Totals {
            entries: 0,
            messages: 0,
            calls: 0,
            unheard: 0,
            discarded: 0,
            refused: 0,
        }
    }

    /// With what other entries told.
    pub fn with(self, other: Totals) -> Totals
        ensures { result ≡ spec.both self other }
    {
        Totals {
            entries: self.entries.saturating_add(other.entries),
            messages: self.messages.saturating_add(other.messages),
            calls: self.calls.saturating_add(other.calls),
            unheard: self.unheard.saturating_add(other.unheard),
            discarded: self.discarded.saturating_add(other.discarded),
            refused: self.refused.saturating_add(other.refused),
        }
    }

    /// With one entry more.
    pub(crate) fn with_entry(self) -> Totals
        ensures { result ≡ spec.with_entry self }
    {
        Totals {
            entries: self.entries.saturating_add(1),
            ..self
        }
    }

    /// With what the answer to a packet says of its messages.
    pub(crate) fn with_packet(
        self,
        late: Late,
        clock: u64,
        packet: &[u8],
        answer: Answer<'_>,
    ) -> Totals
        ensures { is_packet MAX_PACKET packet.now ≡ true
            → result ≡ spec.with_packet self late clock (units_read packet.now)
            (answer_of answer.entry) }
    {
        match answer {
            Answer::Queued { .. } => Totals {
                discarded: more_discarded(self.discarded, late, clock, packet),
                ..self
            },
            Answer::UnitsFull(_) => Totals {
                refused: more_refused(self.refused, packet),
                ..self
            },
            Answer::PoolFull(_) => Totals {
                refused: more_refused(self.refused, packet),
                ..self
            },
            _ => self,
        }
    }

    /// With the calls of a release of a unit that has so many messages.
    pub(crate) fn with_release(self, messages: usize, answer: Answer<'_>) -> Totals
        ensures { result ≡ spec.with_release self messages (answer_of answer.entry) }
    {
        let Answer::Released { hits, .. } = answer else {
            return self;
        };
        let (calls, heard) = count_hits(hits);
        let messages = messages as u64;
        Totals {
            messages: self.messages.saturating_add(messages),
            calls: self.calls.saturating_add(calls),
            unheard: self.unheard.saturating_add(messages.saturating_sub(heard)),
            ..self
        }
    }
}

/// With the messages of those units that aren't kept.
fn more_discarded(count: u64, late: Late, clock: u64, packet: &[u8]) -> u64
    ensures { is_packet MAX_PACKET packet.now ≡ true
        → result ≡ spec.more_discarded late clock count (units_read packet.now) }
{
    let Ok(packet) = Packet::check(packet, MAX_PACKET) else {
        return count;
    };
    let mut all = count;
    for unit in packet.units() {
        if !keeps(late, clock, &unit) {
            all = all.saturating_add(u64::from(unit.count()));
        }
    }
    all
}

/// With the messages of all units.
fn more_refused(count: u64, packet: &[u8]) -> u64
    ensures { is_packet MAX_PACKET packet.now ≡ true
        → result ≡ spec.more_refused count (units_read packet.now) }
{
    let Ok(packet) = Packet::check(packet, MAX_PACKET) else {
        return count;
    };
    let mut all = count;
    for unit in packet.units() {
        all = all.saturating_add(u64::from(unit.count()));
    }
    all
}

/// How many hits there are, and in how many messages.
fn count_hits(hits: &[u8]) -> (u64, u64)
    ensures calls { result.0 ≡ length (hits_in hits.now) }
    ensures heard { result.1 ≡ spec.heard_in (hits_in hits.now) }
{
    let mut rest = hits;
    let mut calls = 0;
    let mut heard = 0;
    let mut before: Option<u32> = None;
    while let Some((index, _, after)) = split_hit(rest) {
        calls += 1;
        if before != Some(index) {
            heard += 1;
        }
        before = Some(index);
        rest = after;
    }
    (calls, heard)
}
