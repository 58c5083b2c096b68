//! The line of an entry.
ghost use Rattle.std.specs.Prelude.{◌≡◌, ◌++◌, length, OnOk, OnErr};
ghost use Rattle.osc_model.specs.Events.{tick, queued, clock_back, released};
ghost use Rattle.osc_model.specs.Recordings.{hits_in};
ghost use Rattle.osc_record.specs.Shown.{event_of, answer_of};
ghost use Rattle.osc_record.specs.Left.{placed_of};
ghost use Rattle.osc_print.specs.Words.{spaced, BeginsWith};
ghost use Rattle.osc_print.specs.Entries.{named, named_room, late_words, moment_word, event_words};
ghost use Rattle.osc_print.specs.Entries.{answer_words, entry_words, event_line};

use crate::Text;
use osc_atoms::Room;
use osc_record::{Answer, Entry, Event};
use std::alloc::AllocError;

/// Adds the line of an entry: the event's word, the caller, what is handed in, and the answer (docs/FORMATS.md,
/// "Printed text"). An `Err` means out of memory.
pub fn entry_line(text: &mut Text, entry: &Entry<'_>) -> Result<(), AllocError>
    ensures ok { OnOk result (text.new ≡ text.old ++ event_line (placed_of entry.now).entry) }
    ensures err { OnErr result (text.new ≡ text.old) }
{
    let start = text.bytes().len();
    let added = text.event_line(entry);
    text.whole_line(start, added)
}

impl Text {
    fn event_line(&mut self, entry: &Entry<'_>) -> Result<(), AllocError>
        ensures ok { OnOk result (self.new ≡ self.old ++ event_line (placed_of entry.now).entry) }
        ensures err { OnErr result (BeginsWith self.new self.old) }
    {
        self.entry_words(entry)?;
        self.end_line()
    }

    /// Adds an entry's words, without a line feed.
    pub(crate) fn entry_words(&mut self, entry: &Entry<'_>) -> Result<(), AllocError>
        ensures ok { OnOk result (self.new ≡ self.old ++ entry_words (placed_of entry.now).entry) }
        ensures err { OnErr result (BeginsWith self.new self.old) }
    {
        self.event_words(entry.caller, entry.event)?;
        self.space_answer(entry.answer)
    }

    fn event_words(&mut self, caller: u32, event: Event<'_>) -> Result<(), AllocError>
        ensures ok { OnOk result (self.new
            ≡ self.old ++ event_words caller (event_of event.entry)) }
        ensures err { OnErr result (BeginsWith self.new self.old) }
    {
        match event {
            Event::Enrol => self.named(b"enrol", caller),
            Event::Submit(_) => self.named(b"submit", caller),
            Event::Add(address) => self.named_address(b"add", caller, address),
            Event::Remove(address) => self.named_address(b"remove", caller, address),
            Event::Tick(moment) => self.tick_words(caller, moment),
            Event::Release => self.named(b"release", caller),
        }
    }

    fn space_answer(&mut self, answer: Answer<'_>) -> Result<(), AllocError>
        ensures ok { OnOk result (self.new
            ≡ self.old ++ spaced (answer_words (answer_of answer.entry))) }
        ensures err { OnErr result (BeginsWith self.new self.old) }
    {
        match answer {
            Answer::Number(number) => self.space_number(u64::from(number)),
            Answer::CallersFull => self.space_word(b"full"),
            Answer::Queued { first, count, late } => self.space_queued(first, count, late),
            Answer::UnitsFull(room) => self.space_room(b"units-full", room),
            Answer::PoolFull(room) => self.space_room(b"pool-full", room),
            Answer::Added(id) => self.space_named(b"id", id),
            Answer::Taken(id) => self.space_named(b"taken", id),
            Answer::UnderMethod(id) => self.space_named(b"under-method", id),
            Answer::IsContainer => self.space_word(b"is-container"),
            Answer::MethodsFull(limit) => self.space_named(b"methods-full", limit),
            Answer::NodesFull(room) => self.space_room(b"nodes-full", room),
            Answer::Removed(id) => self.space_named(b"id", id),
            Answer::NotThere => self.space_word(b"not-there"),
            Answer::Ticked => self.space_word(b"ticked"),
            Answer::ClockBack(clock) => self.space_clock_back(clock),
            Answer::Released { unit, hits } => self.space_released(unit, hits),
        }
    }

    /// Adds a word and a number after it.
    fn named(&mut self, name: &[u8], number: u32) -> Result<(), AllocError>
        ensures ok { OnOk result (self.new ≡ self.old ++ named name.now number) }
        ensures err { OnErr result (BeginsWith self.new self.old) }
    {
        self.word(name)?;
        self.space_number(u64::from(number))
    }

    fn named_address(&mut self, name: &[u8], number: u32, address: &[u8]) -> Result<(), AllocError>
        ensures ok { OnOk result (self.new
            ≡ self.old ++ (named name.now number ++ spaced address.now)) }
        ensures err { OnErr result (BeginsWith self.new self.old) }
    {
        self.named(name, number)?;
        self.space_word(address)
    }

    fn tick_words(&mut self, caller: u32, moment: u64) -> Result<(), AllocError>
        ensures ok { OnOk result (self.new ≡ self.old ++ event_words caller (tick moment)) }
        ensures err { OnErr result (BeginsWith self.new self.old) }
    {
        self.named(b"tick", caller)?;
        self.space_moment(moment)
    }

    fn space_named(&mut self, name: &[u8], number: u32) -> Result<(), AllocError>
        ensures ok { OnOk result (self.new ≡ self.old ++ spaced (named name.now number)) }
        ensures err { OnErr result (BeginsWith self.new self.old) }
    {
        self.space_word(name)?;
        self.space_number(u64::from(number))
    }

    /// Adds a word, how much is needed, and how much is free.
    fn space_room(&mut self, name: &[u8], room: Room) -> Result<(), AllocError>
        ensures ok { OnOk result (self.new
            ≡ self.old ++ spaced (named_room name.now room.need room.free)) }
        ensures err { OnErr result (BeginsWith self.new self.old) }
    {
        self.space_pair(name, room.need, room.free)
    }

    fn space_pair(&mut self, name: &[u8], first: u64, second: u64) -> Result<(), AllocError>
        ensures ok { OnOk result (self.new
            ≡ self.old ++ spaced (named_room name.now first second)) }
        ensures err { OnErr result (BeginsWith self.new self.old) }
    {
        self.space_word(name)?;
        self.space_number(first)?;
        self.space_number(second)
    }

    fn space_queued(&mut self, first: u64, count: u32, late: u32) -> Result<(), AllocError>
        ensures ok { OnOk result (self.new
            ≡ self.old ++ spaced (answer_words (queued first count late))) }
        ensures err { OnErr result (BeginsWith self.new self.old) }
    {
        self.space_pair(b"queued", first, u64::from(count))?;
        self.space_late(late)
    }

    /// Adds how many units are dropped, where some are.
    fn space_late(&mut self, late: u32) -> Result<(), AllocError>
        ensures ok { OnOk result (self.new ≡ self.old ++ late_words late) }
        ensures err { OnErr result (BeginsWith self.new self.old) }
    {
        if late == 0 {
            return Ok(());
        }
        self.space_named(b"late", late)
    }

    fn space_clock_back(&mut self, clock: u64) -> Result<(), AllocError>
        ensures ok { OnOk result (self.new ≡ self.old ++ spaced (answer_words (clock_back clock))) }
        ensures err { OnErr result (BeginsWith self.new self.old) }
    {
        self.space_word(b"clock-back")?;
        self.space_moment(clock)
    }

    /// Adds a moment in 16 digits.
    fn space_moment(&mut self, moment: u64) -> Result<(), AllocError>
        ensures ok { OnOk result (self.new ≡ self.old ++ spaced (moment_word moment)) }
        ensures err { OnErr result (BeginsWith self.new self.old) }
    {
        self.space_hex(b"", &moment.to_be_bytes())
    }

    /// Adds a unit's number and how many hits the bytes have.
    fn space_released(&mut self, unit: u64, hits: &[u8]) -> Result<(), AllocError>
        ensures ok { OnOk result (self.new
            ≡ self.old ++ spaced (answer_words (released unit (hits_in hits.now)))) }
        ensures err { OnErr result (BeginsWith self.new self.old) }
    {
        self.space_number(unit)?;
        self.space_number(hit_count(hits))
    }
}

/// How many hits the bytes have.
fn hit_count(hits: &[u8]) -> u64
    ensures { result ≡ length (hits_in hits.now) }
{
    hits.len() as u64 / 8
}
