//! A recording in the making.
ghost use Rattle.osc_model.specs.Limits.{release_head_size};
ghost use Rattle.std.specs.Prelude.{◌≡◌, ◌+◌, ◌*◌, ◌<◌, ◌≤◌, ◌^◌, ◌==◌, ◌++◌, length};
ghost use Rattle.std.specs.Prelude.{if◌then◌else◌};
ghost use Rattle.std.specs.Vec.{vec_len, vec_capacity};
ghost use Rattle.osc_model.specs.Recordings.{hit_text};
ghost use Rattle.osc_record.specs.Writing.{release_head};

use crate::caps::Caps;
use crate::entries::append_entry;
use crate::event::{Answer, Event};
use crate::limits::HEADER_SIZE;
use crate::rows::{append_bytes, append_header};
use osc_atoms::{write_tag, write_word};
use std::alloc::{AllocError, Global};
use std::marker::Model;

/// A recording that entries are put into, in bytes that are reserved at opening; docs/FORMATS.md,
/// "The recording", has the format. A contract sees the limits, the entries, and a release that is
/// still owed hits. No call but `open` takes memory.
#[derive(Drop)]
pub struct Recorder {
    caps: Caps,
    bytes: Vec<u8>,
    /// Where the release that is owed hits begins, or the end.
    start: u32,
    caller: u32,
    unit: u64,
    owed: u32,
}

impl Model for Recorder {
    ghost use Rattle.std.specs.Vec.{vec_capacity};
    ghost use Rattle.osc_record.specs.Writing.{Recording, recording_of, IsKept};

    ghost Value = { Recording };

    ghost view = { λ r. recording_of r.caps r.bytes.items r.start r.caller r.unit r.owed };

    ghost invariant = { λ r. IsKept r.caps r.bytes.items r.start r.caller r.unit r.owed
        (vec_capacity r.bytes) };
}

impl Recorder {
    ghost use Rattle.std.specs.Prelude.{◌≡◌, ◌≢◌, ◌↔◌, ◌+◌, ◌*◌, ◌<◌, ◌≤◌, ◌^◌, [], length, IsTrue};
    ghost use Rattle.std.specs.Prelude.{IfOk, None};
    ghost use Rattle.osc_model.specs.Events.{release};
    ghost use Rattle.osc_model.specs.Recordings.{IsRecordable, entry_text, record_text};
    ghost use Rattle.osc_record.specs.Shown.{event_of, answer_of};
    ghost use Rattle.osc_record.specs.Writing.{recording_text, appended, with_release, with_hit};

    /// A recording without entries. The `Err` means that there is no memory for it.
    pub fn open(alloc: Global, caps: Caps) -> Result<Recorder, AllocError>
        ensures { IfOk result
            (λ recorder. recorder ≡ record { caps = caps; entries = []; begun = None }) }
    {
        let mut bytes = Vec::with_capacity(alloc, caps.recording() as usize)?;
        append_header(&mut bytes, caps);
        Ok(Recorder {
            caps,
            bytes,
            start: HEADER_SIZE,
            caller: 0,
            unit: 0,
            owed: 0,
        })
    }

    /// How many bytes are free.
    pub fn free(&self) -> u64
        ensures value { result + length (recording_text self.now) ≡ self.now.caps.recording }
    {
        self.caps.recording() as u64 - self.bytes.len() as u64
    }

    /// Whether so many bytes are free.
    pub fn fits(&self, need: u64) -> bool
        ensures { IsTrue result
            ↔ (length (recording_text self.now) + need ≤ self.now.caps.recording) }
    {
        need <= self.free()
    }

    /// Appends an entry of any event but a release.
    #[inline(always)]
    pub fn put(&mut self, caller: u32, event: Event<'_>, answer: Answer<'_>)
        requires no_release { event_of event ≢ release }
        requires lawful { IsRecordable caller (event_of event) (answer_of answer) }
        requires fits { length (recording_text self.old)
            + length (entry_text caller (event_of event) (answer_of answer))
            ≤ self.old.caps.recording }
        requires none_owed { self.old.begun ≡ None }
        ensures { self.new
            ≡ appended self.old
            (record {
              caller = caller;
              event = event_of event.entry;
              answer = answer_of answer.entry;
            }) }
    {
        append_entry(&mut self.bytes, caller, event, answer);
        self.start = self.bytes.len() as u32;
    }

    /// Begins a release that has so many hits, which `put_hit` then puts.
    pub fn start_release(&mut self, caller: u32, unit: u64, hits: u32)
        requires caller { caller < 2 ^ 31 }
        requires unit { unit < 2 ^ 63 }
        requires fits { length (recording_text self.old) + (release_head_size + 8 * hits)
            ≤ self.old.caps.recording }
        requires none_owed { self.old.begun ≡ None }
        ensures { self.new ≡ with_release self.old caller unit hits }
    {
        append_release_head(&mut self.bytes, caller, unit, hits);
        self.caller = caller;
        self.unit = unit;
        self.owed = hits;
        self.start = settled_start(self.start, self.bytes.len(), hits);
    }

    /// Puts the next hit of the release that is begun: a message's index, and a method's id.
    pub fn put_hit(&mut self, index: u32, id: u32)
        requires owed { self.old.begun ≢ None }
        ensures { self.new ≡ with_hit self.old (record { index = index; id = id }) }
    {
        append_hit(&mut self.bytes, index, id);
        self.owed -= 1;
        self.start = settled_start(self.start, self.bytes.len(), self.owed);
    }

    /// The bytes so far.
    pub fn bytes(&self) -> &[u8]
        ensures { result.now ≡ recording_text self.now }
    {
        self.bytes.as_slice()
    }

    /// The whole recording.
    pub fn close(self) -> Vec<u8>
        requires none_owed { self.begun ≡ None }
        ensures { result.items ≡ record_text self.caps self.entries }
    {
        self.bytes
    }
}

/// Where a release begins that is owed so many hits, or else the end.
fn settled_start(start: u32, end: usize, owed: u32) -> u32
    requires { end < 2 ^ 32 }
    ensures { result ≡ (if owed == 0 then end else start) }
{
    if owed == 0 { end as u32 } else { start }
}

/// Appends what stands before the hits of a release.
fn append_release_head(out: &mut Vec<u8>, caller: u32, unit: u64, hits: u32)
    requires small { hits ≤ 134217728 }
    requires room { vec_len out.old + release_head_size ≤ vec_capacity out.old }
    ensures out { out.new.items ≡ out.old.items ++ release_head caller unit hits }
    ensures capacity { vec_capacity out.old ≤ vec_capacity out.new }
{
    append_bytes(out, &release_front(caller, unit, hits));
}

/// What stands before the hits of a release, for one copy.
fn release_front(caller: u32, unit: u64, hits: u32) -> [u8; 44]
    requires { hits ≤ 134217728 }
    ensures { result ≡ release_head caller unit hits }
{
    let mut front = *b"\0\0\0\0/osc/release\0\0\0\0,ihb\0\0\0\0\0\0\0\0\0\0\0\0\0\0\0\0\0\0\0\0";
    write_word(&mut front, 0, 40 + 8 * hits);
    write_word(&mut front, 28, caller);
    write_tag(&mut front, 32, unit);
    write_word(&mut front, 40, 8 * hits);
    front
}

fn append_hit(out: &mut Vec<u8>, index: u32, id: u32)
    requires room { vec_len out.old + 8 ≤ vec_capacity out.old }
    ensures out { out.new.items ≡ out.old.items ++ hit_text (record { index = index; id = id }) }
    ensures capacity { vec_capacity out.old ≤ vec_capacity out.new }
{
    append_bytes(out, &hit_bytes(index, id));
}

fn hit_bytes(index: u32, id: u32) -> [u8; 8]
    ensures { result ≡ hit_text (record { index = index; id = id }) }
{
    let mut bytes = [0; 8];
    write_word(&mut bytes, 0, index);
    write_word(&mut bytes, 4, id);
    bytes
}
