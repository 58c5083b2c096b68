//! The bytes of an entry, on their own.
ghost use Rattle.osc_model.specs.Limits.{max_recording};
ghost use Rattle.std.specs.Prelude.{◌≡◌, ◌+◌, ◌%◌, ◌≤◌, [], ◌++◌, length, IfOk};
ghost use Rattle.std.specs.Option.{option_map_or};
ghost use Rattle.std.specs.Vec.{vec_len, vec_capacity};
ghost use Rattle.osc_message.specs.Messages.{AllFit};
ghost use Rattle.osc_model.specs.Events.{release, released};
ghost use Rattle.osc_model.specs.Recordings.{IsRecordable, FitsRow, row_of, row_text, sized};
ghost use Rattle.osc_model.specs.Recordings.{release_row, entry_text, entry_size, releasing};
ghost use Rattle.osc_model.specs.Recordings.{hits_in};
ghost use Rattle.osc_record.specs.Shown.{event_of, answer_of, HasWholeHits};

use crate::entries::append_entry;
use crate::event::{Answer, Event};
use crate::message::append_message;
use crate::sizes::{ENROL_SIZE, TICK_SIZE, add_size, release_size, remove_size, submit_size};
use osc_atoms::Bytes;
use osc_message::Arg;
use std::alloc::{AllocError, Global};

/// The bytes of an entry, its size first (docs/FORMATS.md, "The recording"). An `Err` means out of
/// memory.
pub fn entry_bytes(
    alloc: Global,
    caller: u32,
    event: Event<'_>,
    answer: Answer<'_>,
) -> Result<Bytes, AllocError>
    requires lawful { IsRecordable caller (event_of event) (answer_of answer) }
    requires whole { HasWholeHits answer }
    requires small { length (entry_text caller (event_of event) (answer_of answer))
        ≤ max_recording }
    ensures { IfOk result
        (λ bytes. bytes ≡ entry_text caller (event_of event.entry) (answer_of answer.entry)) }
{
    let mut out = Vec::with_capacity(alloc, entry_size(event, answer) as usize)?;
    append_recorded(&mut out, caller, event, answer);
    Ok(Bytes::of(out))
}

/// Appends an entry of any event to bytes that have room for it.
pub fn append_recorded(out: &mut Vec<u8>, caller: u32, event: Event<'_>, answer: Answer<'_>)
    requires lawful { IsRecordable caller (event_of event) (answer_of answer) }
    requires whole { HasWholeHits answer }
    requires small { length (entry_text caller (event_of event) (answer_of answer))
        ≤ max_recording }
    requires room { vec_len out.old + length (entry_text caller (event_of event) (answer_of answer))
        ≤ vec_capacity out.old }
    ensures out { out.new.items ≡ out.old.items
        ++ entry_text caller (event_of event.entry) (answer_of answer.entry) }
    ensures capacity { vec_capacity out.old ≤ vec_capacity out.new }
{
    match event {
        Event::Release => release_entry(out, caller, answer),
        _ => append_entry(out, caller, event, answer),
    }
}

/// How many bytes an entry has.
fn entry_size(event: Event<'_>, answer: Answer<'_>) -> u64
    requires { entry_size (event_of event) (answer_of answer) ≤ max_recording }
    ensures { result ≡ entry_size (event_of event.entry) (answer_of answer.entry) }
{
    match event {
        Event::Enrol => ENROL_SIZE,
        Event::Submit(packet) => submit_size(packet),
        Event::Add(address) => add_size(address),
        Event::Remove(address) => remove_size(address),
        Event::Tick(_) => TICK_SIZE,
        Event::Release => release_size(hits(answer)),
    }
}

/// How many hits a release has.
fn hits(answer: Answer<'_>) -> u64
    ensures { result ≡ length (option_map_or (λ r. r.1) (releasing (answer_of answer.entry)) []) }
{
    match answer {
        Answer::Released { hits, .. } => hits.len() as u64 / 8,
        _ => 0,
    }
}

fn release_entry(out: &mut Vec<u8>, caller: u32, answer: Answer<'_>)
    requires fits { FitsRow (row_of caller release (answer_of answer)) }
    requires whole { HasWholeHits answer }
    requires small { length (entry_text caller release (answer_of answer)) ≤ max_recording }
    requires room { vec_len out.old + length (entry_text caller release (answer_of answer))
        ≤ vec_capacity out.old }
    ensures out { out.new.items ≡ out.old.items
        ++ entry_text caller release (answer_of answer.entry) }
    ensures capacity { vec_capacity out.old ≤ vec_capacity out.new }
{
    match answer {
        Answer::Released { unit, hits } => append_released(out, caller, unit, hits),
        _ => unreachable!(),
    }
}

/// Appends a release of a unit with the hits that stand in these bytes.
fn append_released(out: &mut Vec<u8>, caller: u32, unit: u64, hits: &[u8])
    requires fits { FitsRow (row_of caller release (released unit (hits_in hits.now))) }
    requires whole { length hits.now % 8 ≡ 0 }
    requires small { length (entry_text caller release (released unit (hits_in hits.now)))
        ≤ max_recording }
    requires room { vec_len out.old + length
        (entry_text caller release (released unit (hits_in hits.now))) ≤ vec_capacity out.old }
    ensures out { out.new.items ≡ out.old.items
        ++ entry_text caller release (released unit (hits_in hits.now)) }
    ensures capacity { vec_capacity out.old ≤ vec_capacity out.new }
{
    append_release(out, caller, unit, hits);
}

fn append_release(out: &mut Vec<u8>, caller: u32, unit: u64, hits: &[u8])
    requires fits { AllFit (release_row caller unit hits.now).arguments }
    requires small { length (row_text (release_row caller unit hits.now)) ≤ max_recording }
    requires room { vec_len out.old + length (sized (row_text (release_row caller unit hits.now)))
        ≤ vec_capacity out.old }
    ensures out { out.new.items ≡ out.old.items
        ++ sized (row_text (release_row caller unit hits.now)) }
    ensures capacity { vec_capacity out.old ≤ vec_capacity out.new }
{
    append_message(
        out,
        b"/osc/release",
        b",ihb",
        &[
            Arg::Int(caller as i32),
            Arg::Long(unit as i64),
            Arg::Blob(hits),
        ],
    );
}
