// Entries, appended to bytes that have room for them.
ghost use Rattle.osc_model.specs.Limits.{max_recording};
ghost use Rattle.std.specs.Prelude.{◌≡◌, ◌≢◌, ◌+◌, ◌≤◌, ◌++◌, length};
ghost use Rattle.std.specs.Vec.{vec_len, vec_capacity};
ghost use Rattle.osc_model.specs.Events.{enrol, submit, add, remove, tick, release};
ghost use Rattle.osc_model.specs.Recordings.{entry_text, FitsRow, row_of};
ghost use Rattle.osc_record.specs.Shown.{event_of, answer_of};

use crate::event::{Answer, Event};
use crate::rows::{Numbers, append_add, append_enrol, append_remove, append_submit, append_tick};

/// Appends an entry of any event but a release.
#[inline(always)]
pub(crate) fn append_entry(out: &mut Vec<u8>, caller: u32, event: Event<'_>, answer: Answer<'_>)
    requires no_release { event_of event ≢ release }
    requires fits { FitsRow (row_of caller (event_of event) (answer_of answer)) }
    requires small { length (entry_text caller (event_of event) (answer_of answer))
        ≤ max_recording }
    requires room { vec_len out.old + length (entry_text caller (event_of event) (answer_of answer))
        ≤ vec_capacity out.old }
    ensures out { out.new.items ≡ out.old.items
        ++ entry_text caller (event_of event.entry) (answer_of answer.entry) }
    ensures capacity { vec_capacity out.old ≤ vec_capacity out.new }
{
    match event {
        Event::Enrol => enrol_entry(out, caller, answer),
        Event::Submit(packet) => submit_entry(out, caller, packet, answer),
        Event::Add(address) => add_entry(out, caller, address, answer),
        Event::Remove(address) => remove_entry(out, caller, address, answer),
        Event::Tick(moment) => tick_entry(out, caller, moment, answer),
        Event::Release => unreachable!(),
    }
}

fn enrol_entry(out: &mut Vec<u8>, caller: u32, answer: Answer<'_>)
    requires fits { FitsRow (row_of caller enrol (answer_of answer)) }
    requires room { vec_len out.old + length (entry_text caller enrol (answer_of answer))
        ≤ vec_capacity out.old }
    ensures out { out.new.items ≡ out.old.items
        ++ entry_text caller enrol (answer_of answer.entry) }
    ensures capacity { vec_capacity out.old ≤ vec_capacity out.new }
{
    match answer {
        Answer::Number(number) => append_enrol(out, caller, number as i32),
        Answer::CallersFull => append_enrol(out, caller, -1),
        _ => unreachable!(),
    }
}

#[inline(always)]
fn submit_entry(out: &mut Vec<u8>, caller: u32, packet: &[u8], answer: Answer<'_>)
    requires fits { FitsRow (row_of caller (submit packet.now) (answer_of answer)) }
    requires small { length (entry_text caller (submit packet.now) (answer_of answer))
        ≤ max_recording }
    requires room { vec_len out.old + length
        (entry_text caller (submit packet.now) (answer_of answer)) ≤ vec_capacity out.old }
    ensures out { out.new.items ≡ out.old.items
        ++ entry_text caller (submit packet.now) (answer_of answer.entry) }
    ensures capacity { vec_capacity out.old ≤ vec_capacity out.new }
{
    match answer {
        Answer::Queued { first, count, late } => {
            let numbers = Numbers {
                code: 0,
                first,
                second: count,
                third: late,
            };
            append_submit(out, caller, packet, numbers)
        }
        Answer::UnitsFull(room) => {
            let numbers = Numbers {
                code: 1,
                first: room.need,
                second: room.free as u32,
                third: 0,
            };
            append_submit(out, caller, packet, numbers)
        }
        Answer::PoolFull(room) => {
            let numbers = Numbers {
                code: 2,
                first: room.need,
                second: room.free as u32,
                third: 0,
            };
            append_submit(out, caller, packet, numbers)
        }
        _ => unreachable!(),
    }
}

fn add_entry(out: &mut Vec<u8>, caller: u32, address: &[u8], answer: Answer<'_>)
    requires fits { FitsRow (row_of caller (add address.now) (answer_of answer)) }
    requires small { length (entry_text caller (add address.now) (answer_of answer))
        ≤ max_recording }
    requires room { vec_len out.old + length
        (entry_text caller (add address.now) (answer_of answer)) ≤ vec_capacity out.old }
    ensures out { out.new.items ≡ out.old.items
        ++ entry_text caller (add address.now) (answer_of answer.entry) }
    ensures capacity { vec_capacity out.old ≤ vec_capacity out.new }
{
    match answer {
        Answer::Added(id) => append_add(out, caller, address, 0, id, 0),
        Answer::Taken(id) => append_add(out, caller, address, 1, id, 0),
        Answer::UnderMethod(id) => append_add(out, caller, address, 2, id, 0),
        Answer::IsContainer => append_add(out, caller, address, 3, 0, 0),
        Answer::MethodsFull(limit) => append_add(out, caller, address, 4, limit, 0),
        Answer::NodesFull(room) => {
            append_add(out, caller, address, 5, room.need as u32, room.free as u32)
        }
        _ => unreachable!(),
    }
}

fn remove_entry(out: &mut Vec<u8>, caller: u32, address: &[u8], answer: Answer<'_>)
    requires fits { FitsRow (row_of caller (remove address.now) (answer_of answer)) }
    requires small { length (entry_text caller (remove address.now) (answer_of answer))
        ≤ max_recording }
    requires room { vec_len out.old + length
        (entry_text caller (remove address.now) (answer_of answer)) ≤ vec_capacity out.old }
    ensures out { out.new.items ≡ out.old.items
        ++ entry_text caller (remove address.now) (answer_of answer.entry) }
    ensures capacity { vec_capacity out.old ≤ vec_capacity out.new }
{
    match answer {
        Answer::Removed(id) => append_remove(out, caller, address, 0, id),
        Answer::NotThere => append_remove(out, caller, address, 1, 0),
        _ => unreachable!(),
    }
}

fn tick_entry(out: &mut Vec<u8>, caller: u32, moment: u64, answer: Answer<'_>)
    requires fits { FitsRow (row_of caller (tick moment) (answer_of answer)) }
    requires room { vec_len out.old + length (entry_text caller (tick moment) (answer_of answer))
        ≤ vec_capacity out.old }
    ensures out { out.new.items ≡ out.old.items
        ++ entry_text caller (tick moment) (answer_of answer.entry) }
    ensures capacity { vec_capacity out.old ≤ vec_capacity out.new }
{
    match answer {
        Answer::Ticked => append_tick(out, caller, moment, 0, moment),
        Answer::ClockBack(clock) => append_tick(out, caller, moment, 1, clock),
        _ => unreachable!(),
    }
}
