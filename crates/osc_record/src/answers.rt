// What an answer's code and numbers stand for.
ghost use Rattle.std.specs.Prelude.{◌≡◌, ℤ, option_map, IfSome};
ghost use Rattle.osc_record.specs.Reading;
ghost use Rattle.osc_record.specs.Shown.{answer_of, HasWholeHits};

use crate::event::Answer;
use osc_atoms::Room;

pub(crate) fn enrol_answer(answer: i32) -> Option<Answer<'static>>
    ensures value { option_map answer_of result ≡ Reading.enrol_answer answer }
    ensures whole { IfSome result HasWholeHits }
{
    if answer >= 0 {
        Some(Answer::Number(answer as u32))
    } else if answer == -1 {
        Some(Answer::CallersFull)
    } else {
        None
    }
}

pub(crate) fn submit_answer(
    code: u32,
    first: u64,
    second: u32,
    third: u32,
) -> Option<Answer<'static>>
    ensures value { option_map answer_of result
        ≡ Reading.submit_answer code first second third }
    ensures whole { IfSome result HasWholeHits }
{
    let need = first;
    let free = second as u64;
    match code {
        0 if third <= second => Some(Answer::Queued {
            first,
            count: second,
            late: third,
        }),
        1 if free < need && third == 0 => Some(Answer::UnitsFull(Room::new(need, free))),
        2 if free < need && third == 0 => Some(Answer::PoolFull(Room::new(need, free))),
        _ => None,
    }
}

pub(crate) fn add_answer(code: u32, first: u32, second: u32) -> Option<Answer<'static>>
    ensures value { option_map answer_of result ≡ Reading.add_answer code first second }
    ensures whole { IfSome result HasWholeHits }
{
    match code {
        0 if second == 0 => Some(Answer::Added(first)),
        1 if second == 0 => Some(Answer::Taken(first)),
        2 if second == 0 => Some(Answer::UnderMethod(first)),
        3 if first == 0 && second == 0 => Some(Answer::IsContainer),
        4 if second == 0 => Some(Answer::MethodsFull(first)),
        5 if second < first => Some(Answer::NodesFull(Room::new(first as u64, second as u64))),
        _ => None,
    }
}

pub(crate) fn remove_answer(code: u32, id: u32) -> Option<Answer<'static>>
    ensures value { option_map answer_of result ≡ Reading.remove_answer code id }
    ensures whole { IfSome result HasWholeHits }
{
    match code {
        0 => Some(Answer::Removed(id)),
        1 if id == 0 => Some(Answer::NotThere),
        _ => None,
    }
}

pub(crate) fn tick_answer(moment: u64, code: u32, clock: u64) -> Option<Answer<'static>>
    ensures value { option_map answer_of result ≡ Reading.tick_answer moment code clock }
    ensures whole { IfSome result HasWholeHits }
{
    match code {
        0 if clock == moment => Some(Answer::Ticked),
        1 => Some(Answer::ClockBack(clock)),
        _ => None,
    }
}

pub(crate) fn release_answer<'a>(unit: u64, hits: &'a [u8]) -> Option<Answer<'a>>
    ensures value { option_map answer_of result ≡ Reading.release_answer unit hits.now }
    ensures whole { IfSome result HasWholeHits }
{
    if hits.len() % 8 == 0 {
        Some(Answer::Released { unit, hits })
    } else {
        None
    }
}
