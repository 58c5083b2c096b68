// The lines of methods that come and go, of ticks, and of callers.
ghost use Rattle.std.specs.Prelude.{◌≡◌, ◌++◌, OnOk, IfOk, codes, option_map, string_bytes};
ghost use Rattle.std.specs.Fmt.{decimal};
ghost use Rattle.osc_model.specs.Events as model;
ghost use Rattle.osc_record.specs.Shown.{answer_of};
ghost use Rattle.osc_report.specs.Notes as spec;

use crate::Options;
use crate::front::Front;
use crate::stretch::shown_moment;
use osc_record::Answer;
use osc_shown::{Head, WallClock, note_line, number_words, time_words};
use osc_story::{Registered, address_of};
use std::alloc::{AllocError, Global};

/// Adds a line of words with a tail.
fn add_note(
    out: &mut Vec<u8>,
    front: Front,
    mark: u8,
    words: &[u8],
    tail: &[u8],
) -> Result<(), AllocError>
    ensures { OnOk result (out.new.items
        ≡ out.old.items ++ spec.note front mark words.now tail.now) }
{
    let head = Head {
        look: front.look,
        moment: shown_moment(front.moment),
        mark,
        join: b' ',
    };
    note_line(out, head, words, tail)
}

/// Adds the line of an address, unless it is left out.
fn add_named(
    out: &mut Vec<u8>,
    options: &Options,
    front: Front,
    mark: u8,
    address: &[u8],
    tail: &[u8],
) -> Result<(), AllocError>
    ensures { OnOk result (out.new.items
        ≡ out.old.items ++ spec.named_note options.now front mark address.now tail.now) }
{
    if !options.has_named(address) {
        return Ok(());
    }
    add_note(out, front, mark, address, tail)
}

/// Adds a line that has no address, unless it is left out.
pub(crate) fn add_unnamed(
    out: &mut Vec<u8>,
    options: &Options,
    front: Front,
    mark: u8,
    words: &[u8],
    tail: &[u8],
) -> Result<(), AllocError>
    ensures { OnOk result (out.new.items
        ≡ out.old.items ++ spec.unnamed_note options.now front mark words.now tail.now) }
{
    if !options.has_unnamed() {
        return Ok(());
    }
    add_note(out, front, mark, words, tail)
}

/// Adds a line that stands only where ticks are shown.
fn add_tick_note(
    out: &mut Vec<u8>,
    options: &Options,
    front: Front,
    words: &[u8],
) -> Result<(), AllocError>
    ensures { OnOk result (out.new.items
        ≡ out.old.items ++ spec.tick_note options.now front words.now) }
{
    if !options.ticks {
        return Ok(());
    }
    add_unnamed(out, options, front, b'.', words, b"")
}

/// Adds the line of a new caller.
pub(crate) fn add_enrol(
    out: &mut Vec<u8>,
    options: &Options,
    front: Front,
    answer: Answer<'_>,
) -> Result<(), AllocError>
    ensures { OnOk result (out.new.items
        ≡ out.old.items ++ spec.enrol_text options.now front (answer_of answer.entry)) }
{
    match answer {
        Answer::Number(number) => add_caller(out, options, front, number),
        Answer::CallersFull => add_tick_note(out, options, front, b"no more callers"),
        _ => Ok(()),
    }
}

fn add_caller(
    out: &mut Vec<u8>,
    options: &Options,
    front: Front,
    number: u32,
) -> Result<(), AllocError>
    ensures { OnOk result (out.new.items
        ≡ out.old.items ++ spec.tick_note options.now front (codes "caller " ++ decimal number)) }
{
    let alloc: Global = *out.allocator();
    let words = caller_words(alloc, number)?;
    add_tick_note(out, options, front, words.as_bytes())
}

fn caller_words(alloc: Global, number: u32) -> Result<String, AllocError>
    ensures { IfOk result (λ words. string_bytes words ≡ codes "caller " ++ decimal number) }
{
    format!(in alloc; "caller {number}")
}

/// Adds the line of an address to which a method was to be added.
pub(crate) fn add_add(
    out: &mut Vec<u8>,
    options: &Options,
    front: Front,
    methods: &[Registered],
    address: &[u8],
    answer: Answer<'_>,
) -> Result<(), AllocError>
    ensures { OnOk result (out.new.items ≡ out.old.items
        ++ spec.add_text options.now front methods.now address.now (answer_of answer.entry)) }
{
    if let Answer::Added(_) = answer {
        return add_named(out, options, front, b'+', address, b"");
    }
    let alloc: Global = *out.allocator();
    match why_not(alloc, methods, answer)? {
        Some(why) => add_named(out, options, front, b'!', address, &why),
        None => Ok(()),
    }
}

/// Why a method wasn't added, where it wasn't.
fn why_not(
    alloc: Global,
    methods: &[Registered],
    answer: Answer<'_>,
) -> Result<Option<Vec<u8>>, AllocError>
    ensures { IfOk result (λ why. option_map (λ words. words.items) why
        ≡ spec.why_not methods.now (answer_of answer.entry)) }
{
    let words = match answer {
        Answer::Taken(_) => Vec::from_slice(alloc, b"not added, there is a method already")?,
        Answer::UnderMethod(id) => under_words(alloc, methods, id)?,
        Answer::IsContainer => Vec::from_slice(alloc, b"not added, others lie under it")?,
        Answer::MethodsFull(limit) => full_words(alloc, limit)?,
        Answer::NodesFull(_) => Vec::from_slice(alloc, b"not added, the tree has no room")?,
        _ => return Ok(None),
    };
    Ok(Some(words))
}

fn under_words(alloc: Global, methods: &[Registered], id: u32) -> Result<Vec<u8>, AllocError>
    ensures { IfOk result (λ words. words.items ≡ spec.under_words methods.now id) }
{
    let mut words = Vec::from_slice(alloc, b"not added, it lies under ")?;
    words.extend_from_slice(address_of(methods, id).unwrap_or(b"?"))?;
    Ok(words)
}

fn full_words(alloc: Global, limit: u32) -> Result<Vec<u8>, AllocError>
    ensures { IfOk result (λ words. words.items ≡ spec.full_words limit) }
{
    let mut words = Vec::from_slice(alloc, b"not added, there are ")?;
    words.extend_from_slice(&number_words(alloc, u64::from(limit))?)?;
    words.extend_from_slice(b" methods, as many as may be")?;
    Ok(words)
}

/// Adds the line of an address whose method was to be removed.
pub(crate) fn add_remove(
    out: &mut Vec<u8>,
    options: &Options,
    front: Front,
    address: &[u8],
    answer: Answer<'_>,
) -> Result<(), AllocError>
    ensures { OnOk result (out.new.items ≡ out.old.items
        ++ spec.remove_text options.now front address.now (answer_of answer.entry)) }
{
    match answer {
        Answer::Removed(_) => add_named(out, options, front, b'-', address, b""),
        Answer::NotThere => add_not_there(out, options, front, address),
        _ => Ok(()),
    }
}

fn add_not_there(
    out: &mut Vec<u8>,
    options: &Options,
    front: Front,
    address: &[u8],
) -> Result<(), AllocError>
    ensures { OnOk result (out.new.items ≡ out.old.items
        ++ spec.named_note options.now front 33 address.now
        (codes "not removed, no method is there")) }
{
    add_named(
        out,
        options,
        front,
        b'!',
        address,
        b"not removed, no method is there",
    )
}

/// Adds the line of a tick.
pub(crate) fn add_tick(
    out: &mut Vec<u8>,
    options: &Options,
    front: Front,
    now: u64,
    answer: Answer<'_>,
) -> Result<(), AllocError>
    ensures { OnOk result (out.new.items ≡ out.old.items
        ++ spec.tick_text options.now front now (answer_of answer.entry)) }
{
    match answer {
        Answer::Ticked => add_tick_note(out, options, front, b"tick"),
        Answer::ClockBack(_) => add_clock_back(out, options, front, now),
        _ => Ok(()),
    }
}

fn add_clock_back(
    out: &mut Vec<u8>,
    options: &Options,
    front: Front,
    now: u64,
) -> Result<(), AllocError>
    ensures { OnOk result (out.new.items
        ≡ out.old.items ++ spec.clock_back_text options.now front now) }
{
    let alloc: Global = *out.allocator();
    let words = back_words(alloc, front.look.clock, now)?;
    let tail = b"it stays where it was";
    add_unnamed(out, options, front, b'!', &words, tail)
}

fn back_words(alloc: Global, clock: WallClock, now: u64) -> Result<Vec<u8>, AllocError>
    ensures { IfOk result (λ words. words.items ≡ spec.back_words clock now) }
{
    let mut words = Vec::from_slice(alloc, b"the clock went back to ")?;
    words.extend_from_slice(&time_words(alloc, clock, now)?)?;
    Ok(words)
}
