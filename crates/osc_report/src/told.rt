// The lines of a unit's messages, when it is called, and when it waits at the end.
ghost use Rattle.std.specs.Prelude.{◌≡◌, ◌++◌, OnOk, IfOk};
ghost use Rattle.std.specs.List.{list_any};
ghost use Rattle.osc_shown.specs.Called.{IsQueuedTail};
ghost use Rattle.osc_report.specs.Choices.{is_call_named, selects_call};
ghost use Rattle.osc_report.specs.Moments.{shown_moment};
ghost use Rattle.osc_report.specs.Selections.{selects};
ghost use Rattle.osc_report.specs.Units as spec;
ghost use Rattle.osc_report.specs.Told.{told_in};
ghost use Rattle.osc_report.specs.Units.{AddsChosen, AddsToldLine, AddsToldLines, IsTell};

use crate::front::Front;
use crate::stretch::shown_moment;
use crate::{Options, Selector};
use osc_message::Message;
use osc_shown::{Head, Place, called_mark, called_tail, join_of, message_line, queued_tail};
use osc_story::{Call, KeptMessage};
use std::alloc::{AllocError, Global};

/// What is told of a unit's messages.
#[derive(Clone, Copy)]
pub(crate) enum Told<'a> {
    /// They are called, and make these calls; late for this time tag, where it came late.
    Called {
        calls: &'a [Call<'a>],
        late: Option<u64>,
    },
    /// They aren't called yet, and are due from a moment on, which has come or hasn't.
    Queued {
        due: u64,
        is_due: bool,
    },
}

/// Adds a line for each message that is shown.
pub(crate) fn add_all_told(
    out: &mut Vec<u8>,
    options: &Options,
    front: Front,
    told: Told<'_>,
    messages: &[KeptMessage],
) -> Result<(), AllocError>
    ensures { OnOk result (AddsToldLines options.now front (told_in told.entry) 0 messages.now
        out.old.items out.new.items) }
{
    let mut index = 0;
    let mut rest = messages;
    while let Some((message, others)) = rest.split_first() {
        let join = join_of(index == 0, others.is_empty());
        add_told(out, options, front, told, &message.message(), (index, join))?;
        index += 1;
        rest = others;
    }
    Ok(())
}

/// Adds the line of the message at this index, with this join, if it is shown.
fn add_told(
    out: &mut Vec<u8>,
    options: &Options,
    front: Front,
    told: Told<'_>,
    message: &Message<'_>,
    place: (usize, u8),
) -> Result<(), AllocError>
    ensures { OnOk result (AddsToldLine options.now front (told_in told.entry) place.0 place.1
        message.now out.old.items out.new.items) }
{
    let alloc: Global = *out.allocator();
    let (mark, tail) = tell(alloc, front, told, message, place.0)?;
    let head = Head {
        look: front.look,
        moment: shown_moment(front.moment),
        mark,
        join: place.1,
    };
    let is_shown = is_told(alloc, options, told, message, place.0)?;
    add_chosen(out, is_shown, head, message, &tail)
}

/// Adds the line of a message, if it is shown.
pub(crate) fn add_chosen(
    out: &mut Vec<u8>,
    is_shown: bool,
    head: Head,
    message: &Message<'_>,
    tail: &[u8],
) -> Result<(), AllocError>
    ensures { OnOk result (AddsChosen is_shown head message.now tail.now out.old.items
        out.new.items) }
{
    if is_shown {
        return message_line(out, head, message, tail);
    }
    Ok(())
}

/// Whether the line of the message at this index is shown.
fn is_told(
    alloc: Global,
    options: &Options,
    told: Told<'_>,
    message: &Message<'_>,
    index: usize,
) -> Result<bool, AllocError>
    ensures { IfOk result
        (λ is_told. is_told
        ≡ spec.is_told options.now.only (told_in told.entry) index message.now) }
{
    match told {
        Told::Called { calls, .. } => is_call_named(alloc, options, calls, message, index),
        Told::Queued { .. } => Ok(options.has_named(message.pattern().bytes())),
    }
}

fn is_call_named(
    alloc: Global,
    options: &Options,
    calls: &[Call<'_>],
    message: &Message<'_>,
    index: usize,
) -> Result<bool, AllocError>
    ensures { IfOk result (λ named. named
        ≡ is_call_named options.now.only message.now (spec.places_in index calls.now)) }
{
    match &options.only {
        Some(selector) => {
            let places = places_of(alloc, calls, index)?;
            Ok(selects_call(selector, message, &places))
        }
        None => Ok(true),
    }
}

/// Whether a message called an address that is selected, or has such a pattern where it called none.
fn selects_call(selector: &Selector, message: &Message<'_>, places: &[Place<'_>]) -> bool
    ensures { result ≡ selects_call selector.now message.now places.now }
{
    if places.is_empty() {
        return selector.selects(message.pattern().bytes());
    }
    selects_any(selector, places)
}

fn selects_any(selector: &Selector, places: &[Place<'_>]) -> bool
    ensures { result ≡ list_any (selects selector.now) places.now }
{
    places.iter().any(|place| selector.selects(place.bytes()))
}

/// The mark and the tail of the message at this index.
fn tell(
    alloc: Global,
    front: Front,
    told: Told<'_>,
    message: &Message<'_>,
    index: usize,
) -> Result<(u8, Vec<u8>), AllocError>
    ensures { IfOk result (λ tell. IsTell front (told_in told.entry) index message.now
        tell.0 tell.1.items) }
{
    match told {
        Told::Called { calls, late } => tell_called(alloc, front, calls, late, message, index),
        Told::Queued { due, is_due } => Ok((b'~', tell_queued(alloc, front, due, is_due)?)),
    }
}

fn tell_queued(alloc: Global, front: Front, due: u64, is_due: bool) -> Result<Vec<u8>, AllocError>
    ensures { IfOk result (λ tail. IsQueuedTail front.look.clock (shown_moment front.moment) due
        is_due tail.items) }
{
    let moment = shown_moment(front.moment);
    queued_tail(alloc, front.look.clock, moment, due, is_due)
}

fn tell_called(
    alloc: Global,
    front: Front,
    calls: &[Call<'_>],
    late: Option<u64>,
    message: &Message<'_>,
    index: usize,
) -> Result<(u8, Vec<u8>), AllocError>
    ensures mark { IfOk result
        (λ tell. tell.0 ≡ spec.mark_of_called calls.now index message.now) }
    ensures tail { IfOk result
        (λ tell. tell.1.items ≡ spec.tail_of_called front late calls.now index message.now) }
{
    let places = places_of(alloc, calls, index)?;
    let mark = called_mark(message, places.len());
    let moment = shown_moment(front.moment);
    let tail = called_tail(alloc, front.look, moment, late, message, &places)?;
    Ok((mark, tail))
}

/// The places that a message called, in their order.
fn places_of<'a>(
    alloc: Global,
    calls: &[Call<'a>],
    index: usize,
) -> Result<Vec<Place<'a>>, AllocError>
    ensures { IfOk result (λ places. places.items ≡ spec.places_in index calls.now) }
{
    let mut places = Vec::new(alloc);
    for call in calls {
        add_place(&mut places, call, index)?;
    }
    Ok(places)
}

/// Adds the place of a call, if it is one of the message.
fn add_place<'a>(
    places: &mut Vec<Place<'a>>,
    call: &Call<'a>,
    index: usize,
) -> Result<(), AllocError>
    ensures { OnOk result (places.new.items
        ≡ places.old.items ++ spec.place_in index call.now) }
{
    if call.index() as usize == index {
        places.push(Place::at(call.address()))?;
    }
    Ok(())
}
