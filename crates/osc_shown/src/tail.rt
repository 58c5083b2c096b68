//! What happened to a message.
ghost use Rattle.std.specs.Prelude.{◌≡◌, ◌++◌, [], OnOk, IfOk, Some, codes, string_bytes};
ghost use Rattle.std.specs.Net.Text.{socket_v4_text};
ghost use Rattle.osc_shown.specs.Tails.{comma, joined, from_words, late_words, wait_words, goes};
ghost use Rattle.osc_shown.specs.Tails.{goes_by, called_mark, due_mark, mark_of, outcome, tail_of};
ghost use Rattle.osc_shown.specs.Tails.{unknown_words, waits};

use crate::bytes::add;
use crate::destination::{add_going, count_hits};
use crate::quoted::add_shown;
use crate::time::add_span;
use crate::{Answered, Arrival, Route};
use osc_message::Message;
use std::alloc::{AllocError, Global};
use std::net::SocketAddrV4;

/// The tail of a message of a unit with this tag that isn't called yet, or never. An `Err` means out
/// of memory.
pub fn answer_tail(
    alloc: Global,
    arrival: Arrival,
    answer: Answered,
    tag: u64,
) -> Result<Vec<u8>, AllocError>
    ensures { IfOk result (λ tail. tail.items ≡ tail_of arrival answer tag []) }
{
    let mut tail = Vec::new(alloc);
    add_tail(&mut tail, arrival, answer, tag, b"")?;
    Ok(tail)
}

/// Adds what happened to a message of a unit with this tag, which goes `there` where it is called,
/// and who has sent it.
pub(crate) fn add_tail(
    out: &mut Vec<u8>,
    arrival: Arrival,
    answer: Answered,
    tag: u64,
    there: &[u8],
) -> Result<(), AllocError>
    requires { out.old.items ≡ [] }
    ensures { OnOk result (out.new.items ≡ tail_of arrival answer tag there.now) }
{
    add_outcome(out, answer, arrival.moment, tag, there)?;
    add_sender(out, arrival.sender)
}

fn add_outcome(
    out: &mut Vec<u8>,
    answer: Answered,
    moment: Option<u64>,
    tag: u64,
    there: &[u8],
) -> Result<(), AllocError>
    requires { out.old.items ≡ [] }
    ensures { OnOk result (out.new.items ≡ outcome answer moment tag there.now) }
{
    match answer {
        Answered::Due => add(out, there),
        Answered::Late => add_late_there(out, moment, tag, there),
        Answered::Waiting => Ok(()),
        Answered::Discarded => add_discarded(out, moment, tag),
        Answered::UnitsFull => add(out, b"refused, the queue is full"),
        Answered::PoolFull => add(out, b"refused, no room for its messages"),
        Answered::RecordFull => add(out, b"refused, the recording is full"),
    }
}

fn add_late_there(
    out: &mut Vec<u8>,
    moment: Option<u64>,
    tag: u64,
    there: &[u8],
) -> Result<(), AllocError>
    requires { out.old.items ≡ [] }
    ensures { OnOk result (out.new.items ≡ joined there.now (late_words moment tag)) }
{
    add(out, there)?;
    add_comma(out)?;
    add_late(out, moment, tag)
}

fn add_discarded(out: &mut Vec<u8>, moment: Option<u64>, tag: u64) -> Result<(), AllocError>
    ensures { OnOk result (out.new.items
        ≡ out.old.items ++ (codes "discarded, " ++ late_words moment tag)) }
{
    add(out, b"discarded, ")?;
    add_late(out, moment, tag)
}

/// Adds how much later it came than its time tag says.
pub(crate) fn add_late(out: &mut Vec<u8>, moment: Option<u64>, tag: u64) -> Result<(), AllocError>
    ensures { OnOk result (out.new.items ≡ out.old.items ++ late_words moment tag) }
{
    match moment {
        Some(moment) => add_late_by(out, moment, tag),
        None => add(out, b"late"),
    }
}

fn add_late_by(out: &mut Vec<u8>, moment: u64, tag: u64) -> Result<(), AllocError>
    ensures { OnOk result (out.new.items
        ≡ out.old.items ++ late_words (Some moment) tag) }
{
    add(out, b"late by ")?;
    add_span(out, tag, moment)
}

/// Adds how long it waits from a moment on.
pub(crate) fn add_wait(out: &mut Vec<u8>, moment: Option<u64>, tag: u64) -> Result<(), AllocError>
    ensures { OnOk result (out.new.items ≡ out.old.items ++ wait_words moment tag) }
{
    match moment {
        Some(moment) => add_wait_from(out, moment, tag),
        None => Ok(()),
    }
}

fn add_wait_from(out: &mut Vec<u8>, moment: u64, tag: u64) -> Result<(), AllocError>
    ensures { OnOk result (out.new.items
        ≡ out.old.items ++ wait_words (Some moment) tag) }
{
    add(out, b", in ")?;
    add_span(out, moment, tag)
}

/// Adds a comma, if there is something before it.
pub(crate) fn add_comma(out: &mut Vec<u8>) -> Result<(), AllocError>
    ensures { OnOk result (out.new.items ≡ comma out.old.items) }
{
    if out.is_empty() {
        return Ok(());
    }
    add(out, b", ")
}

/// Adds who has sent it, after a comma if there is something before it.
pub(crate) fn add_sender(out: &mut Vec<u8>, sender: Option<SocketAddrV4>) -> Result<(), AllocError>
    ensures { OnOk result (out.new.items ≡ joined out.old.items (from_words sender)) }
{
    match sender {
        Some(sender) => add_known_sender(out, sender),
        None => Ok(()),
    }
}

fn add_known_sender(out: &mut Vec<u8>, sender: SocketAddrV4) -> Result<(), AllocError>
    ensures { OnOk result (out.new.items ≡ joined out.old.items (from_words (Some sender))) }
{
    let alloc: Global = *out.allocator();
    add_comma(out)?;
    add(out, b"from ")?;
    add(out, sender_text(alloc, sender)?.as_bytes())
}

fn sender_text(alloc: Global, sender: SocketAddrV4) -> Result<String, AllocError>
    ensures { IfOk result (λ text. string_bytes text ≡ socket_v4_text sender) }
{
    format!(in alloc; "{sender}")
}

/// Adds where a message goes; with an unknown tag it calls no method.
pub(crate) fn add_goes(
    out: &mut Vec<u8>,
    whole: bool,
    message: &Message<'_>,
    routes: &[Route],
) -> Result<(), AllocError>
    ensures { OnOk result (out.new.items ≡ out.old.items ++ goes whole message.now routes.now) }
{
    add_goes_by(out, whole, message.unknown(), message, routes)
}

fn add_goes_by(
    out: &mut Vec<u8>,
    whole: bool,
    unknown: Option<u8>,
    message: &Message<'_>,
    routes: &[Route],
) -> Result<(), AllocError>
    ensures { OnOk result (out.new.items
        ≡ out.old.items ++ goes_by whole unknown message.now routes.now) }
{
    match unknown {
        Some(tag) => add_unknown(out, tag),
        None => add_going(out, whole, &message.pattern(), routes),
    }
}

pub(crate) fn add_unknown(out: &mut Vec<u8>, tag: u8) -> Result<(), AllocError>
    ensures { OnOk result (out.new.items ≡ out.old.items ++ unknown_words tag) }
{
    add(out, b"unknown type ")?;
    add_shown(out, tag)?;
    add(out, b", so it calls nothing")
}

/// The mark of a message that is called: `?` where it calls no method.
pub(crate) fn due_mark(message: &Message<'_>, routes: &[Route]) -> u8
    ensures { result ≡ due_mark message.now routes.now }
{
    called_mark(message.unknown(), count_hits(&message.pattern(), routes))
}

pub(crate) fn called_mark(unknown: Option<u8>, count: usize) -> u8
    ensures { result ≡ called_mark unknown count }
{
    match unknown {
        Some(_) => b'?',
        None if count == 0 => b'?',
        None => b' ',
    }
}

/// The mark by the answer, where `called` is that of a message that is called.
pub(crate) fn mark_of(answer: Answered, called: u8) -> u8
    ensures { result ≡ mark_of answer called }
{
    match answer {
        Answered::Due | Answered::Late => called,
        Answered::Waiting => b'~',
        _ => b'!',
    }
}

/// Whether the answer says that a unit waits.
pub(crate) fn waits(answer: Answered) -> bool
    ensures { result ≡ waits answer }
{
    match answer {
        Answered::Waiting => true,
        _ => false,
    }
}
