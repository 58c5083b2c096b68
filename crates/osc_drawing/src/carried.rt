// What a message carries that is drawn.
ghost use Rattle.std.specs.Prelude.{◌≡◌, IfOk};
ghost use Rattle.osc_atoms.specs.declared.limits.TheConstants.{MAX_BYTES};
ghost use Rattle.osc_message.specs.Left.{left};
ghost use Rattle.osc_message.specs.Shown.{shown};
ghost use Rattle.osc_drawing.specs.Carried as spec;

use crate::number::{ONE, ZERO, of_double, of_float, of_integer, of_long};
use crate::words::text_words;
use osc_atoms::{Bytes, MAX_BYTES};
use osc_message::{Arg, Args, Message};
use osc_picture::Sort;
use std::alloc::{AllocError, Global};

/// One number, one text, or nothing that is drawn.
#[derive(Drop)]
pub(crate) struct Carried {
    pub(crate) sort: Sort,
    pub(crate) number: u64,
    pub(crate) words: Bytes,
}

pub(crate) fn nothing(alloc: Global) -> Carried
    ensures { result ≡ spec.nothing }
{
    Carried {
        sort: Sort::Marks,
        number: 0,
        words: Bytes::of(Vec::new(alloc)),
    }
}

fn a_number(alloc: Global, number: u64) -> Carried
    ensures { result ≡ spec.a_number number }
{
    Carried {
        sort: Sort::Curve,
        number,
        words: Bytes::of(Vec::new(alloc)),
    }
}

fn some_number(alloc: Global, number: Option<u64>) -> Carried
    ensures { result ≡ spec.some_number number }
{
    match number {
        Some(number) => a_number(alloc, number),
        None => nothing(alloc),
    }
}

/// What a lone argument carries.
fn carried_by(alloc: Global, argument: Arg<'_>) -> Result<Carried, AllocError>
    ensures { IfOk result (λ carried. carried ≡ spec.carried_by (shown argument.entry)) }
{
    Ok(match argument {
        Arg::Int(number) => a_number(alloc, of_integer(number.cast_unsigned())),
        Arg::Long(number) => a_number(alloc, of_long(number.cast_unsigned())),
        Arg::Float(bits) => some_number(alloc, of_float(bits)),
        Arg::Double(bits) => some_number(alloc, of_double(bits)),
        Arg::True => a_number(alloc, ONE),
        Arg::False => a_number(alloc, ZERO),
        Arg::Str(bytes) | Arg::Symbol(bytes) => a_text(alloc, bytes)?,
        _ => nothing(alloc),
    })
}

fn a_text(alloc: Global, bytes: &[u8]) -> Result<Carried, AllocError>
    ensures { IfOk result (λ carried. carried
        ≡ spec.a_text (spec.shortened (spec.as_chars bytes.now))) }
{
    Ok(Carried {
        sort: Sort::Texts,
        number: 0,
        words: text_words(alloc, bytes)?,
    })
}

/// What arguments carry: something only where there is one.
fn carried_in(alloc: Global, arguments_left: Args<'_>) -> Result<Carried, AllocError>
    ensures { IfOk result (λ carried. carried ≡ spec.carried_in (left arguments_left.entry)) }
{
    let mut arguments = arguments_left;
    let Some(first) = arguments.next() else {
        return Ok(nothing(alloc));
    };
    if arguments.next().is_some() {
        return Ok(nothing(alloc));
    }
    carried_by(alloc, first)
}

/// What a message carries.
pub(crate) fn carried_of(alloc: Global, message: &[u8]) -> Result<Carried, AllocError>
    ensures { IfOk result (λ carried. carried ≡ spec.carried_of message.now) }
{
    match Message::check(message, MAX_BYTES) {
        Ok(message) => carried_in(alloc, message.args()),
        Err(_) => Ok(nothing(alloc)),
    }
}
