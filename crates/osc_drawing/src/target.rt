// Which methods messages are to.
ghost use Rattle.std.specs.Prelude.{◌≡◌, ◌++◌, ◌<◌, OnOk, IfOk};
ghost use Rattle.osc_pattern.specs.Patterns.{matches};
ghost use Rattle.osc_drawing.specs.Marks as spec;

use crate::mark::{Draft, Mark, Owner, mark_of};
use osc_message::Message;
use osc_packet::UnitMessages;
use osc_pattern::{Address, Pattern, Steps};
use osc_story::{KeptMessage, Registered};
use std::alloc::{AllocError, Global};
use std::marker::Brand;
use std::sync::ledger::{Blank, Ledger};

/// Adds the marks of all messages of a unit that is handed in.
pub(crate) fn add_handed(
    out: &mut Vec<Mark>,
    draft: Draft,
    methods: &[Registered],
    messages: UnitMessages<'_>,
) -> Result<(), AllocError>
    ensures { OnOk result (out.new.items
        ≡ out.old.items ++ spec.all_targets draft methods.now messages.entry) }
{
    for message in messages {
        add_targets(out, draft, methods, &message)?;
    }
    Ok(())
}

/// Adds the marks of all messages of a unit that waits.
pub(crate) fn add_kept(
    out: &mut Vec<Mark>,
    draft: Draft,
    methods: &[Registered],
    messages: &[KeptMessage],
) -> Result<(), AllocError>
    ensures { OnOk result (out.new.items
        ≡ out.old.items ++ spec.all_targets draft methods.now messages.now) }
{
    let mut rest = messages;
    while let Some((message, others)) = rest.split_first() {
        add_targets(out, draft, methods, &message.message())?;
        rest = others;
    }
    Ok(())
}

/// Adds a mark at each method that a message is to, or at its pattern, where it is to none.
fn add_targets(
    out: &mut Vec<Mark>,
    draft: Draft,
    methods: &[Registered],
    message: &Message<'_>,
) -> Result<(), AllocError>
    ensures { OnOk result (out.new.items
        ≡ out.old.items ++ spec.target_marks draft methods.now message.now) }
{
    let mut marks = met_marks(*out.allocator(), draft, methods, message)?;
    if marks.is_empty() {
        return add_pattern(out, draft, message);
    }
    out.append(&mut marks)
}

/// Adds a mark at the pattern of a message.
pub(crate) fn add_pattern(
    out: &mut Vec<Mark>,
    draft: Draft,
    message: &Message<'_>,
) -> Result<(), AllocError>
    ensures { OnOk result (out.new.items ≡ out.old.items ++ spec.pattern_marks draft message.now) }
{
    let alloc: Global = *out.allocator();
    let mark = mark_of(alloc, draft, Owner::Pattern, message.pattern().bytes())?;
    out.push(mark)?;
    Ok(())
}

fn met_marks(
    alloc: Global,
    draft: Draft,
    methods: &[Registered],
    message: &Message<'_>,
) -> Result<Vec<Mark>, AllocError>
    ensures { IfOk result
        (λ marks. marks.items ≡ spec.met_marks draft message.now methods.now) }
{
    let mut marks = Vec::new(alloc);
    let mut rest = methods;
    while let Some((method, others)) = rest.split_first() {
        add_met(&mut marks, draft, message, method)?;
        rest = others;
    }
    Ok(marks)
}

/// Adds a mark at a method, if the message is to it.
fn add_met(
    marks: &mut Vec<Mark>,
    draft: Draft,
    message: &Message<'_>,
    method: &Registered,
) -> Result<(), AllocError>
    ensures { OnOk result (marks.new.items
        ≡ marks.old.items ++ spec.met_mark draft message.now method.now) }
{
    let alloc: Global = *marks.allocator();
    if is_met(alloc, message, method.address())? {
        let mark = mark_of(alloc, draft, Owner::Method, method.address())?;
        marks.push(mark)?;
    }
    Ok(())
}

/// Whether a message is to a method at an address.
fn is_met(alloc: Global, message: &Message<'_>, address: &[u8]) -> Result<bool, AllocError>
    ensures { IfOk result (λ met. met ≡ spec.meets message.now address.now) }
{
    if message.unknown().is_some() || !Address::is_lawful(address) {
        return Ok(false);
    }
    let address = Address::known(alloc, address)?;
    Ok(matches_one(&message.pattern(), &address))
}

fn matches_one(pattern: &Pattern<'_>, method: &Address) -> bool
    ensures { result ≡ matches pattern.now method.now }
{
    matches_in::<Brand>(pattern, method, Blank::new(1))
}

fn matches_in<L: Ledger>(pattern: &Pattern<'_>, method: &Address, blank: Blank) -> bool
    requires name { blank.name ≡ L.name }
    requires parts { blank.parts ≡ L.parts }
    requires some { 0 < blank.parts }
    ensures { result ≡ matches pattern.now method.now }
{
    let mut steps = Steps::<L>::new(blank);
    pattern.matches(method, &mut steps)
}
