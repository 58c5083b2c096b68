// The marks after those of all entries.
ghost use Rattle.std.specs.Prelude.{◌≡◌, ◌++◌, OnOk};
ghost use Rattle.osc_drawing.specs.Endings as spec;

use crate::arrival::{Arrival, arrival_of};
use crate::mark::{Draft, Form, Mark, Owner, Stamp, mark_of};
use crate::target::add_kept;
use osc_story::{Registered, Waiting};
use std::alloc::AllocError;

/// Adds the marks of the messages that wait.
pub(crate) fn add_waiting(
    out: &mut Vec<Mark>,
    end: Stamp,
    came: &[Arrival],
    methods: &[Registered],
    units: &[Waiting],
) -> Result<(), AllocError>
    ensures { OnOk result (out.new.items
        ≡ out.old.items ++ spec.waiting_marks end came.now methods.now units.now) }
{
    let mut rest = units;
    while let Some((unit, others)) = rest.split_first() {
        let draft = waiting_draft(end, came, unit);
        add_kept(out, draft, methods, unit.messages())?;
        rest = others;
    }
    Ok(())
}

/// Adds the marks of the methods that are there.
pub(crate) fn add_standing(
    out: &mut Vec<Mark>,
    end: Stamp,
    came: &[Arrival],
    methods: &[Registered],
) -> Result<(), AllocError>
    ensures { OnOk result (out.new.items
        ≡ out.old.items ++ spec.standing_marks end came.now methods.now) }
{
    let mut rest = methods;
    while let Some((method, others)) = rest.split_first() {
        let draft = standing_draft(end, came, method);
        let mark = mark_of(*out.allocator(), draft, Owner::Neither, method.address())?;
        out.push(mark)?;
        rest = others;
    }
    Ok(())
}

fn waiting_draft(end: Stamp, came: &[Arrival], unit: &Waiting) -> Draft
    ensures { result ≡ spec.waiting_draft end came.now unit.now }
{
    Draft {
        form: Form::Waits,
        came: Some(arrival_of(unit.number(), came).unwrap_or(end)),
        at: end,
    }
}

fn standing_draft(end: Stamp, came: &[Arrival], method: &Registered) -> Draft
    ensures { result ≡ spec.standing_draft end came.now method.now }
{
    Draft {
        form: Form::Stands,
        came: arrival_of(u64::from(method.id()), came),
        at: end,
    }
}
