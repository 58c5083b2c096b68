// What is marked of a recording.
ghost use Rattle.std.specs.Prelude.{◌≡◌, IfOk};
ghost use Rattle.osc_drawing.specs.Marks as spec;

use crate::carried::{Carried, nothing};
use osc_atoms::Bytes;
use std::alloc::{AllocError, Global};

/// When something was: the moment, and which call in order, counted from 0.
#[derive(Clone, Copy)]
pub(crate) struct Stamp {
    pub(crate) moment: u64,
    pub(crate) order: u64,
}

/// What a mark tells of its address.
#[derive(Clone, Copy)]
pub(crate) enum Form {
    /// It was called.
    Called,
    /// A message was performed that called nothing.
    Unheard,
    /// A message was discarded or refused.
    Crossed,
    /// A message waits after the last entry of its recording.
    Waits,
    /// The method was removed.
    Removed,
    /// The method is there after the last entry of its recording.
    Stands,
}

/// Whose row a mark makes.
#[derive(Clone, Copy)]
pub(crate) enum Owner {
    /// That of a method.
    Method,
    /// That of a pattern that called nothing, unless it is a method's address, too.
    Pattern,
    /// It makes none, and belongs to that of its address where there is one.
    Neither,
}

/// A mark of an address.
#[derive(Drop)]
pub(crate) struct Mark {
    pub(crate) form: Form,
    pub(crate) owner: Owner,
    pub(crate) address: Bytes,
    pub(crate) carried: Carried,
    /// When came what waited, or was removed, or stands.
    pub(crate) came: Option<Stamp>,
    pub(crate) at: Stamp,
}

/// What the marks of a unit have in common.
#[derive(Clone, Copy)]
pub(crate) struct Draft {
    pub(crate) form: Form,
    pub(crate) came: Option<Stamp>,
    pub(crate) at: Stamp,
}

/// A mark that carries nothing.
pub(crate) fn mark_of(
    alloc: Global,
    draft: Draft,
    owner: Owner,
    address: &[u8],
) -> Result<Mark, AllocError>
    ensures { IfOk result (λ mark. mark ≡ spec.mark_of draft owner address.now) }
{
    Ok(Mark {
        form: draft.form,
        owner,
        address: Bytes::copied(alloc, address)?,
        carried: nothing(alloc),
        came: draft.came,
        at: draft.at,
    })
}
