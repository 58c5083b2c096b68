//! Patches, read whole.
ghost use Rattle.osc_patch.specs.declared.patch.TheConstants.{MAX_PATCH};
ghost use Rattle.std.specs.Prelude.{◌≡◌, ◌≤◌, OnOk, IfOk, length, position};
ghost use Rattle.osc_patch.specs.Words.{lines_of};
ghost use Rattle.osc_patch.specs.Patches.{is_at, entered, read_from, unread};

use crate::draft::Draft;
use crate::entry::Entry;
use crate::fault::{PatchError, WrongLines};
use crate::method::{PatchMethod, Routes};
use crate::words::cut_lines;
use osc_pattern::Address;
use std::alloc::{AllocError, Global};
use std::marker::Model;

/// The most bytes of a patch, 64 MiB, as of a script.
pub const MAX_PATCH: usize = 67_108_864;

/// The methods of a patch, in the order in which they appear first. A contract sees the list.
pub struct Patch {
    items: Vec<PatchMethod>,
}

impl Drop for Patch {
    fn drop(self) {
        let Patch { items: _ } = self;
    }
}

impl Model for Patch {
    ghost use Rattle.std.specs.Prelude.{List};
    ghost use Rattle.osc_patch.specs.declared.method.PatchMethod.{PatchMethod};

    ghost Value = { List PatchMethod };

    ghost view = { λ p. p.items.items };
}

impl Patch {
    ghost use Rattle.std.specs.Prelude.{◌≡◌, ◌≤◌, IfOk, OnOk, length};
    ghost use Rattle.osc_patch.specs.declared.patch.TheConstants.{MAX_PATCH};
    ghost use Rattle.osc_patch.specs.Words.{lines_of};
    ghost use Rattle.osc_patch.specs.Patches.{patch_of, read_from, unread, entered, ArePatched};
    ghost use Rattle.osc_patch.specs.Answers.{Reads};

    /// The methods of the patch, at most `methods_limit`; or all lines that are wrong, each with
    /// its first fault, in their order (docs/FORMATS.md, "Patches"). `NoMemory` where memory runs
    /// out.
    pub fn read(alloc: Global, bytes: &[u8], methods_limit: u32) -> Result<Patch, PatchError>
        ensures reads { Reads result (patch_of methods_limit bytes.now) }
        ensures patched { IfOk result (ArePatched methods_limit) }
    {
        if bytes.len() > MAX_PATCH {
            return Err(PatchError::TooLong);
        }
        let reading = read_lines(alloc, bytes, methods_limit)?;
        if !reading.wrong.as_slice().is_empty() {
            return Err(PatchError::Lines(reading.wrong));
        }
        if reading.methods.methods().is_empty() {
            return Err(PatchError::NoMethod);
        }
        Ok(reading.methods)
    }

    /// These methods.
    pub(crate) fn of(methods: Vec<PatchMethod>) -> Patch
        ensures { result ≡ methods.items }
    {
        Patch { items: methods }
    }

    /// The methods. Takes no memory.
    pub fn methods(&self) -> &[PatchMethod]
        ensures { result.now ≡ self.now }
    {
        &self.items
    }

    /// Adds what an entry says.
    pub(crate) fn enter(&mut self, alloc: Global, entry: Entry) -> Result<(), AllocError>
        ensures { OnOk result (self.new ≡ entered self.old entry) }
    {
        enter(alloc, &mut self.items, entry)
    }
}

/// What all lines say together.
fn read_lines(alloc: Global, bytes: &[u8], limit: u32) -> Result<Draft, AllocError>
    requires { length bytes.now ≤ MAX_PATCH }
    ensures { IfOk result (λ reading. reading ≡ read_from limit 1 unread (lines_of bytes.now)) }
{
    let lines = cut_lines(alloc, bytes)?;
    let mut reading = Draft::new(alloc);
    let mut number = 1;
    for text in &lines {
        reading.read_line(alloc, limit, number, text)?;
        number += 1;
    }
    Ok(reading)
}

/// Adds the entry's route to the method of its address, or a method of its own.
fn enter(alloc: Global, methods: &mut Vec<PatchMethod>, entry: Entry) -> Result<(), AllocError>
    ensures { OnOk result (methods.new.items ≡ entered methods.old.items entry) }
{
    match place_of(methods, &entry.address) {
        Some(place) => methods[place].routes.add(entry.route),
        None => {
            let routes = Routes::of(alloc, entry.route)?;
            methods.push(PatchMethod {
                address: entry.address,
                line: entry.line,
                routes,
            })?;
            Ok(())
        }
    }
}

/// Where the method of the address is.
fn place_of(methods: &[PatchMethod], address: &Address) -> Option<usize>
    ensures { result ≡ position (is_at address.now) methods.now }
{
    methods.iter().position(|method| method.address == *address)
}
