//! Messages that are built argument by argument.
ghost use Rattle.osc_message.specs.declared.limits.TheConstants.{MAX_BUILT};
ghost use Rattle.std.specs.Prelude.{◌≡◌, ◌++◌, ◌∷◌, [], ◌<◌, ◌≤◌, ◌+◌, None, IsTrue, is_ok, drop};
ghost use Rattle.std.specs.Prelude.{length, IfOk, OnOk, OnErr};
ghost use Rattle.osc_atoms.specs.Atoms.{AreBytes, string, has_no_zero};
ghost use Rattle.osc_message.specs.Messages.{atom_of, tag_of, Fits};
ghost use Rattle.osc_message.specs.Building.{null_in};
ghost use Rattle.osc_message.specs.Reading.{brackets_read};
ghost use Rattle.osc_message.specs.Shown.{shown};

use crate::argument_bytes::{argument_size, find_null, null_at, put_argument};
use crate::brackets::are_balanced;
use crate::limits::{MAX_BUILT, MAX_BUILT_PATTERN};
use crate::{Arg, BuildFault, argument_bytes};
use osc_atoms::{Bytes, put_string, string_size};
use osc_pattern::Pattern;
use std::alloc::{AllocError, Global};
use std::marker::Model;

/// A message in the making: a pattern, and the arguments that were pushed (OSC 1.0, "OSC Messages"). A contract sees
/// the two.
pub struct Builder {
    pattern: Vec<u8>,
    tags: Vec<u8>,
    atoms: Vec<u8>,
    alloc: Global,
}

impl Drop for Builder {
    fn drop(self) {
        let Builder {
            pattern: _,
            tags: _,
            atoms: _,
            alloc: _,
        } = self;
    }
}

impl Model for Builder {
    ghost use Rattle.osc_message.specs.Building.{Building, IsKept, building_of};

    ghost Value = { Building };

    ghost view = { λ b. building_of b.pattern.items b.tags.items b.atoms.items };

    ghost invariant = { λ b. IsKept b.pattern.items b.tags.items b.atoms.items };
}

impl Builder {
    ghost use Rattle.osc_message.specs.declared.limits.TheConstants.{MAX_BUILT, MAX_BUILT_PATTERN};
    ghost use Rattle.std.specs.Prelude.{◌≡◌, ◌≤◌, ◌⊎◌, [], Err, Some, None, map, length, IsOk};
    ghost use Rattle.std.specs.Prelude.{IfOk, IfErr, OnOk, OnErr};
    ghost use Rattle.osc_pattern.specs.declared.faults.PatternFault.{PatternFault};
    ghost use Rattle.osc_pattern.specs.Patterns.{IsPattern, IsFault};
    ghost use Rattle.osc_message.specs.Tags.{Balanced};
    ghost use Rattle.osc_message.specs.Messages.{tag_of, IsMessage, message_text};
    ghost use Rattle.osc_message.specs.Building.{pushed, finished, open_refusal, push_refusal};
    ghost use Rattle.osc_message.specs.Shown.{shown};
    ghost use Rattle.osc_message.specs.declared.build_fault.BuildFault.{BuildFault};

    /// A message to this pattern without arguments. Refuses `TooLong` for a pattern of over 65,000 bytes, then
    /// `HasNull`, then `Pattern` with the pattern's first fault, then `NoMemory`.
    pub fn open(alloc: Global, pattern: &[u8]) -> Result<Builder, BuildFault>
        ensures ok { IfOk result
            (λ builder. builder ≡ record { pattern = pattern.now; arguments = [] }) }
        ensures lawful { IsOk result → IsPattern pattern.now
            × (length pattern.now ≤ MAX_BUILT_PATTERN) }
        ensures refused { (fault : BuildFault) → open_refusal pattern.now ≡ Some fault
            → result ≡ Err fault }
        ensures first { (fault : PatternFault) → result ≡ Err (BuildFault.Pattern fault)
            → IsFault pattern.now fault.kind fault.at }
        ensures cause { IfErr result
            (λ fault. (open_refusal pattern.now ≡ Some fault) ⊎ (fault ≡ BuildFault.NoMemory)) }
    {
        if pattern.len() > MAX_BUILT_PATTERN {
            return Err(BuildFault::TooLong);
        }
        if let Some(at) = null_at(pattern) {
            return Err(BuildFault::HasNull { at });
        }
        if let Err(fault) = Pattern::check(pattern) {
            return Err(BuildFault::Pattern(fault));
        }
        Ok(Builder {
            pattern: Vec::from_slice(alloc, pattern)?,
            tags: Vec::from_slice(alloc, b",")?,
            atoms: Vec::new(alloc),
            alloc,
        })
    }

    /// Adds the argument at the end. Refuses `HasNull` for a zero byte in a string or symbol, then `TooLong` where the
    /// finished message would be over 65,504 bytes, then `NoMemory`, and then nothing has changed.
    pub fn push(&mut self, arg: Arg<'_>) -> Result<(), BuildFault>
        ensures ok { OnOk result (self.new ≡ pushed self.old (shown arg.entry)) }
        ensures err { OnErr result (self.new ≡ self.old) }
        ensures refused { (fault : BuildFault)
            → push_refusal self.old (shown arg.entry) ≡ Some fault → result ≡ Err fault }
        ensures cause { IfErr result
            (λ fault. (push_refusal self.old (shown arg.entry) ≡ Some fault)
            ⊎ (fault ≡ BuildFault.NoMemory)) }
    {
        if let Some(at) = find_null(arg) {
            return Err(BuildFault::HasNull { at });
        }
        if finished_size(&self.pattern, &self.tags, &self.atoms, arg) > MAX_BUILT {
            return Err(BuildFault::TooLong);
        }
        add_argument(&mut self.tags, &mut self.atoms, arg)?;
        Ok(())
    }

    /// The finished message, always with a tag string. Refuses `Brackets` where the array brackets don't balance, then
    /// `NoMemory`.
    pub fn finish(&self) -> Result<Bytes, BuildFault>
        ensures ok { IfOk result (λ bytes. bytes ≡ message_text (finished self.now)) }
        ensures message { IfOk result (λ bytes. IsMessage MAX_BUILT bytes) }
        ensures refused { (Balanced (map tag_of self.now.arguments) → ⊥)
            → result ≡ Err BuildFault.Brackets }
        ensures cause { IfErr result
            (λ fault. ((fault ≡ BuildFault.Brackets)
            × (Balanced (map tag_of self.now.arguments) → ⊥)) ⊎ (fault ≡ BuildFault.NoMemory)) }
    {
        let pattern = self.pattern.as_slice();
        let tags = self.tags.as_slice();
        let atoms = self.atoms.as_slice();
        if !tags_balance(tags) {
            return Err(BuildFault::Brackets);
        }
        Ok(Bytes::of(message_bytes(self.alloc, pattern, tags, atoms)?))
    }
}

/// How many bytes the message has with one more argument.
fn finished_size(pattern: &[u8], tags: &[u8], atoms: &[u8], arg: Arg<'_>) -> usize
    requires kept { length (string pattern.now) + length (string tags.now) + length atoms.now
        ≤ MAX_BUILT }
    ensures { result ≡ length (string pattern.now)
        + length (string (tags.now ++ tag_of (shown arg.entry) ∷ [])) + length atoms.now
        + length (atom_of (shown arg.entry)) }
{
    string_size(pattern.len()) + string_size(tags.len() + 1) + atoms.len() + argument_size(arg)
}

/// Adds the argument's tag and its bytes, or neither.
fn add_argument(tags: &mut Vec<u8>, atoms: &mut Vec<u8>, arg: Arg<'_>) -> Result<(), AllocError>
    requires no_null { null_in (shown arg) ≡ None }
    requires small { length (atom_of (shown arg)) ≤ MAX_BUILT }
    ensures tags { OnOk result (tags.new.items ≡ tags.old.items ++ tag_of (shown arg.entry) ∷ []) }
    ensures atoms { OnOk result (atoms.new.items ≡ atoms.old.items ++ atom_of (shown arg.entry)) }
    ensures fits { OnOk result (Fits (shown arg.entry)) }
    ensures bytes { AreBytes atoms.new.items }
    ensures same_tags { OnErr result (tags.new.items ≡ tags.old.items) }
    ensures same_atoms { OnErr result (atoms.new.items ≡ atoms.old.items) }
{
    tags.push(argument_bytes::tag_of(arg))?;
    if let Err(error) = put_argument(atoms, arg) {
        tags.pop();
        return Err(error);
    }
    Ok(())
}

/// The array brackets among the tags after their comma balance.
fn tags_balance(tags: &[u8]) -> bool
    requires { 0 < length tags.now }
    ensures { result ≡ is_ok (brackets_read 0 0 (drop 1 tags.now) 0) }
{
    are_balanced(&tags[1..])
}

/// A message's bytes: the pattern as a string, the tags as a string, and the arguments' bytes.
pub fn message_bytes(
    alloc: Global,
    pattern: &[u8],
    tags: &[u8],
    atoms: &[u8],
) -> Result<Vec<u8>, AllocError>
    requires pattern { IsTrue (has_no_zero pattern.now) }
    requires tags { IsTrue (has_no_zero tags.now) }
    ensures { IfOk result
        (λ bytes. bytes.items ≡ string pattern.now ++ (string tags.now ++ atoms.now)) }
{
    let mut bytes = Vec::new(alloc);
    put_string(&mut bytes, pattern)?;
    put_string(&mut bytes, tags)?;
    bytes.extend_from_slice(atoms)?;
    Ok(bytes)
}
