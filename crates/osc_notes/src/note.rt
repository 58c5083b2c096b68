//! The notes of a cue.
ghost use Rattle.std.specs.Prelude.{◌≡◌, ◌++◌, ◌∷◌, [], ◌<◌, OnOk};
ghost use Rattle.osc_pattern.specs.Patterns.{matches};
ghost use Rattle.osc_message.specs.Reading.{pattern_of};
ghost use Rattle.osc_notes.specs.Notes.{note_line, note_for, score_text, notes_of};
ghost use Rattle.osc_notes.specs.Answers.{AddsNotes};

use crate::refusal::NotesError;
use osc_message::Message;
use osc_pattern::{Address, Pattern, Steps};
use osc_print::Text;
use std::alloc::AllocError;
use std::marker::Brand;
use std::sync::ledger::{Blank, Ledger};

/// Adds a line of a score for each of the methods that the message's pattern matches, in their
/// order: the moment, the method's address, and the message's arguments. After `NoMemory` a part of
/// them may stand.
pub fn add_notes(
    text: &mut Text,
    moment: u64,
    message: &Message<'_>,
    methods: &[Address],
) -> Result<(), NotesError>
    ensures { AddsNotes result moment message.now methods.now text.old text.new }
{
    match message.unknown() {
        Some(byte) => Err(NotesError::UnknownTag(byte)),
        None => Ok(add_lines(text, moment, message, methods)?),
    }
}

/// Adds the lines of a message whose tags are known.
fn add_lines(
    text: &mut Text,
    moment: u64,
    message: &Message<'_>,
    methods: &[Address],
) -> Result<(), AllocError>
    ensures { OnOk result (text.new
        ≡ text.old ++ score_text (notes_of moment message.now methods.now)) }
{
    let pattern = message.pattern();
    for method in methods {
        if matches_one(&pattern, method) {
            add_note(text, moment, method, message)?;
        }
    }
    Ok(())
}

/// Adds the line of one method.
fn add_note(
    text: &mut Text,
    moment: u64,
    method: &Address,
    message: &Message<'_>,
) -> Result<(), AllocError>
    ensures { OnOk result (text.new
        ≡ text.old ++ note_line (note_for moment message.now method.now)) }
{
    text.hex(&moment.to_be_bytes())?;
    text.space_word(method.bytes())?;
    text.space_arguments(message)?;
    text.end_line()
}

fn matches_one(pattern: &Pattern<'_>, method: &Address) -> bool
    ensures { result ≡ matches pattern.now method.now }
{
    matches_in::<Brand>(pattern, method, Blank::new(1))
}

fn matches_in<L: Ledger>(pattern: &Pattern<'_>, method: &Address, blank: Blank) -> bool
    requires name { blank.name ≡ L.name }
    requires parts { blank.parts ≡ L.parts }
    requires some { 0 < blank.parts }
    ensures { result ≡ matches pattern.now method.now }
{
    let mut steps = Steps::<L>::new(blank);
    pattern.matches(method, &mut steps)
}
