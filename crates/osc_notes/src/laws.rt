//! What is written of notes is read again.
ghost use Rattle.osc_score.specs.declared.limits.TheConstants.{MAX_SCORE};
ghost use Rattle.std.specs.Prelude.{◌≡◌, ◌≤◌, ◌<◌, ◌^◌, ℕ, List, [], length, Ok, None};
ghost use Rattle.std.specs.List.{AllByRecursion};
ghost use Rattle.osc_atoms.specs.Atoms.{AreBytes};
ghost use Rattle.osc_pattern.specs.Addresses.{IsAddress};
ghost use Rattle.osc_message.specs.Messages.{Argument, bare, known, IsLawful, IsMessage};
ghost use Rattle.osc_message.specs.Messages.{message_text};
ghost use Rattle.osc_message.specs.Arguments.{unknown_of};
ghost use Rattle.osc_score.specs.Scores.{Note, message_of, IsNote, IsOrdered, IsScore};
ghost use Rattle.osc_score.specs.Reading.{least_of, note_added, line_read, score_of};
ghost use Rattle.osc_notes.specs.Notes.{note_text, score_text, note_for, notes_of, notes_added};
ghost use Rattle.osc_notes.specs.Cued.{cued_notes, IsSayable, AreInOrder};

use osc_message::laws as messages;
use osc_pattern::laws as addresses;

/// The notes of a message are lawful. The message of each is the same bytes but for its pattern, in
/// whose place the address stands; it always has a tag string.
pub fn a_cue_has_lawful_notes()
    ensures lawful { (most moment : ℕ) (message : List ℕ) (addresses : List (List ℕ))
        → IsMessage most message → AreBytes message → unknown_of message ≡ None
        → moment < 2 ^ 64 → AllByRecursion IsAddress addresses
        → AllByRecursion IsNote (notes_of moment message addresses) }
    ensures tagged { (moment : ℕ) (pattern address : List ℕ) (arguments : List Argument)
        → IsLawful (known pattern arguments) → message_text
        (message_of (note_for moment (message_text (known pattern arguments)) address))
        ≡ message_text (known address arguments) }
    ensures bare { (moment : ℕ) (pattern address : List ℕ) → IsLawful (bare pattern)
        → message_text (message_of (note_for moment (message_text (bare pattern)) address))
        ≡ message_text (known address []) }
{
    messages::written_is_read_again();
}

/// The line of a note is read as this note, after notes that aren't later: the same moment, address
/// and arguments.
pub fn a_line_is_read_again()
    ensures { (notes : List Note) (note : Note) → IsNote note → least_of notes ≤ note.tag
        → line_read notes (note_text note) ≡ note_added notes note }
{
    addresses::tests_are_exact();
}

/// The lines of lawful notes, none earlier than the one before it, are read as these notes, or
/// refused at the first whose bundle is too long, or whose address can't stand with those before.
pub fn notes_are_read_again()
    ensures { (notes : List Note) → AllByRecursion IsNote notes → IsOrdered 2 notes
        → length (score_text notes) ≤ MAX_SCORE
        → score_of (score_text notes) ≡ notes_added 1 [] notes }
{
    addresses::tests_are_exact();
}

/// The lines of a sheet's messages, none earlier than the one before it, are read as their notes, or
/// refused as above.
pub fn a_sheet_is_read_again()
    ensures { (addresses : List (List ℕ)) (cues : List (ℕ × List ℕ))
        → AllByRecursion IsAddress addresses → AllByRecursion IsSayable cues → AreInOrder 2 cues
        → length (score_text (cued_notes addresses cues)) ≤ MAX_SCORE
        → score_of (score_text (cued_notes addresses cues))
        ≡ notes_added 1 [] (cued_notes addresses cues) }
{
    messages::written_is_read_again();
    addresses::tests_are_exact();
}

/// A score of notes is read as these notes, where its lines aren't too many bytes.
pub fn a_score_is_read_again()
    ensures { (notes : List Note) → IsScore notes → length (score_text notes) ≤ MAX_SCORE
        → score_of (score_text notes) ≡ Ok notes }
{
    addresses::tests_are_exact();
}
