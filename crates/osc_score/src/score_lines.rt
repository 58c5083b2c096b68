// Reads the lines of a score.
ghost use Rattle.osc_score.specs.declared.limits.TheConstants.{MAX_SCORE};
ghost use Rattle.std.specs.Prelude.{◌≡◌, ◌≤◌, [], ℕ, List, length, IfOk};
ghost use Rattle.osc_script.specs.Words.{words_of, lines_of};
ghost use Rattle.osc_script.specs.Acts.{and_then};
ghost use Rattle.osc_score.specs.Scores.{Note};
ghost use Rattle.osc_score.specs.Reading.{note_read, note_added, least_of, line_read, lines_read};
ghost use Rattle.osc_score.specs.Keeping.{Keeps, IsReading, Goes, KeepsAll};

use crate::added_note::add_note;
use crate::fault::{ScoreFault, ScoreFaultKind, ScoreRefusal};
use crate::limits::{MAX_ADDRESSES, MAX_NODES};
use crate::note::{Said, read_note};
use crate::reader::Reader;
use osc_message::Message;
use osc_script::{LineRefusal, first_line, next_word};
use osc_tree::Tree;
use std::alloc::{AllocError, Global};

/// The notes of the lines of bytes that aren't too many.
pub(crate) fn read_lines(alloc: Global, bytes: &[u8]) -> Result<Reader, ScoreRefusal>
    requires { length bytes.now ≤ MAX_SCORE }
    ensures { KeepsAll result (lines_read 1 [] (lines_of bytes.now)) }
{
    osc_pattern::laws::tests_are_exact();
    let mut reader = open_reader(alloc)?;
    let mut number = 1;
    let mut rest = bytes;
    while !rest.is_empty() {
        let (text, after) = first_line(rest);
        match read_line(&mut reader, text) {
            Ok(()) => {}
            Err(LineRefusal::Kind(kind)) => {
                return Err(ScoreRefusal::Fault(ScoreFault {
                    line: number,
                    kind: kind.number(),
                }));
            }
            Err(LineRefusal::NoMemory) => return Err(ScoreRefusal::NoMemory),
        }
        number += 1;
        rest = after;
    }
    Ok(reader)
}

/// A reader that has read nothing.
fn open_reader(alloc: Global) -> Result<Reader, AllocError>
    ensures { IfOk result (λ reader. Keeps reader []) }
{
    Ok(Reader {
        tree: Tree::open(alloc, MAX_ADDRESSES, MAX_NODES)?,
        addresses: Vec::new(alloc),
        runs: Vec::new(alloc),
        last: None,
        least: 2,
        alloc,
    })
}

/// Adds what the line says; nothing where it is skipped.
fn read_line(reader: &mut Reader, text: &[u8]) -> Result<(), LineRefusal<ScoreFaultKind>>
    requires reading { IsReading reader.old }
    requires short { length text.now ≤ MAX_SCORE }
    ensures { (notes : List Note) → Keeps reader.old notes
        → Goes result (line_read notes text.now) reader.new }
{
    if text.starts_with(b"#") {
        return Ok(());
    }
    match next_word(text) {
        Some((moment, after)) => match next_word(after) {
            Some((address, words)) => read_words(reader, moment, address, words),
            None => Err(LineRefusal::Kind(ScoreFaultKind::Count)),
        },
        None => Ok(()),
    }
}

/// Adds the note of a line's words.
fn read_words(
    reader: &mut Reader,
    moment: &[u8],
    address: &[u8],
    words: &[u8],
) -> Result<(), LineRefusal<ScoreFaultKind>>
    requires reading { IsReading reader.old }
    requires short { length words.now ≤ MAX_SCORE }
    ensures { (notes : List Note) → Keeps reader.old notes → Goes result
        (and_then (note_read (least_of notes) moment.now address.now (words_of words.now))
        (note_added notes)) reader.new }
{
    match read_note(reader.alloc, reader.least, moment, address, words) {
        Ok(
            Said {
                tag,
                address,
                message,
            },
        ) => add_note(reader, tag, address, &Message::known(message.as_slice())),
        Err(refusal) => Err(refusal),
    }
}
