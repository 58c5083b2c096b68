// Writes a sheet of cues as a score.
use crate::cues::{SheetRead, addresses_of};
use crate::report::report_score;
use osc_edge::StdSink;
use osc_ends::status::{DONE, REFUSED};
use osc_ends::write_text;
use osc_message::Message;
use osc_notes::{NotesError, add_notes};
use osc_packet::MAX_PACKET;
use osc_print::Text;
use osc_score::{Score, ScoreRefusal};
use std::alloc::AllocError;

/// Writes the score of the cues: a note for each method of the patch that a cue calls; or reports
/// that no score has them.
pub(crate) fn write_score(rt: &HostRuntime, read: &SheetRead) -> Result<u8, AllocError> {
    let text = notes_of(rt, read)?;
    match Score::read(rt.alloc(), text.bytes()) {
        Ok(_) => Ok(write_text(DONE, text.bytes(), &mut StdSink::open(rt))),
        Err(ScoreRefusal::NoMemory) => Err(AllocError),
        Err(ScoreRefusal::Fault(fault)) => {
            report_score(rt, fault.line);
            Ok(REFUSED)
        }
    }
}

/// The lines of all notes.
fn notes_of(rt: &HostRuntime, read: &SheetRead) -> Result<Text, AllocError> {
    let alloc = rt.alloc();
    let mut methods = addresses_of(alloc, &read.patch)?;
    methods.sort_unstable_by(|one, other| one.bytes().cmp(other.bytes()));
    let mut text = Text::open(alloc);
    for cue in read.sheet.cues() {
        let message = Message::check(cue.message.as_slice(), MAX_PACKET);
        let (Some(tag), Ok(message)) = (read.played_at(cue.tag), message) else {
            continue;
        };
        match add_notes(&mut text, tag, &message, &methods) {
            Ok(()) => {}
            // No sheet has such a tag.
            Err(NotesError::UnknownTag(_)) => {}
            Err(NotesError::NoMemory) => return Err(AllocError),
        }
    }
    Ok(text)
}
