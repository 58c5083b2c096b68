// What a line says, and in which lane.
ghost use Rattle.std.specs.Prelude.{◌≡◌};
ghost use Rattle.osc_script.specs.Words.{words_of};
ghost use Rattle.osc_script.specs.Scripts.{line_says, said_of, in_lane};
ghost use Rattle.osc_script.specs.Answers.{Says};

use crate::act::Act;
use crate::act_words::{read_act, read_served};
use crate::fault::{LineRefusal, ScriptFaultKind};
use crate::lane::lane_of;
use crate::mode::Mode;
use crate::words::next_word;
use std::alloc::Global;

/// What a line says.
#[derive(Drop)]
pub(crate) struct Said {
    pub(crate) lane: u32,
    pub(crate) act: Act,
}

/// What the line says; nothing where it is skipped.
pub(crate) fn read_line(
    alloc: Global,
    mode: Mode,
    text: &[u8],
) -> Result<Option<Said>, LineRefusal<ScriptFaultKind>>
    ensures { Says result (line_says mode text.now) }
{
    if text.starts_with(b"#") {
        return Ok(None);
    }
    match next_word(text) {
        Some((word, after)) => Ok(Some(read_words(alloc, mode, word, after)?)),
        None => Ok(None),
    }
}

/// What a first word and the words after it say.
fn read_words(
    alloc: Global,
    mode: Mode,
    word: &[u8],
    after: &[u8],
) -> Result<Said, LineRefusal<ScriptFaultKind>>
    ensures { Says result (said_of mode word.now (words_of after.now)) }
{
    match mode {
        Mode::Plain => {
            let act = read_act(alloc, word, after)?;
            Ok(Said { lane: 0, act })
        }
        Mode::Lanes => {
            let lane = lane_of(word).ok_or(LineRefusal::Kind(ScriptFaultKind::Lane))?;
            read_in_lane(alloc, lane, after)
        }
        Mode::Serve => {
            let act = read_served(alloc, word, after)?;
            Ok(Said { lane: 0, act })
        }
    }
}

/// What the words after a lane's number say.
fn read_in_lane(alloc: Global, lane: u32, text: &[u8]) -> Result<Said, LineRefusal<ScriptFaultKind>>
    ensures { Says result (in_lane lane (words_of text.now)) }
{
    let (word, operands) = next_word(text).ok_or(LineRefusal::Kind(ScriptFaultKind::Count))?;
    let act = read_act(alloc, word, operands)?;
    Ok(Said { lane, act })
}
