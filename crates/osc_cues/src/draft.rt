// Reads a sheet line by line.
use crate::cue::{Cue, Cues};
use crate::fault::{Fault, WordError, WordFault};
use crate::limits::ROOM;
use crate::moment::tag_of;
use crate::said::{Said, has_gone, read_line};
use crate::scan::column_of;
use crate::setting::{Setting, Tempo};
use crate::wrong_line::{WrongLine, WrongLines};
use osc_atoms::Bytes;
use osc_pattern::Address;
use std::alloc::{AllocError, Global};

/// What is read of the lines so far.
#[derive(Drop)]
pub(crate) struct Draft {
    /// The moment of the last line that has one.
    pub(crate) before: Option<u128>,
    pub(crate) tempo: Option<Tempo>,
    /// The first that there was.
    pub(crate) first: Option<Tempo>,
    /// The time tag of the last cue, or 0.
    pub(crate) last: u64,
    /// How many bytes the cues of that time tag may still have, each with the four of its size.
    pub(crate) room: usize,
    pub(crate) cues: Cues,
    pub(crate) wrong: WrongLines,
}

impl Draft {
    ghost use Rattle.osc_cues.specs.declared.limits.TheConstants.{MAX_SHEET};
    ghost use Rattle.std.specs.Prelude.{◌≡◌, ◌≤◌, OnOk, Ok, length};
    ghost use Rattle.osc_cues.specs.Sheets.{unread, after_line, after_said, settled, entered};
    ghost use Rattle.osc_cues.specs.Sheets.{with_wrong, with_cue, IsReading, IsSaid};
    ghost use Rattle.osc_cues.specs.Sheets.{room_at as room_in};
    ghost use Rattle.osc_cues.specs.Order.{IsSound};

    #[tactic(auto, using(crate::proofs::Orders::unread_on))]
    pub(crate) fn new(alloc: Global) -> Draft
        ensures value { result ≡ unread }
        ensures sound { IsSound result }
    {
        Draft {
            before: None,
            tempo: None,
            first: None,
            last: 0,
            room: ROOM,
            cues: Cues::new(alloc),
            wrong: WrongLines::new(alloc),
        }
    }

    /// Reads the line of this number.
    pub(crate) fn read_line(
        &mut self,
        alloc: Global,
        methods: &[Address],
        setting: Setting,
        number: u32,
        line: &[u8],
    ) -> Result<(), AllocError>
        requires reading { IsReading self.old }
        requires sound { IsSound self.old }
        requires short { length line.now ≤ MAX_SHEET }
        ensures line { OnOk result
            (self.new ≡ after_line methods.now setting self.old number line.now) }
        ensures reading { OnOk result (IsReading self.new) }
        ensures sound { OnOk result (IsSound self.new) }
    {
        match read_line(alloc, methods, setting, &*self, line) {
            Ok(said) => self.accept(alloc, setting, number, line, said),
            Err(WordError::Wrong(wrong)) => self.refuse(alloc, number, line, wrong),
            Err(WordError::NoMemory) => Err(AllocError),
        }
    }

    /// Takes what a line says.
    fn accept(
        &mut self,
        alloc: Global,
        setting: Setting,
        number: u32,
        line: &[u8],
        said: Said,
    ) -> Result<(), AllocError>
        requires reading { IsReading self.old }
        requires said { IsSaid said }
        ensures said { OnOk result
            (self.new ≡ after_said setting self.old number line.now (Ok said)) }
        ensures reading { OnOk result (IsReading self.new) }
    {
        match said {
            Said::Nothing => Ok(()),
            Said::Counted(tempo) => {
                self.tempo = Some(tempo);
                self.first = Some(self.first.unwrap_or(tempo));
                Ok(())
            }
            Said::Cued(moment, message) => {
                self.before = Some(moment);
                match message {
                    Ok(message) => {
                        if has_gone(setting, moment) {
                            return Ok(());
                        }
                        self.enter(alloc, number, line, tag_of(moment), message)
                    }
                    Err(wrong) => self.refuse(alloc, number, line, wrong),
                }
            }
        }
    }

    /// Adds a cue, if there is room for it at its moment.
    fn enter(
        &mut self,
        alloc: Global,
        number: u32,
        line: &[u8],
        tag: u64,
        message: Bytes,
    ) -> Result<(), AllocError>
        requires { IsReading self.old }
        ensures cue { OnOk result (self.new ≡ entered self.old number line.now tag message) }
        ensures reading { OnOk result (IsReading self.new) }
    {
        let room = self.room_at(tag);
        let size = message.as_slice().len() + 4;
        if size <= room {
            self.last = tag;
            self.room = room - size;
            self.cues.push(Cue { tag, message })
        } else {
            let wrong = WordFault {
                at: 0,
                fault: Fault::LargeMoment,
            };
            self.refuse(alloc, number, line, wrong)
        }
    }

    /// How many bytes the cues of a moment may still have.
    fn room_at(&self, tag: u64) -> usize
        ensures { result ≡ room_in self.now tag }
    {
        if self.last == tag { self.room } else { ROOM }
    }

    /// Adds a wrong line.
    fn refuse(
        &mut self,
        alloc: Global,
        number: u32,
        line: &[u8],
        wrong: WordFault,
    ) -> Result<(), AllocError>
        requires { IsReading self.old }
        ensures wrong { OnOk result (self.new ≡ with_wrong self.old number line.now wrong) }
        ensures reading { OnOk result (IsReading self.new) }
    {
        let text = Bytes::copied(alloc, line)?;
        self.wrong.push(WrongLine {
            line: number,
            column: column_of(line, wrong.at),
            at: wrong.at,
            fault: wrong.fault,
            text,
        })
    }
}
