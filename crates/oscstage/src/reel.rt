// The recordings of a show, in files.
use crate::parts::next_part;
use crate::show::Shared;
use osc_chain::{Reels, carried_most};
use osc_console::MeteredSink;
use osc_edge::FileSink;
use osc_record::Caps;
use osc_show::{part_name, report_part};
use osc_stage::Ended;
use std::alloc::AllocError;

/// The recordings of a show: FILE, and those in which it goes on.
#[derive(Drop)]
pub(crate) struct Reel<'a> {
    rt: &'a HostRuntime,
    shared: &'a Shared,
    caps: Caps,
    /// The name of the first one.
    file: String,
    /// The number of the last one, counted from 1; 0 before the first.
    part: u32,
    /// How many datagrams were no packets.
    refused: usize,
}

impl<'a> Reel<'a> {
    pub(crate) fn new(
        rt: &'a HostRuntime,
        shared: &'a Shared,
        caps: Caps,
        file: String,
    ) -> Reel<'a> {
        Reel {
            rt,
            shared,
            caps,
            file,
            part: 0,
            refused: 0,
        }
    }

    /// The name of the last one.
    pub(crate) fn name(&self) -> Result<String, AllocError> {
        part_name(self.rt.alloc(), &self.file, self.part)
    }

    /// How many datagrams were no packets.
    pub(crate) fn refused(&self) -> usize {
        self.refused
    }

    /// Whether a show that ended so has filled a recording, and another one has more room than that:
    /// it was full enough, or had no room for what an empty one has room for.
    fn is_filled(&self, ended: Ended) -> bool {
        match ended {
            Ended::Done => self.shared.changeover.is_due(),
            Ended::RecordFull(room) => {
                let least = carried_most(self.caps).saturating_add(room.need);
                self.shared.changeover.is_on() && least < u64::from(self.caps.recording())
            }
            Ended::LinkFailed(_) | Ended::ClockFailed | Ended::SinkFailed => false,
        }
    }
}

impl<'a> Reels for Reel<'a> {
    type Sink = MeteredSink<'a, FileSink>;

    fn open(&mut self) -> Result<Self::Sink, AllocError> {
        if self.part == 0 {
            self.part = 1;
        } else {
            self.part = next_part(self.rt, &self.file, self.part)?;
            report_part(self.rt, &self.name()?);
        }
        self.shared.changeover.begin();
        let sink = FileSink::at(self.rt, self.name()?);
        Ok(MeteredSink::new(sink, &self.shared.changeover))
    }

    fn goes_on(&mut self, ended: Ended, _size: usize, refused: usize) -> bool {
        self.refused = self.refused.saturating_add(refused);
        self.is_filled(ended) && !self.shared.shutdown.is_asked()
    }
}
