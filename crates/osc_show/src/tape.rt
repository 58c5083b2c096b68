// The recordings of a show, which are read one after another while they grow.
use crate::files::{file_after, is_there};
use osc_edge::{FileSource, Source, Taken};
use std::alloc::AllocError;

/// A recording that is read, and how many of those that were named are read with it.
#[derive(Drop)]
pub(crate) struct Tape {
    file: String,
    place: usize,
    source: FileSource,
    /// The next one is there, so that nothing more comes of this one.
    is_over: bool,
}

impl Tape {
    /// Begins with the first of these files, if there is one.
    pub(crate) fn open(rt: &HostRuntime, files: &[String]) -> Result<Option<Tape>, AllocError> {
        let Some(file) = files.first() else {
            return Ok(None);
        };
        Ok(Some(Tape {
            file: String::from_str(rt.alloc(), file)?,
            place: 1,
            source: FileSource::at(rt, String::from_str(rt.alloc(), file)?),
            is_over: false,
        }))
    }

    /// The name of the file that is read.
    pub(crate) fn file(&self) -> &str {
        self.file.as_str()
    }

    /// Reads on, and gives how many bytes stand at the front of the piece; the `Err` is a file that can't be read.
    pub(crate) fn read(&mut self, piece: &mut [u8]) -> Result<usize, ()> {
        match self.source.read(piece) {
            Taken::Bytes(count) => Ok(count.min(piece.len())),
            Taken::Failed => Err(()),
        }
    }

    /// Goes on with the next recording, where all of this one is read: with the file that is named after it, or after
    /// the last one with that in which a show would go on. Answers whether it does. Once that is there this
    /// one is read to its end.
    pub(crate) fn turn(&mut self, rt: &HostRuntime, files: &[String]) -> Result<bool, AllocError> {
        let next = match files.get(self.place) {
            Some(file) => String::from_str(rt.alloc(), file)?,
            None => file_after(rt.alloc(), &self.file)?,
        };
        if !is_there(rt, &next) {
            return Ok(false);
        }
        if !self.is_over {
            self.is_over = true;
            return Ok(false);
        }
        self.source = FileSource::at(rt, String::from_str(rt.alloc(), &next)?);
        self.file = next;
        self.place = self.place.saturating_add(1);
        self.is_over = false;
        Ok(true)
    }
}
