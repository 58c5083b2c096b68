//! The trusted edge to files: a source that reads a file, of whose bytes nothing is told.
ghost use Rattle.std.specs.Prelude.{◌≡◌, ◌≤◌, length, IfOk, None};

use crate::{Source, Taken};
use std::fs::File;
use std::io;
use std::io::Read;

/// A file that is there, which is opened at the first read. After a read that failed to open it, the next one tries
/// again. For every error of the system it answers `Failed`, and counts it.
#[derive(Drop)]
pub struct FileSource {
    rt: HostRuntime,
    path: String,
    /// The file, once it is opened.
    file: Option<File>,
    faults: u64,
}

impl FileSource {
    /// A source of the file at the path. Takes no memory, and touches no file.
    pub fn at(rt: &HostRuntime, path: String) -> Self
        ensures left { ⟦<FileSource as Source>⟧.left result ≡ None }
        ensures faults { ⟦<FileSource as Source>⟧.faults result ≡ 0 }
    {
        FileSource {
            rt: *rt,
            path,
            file: None,
            faults: 0,
        }
    }

    /// Reads once from the file, which is opened where it isn't yet.
    fn read_file(&mut self, into: &mut [u8]) -> io::Result<usize>
        ensures within { IfOk result (λ count. count ≤ length into.new) }
        ensures faults { self.new.faults ≡ self.old.faults }
    {
        let mut file = match self.file.take() {
            Some(file) => file,
            None => File::open(&self.rt, &self.path)?,
        };
        let read = file.read(into);
        self.file = Some(file);
        read
    }
}

impl Source for FileSource {
    ghost left = { λ _. None };

    ghost faults = { λ s. s.faults };

    fn read(&mut self, into: &mut [u8]) -> Taken {
        match self.read_file(into) {
            Ok(count) => Taken::Bytes(count),
            Err(_) => {
                self.faults = self.faults.saturating_add(1);
                Taken::Failed
            }
        }
    }
}
