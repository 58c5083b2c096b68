//! The trusted edge to files: a sink that makes its file, of whose bytes nothing is told.
ghost use Rattle.std.specs.Prelude.{◌≡◌, ◌≢◌, ◌≤◌, length, IfOk, None};

use crate::{Put, Sink};
use std::fs::File;
use std::io;
use std::io::Write;

/// A file, which is made, or emptied, at the first write. It answers `Failed` for every error of the system and where
/// it takes nothing of a piece that has a byte, and counts it.
#[derive(Drop)]
pub struct FileSink {
    rt: HostRuntime,
    path: String,
    /// The file, once it is made.
    file: Option<File>,
    faults: u64,
}

impl FileSink {
    /// A sink for the file at the path. Takes no memory, and touches no file.
    pub fn at(rt: &HostRuntime, path: String) -> Self
        ensures held { ⟦<FileSink as Sink>⟧.held result ≡ None }
        ensures faults { ⟦<FileSink as Sink>⟧.faults result ≡ 0 }
    {
        FileSink {
            rt: *rt,
            path,
            file: None,
            faults: 0,
        }
    }

    /// Writes once to the file, which is made where it isn't yet.
    fn write_to_file(&mut self, piece: &[u8]) -> io::Result<usize>
        ensures within { IfOk result (λ count. count ≤ length piece.now) }
        ensures faults { self.new.faults ≡ self.old.faults }
    {
        let mut file = match self.file.take() {
            Some(file) => file,
            None => File::create(&self.rt, &self.path)?,
        };
        let written = file.write(piece);
        self.file = Some(file);
        written
    }
}

impl Sink for FileSink {
    ghost use Rattle.osc_edge.specs.Sink.{IsTookWithin, AddsToEnd, HasWriteCause};

    ghost held = { λ _. None };

    ghost faults = { λ s. s.faults };

    /// Takes what the system takes at once; it never answers `NoMemory`.
    fn write(&mut self, piece: &[u8]) -> Put
        ensures within { IsTookWithin result piece.now }
        ensures bytes { AddsToEnd None None result piece.now }
        ensures cause { HasWriteCause self.old.faults self.new.faults result }
        ensures answer { result ≢ Put.NoMemory }
    {
        match self.write_to_file(piece) {
            Ok(count) if count > 0 || piece.is_empty() => Put::Took(count),
            _ => {
                self.faults = self.faults.saturating_add(1);
                Put::Failed
            }
        }
    }
}
