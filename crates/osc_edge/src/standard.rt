//! The trusted edge: the standard input and output, of whose bytes nothing is told.
ghost use Rattle.std.specs.Prelude.{◌≡◌, ◌≢◌, None};

use crate::{Put, Sink, Source, Taken};
use std::io::{Read, Stdin, Stdout, Write};

/// The standard input. It answers `Failed` for every error of the system, and counts it.
#[derive(Drop)]
pub struct StdSource {
    stdin: Stdin,
    faults: u64,
}

impl StdSource {
    /// Takes no memory, and reads nothing.
    pub fn open(rt: &HostRuntime) -> Self
        ensures left { ⟦<StdSource as Source>⟧.left result ≡ None }
        ensures faults { ⟦<StdSource as Source>⟧.faults result ≡ 0 }
    {
        StdSource {
            stdin: rt.stdin(),
            faults: 0,
        }
    }
}

impl Source for StdSource {
    ghost left = { λ _. None };

    ghost faults = { λ s. s.faults };

    fn read(&mut self, into: &mut [u8]) -> Taken {
        match self.stdin.read(into) {
            Ok(count) => Taken::Bytes(count),
            Err(_) => {
                self.faults = self.faults.saturating_add(1);
                Taken::Failed
            }
        }
    }
}

/// The standard output. It answers `Failed` for every error of the system and where it takes nothing of a
/// piece that has a byte, and counts it.
#[derive(Drop)]
pub struct StdSink {
    stdout: Stdout,
    faults: u64,
}

impl StdSink {
    /// Takes no memory, and writes nothing.
    pub fn open(rt: &HostRuntime) -> Self
        ensures held { ⟦<StdSink as Sink>⟧.held result ≡ None }
        ensures faults { ⟦<StdSink as Sink>⟧.faults result ≡ 0 }
    {
        StdSink {
            stdout: rt.stdout(),
            faults: 0,
        }
    }
}

impl Sink for StdSink {
    ghost use Rattle.osc_edge.specs.Sink.{IsTookWithin, AddsToEnd, HasWriteCause};

    ghost held = { λ _. None };

    ghost faults = { λ s. s.faults };

    /// Takes what the system takes at once; it never answers `NoMemory`.
    fn write(&mut self, piece: &[u8]) -> Put
        ensures within { IsTookWithin result piece.now }
        ensures bytes { AddsToEnd None None result piece.now }
        ensures cause { HasWriteCause self.old.faults self.new.faults result }
        ensures answer { result ≢ Put.NoMemory }
    {
        match self.stdout.write(piece) {
            Ok(count) if count > 0 || piece.is_empty() => Put::Took(count),
            _ => {
                self.faults = self.faults.saturating_add(1);
                Put::Failed
            }
        }
    }
}
