//! What carries packets to the links that the words say to serve.
ghost use Rattle.std.specs.Prelude.{◌≡◌, IfOk, map, string_bytes};
ghost use Rattle.osc_words.specs.Commands as said;

use osc_words::{LiveCommand, Transport, live_command_of};
use std::alloc::{AllocError, Global};

/// Whether the words say to serve links over TCP, that is a `serve` with `--tcp`. An `Err` means
/// out of memory.
pub fn wants_tcp(alloc: Global, words: &[String]) -> Result<bool, AllocError>
    ensures { IfOk result (λ wanted. wanted ≡ said.wants_tcp (map string_bytes words.now)) }
{
    match live_command_of(alloc, words)? {
        Some(
            LiveCommand::Serve {
                transport: Transport::Tcp,
                ..
            },
        ) => Ok(true),
        _ => Ok(false),
    }
}
