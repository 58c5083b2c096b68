//! The ports of the links that the words say to serve.
ghost use Rattle.osc_links.specs.declared.limits.TheConstants.{MAX_LINKS};
ghost use Rattle.std.specs.Prelude.{◌≡◌, ◌+◌, ◌≤◌, IfOk, length, map, string_bytes};
ghost use Rattle.std.specs.List.{range_with_len};
ghost use Rattle.osc_words.specs.declared.command.TheConstants.{PORTS};
ghost use Rattle.osc_top.specs.Commands.{ports_of};

use osc_words::{LiveCommand, live_command_of};
use std::alloc::{AllocError, Global};

/// The ports of the links that a `serve` is to serve, one for each link, ascending by one from
/// the first; none where the words are refused or say another command. An `Err` means out of
/// memory.
pub fn ports(alloc: Global, words: &[String]) -> Result<Vec<u16>, AllocError>
    ensures said { IfOk result (λ ports. ports.items ≡ ports_of (map string_bytes words.now)) }
    ensures few { IfOk result (λ ports. length ports.items ≤ MAX_LINKS) }
{
    match live_command_of(alloc, words)? {
        Some(LiveCommand::Serve { port, links, .. }) => ports_from(alloc, port, links),
        _ => Ok(Vec::new(alloc)),
    }
}

fn ports_from(alloc: Global, first: u16, count: u32) -> Result<Vec<u16>, AllocError>
    requires { first + count ≤ PORTS }
    ensures { IfOk result
        (λ ports. ports.items ≡ map (λ link. first + link) (range_with_len 0 count)) }
{
    let mut ports = Vec::with_capacity(alloc, count as usize)?;
    for link in 0..count {
        ports.push((u32::from(first) + link) as u16)?;
    }
    Ok(ports)
}
