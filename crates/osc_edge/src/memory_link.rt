//! A link in memory that gives its turns in order, and fails at the calls in a list.
ghost use Rattle.std.specs.Prelude.{◌≡◌, ◌≤◌, length, take, drop, Some, All, vec_len};
ghost use Rattle.osc_edge.specs.Link.{IsShortTurn};

use crate::calls::Calls;
use crate::{Datagram, Link};
use osc_atoms::Bytes;

/// Turns in memory, one a call: a datagram's bytes, or `None` for a quiet. The end follows them. Calls whose numbers,
/// from 1, stand in a list fail.
#[derive(Drop)]
pub struct MemoryLink {
    turns: Vec<Option<Bytes>>,
    at: usize,
    calls: Calls,
    faults: u64,
    quiets: u64,
    ghost within: { at ≤ vec_len turns },
    ghost short: { All IsShortTurn turns.items },
}

impl MemoryLink {
    ghost use Rattle.osc_edge.specs.Memory.{link_calls};

    /// Takes no memory. A datagram has at most [`MAX_DATAGRAM`](crate::MAX_DATAGRAM) bytes.
    pub fn open(turns: Vec<Option<Bytes>>, fails: Vec<u32>) -> Self
        requires short { All IsShortTurn turns.items }
        ensures left { ⟦<MemoryLink as Link>⟧.left result ≡ Some turns.items }
        ensures faults { ⟦<MemoryLink as Link>⟧.faults result ≡ 0 }
        ensures quiets { ⟦<MemoryLink as Link>⟧.quiets result ≡ 0 }
        ensures calls { link_calls result ≡ record { made = 0; fails = fails.items } }
    {
        MemoryLink {
            turns,
            at: 0,
            calls: Calls::open(fails),
            faults: 0,
            quiets: 0,
        }
    }
}

impl Link for MemoryLink {
    ghost use Rattle.osc_edge.specs.Calls.{one_more};
    ghost use Rattle.osc_edge.specs.Link.{IsGotWithin, TakesTurn, HasLinkCause, HasQuietCause};
    ghost use Rattle.osc_edge.specs.Memory.{link_calls, link_turns, datagram_of};
    ghost use Rattle.osc_edge.specs.declared.limits.TheConstants.{MAX_DATAGRAM};

    ghost left = { λ l. Some (drop l.at l.turns.items) };

    ghost faults = { λ l. l.faults };

    ghost quiets = { λ l. l.quiets };

    /// Fails at the calls in the list, and gives the next turn at every other.
    fn next(&mut self, into: &mut [u8]) -> Datagram
        requires space { length into.old ≡ MAX_DATAGRAM }
        ensures within { IsGotWithin result into.new }
        ensures turns { TakesTurn (Some (link_turns self.old)) (Some (link_turns self.new))
            result into.new }
        ensures cause { HasLinkCause self.old.faults self.new.faults result }
        ensures ready { HasQuietCause self.old.quiets self.new.quiets result }
        ensures answer { result ≡ datagram_of (link_calls self.old) (link_turns self.old) }
        ensures calls { link_calls self.new ≡ one_more (link_calls self.old) }
    {
        if self.calls.next_fails() {
            self.faults = self.faults.saturating_add(1);
            return Datagram::Failed;
        }
        let Some(turn) = self.turns.get(self.at) else {
            return Datagram::End;
        };
        self.at += 1;
        match turn {
            Some(bytes) => Datagram::Got(put_front(bytes.as_slice(), into)),
            None => {
                self.quiets = self.quiets.saturating_add(1);
                Datagram::Quiet
            }
        }
    }
}

/// Copies a datagram to the front of the slice, and says how many bytes it has.
fn put_front(datagram: &[u8], into: &mut [u8]) -> usize
    requires { length datagram.now ≤ length into.old }
    ensures count { result ≡ length datagram.now }
    ensures bytes { take result into.new ≡ datagram.now }
{
    let count = datagram.len();
    into[..count].copy_from_slice(datagram);
    count
}
