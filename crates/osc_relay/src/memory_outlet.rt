//! An outlet in memory that keeps what it was given, and fails at the sends in a list.
ghost use Rattle.std.specs.Prelude.{◌≡◌, ◌==◌, ◌++◌, ◌∷◌, OnOk, OnErr, Some, []};
ghost use Rattle.std.specs.List.{list_any};

use crate::{Outlet, Sending};
use osc_atoms::Bytes;
use std::alloc::{AllocError, Global};

/// Datagrams in memory. Sends whose numbers, from 1, stand in a list fail, and so does one that finds no memory.
#[derive(Drop)]
pub struct MemoryOutlet {
    sent: Vec<Bytes>,
    lost: u64,
    made: u64,
    fails: Vec<u32>,
    alloc: Global,
}

impl MemoryOutlet {
    ghost use Rattle.osc_edge.specs.Calls.{fails_next, one_more};
    ghost use Rattle.osc_relay.specs.Memory.{outlet_calls, memory_datagrams};

    /// Takes no memory.
    pub fn open(alloc: Global, fails: Vec<u32>) -> Self
        ensures sent { memory_datagrams result ≡ [] }
        ensures losses { ⟦<MemoryOutlet as Outlet>⟧.losses result ≡ 0 }
        ensures calls { outlet_calls result ≡ record { made = 0; fails = fails.items } }
    {
        MemoryOutlet {
            sent: Vec::new(alloc),
            lost: 0,
            made: 0,
            fails,
            alloc,
        }
    }

    /// The datagrams that were sent since the reset, in order.
    pub fn sent(&self) -> &[Bytes]
        ensures { result.now ≡ memory_datagrams self.now }
    {
        &self.sent
    }

    /// Counts one more send, and says whether it is to fail.
    fn next_fails(&mut self) -> bool
        ensures value { result ≡ fails_next (outlet_calls self.old) }
        ensures counted { outlet_calls self.new ≡ one_more (outlet_calls self.old) }
        ensures sent { self.new.sent.items ≡ self.old.sent.items }
        ensures lost { self.new.lost ≡ self.old.lost }
    {
        self.made = self.made.saturating_add(1);
        is_among(&self.fails, self.made)
    }

    /// Keeps a copy. An `Err` means out of memory, and nothing is kept then.
    fn keep(&mut self, datagram: &[u8]) -> Result<(), AllocError>
        ensures kept { OnOk result
            (self.new.sent.items ≡ self.old.sent.items ++ datagram.now ∷ []) }
        ensures same { OnErr result (self.new.sent.items ≡ self.old.sent.items) }
        ensures lost { self.new.lost ≡ self.old.lost }
        ensures calls { outlet_calls self.new ≡ outlet_calls self.old }
    {
        let copy = Bytes::copied(self.alloc, datagram)?;
        self.sent.push(copy)?;
        Ok(())
    }
}

fn is_among(numbers: &[u32], call: u64) -> bool
    ensures { result ≡ list_any (λ number. number == call) numbers.now }
{
    numbers.iter().any(|number| u64::from(*number) == call)
}

impl Outlet for MemoryOutlet {
    ghost use Rattle.std.specs.Prelude.{IsTrue};
    ghost use Rattle.osc_edge.specs.Calls.{fails_next, one_more};
    ghost use Rattle.osc_relay.specs.Memory.{outlet_calls, memory_datagrams};
    ghost use Rattle.osc_relay.specs.Outlets.{after_sending, losses_after, one_up};
    ghost use Rattle.osc_relay.specs.declared.outlet.Sending.{Sending};

    ghost sent = { λ o. Some o.sent.items };

    ghost losses = { λ o. o.lost };

    ghost tries = { λ o. o.made };

    ghost mark = { λ o. o.fails.items };

    /// Keeps the count of the sends.
    fn reset(&mut self) {
        self.sent.clear();
        self.lost = 0;
    }

    /// Fails at the sends in the list, and keeps the datagram at every other, where there is memory.
    fn send(&mut self, datagram: &[u8]) -> Sending
        ensures sent { Some (memory_datagrams self.new)
            ≡ after_sending result datagram.now (Some (memory_datagrams self.old)) }
        ensures losses { self.new.lost ≡ losses_after result self.old.lost }
        ensures fails { IsTrue (fails_next (outlet_calls self.old)) → result ≡ Sending.Failed }
        ensures calls { outlet_calls self.new ≡ one_more (outlet_calls self.old) }
    {
        if self.next_fails() || self.keep(datagram).is_err() {
            self.lose();
            return Sending::Failed;
        }
        Sending::Sent
    }

    /// Counts no send.
    fn lose(&mut self)
        ensures sent { Some (memory_datagrams self.new) ≡ Some (memory_datagrams self.old) }
        ensures losses { self.new.lost ≡ one_up self.old.lost }
        ensures calls { outlet_calls self.new ≡ outlet_calls self.old }
    {
        self.lost = self.lost.saturating_add(1);
    }

    fn lost(&self) -> u64 {
        self.lost
    }
}
