// The messages of the queued units, in blocks that are reserved at opening.
ghost use Rattle.osc_packet.specs.declared.limits.TheConstants.{MAX_STORED};
ghost use Rattle.osc_atoms.specs.declared.limits.TheConstants.{MAX_BYTES};
ghost use Rattle.std.specs.Prelude.{◌≡◌, ◌+◌, ◌<◌, ◌≤◌, ◌^◌, ◌++◌, [], length, replicate, IsTrue};
ghost use Rattle.std.specs.Prelude.{IfOk, vec_len, vec_capacity};
ghost use Rattle.std.specs.List.{list_all};
ghost use Rattle.osc_message.specs.Reading.{is_message};
ghost use Rattle.osc_packet.specs.Units.{stored_size, blocks};
ghost use Rattle.osc_atoms.specs.Atoms.{word};
ghost use Rattle.osc_pool.specs.Holding.{blocks_for, used_blocks, IsLive, IsNew, KeepsLive};
ghost use Rattle.osc_pool.specs.Holding.{KeepsOthers};
ghost use Rattle.osc_core.specs.Frames.{framed, messages_in, AreFramed};
ghost use Rattle.osc_core.specs.Stored.{unit_in, IsStored};

use osc_packet::{MAX_STORED, Unit, UnitMessages};
use osc_pool::{Chain, Pool};
use std::alloc::{AllocError, Global};
use std::marker::Model;

/// A unit whose messages are in a store.
#[derive(Drop)]
pub(crate) struct Stored {
    /// Contracts see the unit with it: no code reads it.
    tag: u64,
    /// The messages in order, each after its length in 4 bytes.
    chain: Chain,
}

/// The most bytes of a message that stands in a block next to its length.
pub(crate) const MOST_BESIDE: usize = 60;

/// Blocks of 64 bytes, in which the messages of units are chains. A contract sees what a pool
/// holds.
///
/// No call but `open` takes memory.
#[derive(Drop)]
pub(crate) struct Store {
    pool: Pool,
    /// The messages of the unit that enters.
    bytes: Vec<u8>,
}

impl Model for Store {
    ghost use Rattle.std.specs.Prelude.{ℕ, ◌≤◌, List, vec_capacity};
    ghost use Rattle.osc_packet.specs.declared.limits.TheConstants.{MAX_STORED};

    ghost Value = { List (List ℕ) };

    ghost view = { λ s. s.pool };

    ghost invariant = { λ s. MAX_STORED ≤ vec_capacity s.bytes };
}

impl Store {
    /// A store of so many blocks, all free. The `Err` means that there is no memory for them.
    pub(crate) fn open(alloc: Global, blocks: u32) -> Result<Store, AllocError>
        requires { blocks ≤ 1048576 }
        ensures { IfOk result (λ store. store ≡ replicate blocks []) }
    {
        Ok(Store {
            pool: Pool::open(alloc, blocks)?,
            bytes: Vec::with_capacity(alloc, MAX_STORED as usize)?,
        })
    }

    /// How many blocks are free.
    pub(crate) fn free(&self) -> u32
        ensures { result + used_blocks self.now ≡ length self.now }
    {
        self.pool.free()
    }

    /// Stores the messages of a unit.
    #[inline(always)]
    pub(crate) fn put(&mut self, unit: &Unit<'_>) -> Stored
        requires { used_blocks self.old + blocks unit.now ≤ length self.old }
        ensures stored { IsStored self.new result }
        ensures value { unit_in self.new result ≡ unit.now }
        ensures new { IsNew result.chain self.old }
        ensures kept { KeepsLive self.old self.new }
        ensures used { used_blocks self.new ≡ used_blocks self.old + blocks unit.now }
        ensures limit { length self.new ≡ length self.old }
    {
        if let Some(message) = unit.alone()
            && message.len() <= MOST_BESIDE
        {
            let size = (message.len() as u32).to_be_bytes();
            return Stored {
                tag: unit.tag(),
                chain: self.pool.store_pair(&size, message),
            };
        }
        spell(&mut self.bytes, unit);
        let chain = match self.pool.store(&self.bytes) {
            Ok(chain) => chain,
            Err(_) => unreachable!(),
        };
        Stored {
            tag: unit.tag(),
            chain,
        }
    }

    /// Stores the messages of a unit with this tag, each of which is there after its length.
    pub(crate) fn put_framed(&mut self, tag: u64, bytes: &[u8]) -> Stored
        requires framed { AreFramed bytes.now }
        requires room { used_blocks self.old + blocks_for (length bytes.now) ≤ length self.old }
        ensures stored { IsStored self.new result }
        ensures value { unit_in self.new result
            ≡ record { tag = tag; messages = messages_in bytes.now } }
        ensures used { used_blocks self.new ≡ used_blocks self.old + blocks_for (length bytes.now) }
        ensures limit { length self.new ≡ length self.old }
    {
        match self.pool.store(bytes) {
            Ok(chain) => Stored { tag, chain },
            Err(_) => unreachable!(),
        }
    }

    /// Reads the messages of a unit into a list of bytes that has room for them.
    pub(crate) fn read(&self, stored: &Stored, bytes: &mut Vec<u8>)
        requires stored { IsStored self.now stored.now }
        requires room { MAX_STORED ≤ vec_capacity bytes.old }
        ensures framed { AreFramed bytes.new.items }
        ensures messages { messages_in bytes.new.items
            ≡ (unit_in self.now stored.now).messages }
        ensures capacity { vec_capacity bytes.old ≤ vec_capacity bytes.new }
    {
        fit(bytes, stored.chain.len());
        self.pool.read(&stored.chain, bytes);
    }

    /// Frees the blocks of a unit.
    pub(crate) fn give(&mut self, stored: Stored)
        requires { IsLive stored.chain self.old }
        ensures kept { KeepsOthers stored.chain self.old self.new }
        ensures used { used_blocks self.new + blocks_for stored.chain.len ≡ used_blocks self.old }
        ensures limit { length self.new ≡ length self.old }
    {
        self.pool.give(stored.chain);
    }
}

/// Writes the messages of a unit, each after its length, in place of what was there.
fn spell(bytes: &mut Vec<u8>, unit: &Unit<'_>)
    requires { MAX_STORED ≤ vec_capacity bytes.old }
    ensures items { bytes.new.items ≡ framed unit.now.messages }
    ensures small { stored_size unit.now.messages ≤ MAX_STORED }
    ensures read { IsTrue (list_all (is_message MAX_BYTES) unit.now.messages) }
    ensures capacity { vec_capacity bytes.old ≤ vec_capacity bytes.new }
{
    bytes.clear();
    match unit.alone() {
        Some(message) => append_message(bytes, message),
        None => {
            prove!(unit.stored() <= MAX_STORED);
            append(bytes, unit.messages());
        }
    }
}

/// Adds the messages, each after its length, in room that is there.
fn append(bytes: &mut Vec<u8>, messages: UnitMessages<'_>)
    requires { vec_len bytes.old + stored_size messages ≤ vec_capacity bytes.old }
    ensures items { bytes.new.items ≡ bytes.old.items ++ framed messages.entry }
    ensures capacity { vec_capacity bytes.old ≤ vec_capacity bytes.new }
    ensures read { IsTrue (list_all (is_message MAX_BYTES) messages.entry) }
{
    for message in messages {
        append_message(bytes, message.bytes());
    }
}

/// Adds a message after its length.
#[inline(always)]
fn append_message(bytes: &mut Vec<u8>, message: &[u8])
    requires room { vec_len bytes.old + (4 + length message.now) ≤ vec_capacity bytes.old }
    requires small { length message.now < 2 ^ 32 }
    ensures items { bytes.new.items
        ≡ bytes.old.items ++ (word (length message.now) ++ message.now) }
    ensures len { vec_len bytes.new ≡ vec_len bytes.old + (4 + length message.now) }
    ensures capacity { vec_capacity bytes.old ≤ vec_capacity bytes.new }
{
    add(bytes, &(message.len() as u32).to_be_bytes());
    add(bytes, message);
}

/// Adds bytes in room that is there.
fn add(bytes: &mut Vec<u8>, more: &[u8])
    requires { vec_len bytes.old + length more.now ≤ vec_capacity bytes.old }
    ensures items { bytes.new.items ≡ bytes.old.items ++ more.now }
    ensures len { vec_len bytes.new ≡ vec_len bytes.old + length more.now }
    ensures capacity { vec_capacity bytes.old ≤ vec_capacity bytes.new }
{
    match bytes.extend_from_slice(more) {
        Ok(()) => {}
        Err(_) => unreachable!(),
    }
}

/// Writes a message after its length over all bytes.
pub(crate) fn write_message(out: &mut [u8], message: &[u8])
    requires room { length out.old ≡ 4 + length message.now }
    requires small { length message.now < 2 ^ 32 }
    ensures { out.new ≡ word (length message.now) ++ message.now }
{
    let (size, rest) = out.split_at_mut(4);
    size.copy_from_slice(&(message.len() as u32).to_be_bytes());
    rest.copy_from_slice(message);
}

/// Makes the list as long as this, in room that is there.
pub(crate) fn fit(bytes: &mut Vec<u8>, size: usize)
    requires { size ≤ vec_capacity bytes.old }
    ensures len { length bytes.new.items ≡ size }
    ensures capacity { vec_capacity bytes.old ≤ vec_capacity bytes.new }
{
    match bytes.resize(size, 0) {
        Ok(()) => {}
        Err(_) => unreachable!(),
    }
}
