//! The pool: blocks of 64 bytes that are reserved at opening, in which bytes are stored as chains.
ghost use Rattle.osc_pool.specs.declared.limits.TheConstants.{MAX_BLOCKS};
ghost use Rattle.std.specs.Prelude.{◌≡◌, ◌+◌, ◌<◌, ◌≤◌, ◌↔◌, ◌++◌, [], length, replicate, IsErr};
ghost use Rattle.std.specs.Prelude.{IfOk, IfErr, OnOk, OnErr};
ghost use Rattle.osc_pool.specs.Holding.{blocks_for, used_blocks, held_by, with_chain, IsLive};
ghost use Rattle.osc_pool.specs.Holding.{IsNew, KeepsLive, KeepsOthers};

use crate::chain::Chain;
use crate::links::{self, Block};
use osc_atoms::Room;
use std::alloc::{AllocError, Global};
use std::marker::Model;

/// Blocks of 64 bytes, in which bytes are stored as chains. A contract sees, for each block, the bytes of the chain
/// that begins there; none where no chain does.
///
/// No call but `open` takes memory.
pub struct Pool {
    /// The blocks that chains have reached, in room that is reserved for all.
    blocks: Vec<Block>,
    /// The block after each, in its chain or among the free ones.
    next: Vec<u32>,
    /// How many bytes the chain has that begins at each block, 0 where none does.
    sizes: Vec<u32>,
    /// The first free block, where there are any.
    first: u32,
    /// How many blocks are free.
    free: u32,
}

impl Drop for Pool {
    fn drop(self) {
        let Pool {
            blocks: _,
            next: _,
            sizes: _,
            first: _,
            free: _,
        } = self;
    }
}

impl Model for Pool {
    ghost use Rattle.std.specs.Prelude.{List, ℕ, length, vec_capacity};
    ghost use Rattle.osc_pool.specs.Paths.{filled_up, texts_from, IsLaid};

    ghost Value = { List (List ℕ) };

    ghost view = { λ pool. texts_from (filled_up (length pool.next.items) pool.blocks.items)
        pool.next.items 0 pool.sizes.items };

    ghost invariant = { λ pool. IsLaid pool.blocks.items pool.next.items pool.sizes.items
        pool.first pool.free (vec_capacity pool.blocks) };
}

impl Pool {
    /// A pool of so many blocks, all free. The `Err` means that there is no memory for them.
    pub fn open(alloc: Global, blocks: u32) -> Result<Pool, AllocError>
        requires { blocks ≤ MAX_BLOCKS }
        ensures { IfOk result (λ pool. pool ≡ replicate blocks []) }
    {
        Ok(Pool {
            blocks: Vec::with_capacity(alloc, blocks as usize)?,
            next: links::linked(alloc, blocks)?,
            sizes: links::copies(alloc, 0, blocks)?,
            first: 0,
            free: blocks,
        })
    }

    /// How many blocks are free.
    pub fn free(&self) -> u32
        ensures { result + used_blocks self.now ≡ length self.now }
    {
        self.free
    }

    /// Stores the bytes, where so many blocks are free as they need.
    pub fn store(&mut self, bytes: &[u8]) -> Result<Chain, Room>
        ensures full { IsErr result ↔ (length self.old
            < used_blocks self.old + blocks_for (length bytes.now)) }
        ensures need { IfErr result (λ room. room.need ≡ blocks_for (length bytes.now)) }
        ensures free { IfErr result (λ room. room.free + used_blocks self.old ≡ length self.old) }
        ensures unchanged { OnErr result (self.new ≡ self.old) }
        ensures len { IfOk result (λ chain. chain.len ≡ length bytes.now) }
        ensures stored { IfOk result (λ chain. held_by chain self.new ≡ bytes.now) }
        ensures new { IfOk result (λ chain. IsNew chain self.old) }
        ensures kept { KeepsLive self.old self.new }
        ensures ok { IfOk result (λ chain. self.new ≡ with_chain chain bytes.now self.old) }
        ensures used { OnOk result (used_blocks self.new
            ≡ used_blocks self.old + blocks_for (length bytes.now)) }
        ensures limit { length self.new ≡ length self.old }
    {
        let need = links::blocks_for(bytes.len());
        if need > self.free as usize {
            return Err(Room::new(need as u64, self.free as u64));
        }
        if bytes.is_empty() {
            return Ok(Chain { first: 0, len: 0 });
        }
        let first = self.first;
        let len = bytes.len() as u32;
        self.first = links::write(&mut self.blocks, &self.next, first, bytes);
        self.sizes[first as usize] = len;
        self.free -= need as u32;
        Ok(Chain { first, len })
    }

    /// Stores a head and the bytes after it, which fit into one block, where one is free.
    #[inline(always)]
    pub fn store_pair(&mut self, head: &[u8; 4], bytes: &[u8]) -> Chain
        requires fits { length (head.now ++ bytes.now) ≤ 64 }
        requires room { used_blocks self.old < length self.old }
        ensures len { result.len ≡ length (head.now ++ bytes.now) }
        ensures stored { held_by result self.new ≡ head.now ++ bytes.now }
        ensures new { IsNew result self.old }
        ensures kept { KeepsLive self.old self.new }
        ensures ok { self.new ≡ with_chain result (head.now ++ bytes.now) self.old }
        ensures used { used_blocks self.new ≡ used_blocks self.old + 1 }
        ensures limit { length self.new ≡ length self.old }
    {
        let block = self.first;
        let len = 4 + bytes.len() as u32;
        self.first = links::write_pair(&mut self.blocks, &self.next, block, head, bytes);
        self.sizes[block as usize] = len;
        self.free -= 1;
        Chain { first: block, len }
    }

    /// Writes what the chain holds over `out`.
    pub fn read(&self, chain: &Chain, out: &mut [u8])
        requires live { IsLive chain.now self.now }
        requires room { length out.old ≡ chain.now.len }
        ensures { out.new ≡ held_by chain.now self.now }
    {
        links::read(&self.blocks, &self.next, chain.first, out);
    }

    /// Frees the blocks of a chain.
    pub fn give(&mut self, chain: Chain)
        requires { IsLive chain self.old }
        ensures given { self.new ≡ with_chain chain [] self.old }
        ensures kept { KeepsOthers chain self.old self.new }
        ensures used { used_blocks self.new + blocks_for chain.len ≡ used_blocks self.old }
        ensures limit { length self.new ≡ length self.old }
    {
        if chain.len == 0 {
            return;
        }
        let count = links::blocks_for(chain.len as usize);
        let last = links::last_of(&self.next, chain.first, count);
        self.next[last as usize] = self.first;
        self.first = chain.first;
        self.sizes[chain.first as usize] = 0;
        self.free += count as u32;
    }
}
