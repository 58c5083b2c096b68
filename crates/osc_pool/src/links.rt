// Blocks that follow one another by their links.
ghost use Rattle.osc_pool.specs.declared.limits.TheConstants.{BLOCK_SIZE};
ghost use Rattle.std.specs.Prelude.{◌≡◌, ◌-◌, ◌<◌, ◌≤◌, ◌^◌, ◌++◌, ℕ, IfOk, length, max, replicate};
ghost use Rattle.std.specs.Prelude.{take, vec_capacity};
ghost use Rattle.std.specs.List.{range_with_len};
ghost use Rattle.osc_pool.specs.Holding.{blocks_for};
ghost use Rattle.osc_pool.specs.Paths.{block_after, filled_up, path, text, IsPath, IsPut};
ghost use Rattle.osc_pool.specs.Paths.{AreReached, AreWhole, IsWritten};

use crate::limits::BLOCK_SIZE;
use std::alloc::{AllocError, Global};

/// A block of a pool.
pub(crate) type Block = [u8; BLOCK_SIZE];

/// How many blocks hold so many bytes.
pub(crate) fn blocks_for(size: usize) -> usize
    ensures { result ≡ blocks_for size }
{
    size.div_ceil(BLOCK_SIZE)
}

/// Links from each of so many blocks to the one after it.
pub(crate) fn linked(alloc: Global, blocks: u32) -> Result<Vec<u32>, AllocError>
    requires { blocks < 2 ^ 31 }
    ensures { IfOk result (λ next. next.items ≡ range_with_len 1 blocks) }
{
    let mut next = Vec::with_capacity(alloc, blocks as usize)?;
    for block in 0..blocks {
        next.push(block + 1)?;
    }
    Ok(next)
}

/// So many times the same value.
pub(crate) fn copies<T: Copy>(alloc: Global, value: T, count: u32) -> Result<Vec<T>, AllocError>
    ensures { IfOk result (λ all. all.items ≡ replicate count value) }
{
    let mut all = Vec::with_capacity(alloc, count as usize)?;
    all.resize(count as usize, value)?;
    Ok(all)
}

/// The last of so many blocks, from the first on.
pub(crate) fn last_of(next: &[u32], first: u32, count: usize) -> u32
    requires some { 0 < count }
    requires path { IsPath next.now count first (length next.now) }
    ensures { result ≡ block_after next.now (count - 1) first }
{
    let mut block = first;
    for _step in 1..count {
        block = next[block as usize];
    }
    block
}

/// Writes the bytes into blocks, from the first on, and answers the block after them.
pub(crate) fn write(blocks: &mut Vec<Block>, next: &[u32], first: u32, bytes: &[u8]) -> u32
    requires linked { length blocks.old.items ≤ length next.now }
    requires room { length next.now ≤ vec_capacity blocks.old }
    requires path { IsPath next.now (blocks_for (length bytes.now)) first (length next.now) }
    requires whole { AreWhole (filled_up (length next.now) blocks.old.items) }
    ensures written { IsWritten (filled_up (length next.now) blocks.old.items)
        (filled_up (length next.now) blocks.new.items) next.now first result bytes.now }
    ensures reached { AreReached (path next.now (blocks_for (length bytes.now)) first)
        (length blocks.old.items) (length blocks.new.items) (length next.now) }
    ensures capacity { vec_capacity blocks.old ≤ vec_capacity blocks.new }
{
    let mut block = first;
    let mut rest = bytes;
    while !rest.is_empty() {
        let (piece, others) = rest.split_at(rest.len().min(BLOCK_SIZE));
        put(blocks, block as usize, piece);
        block = next[block as usize];
        rest = others;
    }
    block
}

/// Writes a head and the bytes after it into one block, and answers the block after that.
#[inline(always)]
pub(crate) fn write_pair(
    blocks: &mut Vec<Block>,
    next: &[u32],
    first: u32,
    head: &[u8; 4],
    bytes: &[u8],
) -> u32
    requires fits { length (head.now ++ bytes.now) ≤ BLOCK_SIZE }
    requires some { 0 < length (head.now ++ bytes.now) }
    requires linked { length blocks.old.items ≤ length next.now }
    requires room { length next.now ≤ vec_capacity blocks.old }
    requires path { IsPath next.now (blocks_for (length (head.now ++ bytes.now))) first
        (length next.now) }
    requires whole { AreWhole (filled_up (length next.now) blocks.old.items) }
    ensures written { IsWritten (filled_up (length next.now) blocks.old.items)
        (filled_up (length next.now) blocks.new.items) next.now first result
        (head.now ++ bytes.now) }
    ensures reached { AreReached
        (path next.now (blocks_for (length (head.now ++ bytes.now))) first)
        (length blocks.old.items) (length blocks.new.items) (length next.now) }
    ensures capacity { vec_capacity blocks.old ≤ vec_capacity blocks.new }
{
    put_pair(blocks, first as usize, head, bytes);
    next[first as usize]
}

/// Writes a head and the bytes after it over the beginning of a block.
#[inline(always)]
fn put_pair(blocks: &mut Vec<Block>, block: usize, head: &[u8; 4], bytes: &[u8])
    requires room { block < vec_capacity blocks.old }
    requires small { length (head.now ++ bytes.now) ≤ BLOCK_SIZE }
    ensures put { (limit : ℕ) → block < limit → length blocks.old.items ≤ limit →
        IsPut limit blocks.old.items blocks.new.items block (head.now ++ bytes.now) }
    ensures capacity { vec_capacity blocks.old ≤ vec_capacity blocks.new }
{
    reach(blocks, block + 1);
    fill_pair(&mut blocks[block], head, bytes);
}

/// Writes the piece over the beginning of a block.
fn put(blocks: &mut Vec<Block>, block: usize, piece: &[u8])
    requires room { block < vec_capacity blocks.old }
    requires small { length piece.now ≤ BLOCK_SIZE }
    ensures put { (limit : ℕ) → block < limit → length blocks.old.items ≤ limit →
        IsPut limit blocks.old.items blocks.new.items block piece.now }
    ensures capacity { vec_capacity blocks.old ≤ vec_capacity blocks.new }
{
    reach(blocks, block + 1);
    fill(&mut blocks[block], piece);
}

/// So many blocks are reached, those that weren't with zeros.
fn reach(blocks: &mut Vec<Block>, count: usize)
    requires { count ≤ vec_capacity blocks.old }
    ensures same { (limit : ℕ) → count ≤ limit → length blocks.old.items ≤ limit →
        filled_up limit blocks.new.items ≡ filled_up limit blocks.old.items }
    ensures len { length blocks.new.items ≡ max (length blocks.old.items) count }
    ensures capacity { vec_capacity blocks.old ≤ vec_capacity blocks.new }
{
    if blocks.len() >= count {
        return;
    }
    match blocks.resize(count, [0; BLOCK_SIZE]) {
        Ok(()) => {}
        Err(_) => unreachable!(),
    }
}

/// Writes the piece over the beginning of a block.
fn fill(block: &mut Block, piece: &[u8])
    requires { length piece.now ≤ BLOCK_SIZE }
    ensures taken { take (length piece.now) block.new ≡ piece.now }
    ensures whole { length block.new ≡ BLOCK_SIZE }
{
    block[..piece.len()].copy_from_slice(piece);
}

/// Writes a head and the bytes after it over the beginning of a block.
#[inline(always)]
fn fill_pair(block: &mut Block, head: &[u8; 4], bytes: &[u8])
    requires { length (head.now ++ bytes.now) ≤ BLOCK_SIZE }
    ensures taken { take (length (head.now ++ bytes.now)) block.new ≡ head.now ++ bytes.now }
    ensures whole { length block.new ≡ BLOCK_SIZE }
{
    block[..4].copy_from_slice(head);
    block[4..4 + bytes.len()].copy_from_slice(bytes);
}

/// Reads as many bytes as `out` has room for, from the first block on.
pub(crate) fn read(blocks: &[Block], next: &[u32], first: u32, out: &mut [u8])
    requires linked { length blocks.now ≤ length next.now }
    requires path { IsPath next.now (blocks_for (length out.old)) first (length blocks.now) }
    requires whole { AreWhole blocks.now }
    ensures { out.new
        ≡ text blocks.now next.now (blocks_for (length out.old)) first (length out.old) }
{
    let len = out.len();
    if len > 0 && len <= BLOCK_SIZE {
        out.copy_from_slice(&blocks[first as usize][..len]);
        return;
    }
    let mut block = first;
    let mut done = 0;
    while done < out.len() {
        let end = out.len().min(done + BLOCK_SIZE);
        out[done..end].copy_from_slice(&blocks[block as usize][..end - done]);
        block = next[block as usize];
        done = end;
    }
}
