ghost use Rattle.std.specs.Prelude.{◌≡◌, ◌<◌, ◌≤◌, ◌+◌, ◌*◌, max, IfOk, length};
ghost use Rattle.std.specs.Vec.{vec_capacity};
ghost use Rattle.ld_pool.specs.Runs.{blocks_for};
ghost use Rattle.ld_pool.specs.Inside.Blocks.{AreLinks, AreWithin, IsWritten, behind, filled, linked_up, whole};

use std::alloc::{AllocError, Global};

// The items of a block.
pub(crate) const BLOCK: usize = 256;

// How many blocks are needed for so many items.
pub(crate) fn blocks_for(items: u32) -> u32
    ensures { result ≡ blocks_for items }
{
    items / 256 + if items % 256 == 0 { 0 } else { 1 }
}

// The block that lies so many links behind another.
pub(crate) fn behind(next: &[u32], block: u32, count: u32) -> u32
    requires links { AreLinks next.now }
    requires within { block < length next.now }
    ensures behind { result ≡ behind next.now count block }
    ensures within { result < length next.now }
{
    let mut at = block;
    for _ in 0..count {
        at = next[at as usize];
    }
    at
}

// Links so many blocks, each to the next one. The first one is to be written first, so that of the
// items no more is touched than was ever stored.
pub(crate) fn link(alloc: Global, blocks: u32) -> Result<Vec<u32>, AllocError>
    ensures { IfOk result (λ next. next.items ≡ linked_up blocks) }
{
    let mut next = Vec::with_capacity(alloc, blocks as usize)?;
    for block in 0..blocks {
        next.push((block + 1).min(blocks - 1))?;
    }
    Ok(next)
}

// Writes a list to the blocks from one on, and gives the block behind them.
pub(crate) fn fill<T: Copy>(
    items: &mut Vec<T>,
    blank: T,
    next: &[u32],
    block: u32,
    list: &[T],
) -> u32
    requires size { length items.old.items ≤ 256 * length next.now }
    requires room { 256 * length next.now ≤ vec_capacity items.old }
    requires links { AreLinks next.now }
    requires within { block < length next.now }
    ensures items { whole items.new.items blank (256 * length next.now) ≡ filled (whole items.old.items blank (256 * length next.now)) next.now (blocks_for (length list.now)) block list.now }
    ensures size { length items.new.items ≤ 256 * length next.now }
    ensures longer { length items.old.items ≤ length items.new.items }
    ensures stand { AreWithin next.now (length items.new.items) (blocks_for (length list.now)) block }
    ensures room { 256 * length next.now ≤ vec_capacity items.new }
    ensures behind { result ≡ behind next.now (blocks_for (length list.now)) block }
    ensures within { result < length next.now }
{
    let mut at = block;
    let mut rest = list;
    while !rest.is_empty() {
        let (over, more) = rest.split_at(rest.len().min(BLOCK));
        write(items, blank, at, over);
        at = next[at as usize];
        rest = more;
    }
    at
}

// Writes items to the front of a block, once blank ones stand up to its end.
fn write<T: Copy>(items: &mut Vec<T>, blank: T, block: u32, over: &[T])
    requires short { length over.now ≤ 256 }
    requires room { 256 * block + 256 ≤ vec_capacity items.old }
    ensures items { IsWritten items.old.items blank block over.now items.new.items }
    ensures len { length items.new.items ≡ max (length items.old.items) (256 * block + 256) }
    ensures room { vec_capacity items.old ≤ vec_capacity items.new }
{
    let start = block as usize * BLOCK;
    lengthen(items, blank, start + BLOCK);
    items[start..start + over.len()].copy_from_slice(over);
}

// Appends blank items up to a length.
fn lengthen<T: Copy>(items: &mut Vec<T>, blank: T, len: usize)
    requires { len ≤ vec_capacity items.old }
    ensures items { items.new.items ≡ whole items.old.items blank len }
    ensures room { vec_capacity items.old ≤ vec_capacity items.new }
{
    while items.len() < len {
        items.push_reserved(blank);
    }
}
