//! Lists stored and given back, at the lengths and in the orders that decide about a block.
ghost use Rattle.std.specs.Prelude.{◌≡◌, ◌+◌, ◌<◌, IfOk, OnOk, length};
ghost use Rattle.ld_pool.specs.Runs.{AreLive};

use super::*;
use std::alloc::{AllocError, Global};

// How many blocks there are, the lengths of the lists that are stored one after another, and how
// many blocks are free after each. A list that finds too few leaves them.
static STORES: [(u32, [u32; 4], [u32; 4]); 6] = [
    (3, [257, 257, 256, 0], [1, 1, 0, 0]),
    (0, [0, 1, 0, 256], [0, 0, 0, 0]),
    (1, [0, 257, 256, 1], [1, 1, 0, 0]),
    (4, [255, 256, 257, 1], [3, 2, 0, 0]),
    (5, [1281, 1025, 1, 0], [5, 0, 0, 0]),
    (9, [513, 512, 511, 256], [6, 4, 2, 1]),
];

// The lists that are given back in every order, and the blocks that each takes.
static LENS: [u32; 4] = [1, 256, 257, 600];

fn blocks_of(len: u32) -> u32 {
    match len {
        1 | 256 => 1,
        257 => 2,
        600 => 3,
        _ => 0,
    }
}

// A list whose items tell how long it is and where they stand.
fn list_of(alloc: Global, len: u32) -> Result<Vec<u32>, AllocError>
    ensures { IfOk result (λ list. length list.items ≡ len) }
{
    let mut list = Vec::with_capacity(alloc, len as usize)?;
    for place in 0..len {
        list.push((len << 12) ^ place)?;
    }
    Ok(list)
}

fn store_next(
    alloc: Global,
    pool: &mut Pool<u32>,
    runs: &mut Vec<Run>,
    len: u32,
) -> Result<(), AllocError>
    requires { AreLive pool.old runs.old.items }
    ensures { OnOk result (AreLive pool.new runs.new.items) }
{
    let list = list_of(alloc, len)?;
    let Some(run) = pool.store(list.as_slice()) else {
        return Ok(());
    };
    runs.push(run)?;
    Ok(())
}

// Gives the run at a place back, and tells how long it was.
fn give_at(pool: &mut Pool<u32>, runs: &mut Vec<Run>, at: usize) -> u32
    requires within { at < length runs.old.items }
    requires live { AreLive pool.old runs.old.items }
    ensures live { AreLive pool.new runs.new.items }
    ensures len { length runs.new.items + 1 ≡ length runs.old.items }
{
    let run = runs.remove(at);
    let len = pool.len(&run);
    pool.give_back(run);
    len
}

// Whether runs hold the lists that were stored.
#[tactic(auto, using(crate::proofs::Live::live_at))]
fn are_stored(alloc: Global, pool: &Pool<u32>, runs: &Vec<Run>) -> Result<bool, AllocError>
    requires { AreLive pool.now runs.now.items }
{
    for at in 0..runs.len() {
        let mut copied = Vec::new(alloc);
        pool.copy_out(&runs[at], &mut copied)?;
        let list = list_of(alloc, pool.len(&runs[at]))?;
        if copied.as_slice() != list.as_slice() {
            return Ok(false);
        }
    }
    Ok(true)
}

#[tactic(auto, using(crate::proofs::Live::live_none))]
fn stores_row(
    alloc: Global,
    blocks: u32,
    lens: &[u32; 4],
    free: &[u32; 4],
) -> Result<bool, AllocError> {
    let mut pool = Pool::new(alloc, blocks, 0)?;
    let mut runs = Vec::new(alloc);
    for at in 0..4usize {
        store_next(alloc, &mut pool, &mut runs, lens[at])?;
        if pool.free() != free[at] {
            return Ok(false);
        }
    }
    are_stored(alloc, &pool, &runs)
}

// Gives all runs back in one of the orders of four, and then stores a list in all blocks.
#[tactic(auto, using(crate::proofs::Live::live_none))]
fn gives_back(alloc: Global, order: usize) -> Result<bool, AllocError> {
    let mut pool = Pool::new(alloc, 8, 0)?;
    let mut runs = Vec::new(alloc);
    for at in 0..4usize {
        store_next(alloc, &mut pool, &mut runs, LENS[at])?;
    }
    let mut left = order;
    while !runs.is_empty() {
        let at = left % runs.len();
        left /= runs.len();
        let free = pool.free();
        let len = give_at(&mut pool, &mut runs, at);
        if pool.free() != free.wrapping_add(blocks_of(len)) || !are_stored(alloc, &pool, &runs)? {
            return Ok(false);
        }
    }
    store_next(alloc, &mut pool, &mut runs, 8 * 256)?;
    Ok(pool.free() == 0 && runs.len() == 1 && are_stored(alloc, &pool, &runs)?)
}

#[test]
fn stores_up_to_the_last_block(rt: HostRuntime) {
    let alloc = rt.alloc();
    for (blocks, lens, free) in &STORES {
        assert!(rt;
            stores_row(alloc, *blocks, lens, free) == Ok(true),
            "{blocks} {lens:?}"
        );
    }
}

#[test]
fn gives_back_in_every_order(rt: HostRuntime) {
    let alloc = rt.alloc();
    for order in 0..24usize {
        assert!(rt; gives_back(alloc, order) == Ok(true), "{order}");
    }
}

// Two lists fill three blocks, beside one that finds too few and one of no items. The first is given
// back, and the second is copied out.
#[tactic(auto, using(crate::proofs::Live::live_none, crate::proofs::Live::live_at))]
fn pool_row(alloc: Global) -> Result<bool, AllocError> {
    let mut pool = Pool::new(alloc, 3, 0)?;
    let mut runs = Vec::new(alloc);
    for at in 0..4usize {
        store_next(alloc, &mut pool, &mut runs, STORES[0].1[at])?;
    }
    if runs.len() != 3 {
        return Ok(false);
    }
    let _ = give_at(&mut pool, &mut runs, 0);
    let mut copied = Vec::new(alloc);
    pool.copy_out(&runs[0], &mut copied)?;
    Ok(pool.free() == 2 && copied.as_slice() == list_of(alloc, 256)?.as_slice())
}

#[test]
fn row_pool(rt: HostRuntime) {
    assert!(rt; pool_row(rt.alloc()) == Ok(true));
}

fn crosses_threads<T: Send + Sync>() {}

// What workers are lent crosses threads.
fn types_cross_threads() {
    crosses_threads::<Pool<u32>>();
    crosses_threads::<Run>();
}
