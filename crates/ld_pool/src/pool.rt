ghost use Rattle.std.specs.Prelude.{◌≡◌, ◌↔◌, ◌<◌, ◌≤◌, ◌+◌, ◌^◌, ◌++◌, IsSome, IfOk, IfSome, IfNone, OnOk, length, take};
ghost use Rattle.std.specs.List.{slice_index_or, sum_by};
ghost use Rattle.ld_pool.specs.Runs.{IsLive, IsStored, OthersStay, blocks_for, all_free, blocks_of, list_of, without_run};

use crate::blocks::{BLOCK, behind, blocks_for, fill, link};
use std::alloc::{AllocError, Global};
use std::marker::Model;

/// A list that was stored in a pool, by the number of its first block. A list of no items has none.
#[derive(Debug, Drop)]
pub struct Run {
    first: u32,
}

impl Model for Run {
    ghost use Rattle.std.specs.Prelude.{ℕ};

    ghost Value = { ℕ };

    ghost view = { λ run. run.first };
}

/// A fixed number of blocks of 256 items. Room for all of them is taken at once; a block is touched
/// when it is first written.
#[derive(Drop)]
pub struct Pool<T: Copy> {
    // the items up to the last block that was ever written
    items: Vec<T>,
    blank: T,
    // the block behind each block, in its run or among the free ones
    next: Vec<u32>,
    // the length of the run that begins at each block, or 0
    lens: Vec<u32>,
    // the first free block, and how many there are
    head: u32,
    free: u32,
}

impl<T: Copy> Model for Pool<T> {
    ghost use Rattle.std.specs.Prelude.{length, ◌*◌};
    ghost use Rattle.std.specs.Vec.{vec_capacity};
    ghost use Rattle.ld_pool.specs.Runs.{Pooled};
    ghost use Rattle.ld_pool.specs.Inside.Blocks.{IsPool, runs_in, whole};

    ghost Value = { Pooled T };

    ghost view = { λ pool. record { runs = runs_in (whole pool.items.items pool.blank (256 * length pool.next.items)) pool.next.items pool.lens.items; free = pool.free } };

    ghost invariant = { λ pool. IsPool pool.items.items pool.blank (vec_capacity pool.items) pool.next.items pool.lens.items pool.head pool.free };
}

impl<T: Copy> Pool<T> {
    /// So many blocks, all free. The blank item stands where none was stored.
    pub fn new(alloc: Global, blocks: u32, blank: T) -> Result<Pool<T>, AllocError>
        ensures { IfOk result (λ pool. pool ≡ all_free blocks) }
    {
        let items = Vec::with_capacity(alloc, blocks as usize * BLOCK)?;
        let next = link(alloc, blocks)?;
        let lens = vec![in alloc; 0; blocks as usize]?;
        Ok(Pool {
            items,
            blank,
            next,
            lens,
            head: 0,
            free: blocks,
        })
    }

    /// Stores a list in free blocks. `None` where there are too few of them.
    pub fn store(&mut self, items: &[T]) -> Option<Run>
        requires { length items.now < 2 ^ 32 }
        ensures exactly { IsSome result ↔ (blocks_for (length items.now) ≤ self.old.free) }
        ensures some { IfSome result (λ run. IsStored self.old run items.now self.new) }
        ensures none { IfNone result (self.new ≡ self.old) }
    {
        let len = items.len() as u32;
        if len == 0 {
            return Some(Run {
                first: self.lens.len() as u32,
            });
        }
        let count = blocks_for(len);
        if self.free < count {
            return None;
        }
        let first = self.head;
        self.head = fill(
            &mut self.items,
            self.blank,
            self.next.as_slice(),
            first,
            items,
        );
        self.lens[first as usize] = len;
        self.free -= count;
        Some(Run { first })
    }

    /// Frees the blocks of a run.
    pub fn give_back(&mut self, run: Run)
        requires { IsLive self.old run }
        ensures without { self.new ≡ without_run self.old run }
        ensures others { OthersStay self.old run self.new }
    {
        let Run { first } = run;
        let len = self.len_at(first);
        if len > 0 {
            let count = blocks_for(len);
            let last = behind(self.next.as_slice(), first, count - 1);
            self.next[last as usize] = self.head;
            self.lens[first as usize] = 0;
            self.head = first;
            self.free += count;
        }
    }

    /// The number of items of a run.
    pub fn len(&self, run: &Run) -> u32
        requires { IsLive self.now run.now }
        ensures { result ≡ length (list_of self.now run.now) }
    {
        self.len_at(run.first)
    }

    // The number of items of the run that begins at a block, or 0.
    fn len_at(&self, first: u32) -> u32
        ensures { result ≡ length (list_of self.now first) }
    {
        if (first as usize) < self.lens.len() {
            self.lens[first as usize]
        } else {
            0
        }
    }

    /// An item of a run, by its place from 0.
    pub fn read(&self, run: &Run, index: u32) -> T
        requires live { IsLive self.now run.now }
        requires within { index < length (list_of self.now run.now) }
        ensures { result ≡ slice_index_or (list_of self.now run.now) index result }
    {
        let block = behind(self.next.as_slice(), run.first, index / 256);
        self.items[block as usize * BLOCK + index as usize % BLOCK]
    }

    /// Appends the list of a run.
    pub fn copy_out(&self, run: &Run, into: &mut Vec<T>) -> Result<(), AllocError>
        requires { IsLive self.now run.now }
        ensures { OnOk result (into.new.items ≡ into.old.items ++ list_of self.now run.now) }
    {
        self.copy_first(run, self.len(run), into)
    }

    /// Appends so many items of a run, from its first one on.
    pub fn copy_first(&self, run: &Run, count: u32, into: &mut Vec<T>) -> Result<(), AllocError>
        requires live { IsLive self.now run.now }
        requires within { count ≤ length (list_of self.now run.now) }
        ensures { OnOk result (into.new.items ≡ into.old.items ++ take count (list_of self.now run.now)) }
    {
        let mut left = count as usize;
        let mut block = run.first;
        while left > 0 {
            let size = left.min(BLOCK);
            let start = block as usize * BLOCK;
            into.extend_from_slice(&self.items[start..start + size])?;
            block = self.next[block as usize];
            left -= size;
        }
        Ok(())
    }

    /// The number of free blocks. With those of the live runs they are all blocks.
    pub fn free(&self) -> u32
        ensures free { result ≡ self.now.free }
        ensures sum { result + sum_by blocks_of self.now.runs ≡ length self.now.runs }
    {
        self.free
    }
}
