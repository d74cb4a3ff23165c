ghost use Rattle.std.specs.Prelude.{◌≡◌, ◌↔◌, ◌<◌, ◌≤◌, ◌+◌, ◌*◌, ◌^◌, IsOk, IfOk, IfErr, OnOk, OnErr, None, length, count_by, slice_set};
ghost use Rattle.std.specs.List.{sum_by};
ghost use Rattle.std.specs.Option.{is_some};
ghost use Rattle.ld_pool.specs.Runs.{blocks_for};
ghost use Rattle.ld_cache.specs.Kept.{blocks_in, entries_in, free_blocks, kept_of, nothing_kept, with_kept, without_dirty};

use crate::kept::Kept;
use crate::slot::{Slot, put};
use ld_colour::Colour;
use ld_entry::{Entry, Expansion, Source};
use ld_graph::Dirty;
use ld_names::TextId;
use ld_pool::Pool;
use std::alloc::{AllocError, Global};
use std::marker::Model;

// What stands in a block where no entry was stored.
const BLANK: Entry = Entry::Part {
    file: TextId(0),
    colour: Colour::Main,
    source: Source {
        text: TextId(0),
        line: 0,
    },
};

/// The kept expansions by the numbers of their texts. Its blocks and its table are taken at once,
/// and touched when they are first written.
#[derive(Drop)]
pub struct Cache {
    pool: Pool<Entry>,
    // up to the last text that was ever kept; the room is for all texts
    slots: Vec<Option<Slot>>,
}

impl Model for Cache {
    ghost use Rattle.std.specs.Prelude.{length, map};
    ghost use Rattle.std.specs.Vec.{vec_capacity};
    ghost use Rattle.ld_cache.specs.Kept.{Cached};
    ghost use Rattle.ld_cache.specs.Inside.Table.{IsCache, shown_in, whole};

    ghost Value = { Cached };

    ghost view = { λ cache. record { kept = map (shown_in cache.pool) (whole cache.slots.items (vec_capacity cache.slots)); blocks = length cache.pool.runs } };

    ghost invariant = { λ cache. IsCache cache.pool cache.slots.items (vec_capacity cache.slots) };
}

impl Cache {
    /// A cache for so many texts, with blocks for so many entries. Nothing is kept.
    pub fn new(alloc: Global, texts: u32, entries: u32) -> Result<Cache, AllocError>
        ensures { IfOk result (λ cache. cache ≡ nothing_kept texts entries) }
    {
        let slots = Vec::with_capacity(alloc, texts as usize)?;
        let pool = Pool::new(alloc, entries / 256, BLANK)?;
        Ok(Cache { pool, slots })
    }

    /// Keeps the expansion of a text. It comes back where too few blocks are free.
    pub fn keep(&mut self, id: TextId, expansion: Expansion) -> Result<(), Expansion>
        requires within { id.0 < length self.old.kept }
        requires vacant { kept_of self.old id ≡ None }
        requires few { length expansion.entries < 2 ^ 32 }
        ensures exactly { IsOk result ↔ (blocks_for (length expansion.entries) ≤ free_blocks self.old) }
        ensures ok { OnOk result (self.new ≡ with_kept self.old id expansion) }
        ensures err { OnErr result (self.new ≡ self.old) }
        ensures given { IfErr result (λ back. back ≡ expansion) }
    {
        let Some(run) = self.pool.store(expansion.entries.as_slice()) else {
            return Err(expansion);
        };
        let Expansion {
            entries: _,
            line_ends,
            end,
        } = expansion;
        let slot = Slot {
            run,
            line_ends,
            end,
        };
        put(&mut self.slots, id.0 as usize, slot);
        Ok(())
    }

    /// Forgets the expansions of dirty texts.
    pub fn forget(&mut self, dirty: &Dirty)
        ensures { self.new ≡ without_dirty self.old dirty.now }
    {
        for text in 0..self.slots.len() as u32 {
            if dirty.has(TextId(text)) {
                self.forget_one(text as usize);
            }
        }
    }

    // Forgets the expansion of a text.
    fn forget_one(&mut self, text: usize)
        ensures kept { self.new.kept ≡ slice_set self.old.kept text None }
        ensures blocks { self.new.blocks ≡ self.old.blocks }
    {
        if text < self.slots.len() {
            if let Some(slot) = self.slots[text].take() {
                self.pool.give_back(slot.into_run());
            }
        }
    }

    /// The kept expansion of a text.
    #[tactic(auto, using(crate::proofs::Tables::kept_at))]
    pub fn get(&self, id: TextId) -> Option<Kept<'_>>
        ensures { result ≡ kept_of self.now id }
    {
        let Some(Some(slot)) = self.slots.get(id.0 as usize) else {
            return None;
        };
        Some(Kept {
            pool: &self.pool,
            slot,
        })
    }

    /// The number of kept expansions.
    pub fn kept(&self) -> u32
        ensures { result ≡ count_by is_some self.now.kept }
    {
        self.slots.iter().filter(|slot| slot.is_some()).count() as u32
    }

    /// The number of free blocks.
    #[tactic(auto, using(crate::proofs::Budget::together))]
    pub fn free_blocks(&self) -> u32
        ensures free { result ≡ free_blocks self.now }
        ensures sum { result + sum_by blocks_in self.now.kept ≡ self.now.blocks }
        ensures together { sum_by entries_in self.now.kept ≤ 256 * self.now.blocks }
    {
        self.pool.free()
    }
}
