ghost use Rattle.std.specs.Prelude.{◌≡◌, ◌<◌, ◌≤◌, ◌++◌, OnOk, length, take};
ghost use Rattle.std.specs.List.{slice_index_or};
ghost use Rattle.ld_cache.specs.Kept.{line_end_of};

use crate::slot::Slot;
use ld_entry::{Entry, Fault};
use ld_pool::Pool;
use std::alloc::AllocError;
use std::marker::Model;

/// A kept expansion, lent by its cache.
#[derive(Drop)]
pub struct Kept<'a> {
    pub(crate) pool: &'a Pool<Entry>,
    pub(crate) slot: &'a Slot,
}

impl<'a> Model for Kept<'a> {
    ghost use Rattle.ld_pool.specs.Runs.{IsLive};
    ghost use Rattle.ld_entry.specs.declared.entry.Expansion.{Expansion};
    ghost use Rattle.ld_cache.specs.Inside.Table.{expansion_in};

    ghost Value = { Expansion };

    ghost view = { λ kept. expansion_in kept.pool.now kept.slot.now };

    ghost invariant = { λ kept. IsLive kept.pool.now kept.slot.now.run };
}

impl Kept<'_> {
    /// The number of entries.
    pub fn len(&self) -> u32
        ensures { result ≡ length self.now.entries }
    {
        self.pool.len(&self.slot.run)
    }

    /// An entry, by its place from 0.
    pub fn entry(&self, index: u32) -> Entry
        requires { index < length self.now.entries }
        ensures { result ≡ slice_index_or self.now.entries index result }
    {
        self.pool.read(&self.slot.run, index)
    }

    /// The number of entries up to and with a line, if there is such a line.
    pub fn line_end(&self, line: u32) -> Option<u32>
        ensures { result ≡ line_end_of self.now line }
    {
        if line == 0 {
            return None;
        }
        self.slot
            .line_ends
            .as_slice()
            .get(line as usize - 1)
            .copied()
    }

    /// The fault that ends it.
    pub fn end(&self) -> Option<Fault>
        ensures { result ≡ self.now.end }
    {
        self.slot.end
    }

    /// Appends its entries.
    pub fn copy_out(&self, into: &mut Vec<Entry>) -> Result<(), AllocError>
        ensures { OnOk result (into.new.items ≡ into.old.items ++ self.now.entries) }
    {
        self.pool.copy_out(&self.slot.run, into)
    }

    /// Appends so many of its entries, from the first one on.
    pub fn copy_first(&self, count: u32, into: &mut Vec<Entry>) -> Result<(), AllocError>
        requires { count ≤ length self.now.entries }
        ensures { OnOk result (into.new.items ≡ into.old.items ++ take count self.now.entries) }
    {
        self.pool.copy_first(&self.slot.run, count, into)
    }
}
