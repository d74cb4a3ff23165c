// A shelf in memory that fails the fetches that it was told to fail.
ghost use Rattle.std.specs.Prelude.{◌≡◌, ◌<◌, ◌^◌, ◌↔◌, [], ◌∷◌, ◌++◌, Some, Err, OnOk, OnErr, IsTrue, IsErrOf};
ghost use Rattle.ld_io.specs.Faults.{next_count};
ghost use Rattle.ld_io.specs.Files.{file_found, HasBytes};
ghost use Rattle.ld_io.specs.MemShelf.{next_fails};
ghost use Rattle.ld_io.specs.Shelf.{FetchFits, FetchTold, IsOnlyRead, faults_after_fetch};

use crate::shelf::{FetchError, Fetched, Place, Shelf};
use crate::sure_shelf::SureShelf;
use std::alloc::{AllocError, Global};
use std::marker::Model;

/// A shelf in memory of which any fetch can be made to fail.
#[derive(Debug, Drop)]
pub struct MemShelf {
    shelf: SureShelf,
    failing: Vec<u64>,
    fetches: u64,
    faults: u64,
}

impl Model for MemShelf {
    ghost use Rattle.ld_io.specs.MemShelf.{MemShelfValue};

    ghost Value = { MemShelfValue };

    ghost view = { λ s. record {
      files = s.shelf;
      failing = s.failing.items;
      fetches = s.fetches;
      faults = s.faults;
    } };
}

impl MemShelf {
    /// A shelf with no files, of which no fetch is to fail.
    pub fn new(alloc: Global) -> MemShelf
        ensures files { result.files ≡ [] }
        ensures failing { result.failing ≡ [] }
        ensures fetches { result.fetches ≡ 0 }
        ensures faults { result.faults ≡ 0 }
    {
        MemShelf {
            shelf: SureShelf::new(alloc),
            failing: Vec::new(alloc),
            fetches: 0,
            faults: 0,
        }
    }

    /// Adds a file, in place of an earlier one at the same place under the same name.
    pub fn add(&mut self, place: Place, name: &[u8], bytes: &[u8]) -> Result<(), AllocError>
        ensures ok { OnOk result (self.new ≡
            record self.old { files = (place, name.now, bytes.now) ∷ self.old.files }) }
        ensures err { OnErr result (self.new ≡ self.old) }
    {
        self.shelf.add(place, name, bytes)
    }

    /// Makes the fetch of this number fail. Fetches are counted from 1, and all behind the
    /// 2^64 - 1st have its number.
    pub fn fail(&mut self, call: u64) -> Result<(), AllocError>
        ensures ok { OnOk result (self.new ≡
            record self.old { failing = self.old.failing ++ call ∷ [] }) }
        ensures err { OnErr result (self.new ≡ self.old) }
    {
        self.failing.push(call)?;
        Ok(())
    }

    /// How many fetches there were. The count stands still at 2^64 - 1.
    pub fn fetches(&self) -> u64
        ensures { result ≡ self.now.fetches }
    {
        self.fetches
    }

    // Counts a fetch, and says whether it is to fail.
    fn count_fetch(&mut self) -> bool
        ensures fails { result ≡ next_fails self.old }
        ensures counted { self.new ≡ record self.old { fetches = next_count self.old.fetches } }
    {
        self.fetches = self.fetches.saturating_add(1);
        self.failing.contains(&self.fetches)
    }
}

impl Shelf for MemShelf {
    ghost files = { λ s. Some (file_found s.files) };

    ghost faults = { λ s. s.faults };

    fn fetch(
        &mut self,
        place: Place,
        name: &[u8],
        max: u64,
        into: &mut Vec<u8>,
    ) -> Result<Fetched, FetchError>
        requires empty { into.old.items ≡ [] }
        requires small { max < 2 ^ 32 }
        ensures counted { self.new ≡ record self.old {
          fetches = next_count self.old.fetches;
          faults = faults_after_fetch self.old.faults result;
        } }
        ensures shelf { IsOnlyRead (Some (file_found self.old.files)) (Some (file_found self.new.files)) self.old.faults self.new.faults (result ≡ Err FetchError.Failed) }
        ensures failed { IsErrOf result FetchError.Failed ↔ IsTrue (next_fails self.old) }
        ensures memory { result ≡ Err FetchError.Memory → HasBytes (file_found self.old.files place name.now) }
        ensures fits { FetchFits max result into.new.items }
        ensures told { FetchTold (file_found self.old.files place name.now) max result into.new.items }
    {
        if self.count_fetch() {
            self.faults = self.faults.saturating_add(1);
            return Err(FetchError::Failed);
        }
        self.shelf.fetch(place, name, max, into)
    }
}
