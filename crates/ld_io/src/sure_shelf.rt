// A shelf in memory that never fails.
ghost use Rattle.std.specs.Prelude.{◌≡◌, ◌≢◌, ◌<◌, ◌^◌, List, [], ◌∷◌, Some, OnOk, OnErr, option_copied};
ghost use Rattle.ld_io.specs.Files.{file_found, HasBytes};
ghost use Rattle.ld_io.specs.Shelf.{FetchFits, FetchTold};

use crate::shelf::{FetchError, Fetched, Place, Shelf};
use std::alloc::{AllocError, Global};
use std::marker::Model;

#[derive(Debug, Drop)]
struct File {
    place: Place,
    name: Vec<u8>,
    bytes: Vec<u8>,
}

/// A shelf that keeps its files in memory. Only want of memory stops it.
#[derive(Debug, Drop)]
pub struct SureShelf {
    // The newest first.
    files: Vec<File>,
}

impl Model for SureShelf {
    ghost use Rattle.std.specs.Prelude.{List, map};
    ghost use Rattle.ld_io.specs.Files.{File};

    ghost Value = { List File };

    ghost use Rattle.ld_io.specs.SureShelf.{file_shown};

    ghost view = { λ shelf. map file_shown shelf.files.items };
}

impl SureShelf {
    /// A shelf with no files.
    pub fn new(alloc: Global) -> SureShelf
        ensures { result ≡ [] }
    {
        SureShelf {
            files: Vec::new(alloc),
        }
    }

    /// Adds a file, in place of an earlier one at the same place under the same name.
    pub fn add(&mut self, place: Place, name: &[u8], bytes: &[u8]) -> Result<(), AllocError>
        ensures ok { OnOk result (self.new ≡ (place, name.now, bytes.now) ∷ self.old) }
        ensures err { OnErr result (self.new ≡ self.old) }
    {
        let alloc = *self.files.allocator();
        let file = File {
            place,
            name: Vec::from_slice(alloc, name)?,
            bytes: Vec::from_slice(alloc, bytes)?,
        };
        self.files.insert(0, file)?;
        Ok(())
    }

    fn find(&self, place: Place, name: &[u8]) -> Option<&[u8]>
        ensures { option_copied result ≡ file_found self.now place name.now }
    {
        let mut files = self.files.as_slice();
        while let [file, older @ ..] = files {
            if file.place == place && file.name.as_slice() == name {
                return Some(file.bytes.as_slice());
            }
            files = older;
        }
        None
    }
}

impl Shelf for SureShelf {
    ghost files = { λ files. Some (file_found files) };

    ghost faults = { λ _. 0 };

    fn fetch(
        &mut self,
        place: Place,
        name: &[u8],
        max: u64,
        into: &mut Vec<u8>,
    ) -> Result<Fetched, FetchError>
        requires empty { into.old.items ≡ [] }
        requires small { max < 2 ^ 32 }
        ensures same { self.new ≡ self.old }
        ensures sure { result ≢ Err FetchError.Failed }
        ensures memory { result ≡ Err FetchError.Memory → HasBytes (file_found self.old place name.now) }
        ensures fits { FetchFits max result into.new.items }
        ensures told { FetchTold (file_found self.old place name.now) max result into.new.items }
    {
        let Some(bytes) = self.find(place, name) else {
            return Ok(Fetched::Absent);
        };
        if bytes.len() as u64 > max {
            into.extend_from_slice(&bytes[..max as usize + 1])?;
            return Err(FetchError::TooBig);
        }
        into.extend_from_slice(bytes)?;
        Ok(Fetched::Found)
    }
}
