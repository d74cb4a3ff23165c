// Files of the system.
ghost use Rattle.std.specs.Prelude.{◌≡◌, ◌<◌, ◌^◌, [], Err, None, IfOk, string_bytes};
ghost use Rattle.ld_io.specs.OsShelf.{HasNoPath, path_of, stopped_by};
ghost use Rattle.ld_io.specs.Shelf.{FetchFits, IsOnlyRead, faults_after_fetch};
ghost use Rattle.ld_io.specs.Whole.{ReadFits};

use crate::path::{path_end, path_in};
use crate::shelf::{FetchError, Fetched, Place, Shelf};
use crate::whole::{ReadError, read_whole};
use std::alloc::AllocError;
use std::fs;
use std::fs::OpenFile;
use std::io::ErrorKind;
use std::marker::Model;
use std::rt::Files;

/// The files of the system, below a library folder and a model folder.
#[derive(Drop)]
pub struct OsShelf<R> {
    rt: R,
    library: String,
    model: String,
    faults: u64,
}

impl<R> Model for OsShelf<R> {
    ghost use Rattle.std.specs.Prelude.{string_bytes};
    ghost use Rattle.ld_io.specs.OsShelf.{OsShelfValue};

    ghost Value = { OsShelfValue };

    ghost view = { λ s. record {
      library = string_bytes s.library;
      model = string_bytes s.model;
      faults = s.faults;
    } };
}

impl<R> OsShelf<R> {
    /// The parts and primitives below the folder `library`, and the files below the folder `model`.
    pub fn new(rt: R, library: String, model: String) -> OsShelf<R>
        ensures library { result.library ≡ string_bytes library }
        ensures model { result.model ≡ string_bytes model }
        ensures faults { result.faults ≡ 0 }
    {
        OsShelf {
            rt,
            library,
            model,
            faults: 0,
        }
    }

    // Counts the fault, where the error is one.
    fn stopped_by(&mut self, kind: ErrorKind) -> Result<Fetched, FetchError>
        ensures answer { result ≡ stopped_by kind }
        ensures counted { self.new ≡
            record self.old { faults = faults_after_fetch self.old.faults result } }
        ensures shelf { IsOnlyRead None None self.old.faults self.new.faults (result ≡ Err FetchError.Failed) }
    {
        match kind {
            // A folder is no file.
            ErrorKind::NotFound
            | ErrorKind::NotADirectory
            | ErrorKind::IsADirectory
            | ErrorKind::InvalidFilename => Ok(Fetched::Absent),
            ErrorKind::OutOfMemory => Err(FetchError::Memory),
            _ => {
                self.faults = self.faults.saturating_add(1);
                Err(FetchError::Failed)
            }
        }
    }
}

impl<R: AllocGlobal> OsShelf<R> {
    // The path of a name at a place.
    fn path(&self, place: Place, name: &str) -> Result<String, AllocError>
        ensures { IfOk result (λ path.
            string_bytes path ≡ path_of self.now.library self.now.model place name.now) }
    {
        let (library, model) = (self.library.as_str(), self.model.as_str());
        path_in(self.rt.alloc(), library, model, place, name)
    }
}

// Reads a file of at most `max` bytes.
fn read_file(rt: &impl Files, path: &str, max: u64, into: &mut Vec<u8>) -> Result<(), ReadError>
    requires empty { into.old.items ≡ [] }
    requires small { max < 2 ^ 32 }
    ensures { ReadFits max result into.new.items }
{
    let file = fs::open(rt, path)?;
    // One more than the size, so that the end is met without another growth.
    if let Ok(metadata) = file.metadata() {
        let size = metadata.len().saturating_add(1).min(max + 1);
        into.reserve_exact(size as usize)?;
    }
    read_whole(file, max, into)
}

impl<R: Files + AllocGlobal + Drop> Shelf for OsShelf<R> {
    ghost files = { λ _. None };

    ghost faults = { λ s. s.faults };

    fn fetch(
        &mut self,
        place: Place,
        name: &[u8],
        max: u64,
        into: &mut Vec<u8>,
    ) -> Result<Fetched, FetchError>
        requires empty { into.old.items ≡ [] }
        requires small { max < 2 ^ 32 }
        ensures counted { self.new ≡
            record self.old { faults = faults_after_fetch self.old.faults result } }
        ensures shelf { IsOnlyRead None None self.old.faults self.new.faults (result ≡ Err FetchError.Failed) }
        ensures no_path { HasNoPath name.now → result ≡ Ok Fetched.Absent }
        ensures fits { FetchFits max result into.new.items }
    {
        let Some(end) = path_end(name) else {
            return Ok(Fetched::Absent);
        };
        let path = self.path(place, end)?;
        match read_file(&self.rt, path.as_str(), max, into) {
            Ok(()) => Ok(Fetched::Found),
            Err(ReadError::TooBig) => Err(FetchError::TooBig),
            Err(ReadError::Failed(kind)) => {
                into.clear();
                self.stopped_by(kind)
            }
        }
    }
}
