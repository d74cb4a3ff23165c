// Where files come from.
ghost use Rattle.std.specs.Prelude.{◌≡◌, ℕ, ◌<◌, ◌^◌, [], Err, Option, IfSome};
ghost use Rattle.ld_io.specs.Shelf.{Files, FetchFits, FetchTold, IsOnlyRead};

use std::alloc::{AllocError, AllocFailed};

/// Where a file lies.
#[derive(Clone, Copy, Debug, PartialEq, Eq)]
pub enum Place {
    /// The path itself.
    Work,
    /// Below the folder of the model.
    Model,
    /// Below the library's folder of parts.
    Parts,
    /// Below the library's folder of primitives.
    P,
}

/// What a fetch found.
#[derive(Clone, Copy, Debug, PartialEq, Eq)]
pub enum Fetched {
    /// The file, whole.
    Found,
    /// There is no such file.
    Absent,
}

/// Why a fetch gave no file.
#[derive(Clone, Copy, Debug, PartialEq, Eq)]
pub enum FetchError {
    /// Reading failed.
    Failed,
    /// The file has more bytes than were asked for.
    TooBig,
    /// There is no memory for its bytes.
    Memory,
}

impl From<AllocError> for FetchError {
    ghost use Rattle.std.specs.Prelude.{◌≡◌};
    ghost use Rattle.ld_io.specs.declared.shelf.FetchError.TheVariants.{Memory};

    ghost from_gives = { λ _ e. e ≡ Memory };

    fn from(_error: AllocError) -> FetchError {
        FetchError::Memory
    }
}

/// Files by place and name, each given by copy.
pub trait Shelf {
    /// The files, where the shelf tells them.
    ghost files: { Self → Option Files };

    /// How many fetches failed. The count stands still at 2^64 - 1.
    ghost faults: { Self → ℕ };

    /// Puts the bytes of a file of at most `max` bytes into the empty `into`.
    ///
    /// Of a longer file it puts the first `max` + 1 bytes, and answers `TooBig`. After `Failed` and
    /// `Memory`, `into` has any bytes.
    fn fetch(
        &mut self,
        place: Place,
        name: &[u8],
        max: u64,
        into: &mut Vec<u8>,
    ) -> Result<Fetched, FetchError>
        requires empty { into.old.items ≡ [] }
        requires small { max < 2 ^ 32 }
        ensures shelf { IsOnlyRead (files self.old) (files self.new) (faults self.old) (faults self.new) (result ≡ Err FetchError.Failed) }
        ensures fits { FetchFits max result into.new.items }
        ensures told { IfSome (files self.old)
            (λ all. FetchTold (all place name.now) max result into.new.items) };
}
