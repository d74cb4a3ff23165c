// Where output goes.
ghost use Rattle.std.specs.Prelude.{◌≡◌, ℕ, ◌≤◌, List, Option, IfSome, is_some};
ghost use Rattle.ld_io.specs.Sink.{PutCause, PutTold};

use std::alloc::AllocError;

/// Why a put did not take the whole piece.
#[derive(Clone, Copy, Debug, PartialEq, Eq)]
pub enum PutError {
    /// Writing failed, after less than the whole piece.
    Failed,
    /// There is no memory for the piece. Nothing of it was taken.
    Memory,
}

impl From<AllocError> for PutError {
    ghost use Rattle.std.specs.Prelude.{◌≡◌};
    ghost use Rattle.ld_io.specs.declared.sink.PutError.TheVariants.{Memory};

    ghost from_gives = { λ _ e. e ≡ Memory };

    fn from(_error: AllocError) -> PutError {
        PutError::Memory
    }
}

/// Bytes, taken one piece after another.
pub trait Sink {
    /// The bytes taken, where the sink tells them.
    ghost taken: { Self → Option (List ℕ) };

    /// How many puts failed. The count stands still at 2^64 - 1.
    ghost faults: { Self → ℕ };

    /// Takes a piece behind the bytes taken before.
    fn put(&mut self, piece: &[u8]) -> Result<(), PutError>
        ensures told_same { is_some (taken self.new) ≡ is_some (taken self.old) }
        ensures never_falls { faults self.old ≤ faults self.new }
        ensures cause { PutCause (faults self.old) (faults self.new) result }
        ensures told { IfSome (taken self.old)
            (λ before. PutTold before piece.now result (taken self.new)) };
}
