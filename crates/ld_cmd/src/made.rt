ghost use Rattle.std.specs.Prelude.{◌≢◌};
ghost use Rattle.ld_cmd.specs.Ending.{IsWhole};
ghost use Rattle.ld_cmd.specs.declared.status.Status.TheVariants.{Usage};

use crate::status::Status;
use std::alloc::{AllocError, AllocFailed};

// What is to be written, and the status that goes with it.
#[derive(Drop)]
pub(crate) struct Made {
    pub text: Vec<u8>,
    pub status: Status,
    ghost whole: { IsWhole status },
    ghost answers: { status ≢ Usage },
}

// Why a run does not go on to its answer.
#[derive(Drop)]
pub(crate) enum Stop {
    // What is to be written is decided already.
    Decided(Made),
    ReadFault,
    Memory,
}

impl<T: Drop> From<AllocFailed<T>> for Stop {
    ghost use Rattle.std.specs.Prelude.{◌≡◌};
    ghost use Rattle.ld_cmd.specs.declared.made.Stop.TheVariants.{Memory};

    ghost from_gives = { λ _ e. e ≡ Memory };

    fn from(_error: AllocFailed<T>) -> Stop {
        Stop::Memory
    }
}

impl From<AllocError> for Stop {
    ghost use Rattle.std.specs.Prelude.{◌≡◌};
    ghost use Rattle.ld_cmd.specs.declared.made.Stop.TheVariants.{Memory};

    ghost from_gives = { λ _ e. e ≡ Memory };

    fn from(_error: AllocError) -> Stop {
        Stop::Memory
    }
}
