//! Why a computation ends without what was asked for.
use crate::refusal::Refusal;
use std::alloc::AllocError;

/// A refusal, or want of memory, which says nothing of the call.
#[derive(Debug, Drop)]
pub enum Stop {
    Refused(Refusal),
    NoMemory,
}

impl From<AllocError> for Stop {
    ghost use Rattle.std.specs.Prelude.{◌≡◌};
    ghost use Rattle.asm_board.specs.declared.stop.Stop.TheVariants.{NoMemory};

    ghost from_gives = { λ _ e. e ≡ NoMemory };

    fn from(_error: AllocError) -> Stop {
        Stop::NoMemory
    }
}
