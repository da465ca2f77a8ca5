//! Why a part of a record isn't read; the caller names the place.

ghost use Rattle.std.specs.Prelude.{◌≡◌};
ghost use Rattle.sd_logrec.specs.declared.miss.Miss.TheVariants as M;

use sd_base::Memory;
use std::alloc::{AllocError, AllocFailed};

#[derive(Drop)]
pub enum Miss {
    /// No such part stands here.
    Nothing,
    /// There was no memory.
    Memory,
}

impl From<AllocError> for Miss {
    ghost from_gives = { λ _ m. m ≡ M.Memory };

    fn from(_: AllocError) -> Self {
        Miss::Memory
    }
}

impl From<Memory> for Miss {
    ghost from_gives = { λ _ m. m ≡ M.Memory };

    fn from(_: Memory) -> Self {
        Miss::Memory
    }
}

impl<T: Drop> From<AllocFailed<T>> for Miss {
    ghost from_gives = { λ _ m. m ≡ M.Memory };

    fn from(_: AllocFailed<T>) -> Self {
        Miss::Memory
    }
}
