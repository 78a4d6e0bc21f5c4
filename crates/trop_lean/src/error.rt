//! Why a list was not made lean.
use std::alloc::AllocError;
use thiserror::Error;

/// Why a list was not made lean.
#[derive(Clone, Copy, Debug, PartialEq, Eq, Error)]
pub enum LeanErr {
    /// At the turn with the first number, from 1, the first inequalities of the rest, as many as the second number
    /// says, have more than 4,096 extreme rows.
    #[error("at turn {0} the first {1} inequalities have more than 4096 extreme rows")]
    Rows(u32, u32),
    /// Want of memory.
    #[error("no memory")]
    NoMemory,
}

impl From<AllocError> for LeanErr {
    ghost use Rattle.std.specs.Prelude.{◌≡◌};
    ghost use Rattle.trop_lean.specs.declared.error.LeanErr.TheVariants.{NoMemory};

    ghost from_gives = { λ _ e. e ≡ NoMemory };

    fn from(_: AllocError) -> LeanErr {
        LeanErr::NoMemory
    }
}
