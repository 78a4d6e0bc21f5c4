use std::alloc::AllocError;
use thiserror::Error;

/// Why one more inequality was refused.
#[derive(Clone, Copy, Debug, PartialEq, Eq, Error)]
pub enum GuardErr {
    /// The smaller cone has more than 4,096 extreme rows.
    #[error("more than 4096 extreme rows")]
    Limit,
    /// Want of memory.
    #[error("no memory")]
    NoMemory,
}

impl From<AllocError> for GuardErr {
    ghost use Rattle.std.specs.Prelude.{◌≡◌};
    ghost use Rattle.trop_guard.specs.declared.error.GuardErr.TheVariants.{NoMemory};

    ghost from_gives = { λ _ e. e ≡ NoMemory };

    fn from(_: AllocError) -> GuardErr {
        GuardErr::NoMemory
    }
}
