//! Why there is no short report.
use std::alloc::{AllocError, AllocFailed};
use thiserror::Error;

/// Why there is no short report.
#[derive(Clone, Copy, Debug, PartialEq, Eq, Error)]
pub enum MixedErr {
    /// The external list at this point, from 0, stops at a coordinate, from 0, and a number of rows, from 1.
    #[error("the external list of point {0} stops at coordinate {1} with {2} rows")]
    Polar(u32, u32, u32),
    /// Want of memory.
    #[error("no memory")]
    NoMemory,
}

impl From<AllocError> for MixedErr {
    ghost use Rattle.std.specs.Prelude.{◌≡◌};
    ghost use Rattle.mixed_print.specs.declared.error.MixedErr.TheVariants.{NoMemory};

    ghost from_gives = { λ _ e. e ≡ NoMemory };

    fn from(_: AllocError) -> MixedErr {
        MixedErr::NoMemory
    }
}

impl<T: Drop> From<AllocFailed<T>> for MixedErr {
    ghost use Rattle.std.specs.Prelude.{◌≡◌};
    ghost use Rattle.mixed_print.specs.declared.error.MixedErr.TheVariants.{NoMemory};

    ghost from_gives = { λ _ e. e ≡ NoMemory };

    fn from(_: AllocFailed<T>) -> MixedErr {
        MixedErr::NoMemory
    }
}
