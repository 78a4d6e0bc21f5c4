// Why operations on cones are refused.
use std::alloc::AllocError;
use thiserror::Error;

/// Why an operation on cones was refused.
#[derive(Clone, Copy, Debug, PartialEq, Eq, Error)]
pub enum PolyErr {
    /// The cone that is made with as many inequalities as the number says, 0 where the call takes none, has more than
    /// 4,096 extreme rows.
    #[error("with {0} inequalities there are more than 4096 extreme rows")]
    Rows(u32),
    /// The external list stops at a coordinate, from 0, and a number of rows, from 1: that polar of as many rows
    /// has more than 4,096 extreme rows, or with all rows the list has more than 4,096 inequalities for the
    /// coordinates up to it.
    #[error("the external list stops at coordinate {0} with {1} rows")]
    Polar(u32, u32),
    /// Want of memory.
    #[error("no memory")]
    NoMemory,
}

impl From<AllocError> for PolyErr {
    ghost use Rattle.std.specs.Prelude.{◌≡◌};
    ghost use Rattle.trop_poly.specs.declared.error.PolyErr.TheVariants.{NoMemory};

    ghost from_gives = { λ _ e. e ≡ NoMemory };

    fn from(_: AllocError) -> PolyErr {
        PolyErr::NoMemory
    }
}
