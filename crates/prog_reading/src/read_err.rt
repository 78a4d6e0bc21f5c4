//! Refusals on the way.
ghost use Rattle.std.specs.Prelude.{◌≡◌};
ghost use Rattle.prog_reading.specs.declared.read_err.ReadErr.TheVariants.{NoMemory};

use crate::at::At;
use std::alloc::{AllocError, AllocFailed};
use trop_text::FaultKind;

/// Why a part of a text was not read.
#[derive(Clone, Copy)]
pub enum ReadErr<'a> {
    /// What is wrong, and the pieces from the wrong one on.
    Wrong(FaultKind, At<'a>),
    /// An allocation was refused.
    NoMemory,
}

impl From<AllocError> for ReadErr<'_> {
    ghost from_gives = { λ _ e. e ≡ NoMemory };

    fn from(_: AllocError) -> Self {
        ReadErr::NoMemory
    }
}

impl<T: Drop> From<AllocFailed<T>> for ReadErr<'_> {
    ghost from_gives = { λ _ e. e ≡ NoMemory };

    fn from(_: AllocFailed<T>) -> Self {
        ReadErr::NoMemory
    }
}
