//! The answer of a command to its input, or why there is none.
ghost use Rattle.std.specs.Prelude.{◌≡◌};
ghost use Rattle.tplib_reply.specs.Refusals.{refusal_of};
ghost use Rattle.tplib_reply.specs.declared.refusal.Refusal.TheVariants.{NoMemory};

use crate::Stop;
use std::alloc::{AllocError, AllocFailed};
use trop_text::{Fault, TextErr};

/// Why there is no answer.
#[derive(Clone, Copy, Debug, PartialEq, Eq)]
pub enum Refusal {
    /// The input is not of its format; this is its first fault.
    Text(Fault),
    /// A cone or a list would have too many rows, there.
    Limit(Stop),
    /// A value would have numbers of too great a size, there.
    Range(Stop),
    /// An allocation was refused.
    NoMemory,
}

impl From<TextErr> for Refusal {
    ghost from_gives = { λ e refusal. refusal ≡ refusal_of e };

    fn from(e: TextErr) -> Self {
        match e {
            TextErr::Fault(fault) => Refusal::Text(fault),
            TextErr::NoMemory => Refusal::NoMemory,
        }
    }
}

impl From<AllocError> for Refusal {
    ghost from_gives = { λ _ refusal. refusal ≡ NoMemory };

    fn from(_: AllocError) -> Self {
        Refusal::NoMemory
    }
}

impl<T: Drop> From<AllocFailed<T>> for Refusal {
    ghost from_gives = { λ _ refusal. refusal ≡ NoMemory };

    fn from(_: AllocFailed<T>) -> Self {
        Refusal::NoMemory
    }
}

/// The text of an answer, and whether it says yes.
#[derive(Drop)]
pub struct Reply {
    /// Whether the answer is a "yes", or is none that could be a "no".
    pub yes: bool,
    /// The bytes to write.
    pub text: Vec<u8>,
}
