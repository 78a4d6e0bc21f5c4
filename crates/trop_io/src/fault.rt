//! Faults of streams.
use std::alloc::AllocError;
use thiserror::Error;

/// Want of memory.
pub type NoMemory = AllocError;

/// One read or one write failed. The stream's count of faults rose, and no byte was moved.
#[derive(Clone, Copy, Debug, PartialEq, Eq, Error)]
#[error("the stream failed")]
pub struct Failed;
