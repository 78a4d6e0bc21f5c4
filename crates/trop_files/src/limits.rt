//! The limits of files.

/// The greatest size of a number in a file, 2^40.
pub(crate) const GREATEST_NUMBER: u64 = 1 << 40;
