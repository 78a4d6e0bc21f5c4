//! Why a call of a domain gives no value.

/// Which part of a call is refused: the whole of it, or a part of a widening.
#[derive(Clone, Copy, Debug, PartialEq, Eq)]
pub enum At {
    /// The result.
    Whole,
    /// A part of the list that a first widening begins with: the coordinate, and the number of rows.
    Polar(u32, u32),
    /// What the kept list leaves: how many of its members are in.
    Kept(u32),
}

/// Why a call gives no value.
#[derive(Clone, Copy, Debug, PartialEq, Eq)]
pub enum DomErr {
    /// There are too many rows.
    Limit(At),
    /// A number is too large.
    Range(At),
    /// Want of memory.
    NoMemory,
}
