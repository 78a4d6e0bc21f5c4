//! Terms and comparisons.

/// The value of a coordinate with a number added. Coordinate 0 has the value 0, and coordinate `i` from 1 on is the
/// `i`-th variable; so `Term { coord: 0, add: 5 }` is the number 5.
#[derive(Clone, Copy, Debug, PartialEq, Eq)]
pub struct Term {
    /// The coordinate: 0, or that of a variable.
    pub coord: u32,
    /// What is added to its value: in a program a number of size at most 2^31, along an edge of its graph one more.
    pub add: i64,
}

/// How an atom of a condition compares its two terms.
#[derive(Clone, Copy, Debug, PartialEq, Eq)]
pub enum Cmp {
    /// `<=`
    Le,
    /// `<`
    Lt,
    /// `>=`
    Ge,
    /// `>`
    Gt,
    /// `==`
    Eq,
    /// `!=`
    Ne,
}
