//! What is known of a number.

/// What is known of a number of a state.
#[derive(Clone, Copy, Debug, PartialEq, Eq)]
pub enum Known {
    /// There is no state.
    Nothing,
    /// It is zero.
    Zero,
    /// It may be any.
    Anything,
}
