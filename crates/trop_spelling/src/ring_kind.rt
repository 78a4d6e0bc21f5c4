//! The three semirings of texts.

/// The semirings whose elements have texts.
#[derive(Clone, Copy, Debug, PartialEq, Eq)]
pub enum RingKind {
    /// Maxima of whole numbers.
    Max,
    /// Minima of whole numbers.
    Min,
    /// Truth values.
    Bool,
}
