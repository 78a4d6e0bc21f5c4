//! Why an analysis gives no family.
use dom_core::Place;

/// Why an analysis gives no family.
#[derive(Clone, Copy, Debug, PartialEq, Eq)]
pub enum IterErr {
    /// A value needs too many rows at this place.
    Limit(Place),
    /// A number is too large at this place.
    Range(Place),
    /// Want of memory.
    NoMemory,
}
