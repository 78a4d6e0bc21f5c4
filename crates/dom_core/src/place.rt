//! Where an analysis is.

/// A part of the work at a point.
#[derive(Clone, Copy, Debug, PartialEq, Eq)]
pub enum Part {
    /// The image by the edge of this number.
    Edge(u32),
    /// The join with that image.
    Sum(u32),
    /// The join at a head.
    Head,
    /// A part of the list that a first widening begins with: the coordinate, and the number of rows.
    Polar(u32, u32),
    /// A part of what a widening leaves: how many members of the kept list are in.
    Kept(u32),
}

/// The pass, from 1, and the point.
#[derive(Clone, Copy, Debug, PartialEq, Eq)]
pub struct Spot {
    /// The number of the pass.
    pub pass: u64,
    /// The number of the point.
    pub point: u32,
}

/// A part of an analysis: the pass, from 1, the point and the part of the work there.
#[derive(Clone, Copy, Debug, PartialEq, Eq)]
pub struct Place {
    /// The number of the pass.
    pub pass: u64,
    /// The number of the point.
    pub point: u32,
    /// The part of the work there.
    pub part: Part,
}
