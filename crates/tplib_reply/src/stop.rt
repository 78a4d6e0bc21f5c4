//! Places at which a computation stops.

/// A part of one pass of an analysis at one point.
#[derive(Clone, Copy, Debug, PartialEq, Eq)]
pub enum Part {
    /// The image of the source by the edge of this number.
    Edge(u32),
    /// The join of the images up to this edge.
    Sum(u32),
    /// The join of the old value of a head and the new one.
    Head,
    /// The polar of the coordinate, of the first so many rows, for a first widening.
    Polar(u32, u32),
    /// The solutions of the first so many kept inequalities.
    Kept(u32),
}

/// A place in an analysis: a part of the work at a point, in a pass.
#[derive(Clone, Copy, Debug, PartialEq, Eq)]
pub struct Place {
    /// The number of the pass, from 1.
    pub pass: u64,
    /// The point of the control graph, by its number from 0.
    pub point: u32,
    /// The part of the work there.
    pub part: Part,
}

/// Where a computation stops because a cone or a list would have too many rows, or numbers of too great a size.
#[derive(Clone, Copy, Debug, PartialEq, Eq)]
pub enum Stop {
    /// At the first so many inequalities of a system; 0 where none is taken and the result has too many rows.
    Rows(u32),
    /// At the polar of this coordinate, of the first so many rows of a cone.
    Polar(u32, u32),
    /// At the turn of the inequality of this number, at the first so many of the others.
    Lean(u32, u32),
    /// At this place of an analysis.
    At(Place),
    /// At this point of a program, at the polar of this coordinate, of the first so many of its rows.
    PointPolar(u32, u32, u32),
}
