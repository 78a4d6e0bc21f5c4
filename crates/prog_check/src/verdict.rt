//! What the check says of a report.
use trop_row::Row;
use trop_scalar::Scalar;

/// The verdict on a report: that it is inductive, or the first condition that fails, in this order.
#[derive(Drop)]
pub enum Verdict<S: Scalar> {
    /// What it says is true at every visit of every run of its program; of a claim, where its words suit the semiring.
    Inductive,
    /// Some vector is no combination of the rows of point 0.
    NotWhole,
    /// The image of the cone at the first point of this edge has a vector outside of the cone at its last, and no edge
    /// with a smaller number has one. Of the edge's list, which generates the image, this is the first row outside.
    Escapes { edge: u32, row: Row<S> },
    /// At this point the printed inequality of this number, from 1, is false at some vector of the cone, and none
    /// before it is, nor one at a point with a smaller number.
    InvFails { point: u32, index: u32 },
    /// The verdict on this assert is not whether its claim is proven on the cone of its point; those before are right.
    AssertWrong { statement: u32 },
}
