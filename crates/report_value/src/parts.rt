//! What a report says of one point.
use trop_row::{Gens, System};
use trop_scalar::Scalar;

/// What a report says of one point of its program: that no state comes to it but those of the cone of the rows
/// (Allamigeon, Gaubert, Goubault, Inferring min and max invariants using max-plus polyhedra, 2008). Whether that is so
/// is for a check.
#[derive(Drop)]
pub struct PointPart<S: Scalar> {
    /// The rows, with coordinate 0 in front. A point without rows is unreachable.
    pub rows: Gens<S>,
    /// The printed inequalities, which are to be valid on the cone of the rows.
    pub invs: System<S>,
}
