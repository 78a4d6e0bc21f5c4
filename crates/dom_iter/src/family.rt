//! What an analysis gives.
/// The values of the points of a graph, and the number of passes of the ascent that led to them.
#[derive(Drop)]
pub struct Family<D> {
    /// The passes up to the first that changed no head.
    pub passes: u64,
    /// The value of each point.
    pub values: Vec<D>,
}
