// Constraints between nodes, which are numbered from 0.

/// The number of the target less that of the source is at least the cost.
#[derive(Clone, Copy, Debug, PartialEq, Eq)]
pub struct Constraint {
    pub source: usize,
    pub target: usize,
    pub cost: i64,
}
