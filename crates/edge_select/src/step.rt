// Steps from point to point of a frame.

use pointwise_ir::Edge;

/// A step by `dx` columns to the right and `dy` rows down. Where that is outside the frame it leads nowhere or to the nearest pixel of the frame, as `edge` says.
#[derive(Clone, Copy, Debug, PartialEq, Eq)]
pub struct Step {
    pub edge: Edge,
    pub dx: i32,
    pub dy: i32,
}
