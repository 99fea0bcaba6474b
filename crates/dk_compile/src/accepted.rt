// Programs within the limits.

use dk_base::Stencils;
use dk_types::TypedProgram;
use pointwise_ir::Program;

/// A program that is within the limits: its images as they are written, its images without inline ones and with folded constants, and its live reads.
#[derive(Drop)]
pub struct Front {
    pub program: TypedProgram,
    pub ir: Program,
    pub stencils: Stencils,
}
