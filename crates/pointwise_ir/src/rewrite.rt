// Passes over programs.

ghost use Rattle.std.specs.Prelude.{◌≡◌, ℕ, ◌+◌, IfOk, Ok, Some, length, slice_get};
ghost use Rattle.pointwise_ir.specs.Programs.{Program as TheProgram};
ghost use Rattle.pointwise_ir.specs.Passes.{KeepsMeaning};

use crate::program::Program;
use dk_base::OutOfMemory;
use std::alloc::Global;

/// A pass over a program.
pub trait Rewrite: Drop {
    /// The property that the pass names: what holds of each program that it gives.
    ghost gives: { Self → TheProgram → Type 0 };

    /// The program with other bodies. The frame's size, inputs, outputs, each image's name, type and meaning, the kept images and their live reads stay. On `OutOfMemory` the program is dropped.
    fn apply(&self, alloc: Global, ir: Program) -> Result<Program, OutOfMemory>
        ensures meaning { IfOk result (λ new. KeepsMeaning ir new) }
        ensures gives { IfOk result (λ new. gives self.now new) };
}

// The program after one pass.
fn after(alloc: Global, ir: Program, pass: &Box<dyn Rewrite>) -> Result<Program, OutOfMemory>
    ensures meaning { IfOk result (λ new. KeepsMeaning ir new) }
    ensures gives { IfOk result (λ new. gives pass.now new) }
{
    pass.apply(alloc, ir)
}

/// The program after each of the passes in order. On `OutOfMemory` the program is dropped.
pub fn run_passes(
    alloc: Global,
    ir: Program,
    passes: &[Box<dyn Rewrite>],
) -> Result<Program, OutOfMemory>
    ensures meaning { IfOk result (λ new. KeepsMeaning ir new) }
    // the last pass's property
    ensures last { IfOk result (λ new. (k : ℕ) (pass : _) → k + 1 ≡ length passes.now → slice_get passes.now k ≡ Some pass → gives pass new) }
    ensures none { length passes.now ≡ 0 → result ≡ Ok ir }
{
    let mut done = ir;
    for pass in passes {
        done = after(alloc, done, pass)?;
    }
    Ok(done)
}
