// The live reads of a program.

ghost use Rattle.std.specs.Prelude.{◌≡◌, ◌+◌, ◌≤◌, ◌<◌, IfOk, IfErr, length};
ghost use Rattle.dk_base.specs.declared.TheConstants.{MAX_COUNTED_READS};
ghost use Rattle.pointwise_ir.specs.Stencils.{AreReads, AreStencilsOf};
ghost use Rattle.stencil_sets.specs.Marks.{AreMarks, AreOutputsAndKept};
ghost use Rattle.stencil_sets.specs.Faults.{IsFault};

use crate::found::Halt;
use crate::images::images_of;
use crate::kept::kept_images;
use crate::reads::push_marked;
use dk_base::{Image, LiveRead, MAX_COUNTED_READS, OutOfMemory, Stencils};
use pointwise_ir::Program;
use std::alloc::Global;

/// Why a program has no stencils.
#[derive(Clone, Copy, Debug, PartialEq, Eq, thiserror::Error)]
pub enum StencilFault {
    /// How many live reads there are, where they are more than 4,096; 65,537 where they are more than 65,536.
    #[error("Reads {count}")]
    Reads { count: u32 },
    #[error("out of memory")]
    OutOfMemory,
}

// How many more than are counted count as.
const MOST_COUNTED: u32 = MAX_COUNTED_READS as u32 + 1;

// How many reads there are, where more than are counted count as one more than that.
fn count_of(reads: &[LiveRead]) -> u32
    ensures few { length reads.now ≤ MAX_COUNTED_READS → result ≡ length reads.now }
    ensures many { MAX_COUNTED_READS < length reads.now → result ≡ MAX_COUNTED_READS + 1 }
{
    if reads.len() <= MAX_COUNTED_READS {
        reads.len() as u32
    } else {
        MOST_COUNTED
    }
}

// The live reads of the images that are marked.
fn reads_of(alloc: Global, ir: &Program, kept: &[bool]) -> Result<Vec<LiveRead>, StencilFault>
    requires { AreMarks ir.now kept.now }
    ensures reads { IfOk result (λ v. AreReads ir.now v.items) }
    ensures fault { IfErr result (λ fault. IsFault ir.now fault) }
{
    let mut all = Vec::new(alloc);
    match push_marked(alloc, ir, kept, &mut all) {
        Ok(()) => Ok(all),
        Err(Halt::Full) => Err(StencilFault::Reads {
            count: MOST_COUNTED,
        }),
        Err(Halt::OutOfMemory) => Err(StencilFault::OutOfMemory),
    }
}

// The stencils of these images and reads.
fn stencils_of(
    ir: &Program,
    outputs: Vec<u32>,
    images: Vec<Image>,
    reads: Vec<LiveRead>,
) -> Result<Stencils, StencilFault>
    requires parts { AreOutputsAndKept ir.now outputs.items images.items }
    requires reads { AreReads ir.now reads.items }
    ensures stencils { IfOk result (λ s. AreStencilsOf ir.now s) }
    ensures fault { IfErr result (λ fault. IsFault ir.now fault) }
{
    ir.law();
    let size = ir.size();
    let inputs = ir.inputs().len() as u32;
    let count = count_of(&reads);
    match Stencils::checked(size.width, size.height, inputs, outputs, images, reads) {
        Some(stencils) => Ok(stencils),
        None => Err(StencilFault::Reads { count }),
    }
}

// The kept images with their widths, and the outputs.
fn kept_of(
    alloc: Global,
    ir: &Program,
    kept: &[bool],
) -> Result<(Vec<u32>, Vec<Image>), OutOfMemory>
    requires { AreMarks ir.now kept.now }
    ensures { IfOk result (λ r. AreOutputsAndKept ir.now r.0.items r.1.items) }
{
    let outputs = Vec::from_slice(alloc, ir.outputs())?;
    let images = images_of(alloc, ir, kept)?;
    Ok((outputs, images))
}

/// The stencils of a program: its kept images, which are the inputs, the outputs and what they need, and exactly the reads that some pixel of the frame makes. Or else the number of these reads, if it is above 4,096.
pub fn live_reads(alloc: Global, ir: &Program) -> Result<Stencils, StencilFault>
    ensures stencils { IfOk result (λ s. AreStencilsOf ir.now s) }
    ensures fault { IfErr result (λ fault. IsFault ir.now fault) }
{
    let Ok(kept) = kept_images(alloc, ir) else {
        return Err(StencilFault::OutOfMemory);
    };
    let Ok((outputs, images)) = kept_of(alloc, ir, &kept) else {
        return Err(StencilFault::OutOfMemory);
    };
    let reads = reads_of(alloc, ir, &kept)?;
    stencils_of(ir, outputs, images, reads)
}
