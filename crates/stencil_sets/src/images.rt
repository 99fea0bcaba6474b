// The kept images with their widths.

ghost use Rattle.std.specs.Prelude.{◌≡◌, ◌++◌, ◌∷◌, [], OnOk, IfOk};
ghost use Rattle.dk_base.specs.Types.{width_of};
ghost use Rattle.stencil_sets.specs.Marks.{AreKeptOf, AreMarks};

use dk_base::{Image, OutOfMemory, Ty};
use pointwise_ir::Program;
use std::alloc::Global;

// One image more.
fn push_kept(images: &mut Vec<Image>, number: u32, ty: Ty) -> Result<(), OutOfMemory>
    ensures { OnOk result (images.new.items
        ≡ images.old.items ++ (record { number = number; width = width_of ty }) ∷ []) }
{
    let width = ty.width();
    images.push(Image { number, width })?;
    Ok(())
}

// The images that are marked, in order.
pub(crate) fn images_of(
    alloc: Global,
    ir: &Program,
    kept: &[bool],
) -> Result<Vec<Image>, OutOfMemory>
    requires { AreMarks ir.now kept.now }
    ensures { IfOk result (λ v. AreKeptOf ir.now v.items) }
{
    ir.law();
    let mut images = Vec::new(alloc);
    for g in 0..kept.len() {
        if kept[g] {
            push_kept(&mut images, g as u32, ir.type_of(g as u32))?;
        }
    }
    Ok(images)
}
