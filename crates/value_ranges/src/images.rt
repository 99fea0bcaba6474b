// The intervals of the images of a program.

ghost use Rattle.std.specs.Prelude.{◌≡◌, ◌+◌, ℤ, List, IfOk, length, map};
ghost use Rattle.std.specs.List.{All};
ghost use Rattle.dk_base.specs.Types.{IsType, IsPort, IsIn};
ghost use Rattle.dk_base.specs.Frames.{Size, Picture, framed};
ghost use Rattle.pointwise_ir.specs.Trees.{tree_of};
ghost use Rattle.pointwise_ir.specs.Meaning.{value};
ghost use Rattle.value_ranges.specs.Intervals.{IsBetween};
ghost use Rattle.value_ranges.specs.Parts.{AreBetween};
ghost use Rattle.value_ranges.specs.Ranges.{type_range, interval_of, image_interval, intervals_of};
ghost use Rattle.value_ranges.specs.Images.{AreRangesOf, HoldTypes};

use crate::expression::range_of;
use crate::interval::Interval;
use dk_base::OutOfMemory;
use pointwise_ir::{Definition, Input, Program, meaning_law};
use std::alloc::Global;

// The interval of an image that is no input: of its body's values and of 0, which it is outside the frame, and of its type.
fn image_range(image: &Definition, ranges: &[Interval]) -> Interval
    requires { IsType image.now.ty }
    ensures exact { result ≡ image_interval image.now.ty (interval_of ranges.now (tree_of image.now.body)) }
    ensures within { (size : Size) (known : List Picture) → AreBetween ranges.now known → (x y : ℤ) → IsIn image.now.ty (framed size (value size known (tree_of image.now.body)) x y)
        → IsBetween result (framed size (value size known (tree_of image.now.body)) x y) }
{
    let all = Interval::of_type(image.ty);
    match range_of(&image.body, ranges) {
        Some(body) => body.join(Interval::of_value(0)).meet(all),
        None => all,
    }
}

// The intervals of the inputs: those of their types.
fn input_ranges(alloc: Global, inputs: &[Input]) -> Result<Vec<Interval>, OutOfMemory>
    requires { All (λ i. IsPort i.ty) inputs.now }
    ensures exact { IfOk result (λ ranges. ranges.items ≡ map (λ i. type_range i.ty) inputs.now) }
    ensures count { IfOk result (λ ranges. length ranges.items ≡ length inputs.now) }
    ensures types { IfOk result (λ ranges. HoldTypes inputs.now ranges.items) }
{
    let mut ranges = Vec::new(alloc);
    for input in inputs {
        ranges.push(Interval::of_type(input.ty))?;
    }
    Ok(ranges)
}

/// The intervals of all images, inputs first, as interval arithmetic defines them: on each round each image's values are in its interval.
pub fn image_ranges(alloc: Global, ir: &Program) -> Result<Vec<Interval>, OutOfMemory>
    ensures exact { IfOk result (λ ranges. ranges.items ≡ intervals_of ir.now) }
    ensures count { IfOk result (λ ranges. length ranges.items ≡ length ir.now.inputs + length ir.now.images) }
    ensures within { IfOk result (λ ranges. AreRangesOf ir.now ranges.items) }
{
    ir.law();
    meaning_law(ir);
    let images = ir.images();
    let mut ranges = input_ranges(alloc, ir.inputs())?;
    for image in images {
        let range = image_range(image, &ranges);
        ranges.push(range)?;
    }
    Ok(ranges)
}
