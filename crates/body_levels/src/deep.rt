// Bodies of many levels, and programs whose bodies have fewer.

ghost use Rattle.std.specs.Prelude.{◌≡◌, ◌<◌, IsTrue, length, max, Some, slice_get};
ghost use Rattle.pointwise_ir.specs.declared.program.Definition.{Definition};
ghost use Rattle.body_levels.specs.Deep.{image_levels, is_deep, HasWithin, HasFewer, IsShallower};

use crate::level::level_at;
use pointwise_ir::Program;

/// Whether the body of the k-th image that is no input has more than `most` levels.
pub fn is_deep(program: &Program, k: usize, most: u32) -> bool
    requires there { k < length program.now.images }
    ensures { (d : Definition) → slice_get program.now.images k ≡ Some d → result ≡ is_deep most d }
{
    most < level_at(program, k)
}

// Whether the program has an image of this name whose body has at most this many levels.
fn has_within(program: &Program, name: &[u8], most: u32) -> bool
    ensures { IsTrue result → HasWithin program.now name.now most }
{
    for k in 0..program.images().len() {
        if is_within(program, k, name, most) {
            return true;
        }
    }
    false
}

// Whether the k-th image has this name and a body of at most this many levels.
fn is_within(program: &Program, k: usize, name: &[u8], most: u32) -> bool
    requires there { k < length program.now.images }
    ensures { IsTrue result → HasWithin program.now name.now most }
{
    if program.images()[k].name.as_bytes() != name {
        return false;
    }
    level_at(program, k) <= most
}

// Whether the k-th image has no more levels in the new program, or no more than `most`.
fn is_no_deeper(old: &Program, new: &Program, most: u32, k: usize) -> bool
    requires there { k < length old.now.images }
    ensures { IsTrue result → (d : Definition) → slice_get old.now.images k ≡ Some d
        → HasWithin new.now d.name (max most (image_levels d)) }
{
    let bound = most.max(level_at(old, k));
    has_within(new, old.images()[k].name.as_bytes(), bound)
}

// Whether each image of the old program has no more levels in the new one, or no more than `most`.
fn none_is_deeper(old: &Program, new: &Program, most: u32) -> bool
    ensures { IsTrue result → (k : _) (d : Definition) → slice_get old.now.images k ≡ Some d
        → HasWithin new.now d.name (max most (image_levels d)) }
{
    for k in 0..old.images().len() {
        if !is_no_deeper(old, new, most, k) {
            return false;
        }
    }
    true
}

// Whether the k-th image has more than `most` levels, and fewer in the new program.
fn has_fewer(old: &Program, new: &Program, most: u32, k: usize) -> bool
    requires there { k < length old.now.images }
    ensures { IsTrue result → HasFewer most old.now new.now k }
{
    let levels = level_at(old, k);
    if levels <= most {
        return false;
    }
    has_within(new, old.images()[k].name.as_bytes(), levels - 1)
}

// Whether an image has more than `most` levels, and fewer in the new program.
fn some_has_fewer(old: &Program, new: &Program, most: u32) -> bool
    ensures { IsTrue result → (k : _) × HasFewer most old.now new.now k }
{
    for k in 0..old.images().len() {
        if has_fewer(old, new, most, k) {
            return true;
        }
    }
    false
}

/// Whether no image has more levels in the new program than in the old one, or than `most`, and one that had more than `most` has fewer. Images are the same by their names.
pub fn is_shallower(old: &Program, new: &Program, most: u32) -> bool
    ensures { IsTrue result → IsShallower most old.now new.now }
{
    if !none_is_deeper(old, new, most) {
        return false;
    }
    some_has_fewer(old, new, most)
}
