// The check of two programs.

ghost use Rattle.std.specs.Prelude.{◌≡◌, ◌<◌, ℕ, length, Some, slice_get, slice_index, IsTrue, IfOk, IfSome};
ghost use Rattle.pointwise_ir.specs.Programs.{names_of, types_of};
ghost use Rattle.same_pictures.specs.Same.{HaveSamePicture, HaveSamePictures};
ghost use Rattle.same_pictures.specs.declared.pairing.Comparison.TheVariants.{Same};
ghost use Rattle.same_pictures.specs.Matching.{CanCompare, ArePairs, HaveSameInputs};

use crate::matching::{Compared, body_of, has_same_value, is_pair};
use crate::unneeded::Ranged;
use dk_base::OutOfMemory;
use pointwise_ir::{Input, Program, meaning_law};
use std::alloc::Global;
use value_ranges::image_ranges;

// Whether two lists of inputs have the same names and types.
fn are_same_inputs(old: &[Input], new: &[Input]) -> bool
    ensures { IsTrue result → new.now ≡ old.now }
{
    if old.len() != new.len() {
        return false;
    }
    for k in 0..old.len() {
        if !is_same_input(&old[k], &new[k]) {
            return false;
        }
    }
    true
}

fn is_same_input(old: &Input, new: &Input) -> bool
    ensures { IsTrue result → new.now ≡ old.now }
{
    if new.name.as_bytes() != old.name.as_bytes() {
        return false;
    }
    new.ty == old.ty
}

// The name of an image, by its number.
fn name_of(program: &Program, image: u32) -> &[u8]
    requires there { image < length (types_of program.now) }
    ensures { slice_get (names_of program.now) image ≡ Some result.now }
{
    let inputs = program.inputs();
    let place = image as usize;
    if place < inputs.len() {
        inputs[place].name.as_bytes()
    } else {
        program.images()[place - inputs.len()].name.as_bytes()
    }
}

// How many inputs there are.
fn input_count(program: &Program) -> u32
    ensures { result ≡ length program.now.inputs }
{
    program.law();
    program.inputs().len() as u32
}

// How many images there are, with the inputs.
fn image_count(program: &Program) -> u32
    ensures { result ≡ length (types_of program.now) }
{
    program.law();
    (program.inputs().len() + program.images().len()) as u32
}

// Whether image h of the new program has the name of image g of the old one, and a body with the same value.
fn is_counterpart(on: &Compared<'_>, g: u32, h: u32) -> bool
    requires comparable { CanCompare on.now.old.program.now on.now.new.program.now on.now.old.ranges.now on.now.new.ranges.now on.now.pairs.now }
    requires old { g < length (types_of on.now.old.program.now) }
    requires new { h < length (types_of on.now.new.program.now) }
    ensures { IsTrue result → HaveSamePicture on.now.old.program.now on.now.new.program.now g h }
{
    if name_of(on.new.program, h) != name_of(on.old.program, g) {
        return false;
    }
    match body_of(on.old.program, g) {
        Some(a) => match body_of(on.new.program, h) {
            Some(b) => {
                meaning_law(on.old.program);
                meaning_law(on.new.program);
                has_same_value(on, a, b)
            }
            None => false,
        },
        None => false,
    }
}

// The image of the new program, if there is one, that has the name of image g of the old one and the same picture.
fn pair_of(on: &Compared<'_>, g: u32) -> Option<u32>
    requires comparable { CanCompare on.now.old.program.now on.now.new.program.now on.now.old.ranges.now on.now.new.ranges.now on.now.pairs.now }
    requires there { g < length (types_of on.now.old.program.now) }
    ensures { IfSome result (λ h. HaveSamePicture on.now.old.program.now on.now.new.program.now g h) }
{
    for h in 0..image_count(on.new.program) {
        if is_counterpart(on, g, h) {
            return Some(h);
        }
    }
    None
}

// Each input is its own counterpart.
fn input_pairs(alloc: Global, old: &Program, new: &Program) -> Result<Vec<Option<u32>>, OutOfMemory>
    requires inputs { HaveSameInputs old.now new.now }
    ensures count { IfOk result (λ pairs. length pairs.items ≡ length old.now.inputs) }
    ensures pairs { IfOk result (λ pairs. ArePairs old.now new.now pairs.items) }
{
    meaning_law(old);
    meaning_law(new);
    let mut pairs = Vec::new(alloc);
    for k in 0..old.inputs().len() {
        pairs.push(u32::try_from(k).ok())?;
    }
    Ok(pairs)
}

// For each image of the old program, by number, its counterpart in the new one.
fn all_pairs(alloc: Global, old: &Program, new: &Program) -> Result<Vec<Option<u32>>, OutOfMemory>
    requires inputs { HaveSameInputs old.now new.now }
    ensures { IfOk result (λ pairs. ArePairs old.now new.now pairs.items) }
{
    let old_ranges = image_ranges(alloc, old)?;
    let new_ranges = image_ranges(alloc, new)?;
    let mut pairs = input_pairs(alloc, old, new)?;
    for g in input_count(old)..image_count(old) {
        let on = Compared {
            old: Ranged {
                program: old,
                ranges: &old_ranges,
            },
            new: Ranged {
                program: new,
                ranges: &new_ranges,
            },
            pairs: &pairs,
        };
        let other = pair_of(&on, g);
        pairs.push(other)?;
    }
    Ok(pairs)
}

// An output's image, by its number.
fn output_of(program: &Program, k: usize) -> u32
    requires there { k < length program.now.outputs }
    ensures is { result ≡ slice_index program.now.outputs k }
    ensures there { result < length (types_of program.now) }
{
    program.law();
    program.outputs()[k]
}

// Whether an output has the name and the type of an output.
fn is_same_output(old: &Program, g: u32, new: &Program, h: u32) -> bool
    requires old { g < length (types_of old.now) }
    requires new { h < length (types_of new.now) }
    ensures name { IsTrue result → slice_get (names_of new.now) h ≡ slice_get (names_of old.now) g }
    ensures ty { IsTrue result → slice_get (types_of new.now) h ≡ slice_get (types_of old.now) g }
{
    if name_of(new, h) != name_of(old, g) {
        return false;
    }
    new.type_of(h) == old.type_of(g)
}

// Whether the outputs have the same names and types, in order.
fn are_same_outputs(old: &Program, new: &Program) -> bool
    ensures count { IsTrue result → length new.now.outputs ≡ length old.now.outputs }
    ensures names { IsTrue result → (k : ℕ) → k < length old.now.outputs
        → slice_get (names_of new.now) (slice_index new.now.outputs k) ≡ slice_get (names_of old.now) (slice_index old.now.outputs k) }
    ensures types { IsTrue result → (k : ℕ) → k < length old.now.outputs
        → slice_get (types_of new.now) (slice_index new.now.outputs k) ≡ slice_get (types_of old.now) (slice_index old.now.outputs k) }
{
    if old.outputs().len() != new.outputs().len() {
        return false;
    }
    for k in 0..old.outputs().len() {
        if !is_same_output(old, output_of(old, k), new, output_of(new, k)) {
            return false;
        }
    }
    true
}

// Whether each output of the new program is the counterpart of the old one.
fn are_pairs(pairs: &[Option<u32>], old: &[u32], new: &[u32]) -> bool
    ensures { IsTrue result → (k : ℕ) → k < length old.now → slice_get pairs.now (slice_index old.now k) ≡ Some (Some (slice_index new.now k)) }
{
    if old.len() != new.len() {
        return false;
    }
    for k in 0..old.len() {
        if !is_pair(pairs, old[k], new[k]) {
            return false;
        }
    }
    true
}

// The first image without a counterpart.
fn first_unpaired(pairs: &[Option<u32>]) -> Option<u32> {
    let place = pairs.iter().position(|pair| pair.is_none())?;
    u32::try_from(place).ok()
}

/// What a comparison of two programs finds.
#[derive(Clone, Copy)]
pub enum Comparison {
    /// The new program has the old one's size, inputs and outputs, and shows the same picture of each output on all frames.
    Same,
    /// This image of the old program, by its number, is the first for which no image of the new one is found that shows its picture.
    OtherImage(u32),
    /// The size, the inputs or the outputs are not the same.
    OtherFrame,
}

/// Compares a program with an old one.
///
/// They are the same only if each output's body is that of the old program, node by node, where a read of a definition at the point itself counts as the definition's body. So definitions may name parts of a body. No contract states which image is the first other one: it is for a caller that changes the new program and tries again. Fails only if out of memory.
pub fn compared(alloc: Global, old: &Program, new: &Program) -> Result<Comparison, OutOfMemory>
    ensures { IfOk result (λ found. found ≡ Same → HaveSamePictures old.now new.now) }
{
    if old.size() != new.size() {
        return Ok(Comparison::OtherFrame);
    }
    if !are_same_inputs(old.inputs(), new.inputs()) {
        return Ok(Comparison::OtherFrame);
    }
    let pairs = all_pairs(alloc, old, new)?;
    if are_same_outputs(old, new) && are_pairs(&pairs, old.outputs(), new.outputs()) {
        return Ok(Comparison::Same);
    }
    match first_unpaired(&pairs) {
        Some(image) => Ok(Comparison::OtherImage(image)),
        None => Ok(Comparison::OtherFrame),
    }
}

/// Whether `compared` finds that the new program shows the pictures of the old one.
pub fn have_same_pictures(alloc: Global, old: &Program, new: &Program) -> Result<bool, OutOfMemory>
    ensures { IfOk result (λ same. IsTrue same → HaveSamePictures old.now new.now) }
{
    match compared(alloc, old, new)? {
        Comparison::Same => Ok(true),
        Comparison::OtherImage(_) | Comparison::OtherFrame => Ok(false),
    }
}
