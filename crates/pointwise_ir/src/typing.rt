// The types of expressions, and the tests of what a program is made of.

ghost use Rattle.std.specs.Prelude.{◌≡◌, ℕ, ◌≤◌, ◌<◌, ◌+◌, Some, IsTrue, IsSome, IfSome, slice_get, slice_index_or, take, length};
ghost use Rattle.std.specs.List.{All};
ghost use Rattle.dk_base.specs.Types.{IsType, IsIn};
ghost use Rattle.dk_base.specs.Stencils.{IsDistinct, Repeats};
ghost use Rattle.pointwise_ir.specs.Trees.{tree_of, depth_of, IsNear, AreNear};
ghost use Rattle.pointwise_ir.specs.Typing.{HasType};
ghost use Rattle.dk_base.specs.Types.{IsPort};
ghost use Rattle.pointwise_ir.specs.Programs.{all_types, IsOutput, IsDefined, AreDefined, IsProgram, program_of};

use crate::FARTHEST;
use crate::expr::Expr;
use crate::program::{Definition, Input, Parts};
use dk_base::{
    MAX_INLINED_DEPTH, MAX_INPUTS, MAX_KEPT_IMAGES, MAX_OUTPUTS, MAX_PORT_WIDTH, MAX_WIDTH, Ty,
    select_type,
};

// Whether it is a type of values.
fn is_type(ty: Ty) -> bool
    ensures yes { IsTrue result → IsType ty }
    ensures no { IsType ty → IsTrue result }
{
    let width = ty.width();
    1 <= width && width <= MAX_WIDTH
}

// Whether an input or an output may have the type.
pub(crate) fn is_port(ty: Ty) -> bool
    ensures yes { IsTrue result → IsPort ty }
    ensures no { IsPort ty → IsTrue result }
{
    match ty {
        Ty::Unsigned(width) => 1 <= width && width <= MAX_PORT_WIDTH,
        Ty::Signed(_) => false,
    }
}

// The type of image `number`, where it is one of these.
fn type_at(inputs: &[Input], images: &[Definition], number: u32) -> Option<Ty>
    ensures { result ≡ slice_get (all_types inputs.now images.now) number }
{
    let number = number as usize;
    if number < inputs.len() {
        return Some(inputs[number].ty);
    }
    let place = number - inputs.len();
    if place < images.len() {
        return Some(images[place].ty);
    }
    None
}

// The type, where it is a type of values.
fn typed(ty: Ty) -> Option<Ty>
    ensures found { IfSome result (λ t. (t ≡ ty) × IsType ty) }
    ensures only { IsType ty → result ≡ Some ty }
{
    if is_type(ty) { Some(ty) } else { None }
}

// The type of a constant, where the value is in its range.
fn constant_type(value: i128, ty: Ty) -> Option<Ty>
    ensures found { IfSome result (λ t. IsType ty × IsIn ty value × (t ≡ ty)) }
    ensures only { IsType ty → IsIn ty value → result ≡ Some ty }
{
    let ty = typed(ty)?;
    if ty.holds(value) { Some(ty) } else { None }
}

// The type of an expression, where it reads these images only and has one.
pub(crate) fn type_of(e: &Expr, inputs: &[Input], images: &[Definition]) -> Option<Ty>
    requires { All IsType (all_types inputs.now images.now) }
    ensures typed { IfSome result (λ t. IsType t) }
    ensures found { IfSome result (λ t. HasType (all_types inputs.now images.now) (tree_of e.now) t) }
    ensures only { (t : Ty) → HasType (all_types inputs.now images.now) (tree_of e.now) t → result ≡ Some t }
{
    match e {
        Expr::Constant(value, ty) => constant_type(*value, *ty),
        Expr::Read(_, image, _, _) => type_at(inputs, images, *image),
        Expr::Shifted(_, _, _, body) => type_of(body, inputs, images),
        Expr::Unary(op, body) => {
            let operand = type_of(body, inputs, images)?;
            op.result_type(operand)
        }
        Expr::Binary(op, left, right) => {
            let left = type_of(left, inputs, images)?;
            let right = type_of(right, inputs, images)?;
            op.result_type(left, right)
        }
        Expr::Select(condition, left, right) => {
            let condition = type_of(condition, inputs, images)?;
            let left = type_of(left, inputs, images)?;
            let right = type_of(right, inputs, images)?;
            select_type(condition, left, right)
        }
        Expr::Convert(_, body, ty) => {
            let _operand = type_of(body, inputs, images)?;
            typed(*ty)
        }
        Expr::Scale(op, body, by) => {
            let operand = type_of(body, inputs, images)?;
            op.result_type(operand, *by)
        }
    }
}

// Whether the expression is at most so deep.
#[tactic(auto, using(crate::proofs::Defined::depth_some))]
fn is_shallow(e: &Expr, most: u64) -> bool
    ensures yes { IsTrue result → depth_of (tree_of e.now) ≤ most }
    ensures no { depth_of (tree_of e.now) ≤ most → IsTrue result }
{
    if most == 0 {
        return false;
    }
    let below = most - 1;
    match e {
        Expr::Constant(..) | Expr::Read(..) => true,
        Expr::Shifted(_, _, _, body) => is_shallow(body, below),
        Expr::Unary(_, body) => is_shallow(body, below),
        Expr::Binary(_, left, right) => is_shallow(left, below) && is_shallow(right, below),
        Expr::Select(condition, left, right) => {
            is_shallow(condition, below) && is_shallow(left, below) && is_shallow(right, below)
        }
        Expr::Convert(_, body, _) => is_shallow(body, below),
        Expr::Scale(_, body, _) => is_shallow(body, below),
    }
}

// Whether an offset is near.
fn is_near(dx: i32, dy: i32) -> bool
    ensures yes { IsTrue result → IsNear dx dy }
    ensures no { IsNear dx dy → IsTrue result }
{
    dx.unsigned_abs() <= FARTHEST && dy.unsigned_abs() <= FARTHEST
}

// Whether each offset of the expression is near.
fn are_near(e: &Expr) -> bool
    ensures yes { IsTrue result → AreNear (tree_of e.now) }
    ensures no { AreNear (tree_of e.now) → IsTrue result }
{
    match e {
        Expr::Constant(..) => true,
        Expr::Read(_, _, dx, dy) => is_near(*dx, *dy),
        Expr::Shifted(_, dx, dy, body) => is_near(*dx, *dy) && are_near(body),
        Expr::Unary(_, body) => are_near(body),
        Expr::Binary(_, left, right) => are_near(left) && are_near(right),
        Expr::Select(condition, left, right) => {
            are_near(condition) && are_near(left) && are_near(right)
        }
        Expr::Convert(_, body, _) => are_near(body),
        Expr::Scale(_, body, _) => are_near(body),
    }
}

// Whether the image is defined over the inputs and these images before it.
fn is_defined(image: &Definition, inputs: &[Input], images: &[Definition]) -> bool
    requires { All IsType (all_types inputs.now images.now) }
    ensures yes { IsTrue result → IsDefined (all_types inputs.now images.now) image.now }
    ensures no { IsDefined (all_types inputs.now images.now) image.now → IsTrue result }
{
    if !is_shallow(&image.body, MAX_INLINED_DEPTH as u64) {
        return false;
    }
    if !are_near(&image.body) {
        return false;
    }
    match type_of(&image.body, inputs, images) {
        Some(ty) => ty == image.ty,
        None => false,
    }
}

// Whether each input has a port's type.
fn are_inputs(inputs: &[Input]) -> bool
    ensures yes { IsTrue result → All (λ i. IsPort i.ty) inputs.now }
    ensures no { All (λ i. IsPort i.ty) inputs.now → IsTrue result }
{
    for input in inputs {
        if !is_port(input.ty) {
            return false;
        }
    }
    true
}

// The images before image `k`.
fn earlier(images: &[Definition], k: usize) -> &[Definition]
    requires { k < length images.now }
    ensures { result.now ≡ take k images.now }
{
    images.split_at(k).0
}

// Whether each image is defined over the inputs and the images before it.
#[tactic(auto, using(crate::proofs::Defined::types_below))]
fn are_images(inputs: &[Input], images: &[Definition]) -> bool
    requires { All (λ i. IsPort i.ty) inputs.now }
    ensures yes { IsTrue result → AreDefined inputs.now images.now }
    ensures no { AreDefined inputs.now images.now → IsTrue result }
{
    for k in 0..images.len() {
        if !is_defined(&images[k], inputs, earlier(images, k)) {
            return false;
        }
    }
    true
}

// Whether the output at `k` comes before it too.
fn is_repeated(outputs: &[u32], k: usize) -> bool
    requires { k < length outputs.now }
    ensures repeated { IsTrue result → Repeats outputs.now k }
    ensures new { Repeats outputs.now k → IsTrue result }
{
    outputs[..k].contains(&outputs[k])
}

// Whether no output occurs twice.
fn are_distinct(outputs: &[u32]) -> bool
    ensures yes { IsTrue result → IsDistinct outputs.now }
    ensures no { IsDistinct outputs.now → IsTrue result }
{
    for k in 0..outputs.len() {
        if is_repeated(outputs, k) {
            return false;
        }
    }
    true
}

// Whether the image is there and may be an output.
fn is_output(inputs: &[Input], images: &[Definition], number: u32) -> bool
    ensures yes { IsTrue result → IsOutput (all_types inputs.now images.now) number }
    ensures no { IsOutput (all_types inputs.now images.now) number → IsTrue result }
{
    match type_at(inputs, images, number) {
        Some(ty) => is_port(ty),
        None => false,
    }
}

// Whether each of the images is there and may be an output.
fn are_outputs(inputs: &[Input], images: &[Definition], outputs: &[u32]) -> bool
    ensures yes { IsTrue result → All (IsOutput (all_types inputs.now images.now)) outputs.now }
    ensures no { All (IsOutput (all_types inputs.now images.now)) outputs.now → IsTrue result }
{
    for output in outputs {
        if !is_output(inputs, images, *output) {
            return false;
        }
    }
    true
}

// Whether these are the parts of a program.
pub(crate) fn is_program(parts: &Parts) -> bool
    ensures yes { IsTrue result → IsProgram (program_of parts.now) }
    ensures no { IsProgram (program_of parts.now) → IsTrue result }
{
    let inputs = parts.inputs.as_slice();
    let images = parts.images.as_slice();
    let outputs = parts.outputs.as_slice();
    if inputs.len() < 1 || MAX_INPUTS < inputs.len() {
        return false;
    }
    if MAX_KEPT_IMAGES - inputs.len() < images.len() {
        return false;
    }
    if outputs.len() < 1 || MAX_OUTPUTS < outputs.len() {
        return false;
    }
    if !are_distinct(outputs) {
        return false;
    }
    if !are_inputs(inputs) {
        return false;
    }
    if !are_images(inputs, images) {
        return false;
    }
    are_outputs(inputs, images, outputs)
}
