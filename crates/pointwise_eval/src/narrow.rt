// Whether the values of an expression and of its parts have 64 bits.

ghost use Rattle.std.specs.Prelude.{◌≡◌, IfSome, IsTrue, slice_get};
ghost use Rattle.std.specs.List.{All};
ghost use Rattle.dk_base.specs.declared.ty.Ty.TheVariants.{Signed};
ghost use Rattle.dk_base.specs.Types.{IsType, IsIn, IsWithin};
ghost use Rattle.pointwise_ir.specs.Trees.{tree_of, EachImage};
ghost use Rattle.pointwise_ir.specs.Programs.{all_types};
ghost use Rattle.pointwise_eval.specs.Planes.{HasRows};
ghost use Rattle.pointwise_eval.specs.Narrow.{IsNarrowType};

use crate::plane::Plane;
use dk_base::{MAX_WIDTH, Ty, select_type};
use pointwise_ir::{Definition, Expr, Input};

// The type, where all its numbers have 64 bits.
fn narrow(ty: Ty) -> Option<Ty>
    requires { IsType ty }
    ensures { IfSome result (λ t. (t ≡ ty) × IsWithin ty (Signed 64)) }
{
    match ty {
        Ty::Unsigned(width) => { if width < MAX_WIDTH { Some(ty) } else { None } }
        Ty::Signed(_) => Some(ty),
    }
}

// The type of image `number`, where it is one of these.
fn type_at(inputs: &[Input], images: &[Definition], number: u32) -> Option<Ty>
    ensures { result ≡ slice_get (all_types inputs.now images.now) number }
{
    let number = number as usize;
    if number < inputs.len() {
        return Some(inputs[number].ty);
    }
    let place = number - inputs.len();
    if place < images.len() {
        return Some(images[place].ty);
    }
    None
}

// The type, where it is a type of values.
fn typed(ty: Ty) -> Option<Ty>
    ensures { IfSome result (λ t. (t ≡ ty) × IsType ty) }
{
    let width = ty.width();
    if 1 <= width && width <= MAX_WIDTH {
        Some(ty)
    } else {
        None
    }
}

// The type of a constant, where the value is in its range.
fn constant_type(value: i128, ty: Ty) -> Option<Ty>
    ensures { IfSome result (λ t. IsType ty × IsIn ty value × (t ≡ ty)) }
{
    let ty = typed(ty)?;
    if ty.holds(value) { Some(ty) } else { None }
}

// The type of an expression, where each part has a type of numbers of 64 bits.
pub fn narrow_type(e: &Expr, inputs: &[Input], images: &[Definition]) -> Option<Ty>
    requires { All IsType (all_types inputs.now images.now) }
    ensures { IfSome result (IsNarrowType (all_types inputs.now images.now) (tree_of e.now)) }
{
    match e {
        Expr::Constant(value, ty) => narrow(constant_type(*value, *ty)?),
        Expr::Read(_, image, _, _) => narrow(type_at(inputs, images, *image)?),
        Expr::Shifted(_, _, _, body) => narrow(narrow_type(body, inputs, images)?),
        Expr::Unary(op, body) => {
            let operand = narrow_type(body, inputs, images)?;
            let ty = op.result_type(operand)?;
            narrow(ty)
        }
        Expr::Binary(op, left, right) => {
            let left = narrow_type(left, inputs, images)?;
            let right = narrow_type(right, inputs, images)?;
            let ty = op.result_type(left, right)?;
            narrow(ty)
        }
        Expr::Select(condition, left, right) => {
            let condition = narrow_type(condition, inputs, images)?;
            let left = narrow_type(left, inputs, images)?;
            let right = narrow_type(right, inputs, images)?;
            let ty = select_type(condition, left, right)?;
            narrow(ty)
        }
        Expr::Convert(_, body, ty) => {
            let _operand = narrow_type(body, inputs, images)?;
            let ty = typed(*ty)?;
            narrow(ty)
        }
        Expr::Scale(op, body, by) => {
            let operand = narrow_type(body, inputs, images)?;
            let ty = op.result_type(operand, *by)?;
            narrow(ty)
        }
    }
}

// Whether the image can be read by rows.
fn has_rows(planes: &[Plane<'_>], image: u32) -> bool
    ensures { IsTrue result → HasRows planes.now image }
{
    let image = image as usize;
    if image < planes.len() {
        planes[image].is_narrow()
    } else {
        false
    }
}

// Whether each image that the expression reads can be read by rows.
pub fn reads_rows(planes: &[Plane<'_>], e: &Expr) -> bool
    ensures { IsTrue result → EachImage (HasRows planes.now) (tree_of e.now) }
{
    match e {
        Expr::Constant(..) => true,
        Expr::Read(_, image, _, _) => has_rows(planes, *image),
        Expr::Shifted(_, _, _, body) => reads_rows(planes, body),
        Expr::Unary(_, body) => reads_rows(planes, body),
        Expr::Binary(_, left, right) => reads_rows(planes, left) && reads_rows(planes, right),
        Expr::Select(condition, left, right) => {
            reads_rows(planes, condition) && reads_rows(planes, left) && reads_rows(planes, right)
        }
        Expr::Convert(_, body, _) => reads_rows(planes, body),
        Expr::Scale(_, body, _) => reads_rows(planes, body),
    }
}
