// What an expression is of one form, with the operators and offsets that are asked.

ghost use Rattle.std.specs.Prelude.{◌≡◌, IsTrue, IfSome};
ghost use Rattle.pointwise_ir.specs.Trees.{tree_of, constant, read, shifted, unary, binary, select, convert, scale};

use crate::moves::Step;
use dk_base::{Binary, Conversion, Scaling, Ty, Unary};
use pointwise_ir::{Edge, Expr};

// Whether the expression is this constant.
pub fn is_constant(e: &Expr, value: i128, ty: Ty) -> bool
    ensures { IsTrue result → tree_of e.now ≡ constant value ty }
{
    match e {
        Expr::Constant(other, its) => *other == value && *its == ty,
        _ => false,
    }
}

// The type of the constant that the expression is, if it has this value.
pub fn constant_type(e: &Expr, value: i128) -> Option<Ty>
    ensures { IfSome result (λ t. tree_of e.now ≡ constant value t) }
{
    match e {
        Expr::Constant(other, ty) => { if *other == value { Some(*ty) } else { None } }
        _ => None,
    }
}

// The image that is read by this offset.
pub fn read_image(e: &Expr, edge: Edge, dx: i32, dy: i32) -> Option<u32>
    ensures { IfSome result (λ g. tree_of e.now ≡ read edge g dx dy) }
{
    match e {
        Expr::Read(its, image, across, down) if *its == edge && *across == dx && *down == dy =>
            Some(*image),
        _ => None,
    }
}

// What is read by this offset of an inline image.
pub fn shifted_body(e: &Expr, edge: Edge, dx: i32, dy: i32) -> Option<&Expr>
    ensures { IfSome result (λ a. tree_of e.now ≡ shifted edge dx dy (tree_of a.now)) }
{
    match e {
        Expr::Shifted(its, across, down, body) if *its == edge && *across == dx && *down == dy =>
            Some(body),
        _ => None,
    }
}

pub fn unary_operand(e: &Expr, op: Unary) -> Option<&Expr>
    ensures { IfSome result (λ a. tree_of e.now ≡ unary op (tree_of a.now)) }
{
    match e {
        Expr::Unary(its, operand) => { if *its == op { Some(operand) } else { None } }
        _ => None,
    }
}

pub fn binary_operands(e: &Expr, op: Binary) -> Option<(&Expr, &Expr)>
    ensures { IfSome result (λ p. tree_of e.now ≡ binary op (tree_of p.0.now) (tree_of p.1.now)) }
{
    match e {
        Expr::Binary(its, left, right) if *its == op => Some((left, right)),
        _ => None,
    }
}

pub fn select_operands(e: &Expr) -> Option<(&Expr, &Expr, &Expr)>
    ensures { IfSome result (λ p. tree_of e.now ≡ select (tree_of p.0.now) (tree_of p.1.now) (tree_of p.2.now)) }
{
    match e {
        Expr::Select(condition, left, right) => Some((condition, left, right)),
        _ => None,
    }
}

pub fn converted_operand(e: &Expr, how: Conversion, ty: Ty) -> Option<&Expr>
    ensures { IfSome result (λ a. tree_of e.now ≡ convert how (tree_of a.now) ty) }
{
    match e {
        Expr::Convert(its, operand, to) if *its == how && *to == ty => Some(operand),
        _ => None,
    }
}

pub fn scaled_operand(e: &Expr, op: Scaling, by: u64) -> Option<&Expr>
    ensures { IfSome result (λ a. tree_of e.now ≡ scale op (tree_of a.now) by) }
{
    match e {
        Expr::Scale(its, operand, number) if *its == op && *number == by => Some(operand),
        _ => None,
    }
}

// A read: the image, and the step to the pixel.
#[derive(Clone, Copy)]
pub struct ReadParts {
    pub image: u32,
    pub step: Step,
}

// The parts of the read that the expression is.
pub fn read_parts(e: &Expr) -> Option<ReadParts>
    ensures { IfSome result (λ r. tree_of e.now ≡ read r.step.edge r.image r.step.dx r.step.dy) }
{
    match e {
        Expr::Read(edge, image, dx, dy) => Some(ReadParts {
            image: *image,
            step: Step::new(*edge, *dx, *dy),
        }),
        _ => None,
    }
}

// The number of bits by which the expression shifts to the left or right, or by which it divides.
pub fn shift_of(e: &Expr) -> Option<u64> {
    match e {
        Expr::Scale(_, _, by) => Some(*by),
        _ => None,
    }
}

// Whether two expressions are the same.
pub fn is_same(a: &Expr, b: &Expr) -> bool
    ensures { IsTrue result → tree_of a.now ≡ tree_of b.now }
{
    match a {
        Expr::Constant(value, ty) => is_constant(b, *value, *ty),
        Expr::Read(edge, image, dx, dy) => read_image(b, *edge, *dx, *dy) == Some(*image),
        Expr::Shifted(edge, dx, dy, body) => match shifted_body(b, *edge, *dx, *dy) {
            Some(other) => is_same(body, other),
            None => false,
        },
        Expr::Unary(op, operand) => match unary_operand(b, *op) {
            Some(other) => is_same(operand, other),
            None => false,
        },
        Expr::Binary(op, left, right) => match binary_operands(b, *op) {
            Some((l, r)) => is_same(left, l) && is_same(right, r),
            None => false,
        },
        Expr::Select(condition, left, right) => match select_operands(b) {
            Some((c, l, r)) => is_same(condition, c) && is_same(left, l) && is_same(right, r),
            None => false,
        },
        Expr::Convert(how, operand, ty) => match converted_operand(b, *how, *ty) {
            Some(other) => is_same(operand, other),
            None => false,
        },
        Expr::Scale(op, operand, by) => match scaled_operand(b, *op, *by) {
            Some(other) => is_same(operand, other),
            None => false,
        },
    }
}
