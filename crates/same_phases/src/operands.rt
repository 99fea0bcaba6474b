// What an expression is of one form.

ghost use Rattle.std.specs.Prelude.{◌≡◌, IsTrue, IfSome};
ghost use Rattle.dk_types.specs.Typed.{typed_of, constant, fetch, single, double, scaled, converted, chosen};

use dk_base::{Binary, Conversion, Scaling, Ty, Unary};
use dk_types::{TypedExpr, TypedNode, TypedRead};

// Whether the expression is this number.
pub fn is_number(e: &TypedExpr, value: u64) -> bool
    ensures { IsTrue result → typed_of e.now ≡ constant e.now.ty value }
{
    match &e.node {
        TypedNode::Number(other) => *other == value,
        _ => false,
    }
}

pub fn read_of(e: &TypedExpr) -> Option<TypedRead>
    ensures { IfSome result (λ r. typed_of e.now ≡ fetch e.now.ty r) }
{
    match &e.node {
        TypedNode::Read(read) => Some(*read),
        _ => None,
    }
}

pub fn unary_operand(e: &TypedExpr, op: Unary) -> Option<&TypedExpr>
    ensures { IfSome result (λ a. typed_of e.now ≡ single e.now.ty op (typed_of a.now)) }
{
    match &e.node {
        TypedNode::Unary(its, operand) => { if *its == op { Some(operand) } else { None } }
        _ => None,
    }
}

pub fn binary_operands(e: &TypedExpr, op: Binary) -> Option<(&TypedExpr, &TypedExpr)>
    ensures { IfSome result (λ p. typed_of e.now
        ≡ double e.now.ty op (typed_of p.0.now) (typed_of p.1.now)) }
{
    match &e.node {
        TypedNode::Binary(its, left, right) if *its == op => Some((left, right)),
        _ => None,
    }
}

pub fn scaled_operand(e: &TypedExpr, op: Scaling, by: u64) -> Option<&TypedExpr>
    ensures { IfSome result (λ a. typed_of e.now ≡ scaled e.now.ty op (typed_of a.now) by) }
{
    match &e.node {
        TypedNode::Scale(its, operand, number) if *its == op && *number == by => Some(operand),
        _ => None,
    }
}

pub fn converted_operand(e: &TypedExpr, how: Conversion, ty: Ty) -> Option<&TypedExpr>
    ensures { IfSome result (λ a. typed_of e.now ≡ converted ty how (typed_of a.now)) }
{
    match &e.node {
        TypedNode::Convert(its, operand) if *its == how && e.ty == ty => Some(operand),
        _ => None,
    }
}

pub fn select_operands(e: &TypedExpr) -> Option<(&TypedExpr, &TypedExpr, &TypedExpr)>
    ensures { IfSome result (λ p. typed_of e.now
        ≡ chosen e.now.ty (typed_of p.0.now) (typed_of p.1.now) (typed_of p.2.now)) }
{
    match &e.node {
        TypedNode::Select(condition, left, right) => Some((condition, left, right)),
        _ => None,
    }
}
