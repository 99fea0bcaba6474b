// The types of expressions.

ghost use Rattle.dk_base.specs.Types.{IsType};
ghost use Rattle.dk_parser.specs.Tree.{tree_of, ConvertsToTypes};
ghost use Rattle.dk_parser.specs.Tree as T;
ghost use Rattle.dk_types.specs.Scopes.{Scope as Names};
ghost use Rattle.dk_types.specs.Found.{IsOffset, IsOperand, IsTypedAs, Judged};

use crate::fault::{TypeError, TypeFaultKind, fault};
use crate::operators;
use crate::scope::Scope;
use crate::typed::{TypedExpr, TypedNode, TypedRead};
use dk_base::{Binary, Conversion, MAX_OFFSET, Scaling, Span, Ty, Unary, bits_for};
use dk_parser::{Expr, ImageRead, Literal, Node, Offset, TypeWord};
use std::alloc::Global;

// An offset as a number, or where it is too great.
fn offset(offset: Option<Offset>) -> Result<i32, Span>
    ensures { IsOffset offset result }
{
    let Some(offset) = offset else {
        return Ok(0);
    };
    if MAX_OFFSET < offset.amount.value {
        return Err(offset.amount.span);
    }
    let amount = offset.amount.value as i32;
    if offset.negative {
        Ok(-amount)
    } else {
        Ok(amount)
    }
}

fn read(scope: &Scope, span: Span, read: &ImageRead) -> Result<TypedExpr, TypeError>
    ensures { Judged scope.now (T.read span read.now) result }
{
    let Some((image, ty)) = scope.find(read.name.text.as_bytes()) else {
        return Err(fault(read.name.span, TypeFaultKind::UnknownImage));
    };
    let dx = match offset(read.x) {
        Ok(dx) => dx,
        Err(far) => return Err(fault(far, TypeFaultKind::OffsetRange)),
    };
    let dy = match offset(read.y) {
        Ok(dy) => dy,
        Err(far) => return Err(fault(far, TypeFaultKind::OffsetRange)),
    };
    let node = TypedNode::Read(TypedRead {
        image,
        dx,
        dy,
        clamped: read.clamped,
    });
    Ok(TypedExpr { ty, node })
}

fn number(span: Span, value: u64) -> TypedExpr
    ensures { (scope : Names) → IsTypedAs scope (T.number span value) result }
{
    TypedExpr {
        ty: Ty::Unsigned(bits_for(value)),
        node: TypedNode::Number(value),
    }
}

// An operand: where it stands, and its typed form.
#[derive(Drop)]
struct Operand {
    span: Span,
    typed: TypedExpr,
}

fn operand_of(source: &Expr, typed: TypedExpr) -> Operand
    requires { IsType typed.ty }
    ensures is_type { IsType result.typed.ty }
    ensures is { (scope : Names) → IsTypedAs scope (tree_of source.now) typed
        → IsOperand scope (tree_of source.now) result }
{
    Operand {
        span: source.span,
        typed,
    }
}

fn unary(
    alloc: Global,
    span: Span,
    operator: Unary,
    operand: Operand,
) -> Result<TypedExpr, TypeError>
    requires { IsType operand.typed.ty }
    ensures { (scope : Names) (a : T.Tree) → IsOperand scope a operand
        → Judged scope (T.unary span operator a) result }
{
    let ty = operators::unary_type(span, operator, operand.span, operand.typed.ty)?;
    let node = TypedNode::Unary(operator, Box::new(alloc, operand.typed)?);
    Ok(TypedExpr { ty, node })
}

fn binary(
    alloc: Global,
    span: Span,
    operator: Binary,
    left: Operand,
    right: Operand,
) -> Result<TypedExpr, TypeError>
    requires left { IsType left.typed.ty }
    requires right { IsType right.typed.ty }
    ensures { (scope : Names) (a b : T.Tree) → IsOperand scope a left → IsOperand scope b right
        → Judged scope (T.binary span operator a b) result }
{
    let ty = operators::binary_type(
        span,
        operator,
        left.span,
        left.typed.ty,
        right.span,
        right.typed.ty,
    )?;
    let left = Box::new(alloc, left.typed)?;
    let right = Box::new(alloc, right.typed)?;
    let node = TypedNode::Binary(operator, left, right);
    Ok(TypedExpr { ty, node })
}

fn scale(
    alloc: Global,
    span: Span,
    operator: Scaling,
    operand: TypedExpr,
    by: Literal,
) -> Result<TypedExpr, TypeError>
    requires { IsType operand.ty }
    ensures { (scope : Names) (a : T.Tree) → IsTypedAs scope a operand
        → Judged scope (T.scale span operator a by) result }
{
    let ty = operators::scale_type(span, operator, operand.ty, by)?;
    let operand = Box::new(alloc, operand)?;
    let node = TypedNode::Scale(operator, operand, by.value);
    Ok(TypedExpr { ty, node })
}

fn cast(alloc: Global, span: Span, operand: TypedExpr, to: TypeWord) -> Result<TypedExpr, TypeError>
    requires { IsType to.ty }
    ensures { (scope : Names) (a : T.Tree) → IsTypedAs scope a operand
        → Judged scope (T.cast span a to) result }
{
    let node = TypedNode::Convert(Conversion::Cast, Box::new(alloc, operand)?);
    Ok(TypedExpr { ty: to.ty, node })
}

fn saturate(
    alloc: Global,
    span: Span,
    operand: TypedExpr,
    to: TypeWord,
) -> Result<TypedExpr, TypeError>
    requires { IsType to.ty }
    ensures { (scope : Names) (a : T.Tree) → IsTypedAs scope a operand
        → Judged scope (T.sat span a to) result }
{
    let node = TypedNode::Convert(Conversion::Saturate, Box::new(alloc, operand)?);
    Ok(TypedExpr { ty: to.ty, node })
}

fn select(
    alloc: Global,
    span: Span,
    condition: Operand,
    left: TypedExpr,
    right: TypedExpr,
) -> Result<TypedExpr, TypeError>
    requires left { IsType left.ty }
    requires right { IsType right.ty }
    ensures { (scope : Names) (c a b : T.Tree) → IsOperand scope c condition
        → IsTypedAs scope a left → IsTypedAs scope b right
        → Judged scope (T.select span c a b) result }
{
    let ty = operators::select_type(span, condition.span, condition.typed.ty, left.ty, right.ty)?;
    let condition = Box::new(alloc, condition.typed)?;
    let left = Box::new(alloc, left)?;
    let right = Box::new(alloc, right)?;
    let node = TypedNode::Select(condition, left, right);
    Ok(TypedExpr { ty, node })
}

// The typed form of an expression.
pub(crate) fn expression(alloc: Global, scope: &Scope, e: &Expr) -> Result<TypedExpr, TypeError>
    requires { ConvertsToTypes (tree_of e.now) }
    ensures { Judged scope.now (tree_of e.now) result }
{
    match &e.node {
        Node::Number(value) => Ok(number(e.span, *value)),
        Node::Read(image_read) => read(scope, e.span, image_read),
        Node::Unary(operator, a) => {
            let operand = expression(alloc, scope, a)?;
            unary(alloc, e.span, *operator, operand_of(a, operand))
        }
        Node::Binary(operator, a, b) => {
            let left = expression(alloc, scope, a)?;
            let right = expression(alloc, scope, b)?;
            binary(
                alloc,
                e.span,
                *operator,
                operand_of(a, left),
                operand_of(b, right),
            )
        }
        Node::Scale(operator, a, by) => {
            let operand = expression(alloc, scope, a)?;
            scale(alloc, e.span, *operator, operand, *by)
        }
        Node::Cast(a, to) => {
            let operand = expression(alloc, scope, a)?;
            cast(alloc, e.span, operand, *to)
        }
        Node::Sat(a, to) => {
            let operand = expression(alloc, scope, a)?;
            saturate(alloc, e.span, operand, *to)
        }
        Node::Select(c, a, b) => {
            let condition = expression(alloc, scope, c)?;
            let left = expression(alloc, scope, a)?;
            let right = expression(alloc, scope, b)?;
            select(alloc, e.span, operand_of(c, condition), left, right)
        }
    }
}
