// The types that expressions have in the new text, where the images that they read may have fewer bits.

ghost use Rattle.std.specs.Prelude.{IfSome};
ghost use Rattle.dk_base.specs.Types.{IsType};

use dk_base::{MAX_WIDTH, Ty, select_type};
use dk_types::{TypedExpr, TypedNode};

// The type, if values can have it.
fn some_type(ty: Ty) -> Option<Ty>
    ensures { IfSome result (λ t. IsType t) }
{
    let width = ty.width();
    if 1 <= width && width <= MAX_WIDTH {
        Some(ty)
    } else {
        None
    }
}

// The type of an image, if it is one of these.
fn type_at(types: &[Ty], image: u32) -> Option<Ty>
    ensures { IfSome result (λ t. IsType t) }
{
    match types.get(image as usize) {
        Some(ty) => some_type(*ty),
        None => None,
    }
}

// The type of an expression, from those of the images. None if it has none.
pub(crate) fn type_of(types: &[Ty], e: &TypedExpr) -> Option<Ty>
    ensures { IfSome result (λ t. IsType t) }
{
    match &e.node {
        TypedNode::Number(_) => some_type(e.ty),
        TypedNode::Read(read) => type_at(types, read.image),
        TypedNode::Unary(op, a) => {
            let a = type_of(types, a)?;
            op.result_type(a)
        }
        TypedNode::Binary(op, a, b) => {
            let a = type_of(types, a)?;
            let b = type_of(types, b)?;
            op.result_type(a, b)
        }
        TypedNode::Scale(op, a, by) => {
            let a = type_of(types, a)?;
            op.result_type(a, *by)
        }
        TypedNode::Convert(_, _) => some_type(e.ty),
        TypedNode::Select(c, a, b) => {
            let c = type_of(types, c)?;
            let a = type_of(types, a)?;
            let b = type_of(types, b)?;
            select_type(c, a, b)
        }
    }
}
