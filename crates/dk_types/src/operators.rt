// The types of what operators give, or the operators' own faults.

ghost use Rattle.std.specs.Prelude.{◌≡◌, true, IsTrue, ◌↔◌, MatchOption};
ghost use Rattle.dk_base.specs.declared.ty.Ty.{Ty};
ghost use Rattle.dk_base.specs.Types.{IsType};
ghost use Rattle.dk_base.specs.Operators.{unary_type as type_of_unary, binary_type as type_of_binary, are_operands, scaling_type as type_of_scaling, select_type as type_of_select};
ghost use Rattle.dk_parser.specs.Tree as T;
ghost use Rattle.dk_parser.specs.Tree.{Tree, span_of};
ghost use Rattle.dk_types.specs.Scopes.{Scope};
ghost use Rattle.dk_types.specs.Typed.{Typed, type_of};
ghost use Rattle.dk_types.specs.Types.{HasType};
ghost use Rattle.dk_types.specs.Faults.{Faulty, Stops};
ghost use Rattle.dk_types.specs.Found.{GivesType};
ghost use Rattle.dk_types.specs.declared.fault.TypeFaultKind.TheVariants.{SignedBits};

use crate::fault::{TypeError, TypeFaultKind, fault};
use dk_base::{Binary, MAX_SHIFT, MAX_WIDTH, Scaling, Span, Ty, Unary};
use dk_parser::Literal;

// The result type of an operator at `span` with an operand at `first`.
pub(crate) fn unary_type(
    span: Span,
    operator: Unary,
    first: Span,
    operand: Ty,
) -> Result<Ty, TypeError>
    requires { IsType operand }
    ensures { GivesType (type_of_unary operator operand)
        (λ stop. (scope : Scope) (a : Tree) (e : Typed) → HasType scope a e → type_of e ≡ operand
        → span_of a ≡ first
        → Stops (Faulty scope (T.unary span operator a)) stop) result }
{
    match operator.result_type(operand) {
        Some(ty) => Ok(ty),
        None => match operator {
            Unary::Not => Err(fault(first, TypeFaultKind::NotOneBit)),
            Unary::Negate | Unary::Abs => Err(fault(span, TypeFaultKind::WidthTooGreat)),
        },
    }
}

// The first operand that is signed where the operator works bit by bit.
fn signed_operand(
    span: Span,
    operator: Binary,
    first: Span,
    left: Ty,
    second: Span,
    right: Ty,
) -> Option<TypeError>
    ensures { MatchOption result (are_operands operator left right ≡ true)
        (λ stop. (scope : Scope) (a b : Tree) (e f : Typed) → HasType scope a e
        → HasType scope b f → type_of e ≡ left → type_of f ≡ right → span_of a ≡ first
        → span_of b ≡ second
        → Stops (Faulty scope (T.binary span operator a b)) stop) }
{
    if !operator.is_bitwise() {
        return None;
    }
    if left.is_signed() {
        return Some(fault(first, TypeFaultKind::SignedBits));
    }
    if right.is_signed() {
        return Some(fault(second, TypeFaultKind::SignedBits));
    }
    None
}

// The result type of an operator at `span` with operands at `first` and `second`.
pub(crate) fn binary_type(
    span: Span,
    operator: Binary,
    first: Span,
    left: Ty,
    second: Span,
    right: Ty,
) -> Result<Ty, TypeError>
    requires left { IsType left }
    requires right { IsType right }
    ensures { GivesType (type_of_binary operator left right)
        (λ stop. (scope : Scope) (a b : Tree) (e f : Typed) → HasType scope a e → HasType scope b f
        → type_of e ≡ left
        → type_of f ≡ right → span_of a ≡ first → span_of b ≡ second
        → Stops (Faulty scope (T.binary span operator a b)) stop) result }
{
    if let Some(stop) = signed_operand(span, operator, first, left, second, right) {
        return Err(stop);
    }
    match operator.result_type(left, right) {
        Some(result_ty) => Ok(result_ty),
        None => Err(fault(span, TypeFaultKind::WidthTooGreat)),
    }
}

// The result type of a division or a shift at `span`.
pub(crate) fn scale_type(
    span: Span,
    operator: Scaling,
    operand: Ty,
    by: Literal,
) -> Result<Ty, TypeError>
    requires { IsType operand }
    ensures { GivesType (type_of_scaling operator operand by.value)
        (λ stop. (scope : Scope) (a : Tree) (e : Typed) → HasType scope a e → type_of e ≡ operand
        → Stops (Faulty scope (T.scale span operator a by)) stop) result }
{
    match operator.result_type(operand, by.value) {
        Some(ty) => Ok(ty),
        None => match operator {
            Scaling::Divide => Err(fault(by.span, TypeFaultKind::ZeroDivisor)),
            Scaling::ShiftLeft | Scaling::ShiftRight if MAX_SHIFT < by.value => {
                Err(fault(by.span, TypeFaultKind::ShiftRange))
            }
            Scaling::ShiftLeft | Scaling::ShiftRight => {
                Err(fault(span, TypeFaultKind::WidthTooGreat))
            }
        },
    }
}

// Whether a type has 1 to 64 bits.
pub(crate) fn is_type(ty: Ty) -> bool
    ensures { IsTrue result ↔ IsType ty }
{
    1 <= ty.width() && ty.width() <= MAX_WIDTH
}

// The type of a choice at `span`, whose condition is at `first`.
pub(crate) fn select_type(
    span: Span,
    first: Span,
    condition: Ty,
    left: Ty,
    right: Ty,
) -> Result<Ty, TypeError>
    requires left { IsType left }
    requires right { IsType right }
    ensures { GivesType (type_of_select condition left right)
        (λ stop. (scope : Scope) (c a b : Tree) (d e f : Typed) → HasType scope c d
        → HasType scope a e → HasType scope b f
        → type_of d ≡ condition → type_of e ≡ left → type_of f ≡ right → span_of c ≡ first
        → Stops (Faulty scope (T.select span c a b)) stop) result }
{
    match dk_base::select_type(condition, left, right) {
        Some(ty) => Ok(ty),
        None if condition.is_bit() => Err(fault(span, TypeFaultKind::WidthTooGreat)),
        None => Err(fault(first, TypeFaultKind::NotOneBit)),
    }
}
