// Sums, differences and products.

ghost use Rattle.std.specs.Prelude.{pos, ◌+ℤ◌, ◌-ℤ◌, ◌*ℤ◌, ◌∷◌, []};
ghost use Rattle.dk_base.specs.Types.{sum_type, difference_type, product_type, negation_type};
ghost use Rattle.datapath.specs.Operands.{AreOperands, HasOperand, MakesOperand, worth};

use crate::constants::constant;
use crate::operand::Operand;
use crate::resize::{combined, resized};
use crate::words::operated;
use dk_base::{OutOfMemory, Ty};
use net_build::Builder;
use wiring::Operator;

/// The sum of two operands.
#[tactic(auto, using(crate::proofs::Carried::later))]
pub fn sum(b: &mut Builder, x: Operand, y: Operand) -> Result<Operand, OutOfMemory>
    requires { AreOperands b.old x y (sum_type x.ty y.ty) }
    ensures { MakesOperand b.old b.new result 1 (x.bits ∷ (y.bits ∷ [])) (sum_type x.ty y.ty)
        (λ nets. worth nets x +ℤ worth nets y) }
{
    let ty = x.ty.sum(y.ty);
    let wider = ty.width();
    let bits = combined(b, Operator::Add, wider, x, y)?;
    Ok(Operand { bits, ty })
}

/// The difference of two operands.
#[tactic(auto, using(crate::proofs::Carried::later))]
pub fn difference(b: &mut Builder, x: Operand, y: Operand) -> Result<Operand, OutOfMemory>
    requires { AreOperands b.old x y (difference_type x.ty y.ty) }
    ensures { MakesOperand b.old b.new result 1 (x.bits ∷ (y.bits ∷ [])) (difference_type x.ty y.ty)
        (λ nets. worth nets x -ℤ worth nets y) }
{
    let ty = x.ty.difference(y.ty);
    let width = ty.width();
    let bits = combined(b, Operator::Subtract, width, x, y)?;
    Ok(Operand { bits, ty })
}

/// The product of two operands.
#[tactic(auto, using(crate::proofs::Carried::later))]
pub fn product(b: &mut Builder, x: Operand, y: Operand) -> Result<Operand, OutOfMemory>
    requires { AreOperands b.old x y (product_type x.ty y.ty) }
    ensures { MakesOperand b.old b.new result 1 (x.bits ∷ (y.bits ∷ [])) (product_type x.ty y.ty)
        (λ nets. worth nets x *ℤ worth nets y) }
{
    let ty = x.ty.product(y.ty);
    let width = ty.width();
    let bits = combined(b, Operator::Multiply, width, x, y)?;
    Ok(Operand { bits, ty })
}

/// An operand's number with the other sign.
#[tactic(auto, using(crate::proofs::Carried::later))]
pub fn negation(b: &mut Builder, x: Operand) -> Result<Operand, OutOfMemory>
    requires { HasOperand b.old x (negation_type x.ty) }
    ensures { MakesOperand b.old b.new result 1 (x.bits ∷ []) (negation_type x.ty)
        (λ nets. pos 0 -ℤ worth nets x) }
{
    let width = x.ty.width() + 1;
    let right = resized(b, x, width)?;
    let atom = operated(b, Operator::Subtract, width, constant(width, 0), right)?;
    Ok(Operand {
        bits: atom,
        ty: Ty::Signed(width),
    })
}
