// Operators on bits.

ghost use Rattle.std.specs.Prelude.{pos, ◌-ℤ◌, bit_and, bit_or, bit_xor, unsigned_abs, ◌∷◌, []};
ghost use Rattle.dk_base.specs.Types.{common_type};
ghost use Rattle.datapath.specs.Operands.{AreUnsigned, IsOfType, MakesOperand, worth};

use crate::operand::Operand;
use crate::resize::combined;
use crate::words::complement;
use dk_base::{OutOfMemory, Ty};
use net_build::Builder;
use std::cmp::max;
use wiring::Operator;

/// The bits that both operands have.
#[tactic(auto, using(crate::proofs::Carried::later))]
pub fn conjunction(b: &mut Builder, x: Operand, y: Operand) -> Result<Operand, OutOfMemory>
    requires { AreUnsigned b.old x y }
    ensures { MakesOperand b.old b.new result 1 (x.bits ∷ (y.bits ∷ [])) (common_type x.ty y.ty)
        (λ s. pos (bit_and (unsigned_abs (worth s x)) (unsigned_abs (worth s y)))) }
{
    let width = max(x.ty.width(), y.ty.width());
    let bits = combined(b, Operator::And, width, x, y)?;
    Ok(Operand {
        bits,
        ty: Ty::Unsigned(width),
    })
}

/// The bits that one of the operands has.
#[tactic(auto, using(crate::proofs::Carried::later))]
pub fn disjunction(b: &mut Builder, x: Operand, y: Operand) -> Result<Operand, OutOfMemory>
    requires { AreUnsigned b.old x y }
    ensures { MakesOperand b.old b.new result 1 (x.bits ∷ (y.bits ∷ [])) (common_type x.ty y.ty)
        (λ s. pos (bit_or (unsigned_abs (worth s x)) (unsigned_abs (worth s y)))) }
{
    let width = max(x.ty.width(), y.ty.width());
    let bits = combined(b, Operator::Or, width, x, y)?;
    Ok(Operand {
        bits,
        ty: Ty::Unsigned(width),
    })
}

/// The bits that exactly one of the operands has.
#[tactic(auto, using(crate::proofs::Carried::later))]
pub fn exclusive_or(b: &mut Builder, x: Operand, y: Operand) -> Result<Operand, OutOfMemory>
    requires { AreUnsigned b.old x y }
    ensures { MakesOperand b.old b.new result 1 (x.bits ∷ (y.bits ∷ [])) (common_type x.ty y.ty)
        (λ s. pos (bit_xor (unsigned_abs (worth s x)) (unsigned_abs (worth s y)))) }
{
    let width = max(x.ty.width(), y.ty.width());
    let bits = combined(b, Operator::Xor, width, x, y)?;
    Ok(Operand {
        bits,
        ty: Ty::Unsigned(width),
    })
}

/// The other bit.
#[tactic(auto, using(crate::proofs::Carried::later))]
pub fn bit_complement(b: &mut Builder, x: Operand) -> Result<Operand, OutOfMemory>
    requires { IsOfType b.old x (Ty.Unsigned 1) }
    ensures { MakesOperand b.old b.new result 1 (x.bits ∷ []) (Ty.Unsigned 1)
        (λ s. pos 1 -ℤ worth s x) }
{
    let bits = complement(b, 1, x.bits)?;
    Ok(Operand {
        bits,
        ty: Ty::Unsigned(1),
    })
}
