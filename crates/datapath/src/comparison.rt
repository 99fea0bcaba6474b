// Comparisons, choices and conversions.

ghost use Rattle.std.specs.Prelude.{not, pos, ◌+ℤ◌, int_lt, unsigned_abs, ◌∷◌, []};
ghost use Rattle.dk_base.specs.Types.{common_type, width_of, below};
ghost use Rattle.dk_base.specs.Numbers.{wrap};
ghost use Rattle.datapath.specs.Nets.{MakesWord};
ghost use Rattle.datapath.specs.Operands.{AreChoices, AreOperands, HasOperand, IsOperandWithin, MakesOperand, worth};
ghost use Rattle.dk_base.specs.Operators.{truth, select_value as chosen};
ghost use Rattle.std.specs.Int.{int_min, int_max};
ghost use Rattle.std.specs.Ordering.{int_eq};

use crate::bits::bit_complement;
use crate::constants::top_bit;
use crate::operand::{Operand, Signal};
use crate::resize::{combined, resized};
use crate::words::{choose, operated};
use dk_base::{OutOfMemory, Ty};
use net_build::Builder;
use wiring::Operator;

// How far an operand's number is above the least number of a type that has all its numbers.
#[tactic(auto, using(crate::proofs::Carried::later))]
pub fn offset(b: &mut Builder, x: Operand, ty: Ty) -> Result<Signal, OutOfMemory>
    requires { IsOperandWithin b.old x ty }
    ensures { MakesWord b.old b.new result 1 (x.bits ∷ []) (width_of ty)
        (λ nets. unsigned_abs (worth nets x +ℤ pos (below ty))) }
{
    match ty {
        Ty::Unsigned(width) => {
            let atom = resized(b, x, width)?;
            Ok(atom)
        }
        Ty::Signed(width) => {
            let bits = resized(b, x, width)?;
            let half = top_bit(width);
            let atom = operated(b, Operator::Add, width, bits, half)?;
            Ok(atom)
        }
    }
}

/// Whether the first operand is less than the second.
#[tactic(auto, using(crate::proofs::Carried::later))]
pub fn is_less(b: &mut Builder, x: Operand, y: Operand) -> Result<Operand, OutOfMemory>
    requires { AreOperands b.old x y (common_type x.ty y.ty) }
    ensures { MakesOperand b.old b.new result 2 (x.bits ∷ (y.bits ∷ [])) (Ty.Unsigned 1)
        (λ nets. truth (int_lt (worth nets x) (worth nets y))) }
{
    let ty = x.ty.common(y.ty);
    let left = offset(b, x, ty)?;
    let right = offset(b, y, ty)?;
    let atom = operated(b, Operator::Less, ty.width(), left, right)?;
    Ok(Operand {
        bits: atom,
        ty: Ty::Unsigned(1),
    })
}

/// Whether two operands are equal.
#[tactic(auto, using(crate::proofs::Carried::later))]
pub fn is_equal(b: &mut Builder, x: Operand, y: Operand) -> Result<Operand, OutOfMemory>
    requires { AreOperands b.old x y (common_type x.ty y.ty) }
    ensures { MakesOperand b.old b.new result 1 (x.bits ∷ (y.bits ∷ [])) (Ty.Unsigned 1)
        (λ nets. truth (int_eq (worth nets x) (worth nets y))) }
{
    let ty = x.ty.common(y.ty);
    let width = ty.width();
    let bits = combined(b, Operator::Equal, width, x, y)?;
    Ok(Operand {
        bits,
        ty: Ty::Unsigned(1),
    })
}

/// The first operand where the condition is 1, else the second.
#[tactic(auto, using(crate::proofs::Carried::later))]
pub fn choice(
    b: &mut Builder,
    condition: Operand,
    x: Operand,
    y: Operand,
) -> Result<Operand, OutOfMemory>
    requires { AreChoices b.old condition x y }
    ensures { MakesOperand b.old b.new result 1 (condition.bits ∷ (x.bits ∷ (y.bits ∷ []))) (common_type x.ty y.ty)
        (λ nets. chosen (worth nets condition) (worth nets x) (worth nets y)) }
{
    let ty = x.ty.common(y.ty);
    let width = ty.width();
    let left = resized(b, x, width)?;
    let right = resized(b, y, width)?;
    let atom = choose(b, width, condition.bits, left, right)?;
    Ok(Operand { bits: atom, ty })
}

/// The number of a type's range that is equal to the operand's modulo 2 to the type's width.
#[tactic(auto, using(crate::proofs::Carried::later))]
pub fn cast(b: &mut Builder, x: Operand, ty: Ty) -> Result<Operand, OutOfMemory>
    requires { HasOperand b.old x ty }
    ensures { MakesOperand b.old b.new result 0 (x.bits ∷ []) ty (λ nets. wrap ty (worth nets x)) }
{
    let width = ty.width();
    let atom = resized(b, x, width)?;
    Ok(Operand { bits: atom, ty })
}

/// The lesser of two operands.
#[tactic(auto, using(crate::proofs::Carried::later))]
pub fn minimum(b: &mut Builder, x: Operand, y: Operand) -> Result<Operand, OutOfMemory>
    requires { AreOperands b.old x y (common_type x.ty y.ty) }
    ensures { MakesOperand b.old b.new result 3 (x.bits ∷ (y.bits ∷ [])) (common_type x.ty y.ty)
        (λ nets. int_min (worth nets x) (worth nets y)) }
{
    let above = is_less(b, y, x)?;
    let lesser = choice(b, above, y, x)?;
    Ok(lesser)
}

/// The greater of two operands.
#[tactic(auto, using(crate::proofs::Carried::later))]
pub fn maximum(b: &mut Builder, x: Operand, y: Operand) -> Result<Operand, OutOfMemory>
    requires { AreOperands b.old x y (common_type x.ty y.ty) }
    ensures { MakesOperand b.old b.new result 3 (x.bits ∷ (y.bits ∷ [])) (common_type x.ty y.ty)
        (λ nets. int_max (worth nets x) (worth nets y)) }
{
    let below = is_less(b, y, x)?;
    let greater = choice(b, below, x, y)?;
    Ok(greater)
}

/// Whether the first operand is at most the second.
#[tactic(auto, using(crate::proofs::Carried::later))]
pub fn is_at_most(b: &mut Builder, x: Operand, y: Operand) -> Result<Operand, OutOfMemory>
    requires { AreOperands b.old x y (common_type x.ty y.ty) }
    ensures { MakesOperand b.old b.new result 3 (x.bits ∷ (y.bits ∷ [])) (Ty.Unsigned 1)
        (λ s. truth (not (int_lt (worth s y) (worth s x)))) }
{
    let opposite = is_less(b, y, x)?;
    let negation = bit_complement(b, opposite)?;
    Ok(negation)
}

/// Whether the first operand is at least the second.
#[tactic(auto, using(crate::proofs::Carried::later))]
pub fn is_at_least(b: &mut Builder, x: Operand, y: Operand) -> Result<Operand, OutOfMemory>
    requires { AreOperands b.old x y (common_type x.ty y.ty) }
    ensures { MakesOperand b.old b.new result 3 (x.bits ∷ (y.bits ∷ [])) (Ty.Unsigned 1)
        (λ s. truth (not (int_lt (worth s x) (worth s y)))) }
{
    let opposite = is_less(b, x, y)?;
    let negation = bit_complement(b, opposite)?;
    Ok(negation)
}

/// Whether two operands differ.
#[tactic(auto, using(crate::proofs::Carried::later))]
pub fn is_unequal(b: &mut Builder, x: Operand, y: Operand) -> Result<Operand, OutOfMemory>
    requires { AreOperands b.old x y (common_type x.ty y.ty) }
    ensures { MakesOperand b.old b.new result 2 (x.bits ∷ (y.bits ∷ [])) (Ty.Unsigned 1)
        (λ s. truth (not (int_eq (worth s x) (worth s y)))) }
{
    let opposite = is_equal(b, x, y)?;
    let negation = bit_complement(b, opposite)?;
    Ok(negation)
}
