// The nearest number of a type.

ghost use Rattle.std.specs.Prelude.{◌-◌, ◌<◌, int_lt, if◌then◌else◌, MatchResult, ◌∷◌, []};
ghost use Rattle.dk_base.specs.Types.{width_of, below, above, least_of, greatest_of};
ghost use Rattle.dk_base.specs.Numbers.{saturate};
ghost use Rattle.datapath.specs.Nets.{Grows, HasWidth, IsWordLimited, MakesWord, bit, bits_of};
ghost use Rattle.datapath.specs.Operands.{HasOperand, MakesOperand, worth};

use crate::comparison::offset;
use crate::constants::constant;
use crate::ends::{below, greatest};
use crate::operand::{Operand, Signal};
use crate::resize::resized;
use crate::words::{choose, complement, operated, part};
use dk_base::{OutOfMemory, Ty};
use net_build::Builder;
use wiring::Operator;

// The test that an operand is below the least number of a type. Below 0 are the numbers whose sign is 1.
#[tactic(auto, using(crate::proofs::Carried::later))]
fn below_test(b: &mut Builder, x: Operand, ty: Ty) -> Result<Signal, OutOfMemory>
    requires operand { HasOperand b.old x ty }
    requires deeper { below ty < below x.ty }
    ensures { MakesWord b.old b.new result 2 (x.bits ∷ []) 1
        (λ nets. bit (int_lt (worth nets x) (least_of ty))) }
{
    let width = x.ty.width();
    let least = below(ty);
    if least == 0 {
        let sign = part(b, width, x.bits, width - 1, 1)?;
        return Ok(sign);
    }
    let up = offset(b, x, x.ty)?;
    let limit = constant(width, below(x.ty) - least);
    let low = operated(b, Operator::Less, width, up, limit)?;
    Ok(low)
}

// The test that an operand is above the greatest number of a type. Its bits are compared as those of an unsigned number, where its sign is 0.
#[tactic(auto, using(crate::proofs::Carried::later))]
fn above_test(b: &mut Builder, x: Operand, ty: Ty) -> Result<Signal, OutOfMemory>
    requires operand { HasOperand b.old x ty }
    requires greater { above ty < above x.ty }
    ensures { MakesWord b.old b.new result 2 (x.bits ∷ []) 1
        (λ nets. bit (int_lt (greatest_of ty) (worth nets x))) }
{
    let most = greatest(ty);
    match x.ty {
        Ty::Unsigned(width) => {
            let high = operated(b, Operator::Less, width, constant(width, most), x.bits)?;
            Ok(high)
        }
        Ty::Signed(width) => {
            let sign = part(b, width, x.bits, width - 1, 1)?;
            let positive = complement(b, 1, sign)?;
            let high = operated(b, Operator::Less, width, constant(width, most), x.bits)?;
            let test = operated(b, Operator::And, 1, positive, high)?;
            Ok(test)
        }
    }
}

// The bits of the least number where the operand is below it.
#[tactic(auto, using(crate::proofs::Carried::later))]
fn raised(b: &mut Builder, x: Operand, ty: Ty, bits: Signal) -> Result<Signal, OutOfMemory>
    requires operand { HasOperand b.old x ty }
    requires bits { HasWidth b.old bits (width_of ty) }
    ensures { MakesWord b.old b.new result 3 (x.bits ∷ (bits ∷ [])) (width_of ty)
        (λ nets. if int_lt (worth nets x) (least_of ty) then below ty else bits_of nets bits) }
{
    let (deep, least) = (below(x.ty), below(ty));
    if deep <= least {
        return Ok(bits);
    }
    let low = below_test(b, x, ty)?;
    let atom = choose(b, ty.width(), low, constant(ty.width(), least), bits)?;
    Ok(atom)
}

// The bits of the greatest number where the operand is above it.
#[tactic(auto, using(crate::proofs::Carried::later))]
fn lowered(b: &mut Builder, x: Operand, ty: Ty, bits: Signal) -> Result<Signal, OutOfMemory>
    requires operand { HasOperand b.old x ty }
    requires bits { HasWidth b.old bits (width_of ty) }
    ensures { MatchResult result (IsWordLimited b.old b.new x.bits bits (width_of ty)
        (λ nets. if int_lt (greatest_of ty) (worth nets x) then above ty - 1 else bits_of nets bits))
        (λ e. Grows b.old b.new) }
{
    let (most, greatest) = (greatest(x.ty), greatest(ty));
    if most <= greatest {
        return Ok(bits);
    }
    let high = above_test(b, x, ty)?;
    let atom = choose(b, ty.width(), high, constant(ty.width(), greatest), bits)?;
    Ok(atom)
}

/// The number of a type's range that is nearest to the operand's.
#[tactic(auto, using(crate::proofs::Carried::later))]
pub fn saturated(b: &mut Builder, x: Operand, ty: Ty) -> Result<Operand, OutOfMemory>
    requires { HasOperand b.old x ty }
    ensures { MakesOperand b.old b.new result 4 (x.bits ∷ []) ty
        (λ nets. saturate ty (worth nets x)) }
{
    let width = ty.width();
    let bits = resized(b, x, width)?;
    let low = raised(b, x, ty, bits)?;
    let atom = lowered(b, x, ty, low)?;
    Ok(Operand { bits: atom, ty })
}
