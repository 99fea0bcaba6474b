// Absolute values, and quotients rounded toward zero.

ghost use Rattle.std.specs.Prelude.{◌≡◌, ◌+◌, ◌-◌, ◌%◌, ◌^◌, ◌<◌, ◌≤◌, pos, int_div, unsigned_abs, nat_eq, if◌then◌else◌, false, MatchOption, ◌∷◌, []};
ghost use Rattle.dk_base.specs.Types.{magnitude_type};
ghost use Rattle.dk_base.specs.declared.ty.Ty.TheVariants.{Signed};
ghost use Rattle.datapath.specs.Nets.{AreChosen, MakesWord, bits_of};
ghost use Rattle.datapath.specs.Operands.{IsOfType, IsOperand, MakesOperand, worth};
ghost use Rattle.datapath.specs.Levels.{is_power, quotient_levels};

use crate::constants::constant;
use crate::ends::greatest;
use crate::operand::{Operand, Signal};
use crate::shifts::shift_right;
use crate::words::{choose, operated, part, repeat, with_zeros};
use dk_base::{OutOfMemory, Ty};
use net_build::Builder;
use wiring::Operator;

// An atom of `width` bits, or what is missing to 2 to the `width` where the sign is 1.
#[tactic(auto, using(crate::proofs::Carried::later))]
fn turned(b: &mut Builder, width: u8, sign: Signal, x: Signal) -> Result<Signal, OutOfMemory>
    requires { AreChosen b.old width sign x x }
    ensures { MakesWord b.old b.new result 2 (sign ∷ (x ∷ [])) width
        (λ nets. if nat_eq (bits_of nets sign) 1 then (0 + 2 ^ width - bits_of nets x) % 2 ^ width
        else bits_of nets x) }
{
    let negative = operated(b, Operator::Subtract, width, constant(width, 0), x)?;
    let atom = choose(b, width, sign, negative, x)?;
    Ok(atom)
}

// The absolute value of a signed operand.
#[tactic(auto, using(crate::proofs::Carried::later))]
fn signed_magnitude(b: &mut Builder, width: u8, x: Operand) -> Result<Operand, OutOfMemory>
    requires { IsOfType b.old x (Signed width) }
    ensures { MakesOperand b.old b.new result 2 (x.bits ∷ []) (Ty.Unsigned width)
        (λ nets. pos (unsigned_abs (worth nets x))) }
{
    let sign = part(b, width, x.bits, width - 1, 1)?;
    let atom = turned(b, width, sign, x.bits)?;
    Ok(Operand {
        bits: atom,
        ty: Ty::Unsigned(width),
    })
}

// The quotient of an operand that is not negative.
#[tactic(auto, using(crate::proofs::Carried::later))]
fn unsigned_quotient(
    b: &mut Builder,
    width: u8,
    x: Operand,
    by: u64,
) -> Result<Operand, OutOfMemory>
    requires operand { IsOfType b.old x (Ty.Unsigned width) }
    requires by { 0 < by }
    ensures { MakesOperand b.old b.new result 1 (x.bits ∷ []) (Ty.Unsigned width)
        (λ nets. int_div (worth nets x) (pos by)) }
{
    let ty = Ty::Unsigned(width);
    if by > greatest(ty) {
        return Ok(Operand {
            bits: constant(width, 0),
            ty,
        });
    }
    let atom = operated(b, Operator::Divide, width, x.bits, constant(width, by))?;
    Ok(Operand { bits: atom, ty })
}

// The power of two that a number is, if it is one.
fn power_of(by: u64) -> Option<u8>
    ensures { MatchOption result (is_power by ≡ false) (λ k. by ≡ 2 ^ k) }
{
    let k = by.trailing_zeros();
    if k < 64 && 1u64 << k == by {
        return Some(k as u8);
    }
    None
}

// The quotient of a signed operand by a power of two, rounded toward zero. To a negative number what a shift would round down is added first.
#[tactic(auto, using(crate::proofs::Carried::later))]
fn shifted_toward_zero(
    b: &mut Builder,
    width: u8,
    x: Operand,
    by: u8,
) -> Result<Operand, OutOfMemory>
    requires operand { IsOfType b.old x (Signed width) }
    requires by { (1 ≤ by) × (by < width) }
    ensures { MakesOperand b.old b.new result 1 (x.bits ∷ []) x.ty
        (λ nets. int_div (worth nets x) (pos (2 ^ by))) }
{
    let sign = part(b, width, x.bits, width - 1, 1)?;
    let ones = repeat(b, by, sign)?;
    let missing = with_zeros(b, width - by, by, ones)?;
    let bits = operated(b, Operator::Add, width, x.bits, missing)?;
    let raised = Operand { bits, ty: x.ty };
    let quotient = shift_right(b, raised, by)?;
    Ok(quotient)
}

// The quotient of a signed operand by any number: that of the absolute values, with the sign.
#[tactic(auto, using(crate::proofs::Carried::later))]
fn turned_quotient(b: &mut Builder, width: u8, x: Operand, by: u64) -> Result<Operand, OutOfMemory>
    requires operand { IsOfType b.old x (Signed width) }
    requires by { 0 < by }
    ensures { MakesOperand b.old b.new result 5 (x.bits ∷ []) x.ty
        (λ nets. int_div (worth nets x) (pos by)) }
{
    let size = signed_magnitude(b, width, x)?;
    let q = unsigned_quotient(b, width, size, by)?;
    let sign = part(b, width, x.bits, width - 1, 1)?;
    let atom = turned(b, width, sign, q.bits)?;
    Ok(Operand {
        bits: atom,
        ty: x.ty,
    })
}

// The quotient of a signed operand by a power of two: 0 if no number of its width is so far from 0.
#[tactic(auto, using(crate::proofs::Carried::later))]
fn power_quotient(b: &mut Builder, width: u8, x: Operand, by: u8) -> Result<Operand, OutOfMemory>
    requires { IsOfType b.old x (Signed width) }
    ensures { MakesOperand b.old b.new result 1 (x.bits ∷ []) x.ty
        (λ nets. int_div (worth nets x) (pos (2 ^ by))) }
{
    if by == 0 {
        return Ok(x);
    }
    if by >= width {
        return Ok(Operand {
            bits: constant(width, 0),
            ty: x.ty,
        });
    }
    let quotient = shifted_toward_zero(b, width, x, by)?;
    Ok(quotient)
}

// The quotient of a signed operand.
#[tactic(auto, using(crate::proofs::Carried::later))]
fn signed_quotient(b: &mut Builder, width: u8, x: Operand, by: u64) -> Result<Operand, OutOfMemory>
    requires operand { IsOfType b.old x (Signed width) }
    requires by { 0 < by }
    ensures { MakesOperand b.old b.new result (quotient_levels by) (x.bits ∷ []) x.ty
        (λ nets. int_div (worth nets x) (pos by)) }
{
    match power_of(by) {
        Some(k) => {
            let q = power_quotient(b, width, x, k)?;
            Ok(q)
        }
        None => {
            let q = turned_quotient(b, width, x, by)?;
            Ok(q)
        }
    }
}

/// An operand's number divided by a constant, rounded toward zero.
#[tactic(auto, using(crate::proofs::Carried::later))]
pub fn quotient(b: &mut Builder, x: Operand, by: u64) -> Result<Operand, OutOfMemory>
    requires x { IsOperand b.old x }
    requires by { 0 < by }
    ensures { MakesOperand b.old b.new result (quotient_levels by) (x.bits ∷ []) x.ty
        (λ nets. int_div (worth nets x) (pos by)) }
{
    match x.ty {
        Ty::Unsigned(width) => {
            let q = unsigned_quotient(b, width, x, by)?;
            Ok(q)
        }
        Ty::Signed(width) => {
            let q = signed_quotient(b, width, x, by)?;
            Ok(q)
        }
    }
}

/// An operand's absolute value.
#[tactic(auto, using(crate::proofs::Carried::later))]
pub fn magnitude(b: &mut Builder, x: Operand) -> Result<Operand, OutOfMemory>
    requires { IsOperand b.old x }
    ensures { MakesOperand b.old b.new result 2 (x.bits ∷ []) (magnitude_type x.ty)
        (λ nets. pos (unsigned_abs (worth nets x))) }
{
    match x.ty {
        Ty::Unsigned(_) => Ok(x),
        Ty::Signed(width) => {
            let size = signed_magnitude(b, width, x)?;
            Ok(size)
        }
    }
}
