// Products with powers of two, and quotients by them.

ghost use Rattle.std.specs.Prelude.{◌^◌, ◌<◌, pos, ◌*ℤ◌, ◌∷◌, []};
ghost use Rattle.std.specs.Int.{int_div_euclid};
ghost use Rattle.dk_base.specs.Types.{width_of, shifted_type, narrowed_type};
ghost use Rattle.datapath.specs.Operands.{HasOperand, IsOperand, MakesOperand, worth};

use crate::constants::constant;
use crate::operand::Operand;
use crate::resize::resized;
use crate::words::{join, part};
use dk_base::{OutOfMemory, Ty};
use net_build::Builder;
use std::cmp::min;

/// An operand's number times 2 to the `by`.
#[tactic(auto, using(crate::proofs::Carried::later))]
pub fn shift_left(b: &mut Builder, x: Operand, by: u8) -> Result<Operand, OutOfMemory>
    requires { HasOperand b.old x (shifted_type x.ty by) }
    ensures { MakesOperand b.old b.new result 0 (x.bits ∷ []) (shifted_type x.ty by)
        (λ nets. worth nets x *ℤ pos (2 ^ by)) }
{
    if by == 0 {
        return Ok(x);
    }
    let ty = x.ty.shifted(by);
    let width = x.ty.width();
    let atom = join(b, width, x.bits, by, constant(by, 0))?;
    Ok(Operand { bits: atom, ty })
}

// The bits of an operand from bit `by` on.
#[tactic(auto, using(crate::proofs::Carried::later))]
fn high_bits(b: &mut Builder, x: Operand, by: u8) -> Result<Operand, OutOfMemory>
    requires x { IsOperand b.old x }
    requires by { by < width_of x.ty }
    ensures { MakesOperand b.old b.new result 0 (x.bits ∷ []) (narrowed_type x.ty by)
        (λ nets. int_div_euclid (worth nets x) (pos (2 ^ by))) }
{
    let ty = x.ty.narrowed(by);
    let width = x.ty.width();
    let atom = part(b, width, x.bits, by, width - by)?;
    Ok(Operand { bits: atom, ty })
}

// The same for a shift that leaves a bit.
#[tactic(auto, using(crate::proofs::Carried::later))]
fn shift_within(b: &mut Builder, x: Operand, by: u8) -> Result<Operand, OutOfMemory>
    requires x { IsOperand b.old x }
    requires by { by < width_of x.ty }
    ensures { MakesOperand b.old b.new result 0 (x.bits ∷ []) x.ty
        (λ nets. int_div_euclid (worth nets x) (pos (2 ^ by))) }
{
    let high = high_bits(b, x, by)?;
    let atom = resized(b, high, x.ty.width())?;
    Ok(Operand {
        bits: atom,
        ty: x.ty,
    })
}

/// An operand's number divided by 2 to the `by`, rounded down.
#[tactic(auto, using(crate::proofs::Carried::later))]
pub fn shift_right(b: &mut Builder, x: Operand, by: u8) -> Result<Operand, OutOfMemory>
    requires { IsOperand b.old x }
    ensures { MakesOperand b.old b.new result 0 (x.bits ∷ []) x.ty
        (λ nets. int_div_euclid (worth nets x) (pos (2 ^ by))) }
{
    match x.ty {
        Ty::Unsigned(width) => {
            if by >= width {
                return Ok(Operand {
                    bits: constant(width, 0),
                    ty: x.ty,
                });
            }
            let shifted = shift_within(b, x, by)?;
            Ok(shifted)
        }
        Ty::Signed(width) => {
            let shifted = shift_within(b, x, min(by, width - 1))?;
            Ok(shifted)
        }
    }
}
