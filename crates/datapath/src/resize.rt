// The bits of an operand's number at any width.

ghost use Rattle.std.specs.Prelude.{◌∷◌, []};
ghost use Rattle.dk_base.specs.Numbers.{code};
ghost use Rattle.wiring.specs.Rights.{operator_width, operator_value};
ghost use Rattle.datapath.specs.Nets.{MakesWord};
ghost use Rattle.datapath.specs.Operands.{AreCombined, IsResized, worth};

use crate::operand::{Operand, Signal};
use crate::words::{operated, part, with_signs, with_zeros};
use dk_base::{OutOfMemory, Ty};
use net_build::Builder;
use wiring::Operator;

// The bits of an operand's number in a width of any size.
pub fn resized(b: &mut Builder, x: Operand, width: u8) -> Result<Signal, OutOfMemory>
    requires { IsResized b.old x width }
    ensures { MakesWord b.old b.new result 0 (x.bits ∷ []) width
        (λ nets. code width (worth nets x)) }
{
    match x.ty {
        Ty::Unsigned(low) => {
            if width <= low {
                let atom = part(b, low, x.bits, 0, width)?;
                return Ok(atom);
            }
            let atom = with_zeros(b, width - low, low, x.bits)?;
            Ok(atom)
        }
        Ty::Signed(low) => {
            if width <= low {
                let atom = part(b, low, x.bits, 0, width)?;
                return Ok(atom);
            }
            let atom = with_signs(b, width - low, low, x.bits)?;
            Ok(atom)
        }
    }
}

// An operator on the bits of two operands, each in `width` bits.
pub(crate) fn combined(
    b: &mut Builder,
    operator: Operator,
    width: u8,
    x: Operand,
    y: Operand,
) -> Result<Signal, OutOfMemory>
    requires { AreCombined b.old operator width x y }
    ensures { MakesWord b.old b.new result 1 (x.bits ∷ (y.bits ∷ [])) (operator_width operator width)
        (λ s. operator_value operator width (code width (worth s x)) (code width (worth s y))) }
{
    let left = resized(b, x, width)?;
    let right = resized(b, y, width)?;
    let bits = operated(b, operator, width, left, right)?;
    Ok(bits)
}
