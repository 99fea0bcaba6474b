// The net of an operator.

ghost use Rattle.std.specs.Prelude.{pos, nat_eq, if◌then◌else◌, ◌∷◌, []};
ghost use Rattle.wiring.specs.Snapshot.{net_value};
ghost use Rattle.dk_base.specs.Operators.{unary_value, binary_result, binary_value, scaling_value, conversion_value};
ghost use Rattle.datapath.specs.declared.operand.Signal.TheVariants as signal;
ghost use Rattle.datapath.specs.Nets.{HasWidth};
ghost use Rattle.datapath.specs.Operands.{HasOperand, IsOperand, MakesOperand, worth};
ghost use Rattle.datapath.specs.Levels.{unary_levels, binary_levels, scaling_levels, conversion_levels};
ghost use Rattle.datapath.specs.Expressions.{AreArguments, IsArgument, IsScaled, unary_result, scaling_result};

use crate::arithmetic::{difference, negation, product, sum};
use crate::bits::{bit_complement, conjunction, disjunction, exclusive_or};
use crate::comparison::{
    cast, is_at_least, is_at_most, is_equal, is_less, is_unequal, maximum, minimum,
};
use crate::constants::constant;
use crate::division::{magnitude, quotient};
use crate::operand::{Operand, Signal};
use crate::saturation::saturated;
use crate::shifts::{shift_left, shift_right};
use crate::words::choose;
use dk_base::{Binary, Conversion, OutOfMemory, Scaling, Ty, Unary};
use net_build::Builder;
use wiring::Net;

/// An operator of two operands.
pub fn binary(
    b: &mut Builder,
    operator: Binary,
    x: Operand,
    y: Operand,
) -> Result<Operand, OutOfMemory>
    requires { AreArguments b.old operator x y }
    ensures { MakesOperand b.old b.new result (binary_levels operator) (x.bits ∷ (y.bits ∷ []))
        (binary_result operator x.ty y.ty) (λ s. binary_value operator (worth s x) (worth s y)) }
{
    match operator {
        Binary::Add => sum(b, x, y),
        Binary::Subtract => difference(b, x, y),
        Binary::Multiply => product(b, x, y),
        Binary::Less => is_less(b, x, y),
        Binary::LessOrEqual => is_at_most(b, x, y),
        Binary::Greater => is_less(b, y, x),
        Binary::GreaterOrEqual => is_at_least(b, x, y),
        Binary::Equal => is_equal(b, x, y),
        Binary::NotEqual => is_unequal(b, x, y),
        Binary::And => conjunction(b, x, y),
        Binary::Or => disjunction(b, x, y),
        Binary::Xor => exclusive_or(b, x, y),
        Binary::Min => minimum(b, x, y),
        Binary::Max => maximum(b, x, y),
    }
}

/// An operator of one operand.
pub fn unary(b: &mut Builder, operator: Unary, x: Operand) -> Result<Operand, OutOfMemory>
    requires { IsArgument b.old operator x }
    ensures { MakesOperand b.old b.new result (unary_levels operator) (x.bits ∷ []) (unary_result operator x.ty)
        (λ s. unary_value operator (worth s x)) }
{
    match operator {
        Unary::Negate => negation(b, x),
        Unary::Not => bit_complement(b, x),
        Unary::Abs => magnitude(b, x),
    }
}

/// An operator with a number that the program writes.
pub fn scaled(
    b: &mut Builder,
    operator: Scaling,
    x: Operand,
    by: u64,
) -> Result<Operand, OutOfMemory>
    requires { IsScaled b.old operator x by }
    ensures { MakesOperand b.old b.new result (scaling_levels operator by) (x.bits ∷ [])
        (scaling_result operator x.ty by) (λ s. scaling_value operator (worth s x) by) }
{
    match operator {
        Scaling::Divide => quotient(b, x, by),
        Scaling::ShiftLeft => shift_left(b, x, by as u8),
        Scaling::ShiftRight => shift_right(b, x, by as u8),
    }
}

/// An operand brought into the range of a type.
pub fn converted(
    b: &mut Builder,
    how: Conversion,
    x: Operand,
    ty: Ty,
) -> Result<Operand, OutOfMemory>
    requires { HasOperand b.old x ty }
    ensures { MakesOperand b.old b.new result (conversion_levels how) (x.bits ∷ []) ty
        (λ s. conversion_value how ty (worth s x)) }
{
    match how {
        Conversion::Cast => cast(b, x, ty),
        Conversion::Saturate => saturated(b, x, ty),
    }
}

/// The operand where the bit is 1, else 0.
#[tactic(auto, using(crate::proofs::Carried::later))]
pub fn gated(b: &mut Builder, bit: Net, x: Operand) -> Result<Operand, OutOfMemory>
    requires bit { HasWidth b.old (signal.Net bit) 1 }
    requires x { IsOperand b.old x }
    ensures { MakesOperand b.old b.new result 1 (signal.Net bit ∷ (x.bits ∷ [])) x.ty
        (λ s. if nat_eq (net_value s bit) 1 then worth s x else pos 0) }
{
    let width = x.ty.width();
    let nothing = constant(width, 0);
    let bits = choose(b, width, Signal::Net(bit), x.bits, nothing)?;
    Ok(Operand { bits, ty: x.ty })
}
