// Operators of one operand over rows.

ghost use Rattle.std.specs.Prelude.{◌≡◌, ℕ, ℤ, ◌^◌, ◌-◌, ◌<◌, ◌≤◌, ◌*ℤ◌, pos, length, map};
ghost use Rattle.std.specs.Int.{int_min, int_max};
ghost use Rattle.dk_base.specs.Types.{IsType, IsIn, width_of, least_of, greatest_of};
ghost use Rattle.dk_base.specs.declared.ty.Ty.TheVariants.{Unsigned, Signed};
ghost use Rattle.dk_base.specs.Numbers.{wrap as wrapped_worth, saturate as saturated_worth};
ghost use Rattle.dk_base.specs.Operators.{unary_value as unary_worth, scaling_value as scaling_worth};
ghost use Rattle.dk_base.specs.declared.operator.Scaling.TheVariants.{Divide, ShiftRight};
ghost use Rattle.pointwise_ir.specs.Operands.{TakesOne, TakesScaled};
ghost use Rattle.value_rows.specs.Rows.{entry, IsNarrow};

use crate::elements::Element;
use crate::numbers::{cut_signed, cut_unsigned, narrow, product, raised};
use dk_base::{Scaling, Ty, Unary};
use pointwise_ir::{scaling_value, unary_value};

// What is made of one value, which is one that it `takes`.
pub(crate) trait Single<L: Element> {
    ghost takes: { Self → ℤ → Type 0 };

    ghost value: { Self → ℤ → ℤ };

    fn of(&self, operand: L) -> L
        requires { takes self.now (L.worth operand) }
        ensures { L.worth result ≡ value self.now (L.worth operand) };
}

// Where an operator is known at the call, the loop has no choice in it.
#[inline(always)]
pub(crate) fn single_row<L: Element, S: Single<L>>(single: &S, to: &mut [L])
    requires { (k : ℕ) → k < length to.old → S.takes single.now (entry (map L.worth to.old) k) }
    ensures { (k : ℕ) → k < length to.old
        → entry (map L.worth to.new) k ≡ S.value single.now (entry (map L.worth to.old) k) }
{
    for k in 0..to.len() {
        to[k] = single.of(to[k]);
    }
}

// The element of a value of 128 bits.
pub(crate) fn element_of<L: Element>(value: i128) -> L
    requires { IsIn L.ty value }
    ensures { L.worth result ≡ value }
{
    let _type = L::element_type();
    L::narrow(narrow(value))
}

// An operator of one operand.
#[derive(Clone, Copy)]
pub(crate) struct Operation {
    pub(crate) op: Unary,
}

impl<L: Element> Single<L> for Operation {
    ghost takes = { λ s v. TakesOne s.op v × IsIn L.ty (unary_worth s.op v) };

    ghost value = { λ s v. unary_worth s.op v };

    fn of(&self, operand: L) -> L {
        element_of(unary_value(self.op, i128::from(operand.widen())))
    }
}

// Multiplied by a number.
#[derive(Clone, Copy)]
pub(crate) struct Times<L> {
    pub(crate) factor: L,
}

impl<L: Element> Single<L> for Times<L> {
    ghost takes = { λ s v. IsIn L.ty (v *ℤ L.worth s.factor) };

    ghost value = { λ s v. v *ℤ L.worth s.factor };

    fn of(&self, operand: L) -> L {
        element_of(product(operand.widen(), self.factor.widen()))
    }
}

// The quotient by 2 to the power `by`, rounded down.
#[derive(Clone, Copy)]
pub(crate) struct Down {
    pub(crate) by: u8,
}

impl<L: Element> Single<L> for Down {
    ghost takes = { λ s v. s.by < width_of L.ty };

    ghost value = { λ s v. scaling_worth ShiftRight v s.by };

    fn of(&self, operand: L) -> L {
        operand.down(self.by)
    }
}

// The quotient by 2 to the power `exponent`, rounded toward 0, whose mask has as many bits: a division for each value would be slower than all else.
#[derive(Clone, Copy)]
pub(crate) struct Halved<L> {
    pub(crate) exponent: u8,
    pub(crate) mask: L,
}

impl<L: Element> Single<L> for Halved<L> {
    ghost takes = { λ s v. (s.exponent < width_of L.ty) × (L.worth s.mask ≡ pos (2 ^ s.exponent - 1)) };

    ghost value = { λ s v. scaling_worth Divide v (2 ^ s.exponent) };

    fn of(&self, operand: L) -> L {
        let raised: L = L::narrow(raised(operand.widen(), self.mask.widen()));
        raised.down(self.exponent)
    }
}

// The quotient by a number above 0, rounded toward 0.
fn quotient(value: i64, by: u64) -> i64
    requires takes { TakesScaled Divide value by }
    requires narrow { IsNarrow (scaling_worth Divide value by) }
    ensures { result ≡ scaling_worth Divide value by }
{
    if by <= 9223372036854775807 {
        value / by as i64
    } else {
        narrow(scaling_value(Scaling::Divide, i128::from(value), by))
    }
}

// The value of an operator of an operand and a number that the program writes.
fn narrow_scaling(op: Scaling, value: i64, by: u64) -> i64
    requires takes { TakesScaled op value by }
    requires narrow { IsNarrow (scaling_worth op value by) }
    ensures { result ≡ scaling_worth op value by }
{
    match op {
        Scaling::Divide => quotient(value, by),
        Scaling::ShiftLeft | Scaling::ShiftRight => {
            narrow(scaling_value(op, i128::from(value), by))
        }
    }
}

// An operator of an operand and a number that the program writes, of any size.
#[derive(Clone, Copy)]
pub(crate) struct Scaled {
    pub(crate) op: Scaling,
    pub(crate) by: u64,
}

impl<L: Element> Single<L> for Scaled {
    ghost takes = { λ s v. TakesScaled s.op v s.by × IsIn L.ty (scaling_worth s.op v s.by) };

    ghost value = { λ s v. scaling_worth s.op v s.by };

    fn of(&self, operand: L) -> L {
        let _type = L::element_type();
        L::narrow(narrow_scaling(self.op, operand.widen(), self.by))
    }
}

// Cut to an unsigned type of fewer bits than the element has, by a mask.
#[derive(Clone, Copy)]
pub(crate) struct CutUnsigned<L> {
    pub(crate) width: u8,
    pub(crate) mask: L,
}

impl<L: Element> Single<L> for CutUnsigned<L> {
    ghost takes = { λ s v. (s.width ≤ 63) × (L.worth s.mask ≡ pos (2 ^ s.width - 1)) × IsIn L.ty (wrapped_worth (Unsigned s.width) v) };

    ghost value = { λ s v. wrapped_worth (Unsigned s.width) v };

    fn of(&self, operand: L) -> L {
        L::narrow(cut_unsigned(operand.widen(), self.mask.widen()))
    }
}

// Cut to a signed type of fewer bits than the element has, by a mask and half its range.
#[derive(Clone, Copy)]
pub(crate) struct CutSigned<L> {
    pub(crate) width: u8,
    pub(crate) mask: L,
    pub(crate) half: L,
}

impl<L: Element> Single<L> for CutSigned<L> {
    ghost takes = { λ s v. (1 ≤ s.width) × (s.width ≤ 63) × (L.worth s.mask ≡ pos (2 ^ s.width - 1)) × (L.worth s.half ≡ pos (2 ^ (s.width - 1))) × IsIn L.ty (wrapped_worth (Signed s.width) v) };

    ghost value = { λ s v. wrapped_worth (Signed s.width) v };

    fn of(&self, operand: L) -> L {
        L::narrow(cut_signed(operand.widen(), self.mask.widen(), self.half.widen()))
    }
}

// Brought into the range of a type, whose ends are brought into that of the element.
#[derive(Clone, Copy)]
pub(crate) struct Saturated<L> {
    pub(crate) ty: Ty,
    pub(crate) least: L,
    pub(crate) greatest: L,
}

impl<L: Element> Single<L> for Saturated<L> {
    ghost takes = { λ s v. IsType s.ty × IsIn L.ty v × (L.worth s.least ≡ int_max (least_of s.ty) (least_of L.ty)) × (L.worth s.greatest ≡ int_min (greatest_of s.ty) (greatest_of L.ty)) };

    ghost value = { λ s v. saturated_worth s.ty v };

    fn of(&self, operand: L) -> L {
        if operand.widen() < self.least.widen() {
            self.least
        } else if self.greatest.widen() < operand.widen() {
            self.greatest
        } else {
            operand
        }
    }
}
