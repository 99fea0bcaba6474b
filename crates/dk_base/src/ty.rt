// The types of values.

ghost use Rattle.std.specs.Prelude.{◌≡◌, ◌+◌, ◌≤◌, ◌^◌, pos, IsTrue, ◌↔◌};
ghost use Rattle.dk_base.specs.declared.TheConstants.{MAX_WIDTH};
ghost use Rattle.dk_base.specs.Types.{width_of, is_signed, is_bit, common_type, sum_type, difference_type, product_type, negation_type, magnitude_type, shifted_type, narrowed_type, converts, least_of, greatest_of, IsType, IsIn};

use std::cmp::max;

/// A type of whole numbers: its kind, and its number of bits, 1 to 64 wherever a type goes in.
#[derive(Clone, Copy, Debug, PartialEq, Eq)]
pub enum Ty {
    Unsigned(u8),
    Signed(u8),
}

// 2 to the power `exponent`.
#[tactic(auto, using(std::proofs::lemmas::Nat::one_shl, std::proofs::lemmas::Nat::pow_below))]
pub(crate) fn power(exponent: u8) -> i128
    requires { exponent ≤ MAX_WIDTH }
    ensures { result ≡ pos (2 ^ exponent) }
{
    let bits: u128 = 1 << exponent;
    bits as i128
}

impl Ty {
    /// The number of bits.
    pub fn width(self) -> u8
        ensures { result ≡ width_of self }
    {
        match self {
            Ty::Unsigned(width) => width,
            Ty::Signed(width) => width,
        }
    }

    /// Whether there are numbers below 0.
    pub fn is_signed(self) -> bool
        ensures { result ≡ is_signed self }
    {
        match self {
            Ty::Unsigned(_) => false,
            Ty::Signed(_) => true,
        }
    }

    /// Whether it is the unsigned type of one bit.
    pub fn is_bit(self) -> bool
        ensures { result ≡ is_bit self }
    {
        match self {
            Ty::Unsigned(width) => width == 1,
            Ty::Signed(_) => false,
        }
    }

    /// The least number.
    pub fn least(self) -> i128
        requires { IsType self }
        ensures { result ≡ least_of self }
    {
        match self {
            Ty::Unsigned(_) => 0,
            Ty::Signed(width) => -power(width - 1),
        }
    }

    /// The greatest number.
    pub fn greatest(self) -> i128
        requires { IsType self }
        ensures { result ≡ greatest_of self }
    {
        match self {
            Ty::Unsigned(width) => power(width) - 1,
            Ty::Signed(width) => power(width - 1) - 1,
        }
    }

    /// Whether `value` is in the range.
    pub fn holds(self, value: i128) -> bool
        requires { IsType self }
        ensures { IsTrue result ↔ IsIn self value }
    {
        self.least() <= value && value <= self.greatest()
    }

    /// Whether an image declared with the type `declared` takes a body of this type: all numbers of this type are numbers of that one.
    pub fn converts_to(self, declared: Ty) -> bool
        ensures { result ≡ converts self declared }
    {
        match (self, declared) {
            (Ty::Unsigned(n), Ty::Unsigned(m)) => n <= m,
            (Ty::Unsigned(n), Ty::Signed(m)) => n < m,
            (Ty::Signed(_), Ty::Unsigned(_)) => false,
            (Ty::Signed(n), Ty::Signed(m)) => n <= m,
        }
    }

    /// The common type of two types: the wider of two of one kind; of a mixed pair, the unsigned one first becomes signed and one bit wider.
    pub fn common(self, other: Ty) -> Ty
        requires this { IsType self }
        requires other { IsType other }
        ensures { result ≡ common_type self other }
    {
        match (self, other) {
            (Ty::Unsigned(n), Ty::Unsigned(m)) => Ty::Unsigned(max(n, m)),
            (Ty::Unsigned(n), Ty::Signed(m)) => Ty::Signed(max(n + 1, m)),
            (Ty::Signed(n), Ty::Unsigned(m)) => Ty::Signed(max(n, m + 1)),
            (Ty::Signed(n), Ty::Signed(m)) => Ty::Signed(max(n, m)),
        }
    }

    /// The type of a sum, which may be too wide.
    pub fn sum(self, other: Ty) -> Ty
        requires this { IsType self }
        requires other { IsType other }
        ensures { result ≡ sum_type self other }
    {
        match (self, other) {
            (Ty::Unsigned(n), Ty::Unsigned(m)) => Ty::Unsigned(max(n, m) + 1),
            (Ty::Unsigned(n), Ty::Signed(m)) => Ty::Signed(max(n + 1, m) + 1),
            (Ty::Signed(n), Ty::Unsigned(m)) => Ty::Signed(max(n, m + 1) + 1),
            (Ty::Signed(n), Ty::Signed(m)) => Ty::Signed(max(n, m) + 1),
        }
    }

    /// The type of a difference, which may be too wide.
    pub fn difference(self, other: Ty) -> Ty
        requires this { IsType self }
        requires other { IsType other }
        ensures { result ≡ difference_type self other }
    {
        match (self, other) {
            (Ty::Unsigned(n), Ty::Unsigned(m)) => Ty::Signed(max(n, m) + 1),
            (Ty::Unsigned(n), Ty::Signed(m)) => Ty::Signed(max(n + 1, m) + 1),
            (Ty::Signed(n), Ty::Unsigned(m)) => Ty::Signed(max(n, m + 1) + 1),
            (Ty::Signed(n), Ty::Signed(m)) => Ty::Signed(max(n, m) + 1),
        }
    }

    /// The type of a product, which may be too wide.
    pub fn product(self, other: Ty) -> Ty
        requires this { IsType self }
        requires other { IsType other }
        ensures { result ≡ product_type self other }
    {
        match (self, other) {
            (Ty::Unsigned(n), Ty::Unsigned(m)) => Ty::Unsigned(n + m),
            (Ty::Unsigned(n), Ty::Signed(m)) => Ty::Signed(n + m),
            (Ty::Signed(n), Ty::Unsigned(m)) => Ty::Signed(n + m),
            (Ty::Signed(n), Ty::Signed(m)) => Ty::Signed(n + m),
        }
    }

    /// The type of a negation, which may be too wide.
    pub fn negation(self) -> Ty
        requires { IsType self }
        ensures { result ≡ negation_type self }
    {
        Ty::Signed(self.width() + 1)
    }

    /// The type of an absolute value.
    pub fn magnitude(self) -> Ty
        ensures { result ≡ magnitude_type self }
    {
        Ty::Unsigned(self.width())
    }

    /// The same kind with `by` bits more, which may be too wide.
    pub fn shifted(self, by: u8) -> Ty
        requires { width_of self + by ≤ 255 }
        ensures { result ≡ shifted_type self by }
    {
        match self {
            Ty::Unsigned(width) => Ty::Unsigned(width + by),
            Ty::Signed(width) => Ty::Signed(width + by),
        }
    }

    /// The same kind with `by` bits fewer.
    pub fn narrowed(self, by: u8) -> Ty
        requires { by ≤ width_of self }
        ensures { result ≡ narrowed_type self by }
    {
        match self {
            Ty::Unsigned(width) => Ty::Unsigned(width - by),
            Ty::Signed(width) => Ty::Signed(width - by),
        }
    }
}
