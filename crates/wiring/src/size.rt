// Sizes of nets and arrays, and numbers with a size.
ghost use Rattle.std.specs.Prelude.{◌≡◌, ◌≤◌, ◌^◌};
ghost use Rattle.wiring.specs.declared.TheConstants.{MOST_BITS};

use crate::{MOST_BITS, MOST_WORDS};
use std::marker::Model;

/// A width in bits, 1 to `MOST_BITS`.
#[derive(Clone, Copy, Debug, PartialEq, Eq, Hash)]
pub struct Width {
    bits: u8,
}

impl Model for Width {
    ghost use Rattle.std.specs.Prelude.{ℕ};
    ghost use Rattle.wiring.specs.Sizes.{IsWidth};

    ghost Value = { ℕ };

    ghost view = { λ w. w.bits };

    ghost invariant = { λ w. IsWidth w.bits };

    ghost inverse = { λ n. record { bits = n } };
}

/// A number of words, 1 to `MOST_WORDS`.
#[derive(Clone, Copy, Debug, PartialEq, Eq, Hash)]
pub struct Depth {
    words: u32,
}

impl Model for Depth {
    ghost use Rattle.std.specs.Prelude.{ℕ};
    ghost use Rattle.wiring.specs.Sizes.{IsDepth};

    ghost Value = { ℕ };

    ghost view = { λ d. d.words };

    ghost invariant = { λ d. IsDepth d.words };

    ghost inverse = { λ n. record { words = n } };
}

/// A number with its size in bits, which it fits.
#[derive(Clone, Copy, Debug, PartialEq, Eq, Hash)]
pub struct Constant {
    width: u8,
    value: u64,
}

impl Model for Constant {
    ghost use Rattle.wiring.specs.Sizes.{SizedNumber, IsConstant};

    ghost Value = { SizedNumber };

    ghost view = { λ c. record { width = c.width; value = c.value } };

    ghost invariant = { λ c. IsConstant (record { width = c.width; value = c.value }) };

    ghost inverse = { λ n. record { width = n.width; value = n.value } };
}

impl Width {
    ghost use Rattle.std.specs.Prelude.{◌≡◌, ◌↔◌, IsSome, IfSome};
    ghost use Rattle.wiring.specs.Sizes.{IsWidth};

    /// The width of this many bits, or None where there is none.
    pub fn checked(bits: u8) -> Option<Width>
        ensures made { IsSome result ↔ IsWidth bits }
        ensures bits { IfSome result (λ w. w ≡ bits) }
    {
        if 1 <= bits && bits <= MOST_BITS {
            Some(Width { bits })
        } else {
            None
        }
    }

    /// The width of this many bits.
    pub fn new(bits: u8) -> Width
        requires { IsWidth bits }
        ensures { result ≡ bits }
    {
        Width { bits }
    }

    /// The number of bits.
    pub fn bits(self) -> u8
        ensures bits { result ≡ self }
        ensures width { IsWidth self }
    {
        self.bits
    }
}

impl Depth {
    ghost use Rattle.std.specs.Prelude.{◌≡◌, ◌↔◌, IsSome, IfSome};
    ghost use Rattle.wiring.specs.Sizes.{IsDepth};

    /// The depth of this many words, or None where there is none.
    pub fn checked(words: u32) -> Option<Depth>
        ensures made { IsSome result ↔ IsDepth words }
        ensures words { IfSome result (λ d. d ≡ words) }
    {
        if 1 <= words && words <= MOST_WORDS {
            Some(Depth { words })
        } else {
            None
        }
    }

    /// The depth of this many words.
    pub fn new(words: u32) -> Depth
        requires { IsDepth words }
        ensures { result ≡ words }
    {
        Depth { words }
    }

    /// The number of words.
    pub fn words(self) -> u32
        ensures words { result ≡ self }
        ensures depth { IsDepth self }
    {
        self.words
    }
}

fn power(width: u8) -> u128
    requires { width ≤ MOST_BITS }
    ensures { result ≡ 2 ^ width }
{
    1 << width
}

impl Constant {
    ghost use Rattle.std.specs.Prelude.{◌≡◌, ◌↔◌, IsSome, IfSome};
    ghost use Rattle.wiring.specs.Sizes.{IsConstant};

    /// The number of this size, or None where it does not fit.
    pub fn checked(width: Width, value: u64) -> Option<Constant>
        ensures made { IsSome result ↔ IsConstant (record { width = width; value = value }) }
        ensures constant { IfSome result (λ c. c ≡ record { width = width; value = value }) }
    {
        let width = width.bits();
        if (value as u128) < power(width) {
            Some(Constant { width, value })
        } else {
            None
        }
    }

    /// The number of this size.
    pub fn new(width: Width, value: u64) -> Constant
        requires { IsConstant (record { width = width; value = value }) }
        ensures { result ≡ record { width = width; value = value } }
    {
        Constant {
            width: width.bits(),
            value,
        }
    }

    /// The size in bits.
    pub fn width(self) -> u8
        ensures width { result ≡ self.width }
        ensures constant { IsConstant self }
    {
        self.width
    }

    /// The number.
    pub fn value(self) -> u64
        ensures value { result ≡ self.value }
        ensures constant { IsConstant self }
    {
        self.value
    }
}
