// Numbers of 16, 32 or 64 bits, of which rows are made.

ghost use Rattle.std.specs.Prelude.{◌≡◌, ℕ, ◌+◌, ◌-◌, ◌*◌, ◌/◌, ◌%◌, ◌^◌, ◌<◌, ◌≤◌, bit_and, bit_or, bit_xor, if◌then◌else◌, ◌==◌, nat_lt, map, IfSome, IsTrue, IsFalse};
ghost use Rattle.lane_rows.specs.Values.{row_bits, row_values};

use crate::row::Row;

/// A number of a row, of `bits` bits: 16, 32 or 64.
pub trait Lane: Copy + Default + Drop {
    ghost bits: { ℕ };

    ghost value: { Self → ℕ };

    /// How many bits it has.
    fn bits() -> u8
        ensures bits { result ≡ bits }
        ensures some { 1 ≤ bits }
        ensures most { bits ≤ 64 };

    /// A row, if it is in this lane.
    fn of_row(row: &Row) -> Option<&[Self]>
        ensures { IfSome result (λ r. map value r.now ≡ row_values row.now) };

    /// Exchanges the numbers of a row in this lane with others: whether it is in this lane.
    fn swap(row: &mut Row, numbers: &mut Vec<Self>) -> bool
        ensures bits { row_bits row.new ≡ row_bits row.old }
        ensures row { IsTrue result → row_values row.new ≡ map value numbers.old.items }
        ensures back { IsTrue result → map value numbers.new.items ≡ row_values row.old }
        ensures same { IsFalse result → row.new ≡ row.old }
        ensures numbers { IsFalse result → numbers.new.items ≡ numbers.old.items };

    /// The low bits of a word.
    fn cut(word: u64) -> Self
        ensures { value result ≡ word % 2 ^ bits };

    /// The number as a word.
    fn word(self) -> u64
        ensures value { result ≡ value self }
        ensures fits { value self < 2 ^ bits };

    fn sum(self, other: Self) -> Self
        ensures { value result ≡ (value self + value other) % 2 ^ bits };

    fn difference(self, other: Self) -> Self
        ensures { value result ≡ (value self + 2 ^ bits - value other) % 2 ^ bits };

    fn product(self, other: Self) -> Self
        ensures { value result ≡ value self * value other % 2 ^ bits };

    fn quotient(self, other: Self) -> Self
        ensures { value result ≡ value self / value other };

    /// By how much it is above another one, 0 if it is not.
    fn excess(self, other: Self) -> Self
        ensures { value result ≡ value self - value other };

    fn is_below(self, other: Self) -> bool
        ensures { result ≡ nat_lt (value self) (value other) };

    fn is_same(self, other: Self) -> bool
        ensures { result ≡ (value self == value other) };

    fn both(self, other: Self) -> Self
        ensures value { value result ≡ bit_and (value self) (value other) }
        ensures fits { value self < 2 ^ bits };

    fn either(self, other: Self) -> Self
        ensures { value result ≡ bit_or (value self) (value other) };

    fn apart(self, other: Self) -> Self
        ensures { value result ≡ bit_xor (value self) (value other) };

    /// 1 or 0.
    fn bit(is: bool) -> Self
        ensures { value result ≡ (if is then 1 else 0) };

    /// All bits, or none.
    fn mask(is: bool) -> Self
        ensures { value result ≡ (if is then 2 ^ bits - 1 else 0) };

    /// Shifted up by fewer places than there are bits.
    fn up(self, by: u8) -> Self
        ensures { value result ≡ value self * 2 ^ (by % bits) % 2 ^ bits };

    /// Shifted down by fewer places than there are bits.
    fn down(self, by: u8) -> Self
        ensures { value result ≡ value self / 2 ^ (by % bits) };
}

impl Lane for u16 {
    ghost bits = { 16 };

    ghost value = { λ x. x };

    fn bits() -> u8 {
        16
    }

    #[tactic(auto, using(crate::proofs::LaneRows::map_same))]
    fn of_row(row: &Row) -> Option<&[u16]> {
        match row {
            Row::Narrow(row) => Some(row),
            _ => None,
        }
    }

    #[tactic(auto, using(crate::proofs::LaneRows::map_same))]
    fn swap(row: &mut Row, numbers: &mut Vec<u16>) -> bool {
        match row {
            Row::Narrow(row) => {
                std::mem::swap(row, numbers);
                true
            }
            _ => false,
        }
    }

    fn cut(word: u64) -> u16 {
        (word & 65_535) as u16
    }

    fn word(self) -> u64 {
        u64::from(self)
    }

    fn sum(self, other: u16) -> u16 {
        self.wrapping_add(other)
    }

    fn difference(self, other: u16) -> u16 {
        self.wrapping_sub(other)
    }

    fn product(self, other: u16) -> u16 {
        self.wrapping_mul(other)
    }

    fn quotient(self, other: u16) -> u16 {
        if other == 0 { 0 } else { self / other }
    }

    fn excess(self, other: u16) -> u16 {
        self.saturating_sub(other)
    }

    fn is_below(self, other: u16) -> bool {
        self < other
    }

    fn is_same(self, other: u16) -> bool {
        self == other
    }

    fn both(self, other: u16) -> u16 {
        self & other
    }

    fn either(self, other: u16) -> u16 {
        self | other
    }

    fn apart(self, other: u16) -> u16 {
        self ^ other
    }

    fn bit(is: bool) -> u16 {
        u16::from(is)
    }

    fn mask(is: bool) -> u16 {
        if is { u16::MAX } else { 0 }
    }

    fn up(self, by: u8) -> u16 {
        self << (by % 16)
    }

    fn down(self, by: u8) -> u16 {
        self >> (by % 16)
    }
}

impl Lane for u32 {
    ghost bits = { 32 };

    ghost value = { λ x. x };

    fn bits() -> u8 {
        32
    }

    #[tactic(auto, using(crate::proofs::LaneRows::map_same))]
    fn of_row(row: &Row) -> Option<&[u32]> {
        match row {
            Row::Middle(row) => Some(row),
            _ => None,
        }
    }

    #[tactic(auto, using(crate::proofs::LaneRows::map_same))]
    fn swap(row: &mut Row, numbers: &mut Vec<u32>) -> bool {
        match row {
            Row::Middle(row) => {
                std::mem::swap(row, numbers);
                true
            }
            _ => false,
        }
    }

    fn cut(word: u64) -> u32 {
        (word & 4_294_967_295) as u32
    }

    fn word(self) -> u64 {
        u64::from(self)
    }

    fn sum(self, other: u32) -> u32 {
        self.wrapping_add(other)
    }

    fn difference(self, other: u32) -> u32 {
        self.wrapping_sub(other)
    }

    fn product(self, other: u32) -> u32 {
        self.wrapping_mul(other)
    }

    fn quotient(self, other: u32) -> u32 {
        if other == 0 { 0 } else { self / other }
    }

    fn excess(self, other: u32) -> u32 {
        self.saturating_sub(other)
    }

    fn is_below(self, other: u32) -> bool {
        self < other
    }

    fn is_same(self, other: u32) -> bool {
        self == other
    }

    fn both(self, other: u32) -> u32 {
        self & other
    }

    fn either(self, other: u32) -> u32 {
        self | other
    }

    fn apart(self, other: u32) -> u32 {
        self ^ other
    }

    fn bit(is: bool) -> u32 {
        u32::from(is)
    }

    fn mask(is: bool) -> u32 {
        if is { u32::MAX } else { 0 }
    }

    fn up(self, by: u8) -> u32 {
        self << (by % 32)
    }

    fn down(self, by: u8) -> u32 {
        self >> (by % 32)
    }
}

impl Lane for u64 {
    ghost bits = { 64 };

    ghost value = { λ x. x };

    fn bits() -> u8 {
        64
    }

    #[tactic(auto, using(crate::proofs::LaneRows::map_same))]
    fn of_row(row: &Row) -> Option<&[u64]> {
        match row {
            Row::Wide(row) => Some(row),
            _ => None,
        }
    }

    #[tactic(auto, using(crate::proofs::LaneRows::map_same))]
    fn swap(row: &mut Row, numbers: &mut Vec<u64>) -> bool {
        match row {
            Row::Wide(row) => {
                std::mem::swap(row, numbers);
                true
            }
            _ => false,
        }
    }

    fn cut(word: u64) -> u64 {
        word
    }

    fn word(self) -> u64 {
        self
    }

    fn sum(self, other: u64) -> u64 {
        self.wrapping_add(other)
    }

    fn difference(self, other: u64) -> u64 {
        self.wrapping_sub(other)
    }

    fn product(self, other: u64) -> u64 {
        self.wrapping_mul(other)
    }

    fn quotient(self, other: u64) -> u64 {
        if other == 0 { 0 } else { self / other }
    }

    fn excess(self, other: u64) -> u64 {
        self.saturating_sub(other)
    }

    fn is_below(self, other: u64) -> bool {
        self < other
    }

    fn is_same(self, other: u64) -> bool {
        self == other
    }

    fn both(self, other: u64) -> u64 {
        self & other
    }

    fn either(self, other: u64) -> u64 {
        self | other
    }

    fn apart(self, other: u64) -> u64 {
        self ^ other
    }

    fn bit(is: bool) -> u64 {
        u64::from(is)
    }

    fn mask(is: bool) -> u64 {
        if is { u64::MAX } else { 0 }
    }

    fn up(self, by: u8) -> u64 {
        self << (by % 64)
    }

    fn down(self, by: u8) -> u64 {
        self >> (by % 64)
    }
}
