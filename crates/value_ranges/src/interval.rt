// Intervals of whole numbers.

ghost use Rattle.std.specs.Prelude.{◌≡◌, ℤ, ◌↔◌, IsTrue, MatchOption};
ghost use Rattle.dk_base.specs.Types.{IsType, IsIn};
ghost use Rattle.value_ranges.specs.Intervals.{IsBetween, IsHeldBy, IsLeastType, HasNoType};
ghost use Rattle.value_ranges.specs.Ranges.{only, type_range, join as joined, meet as common, has_all};

use dk_base::{Ty, bits_for};

/// The values from `least` to `greatest`.
#[derive(Clone, Copy, Debug, PartialEq, Eq)]
pub struct Interval {
    pub least: i128,
    pub greatest: i128,
}

impl Interval {
    /// The values of a type.
    pub fn of_type(ty: Ty) -> Interval
        requires { IsType ty }
        ensures exact { result ≡ type_range ty }
        ensures values { (v : ℤ) → IsBetween result v ↔ IsIn ty v }
    {
        Interval {
            least: ty.least(),
            greatest: ty.greatest(),
        }
    }

    /// One value.
    pub fn of_value(value: i128) -> Interval
        ensures exact { result ≡ only value }
        ensures values { (v : ℤ) → IsBetween result v ↔ (v ≡ value) }
    {
        Interval {
            least: value,
            greatest: value,
        }
    }

    /// Whether each value is one of the type.
    pub fn is_within(self, ty: Ty) -> bool
        requires { IsType ty }
        ensures exact { result ≡ has_all ty self }
        ensures yes { IsTrue result → IsHeldBy self ty }
        ensures no { IsHeldBy self ty → IsTrue result }
    {
        if self.greatest < self.least {
            return true;
        }
        ty.least() <= self.least && self.greatest <= ty.greatest()
    }

    /// From the lesser of both least values to the greater of both greatest ones.
    pub fn join(self, other: Interval) -> Interval
        ensures exact { result ≡ joined self other }
        ensures this { (v : ℤ) → IsBetween self v → IsBetween result v }
        ensures other { (v : ℤ) → IsBetween other v → IsBetween result v }
    {
        Interval {
            least: self.least.min(other.least),
            greatest: self.greatest.max(other.greatest),
        }
    }

    /// The values that are in both.
    pub fn meet(self, other: Interval) -> Interval
        ensures exact { result ≡ common self other }
        ensures this { (v : ℤ) → IsBetween result v → IsBetween self v }
        ensures other { (v : ℤ) → IsBetween result v → IsBetween other v }
        ensures both { (v : ℤ) → IsBetween self v → IsBetween other v → IsBetween result v }
    {
        Interval {
            least: self.least.max(other.least),
            greatest: self.greatest.min(other.greatest),
        }
    }
}
