// The type of fewest bits that holds an interval.

ghost use Rattle.std.specs.Prelude.{◌≡◌, ◌≤◌, ◌<◌, ℤ, pos, ◌≤ℤ◌, ◌<ℤ◌, MatchOption};
ghost use Rattle.value_ranges.specs.Intervals.{IsLeastType, HasNoType};

use crate::interval::Interval;
use dk_base::{Ty, bits_for};

// The type of an interval whose values are not below 0.
fn unsigned_type(range: Interval) -> Option<Ty>
    requires some { range.least ≤ℤ range.greatest }
    requires unsigned { pos 0 ≤ℤ range.least }
    ensures { MatchOption result (HasNoType range) (IsLeastType range) }
{
    let greatest = range.greatest;
    if i128::from(u64::MAX) < greatest {
        return None;
    }
    Some(Ty::Unsigned(bits_for(greatest as u64)))
}

// The type of an interval that has values below 0: one more bit than the number that is furthest from them has.
fn signed_type(range: Interval) -> Option<Ty>
    requires some { range.least ≤ℤ range.greatest }
    requires signed { range.least <ℤ pos 0 }
    ensures { MatchOption result (HasNoType range) (IsLeastType range) }
{
    let reach = range.greatest.max(-1 - range.least);
    if i128::from(i64::MAX) < reach {
        return None;
    }
    Some(Ty::Signed(bits_for(2 * reach as u64 + 1)))
}

impl Interval {
    /// The type of fewest bits that has all the values, an unsigned one where none is below 0. None where they need more than 64 bits.
    #[tactic(auto, using(crate::proofs::Fewest::none_least))]
    pub fn least_type(self) -> Option<Ty>
        ensures { MatchOption result (HasNoType self) (IsLeastType self) }
    {
        if self.greatest < self.least {
            return Some(Ty::Unsigned(1));
        }
        if 0 <= self.least {
            unsigned_type(self)
        } else {
            signed_type(self)
        }
    }
}
