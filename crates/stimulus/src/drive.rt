// How a module is driven.

ghost use Rattle.std.specs.Prelude.{◌≡◌, ℕ, ◌+◌, ◌<◌, IfSome};
ghost use Rattle.stimulus.specs.Stimulus.{is_held_after, clocks_left as left_at};

use cycle_sim::Fill;

/// How a module is driven: the number of clocks after the reset clock, held clocks left out; what registers and arrays hold at power-up; and after how many clocks one held clock is put in each time, if any are.
#[derive(Clone, Copy, Debug, PartialEq, Eq)]
pub struct Drive {
    pub clocks: u64,
    pub fill: Fill,
    pub hold: Option<u32>,
}

/// How many clocks, the one of this number first, end with the next one that a held clock follows; 0 if there are no held clocks.
pub fn clocks_left(hold: Option<u32>, clock: u64) -> u64
    requires { IfSome hold (λ count. 0 < count) }
    ensures { result ≡ left_at hold clock }
{
    match hold {
        None => 0,
        Some(count) => u64::from(count) - clock % u64::from(count),
    }
}

/// Whether a held clock follows, by how many clocks are left.
#[tactic(auto, using(crate::proofs::Countdown::follows_last))]
pub fn is_last(hold: Option<u32>, left: u64) -> bool
    requires { IfSome hold (λ count. 0 < count) }
    ensures { (clock : ℕ) → left ≡ left_at hold clock → result ≡ is_held_after hold clock }
{
    let _hold = hold;
    left == 1
}

/// How many clocks are left in the next one, with no division: it is called in each clock.
#[tactic(auto, using(crate::proofs::Countdown::left_first, crate::proofs::Countdown::left_later))]
pub fn next_left(hold: Option<u32>, left: u64) -> u64
    requires { IfSome hold (λ count. 0 < count) }
    ensures { (clock : ℕ) → left ≡ left_at hold clock → result ≡ left_at hold (clock + 1) }
{
    match hold {
        None => 0,
        Some(count) => {
            if left <= 1 {
                u64::from(count)
            } else {
                left - 1
            }
        }
    }
}
