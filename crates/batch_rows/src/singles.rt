// Rows from one row, and from three, clock by clock.

ghost use Rattle.std.specs.Prelude.{◌≡◌, ℕ, ◌+◌, ◌-◌, ◌*◌, ◌/◌, ◌%◌, ◌^◌, ◌<◌, ◌≤◌, length, map, slice_index, bit_and, if◌then◌else◌, ◌==◌};
ghost use Rattle.wiring.specs.Rights.{repeated};
ghost use Rattle.batch_rows.specs.Rows.{number_in, IsWritten, IsSingleOf};

use lane_rows::Lane;
use wiring::limit;

// What is made of one number in a clock.
pub(crate) trait Single<L: Lane> {
    ghost value: { Self → ℕ → ℕ };

    fn of(&self, a: L) -> L
        ensures { L.value result ≡ value self.now (L.value a) };
}

pub(crate) fn single_row<L: Lane, S: Single<L>>(single: &S, to: &mut [L], a: &[L])
    requires { length a.now ≡ length to.old }
    ensures { IsSingleOf L.value (S.value single.now) to.old to.new a.now }
{
    for t in 0..to.len() {
        to[t] = single.of(a[t]);
    }
}

// The number itself.
#[derive(Clone, Copy)]
pub(crate) struct Whole;

impl<L: Lane> Single<L> for Whole {
    ghost value = { λ _ a. a };

    fn of(&self, a: L) -> L {
        a
    }
}

// All bits of a mask turned.
#[derive(Clone, Copy)]
pub(crate) struct Turned<L> {
    pub(crate) mask: L,
}

impl<L: Lane> Single<L> for Turned<L> {
    ghost value = { λ s a. L.value s.mask - a };

    fn of(&self, a: L) -> L {
        self.mask.excess(a)
    }
}

// The bits of a mask, from a place on.
#[derive(Clone, Copy)]
pub(crate) struct MaskedBits<L> {
    pub(crate) from: u8,
    pub(crate) mask: L,
}

impl<L: Lane> Single<L> for MaskedBits<L> {
    ghost value = { λ s a. bit_and (a / 2 ^ (s.from % L.bits)) (L.value s.mask) };

    fn of(&self, a: L) -> L {
        a.down(self.from).both(self.mask)
    }
}

// This many times a number.
#[derive(Clone, Copy)]
pub(crate) struct Multiplied<L> {
    pub(crate) factor: L,
}

impl<L: Lane> Single<L> for Multiplied<L> {
    ghost value = { λ s a. a * L.value s.factor % 2 ^ L.bits };

    fn of(&self, a: L) -> L {
        a.product(self.factor)
    }
}

// A number that has room in a lane.
#[tactic(auto, using(crate::proofs::Masks::whole_is))]
pub(crate) fn lane_of<L: Lane>(number: u64) -> L
    requires fits { number < 2 ^ L.bits }
    ensures { L.value result ≡ number }
{
    L::cut(number)
}

// All bits of a width.
#[tactic(auto, using(crate::proofs::Masks::mask_fits))]
pub(crate) fn mask_of<L: Lane>(width: u8) -> L
    requires narrow { width ≤ L.bits }
    ensures { L.value result ≡ 2 ^ width - 1 }
{
    let _bits = L::bits();
    let mask = (limit(width) - 1) as u64;
    lane_of(mask)
}

// One number above the other, as often as there are copies.
#[tactic(auto, using(crate::proofs::Masks::factor_none, crate::proofs::Masks::factor_on))]
fn factor(copies: u8, width: u8) -> u64
    requires narrow { width ≤ 64 }
    ensures { result ≡ repeated copies width 1 % 2 ^ 64 }
{
    let mut all: u64 = 0;
    for _number in 0..copies {
        all = one_above(all, width);
    }
    all
}

#[tactic(auto, using(crate::proofs::Masks::shifted_is, crate::proofs::Masks::shifted_out))]
fn one_above(all: u64, width: u8) -> u64
    requires narrow { width ≤ 64 }
    ensures { result ≡ (all * 2 ^ width + 1) % 2 ^ 64 }
{
    if width < 64 {
        (all << width).wrapping_add(1)
    } else {
        1
    }
}

// Copies of a row of some bits, one above the other.
#[tactic(auto, using(crate::proofs::Masks::copies_are))]
pub(crate) fn repeat_row<L: Lane>(copies: u8, width: u8, to: &mut [L], a: &[L])
    requires narrow { width ≤ 64 }
    requires a { length a.now ≡ length to.old }
    requires fits { (t : ℕ) → t < length to.old → repeated copies width (number_in L.value a.now t) < 2 ^ L.bits }
    ensures { IsSingleOf L.value (repeated copies width) to.old to.new a.now }
{
    let _bits = L::bits();
    let factor = L::cut(factor(copies, width));
    single_row(&Multiplied { factor }, to, a);
}

// At each clock the same number.
pub(crate) fn constant_row<L: Lane>(to: &mut [L], number: L)
    ensures { IsWritten L.value to.old to.new (λ _. L.value number) }
{
    for t in 0..to.len() {
        to[t] = number;
    }
}
