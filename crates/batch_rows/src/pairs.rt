// Rows from two rows, clock by clock.

ghost use Rattle.std.specs.Prelude.{◌≡◌, ℕ, ◌+◌, ◌-◌, ◌*◌, ◌/◌, ◌%◌, ◌^◌, ◌<◌, ◌≤◌, length, map, slice_index, bit_and, bit_or, bit_xor, if◌then◌else◌, ◌==◌, nat_lt, IfSome};
ghost use Rattle.wiring.specs.Rights.{operator_value};
ghost use Rattle.batch_rows.specs.Rows.{number_in, IsSingleOf, IsPairOf, CanJoin, AreTwoRows};

use crate::singles::{Single, Whole, mask_of, single_row};
use lane_rows::Lane;
use wiring::Operator;

// What is made of two numbers in a clock.
trait Pair<L: Lane> {
    ghost value: { Self → ℕ → ℕ → ℕ };

    fn of(&self, a: L, b: L) -> L
        ensures { L.value result ≡ value self.now (L.value a) (L.value b) };
}

fn pair_row<L: Lane, P: Pair<L>>(pair: &P, to: &mut [L], a: &[L], b: &[L])
    requires { AreTwoRows (length to.old) a.now b.now }
    ensures { IsPairOf L.value (P.value pair.now) to.old to.new a.now b.now }
{
    for t in 0..to.len() {
        to[t] = pair.of(a[t], b[t]);
    }
}

#[derive(Clone, Copy)]
struct Sum<L> {
    mask: L,
}

impl<L: Lane> Pair<L> for Sum<L> {
    ghost value = { λ s a b. bit_and ((a + b) % 2 ^ L.bits) (L.value s.mask) };

    fn of(&self, a: L, b: L) -> L {
        a.sum(b).both(self.mask)
    }
}

#[derive(Clone, Copy)]
struct Difference<L> {
    mask: L,
}

impl<L: Lane> Pair<L> for Difference<L> {
    ghost value = { λ s a b. if nat_lt (L.value s.mask) (b - a) then 0 else bit_and ((a + 2 ^ L.bits - b) % 2 ^ L.bits) (L.value s.mask) };

    fn of(&self, a: L, b: L) -> L {
        if self.mask.is_below(b.excess(a)) {
            L::bit(false)
        } else {
            a.difference(b).both(self.mask)
        }
    }
}

#[derive(Clone, Copy)]
struct Product<L> {
    mask: L,
}

impl<L: Lane> Pair<L> for Product<L> {
    ghost value = { λ s a b. bit_and (a * b % 2 ^ L.bits) (L.value s.mask) };

    fn of(&self, a: L, b: L) -> L {
        a.product(b).both(self.mask)
    }
}

#[derive(Clone, Copy)]
struct Quotient;

impl<L: Lane> Pair<L> for Quotient {
    ghost value = { λ _ a b. a / b };

    fn of(&self, a: L, b: L) -> L {
        a.quotient(b)
    }
}

#[derive(Clone, Copy)]
struct Below;

impl<L: Lane> Pair<L> for Below {
    ghost value = { λ _ a b. if nat_lt a b then 1 else 0 };

    fn of(&self, a: L, b: L) -> L {
        L::bit(a.is_below(b))
    }
}

#[derive(Clone, Copy)]
struct Same;

impl<L: Lane> Pair<L> for Same {
    ghost value = { λ _ a b. if a == b then 1 else 0 };

    fn of(&self, a: L, b: L) -> L {
        L::bit(a.is_same(b))
    }
}

#[derive(Clone, Copy)]
struct Both;

impl<L: Lane> Pair<L> for Both {
    ghost value = { λ _ a b. bit_and a b };

    fn of(&self, a: L, b: L) -> L {
        a.both(b)
    }
}

#[derive(Clone, Copy)]
struct Either;

impl<L: Lane> Pair<L> for Either {
    ghost value = { λ _ a b. bit_or a b };

    fn of(&self, a: L, b: L) -> L {
        a.either(b)
    }
}

#[derive(Clone, Copy)]
struct Apart;

impl<L: Lane> Pair<L> for Apart {
    ghost value = { λ _ a b. bit_xor a b };

    fn of(&self, a: L, b: L) -> L {
        a.apart(b)
    }
}

#[derive(Clone, Copy)]
struct Above {
    width: u8,
}

impl<L: Lane> Pair<L> for Above {
    ghost value = { λ s a b. (a * 2 ^ (s.width % L.bits) % 2 ^ L.bits + b) % 2 ^ L.bits };

    fn of(&self, a: L, b: L) -> L {
        a.up(self.width).sum(b)
    }
}

#[derive(Clone, Copy)]
struct Second;

impl<L: Lane> Pair<L> for Second {
    ghost value = { λ _ _ b. b };

    fn of(&self, _a: L, b: L) -> L {
        b
    }
}

// A number above one of some bits, fewer than a lane has.
#[derive(Clone, Copy)]
struct Under<L> {
    number: L,
    width: u8,
}

impl<L: Lane> Single<L> for Under<L> {
    ghost value = { λ s b. (L.value s.number * 2 ^ (s.width % L.bits) % 2 ^ L.bits + b) % 2 ^ L.bits };

    fn of(&self, b: L) -> L {
        self.number.up(self.width).sum(b)
    }
}

// A pair whose second number is the same in all clocks.
#[derive(Clone, Copy)]
struct With<P, L> {
    pair: P,
    second: L,
}

impl<L: Lane, P: Pair<L> + Copy> Single<L> for With<P, L> {
    ghost value = { λ s a. P.value s.pair a (L.value s.second) };

    fn of(&self, a: L) -> L {
        self.pair.of(a, self.second)
    }
}

// A row with a number, clock by clock.
fn with_number<L: Lane, P: Pair<L> + Copy>(pair: P, second: L, to: &mut [L], a: &[L])
    requires { length a.now ≡ length to.old }
    ensures { IsSingleOf L.value (λ x. P.value pair x (L.value second)) to.old to.new a.now }
{
    single_row(&With { pair, second }, to, a);
}

// A row above another one of some bits.
#[tactic(auto, using(crate::proofs::Masks::above_is, crate::proofs::Masks::alone_is))]
pub fn join_row<L: Lane>(width: u8, to: &mut [L], a: &[L], b: &[L])
    requires rows { AreTwoRows (length to.old) a.now b.now }
    requires can { CanJoin L.bits width (length to.old) (number_in L.value a.now) (number_in L.value b.now) }
    ensures { IsPairOf L.value (λ x y. x * 2 ^ width + y) to.old to.new a.now b.now }
{
    if width < L::bits() {
        pair_row(&Above { width }, to, a, b);
    } else {
        pair_row(&Second, to, a, b);
    }
}

// A number above each one of a row of some bits.
#[tactic(auto, using(crate::proofs::Masks::above_is, crate::proofs::Masks::alone_is))]
pub(crate) fn join_number_row<L: Lane>(width: u8, to: &mut [L], number: L, b: &[L])
    requires b { length b.now ≡ length to.old }
    requires can { CanJoin L.bits width (length to.old) (λ _. L.value number) (number_in L.value b.now) }
    ensures { IsSingleOf L.value (λ y. L.value number * 2 ^ width + y) to.old to.new b.now }
{
    if width < L::bits() {
        single_row(&Under { number, width }, to, b);
    } else {
        single_row(&Whole, to, b);
    }
}

// A quotient by a power of two, as a shift, of which LLVM makes vector code, as it does not of a division.
#[derive(Clone, Copy)]
struct Shifted {
    by: u8,
}

impl<L: Lane> Single<L> for Shifted {
    ghost value = { λ s a. a / 2 ^ (s.by % L.bits) };

    fn of(&self, a: L) -> L {
        a.down(self.by)
    }
}

// The power of two that a number is, if it is one.
#[tactic(auto, using(crate::proofs::Masks::one_shifted))]
fn power_of(number: u64) -> Option<u8>
    ensures { IfSome result (λ k. (k < 64) × (number ≡ 2 ^ k)) }
{
    let power = number.trailing_zeros();
    if power >= 64 {
        return None;
    }
    if 1 << power == number {
        Some(power as u8)
    } else {
        None
    }
}

// A row divided by a number.
#[tactic(auto, using(crate::proofs::Masks::shifted_quotient))]
fn divide_row<L: Lane>(to: &mut [L], a: &[L], divisor: L)
    requires { length a.now ≡ length to.old }
    ensures { IsSingleOf L.value (λ x. x / L.value divisor) to.old to.new a.now }
{
    match power_of(divisor.word()) {
        Some(by) => single_row(&Shifted { by }, to, a),
        None => with_number(Quotient, divisor, to, a),
    }
}

// A row under an operator with a number.
pub(crate) fn operator_number_row<L: Lane>(
    op: Operator,
    width: u8,
    to: &mut [L],
    a: &[L],
    second: L,
)
    requires narrow { width ≤ L.bits }
    requires a { length a.now ≡ length to.old }
    ensures { IsSingleOf L.value (λ x. operator_value op width x (L.value second)) to.old to.new a.now }
{
    let mask = mask_of(width);
    match op {
        Operator::Add => with_number(Sum { mask }, second, to, a),
        Operator::Subtract => with_number(Difference { mask }, second, to, a),
        Operator::Multiply => with_number(Product { mask }, second, to, a),
        Operator::Divide => divide_row(to, a, second),
        Operator::Less => with_number(Below, second, to, a),
        Operator::Equal => with_number(Same, second, to, a),
        Operator::And => with_number(Both, second, to, a),
        Operator::Or => with_number(Either, second, to, a),
        Operator::Xor => with_number(Apart, second, to, a),
    }
}

/// A row from two rows under an operator.
pub fn operator_row<L: Lane>(op: Operator, width: u8, to: &mut [L], a: &[L], b: &[L])
    requires narrow { width ≤ L.bits }
    requires rows { AreTwoRows (length to.old) a.now b.now }
    ensures { IsPairOf L.value (operator_value op width) to.old to.new a.now b.now }
{
    let mask = mask_of(width);
    match op {
        Operator::Add => pair_row(&Sum { mask }, to, a, b),
        Operator::Subtract => pair_row(&Difference { mask }, to, a, b),
        Operator::Multiply => pair_row(&Product { mask }, to, a, b),
        Operator::Divide => pair_row(&Quotient, to, a, b),
        Operator::Less => pair_row(&Below, to, a, b),
        Operator::Equal => pair_row(&Same, to, a, b),
        Operator::And => pair_row(&Both, to, a, b),
        Operator::Or => pair_row(&Either, to, a, b),
        Operator::Xor => pair_row(&Apart, to, a, b),
    }
}
