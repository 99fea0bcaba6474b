// Rows of which each number is one of two, by a bit. The bits may be in another lane than the rest.

ghost use Rattle.std.specs.Prelude.{◌≡◌, ℕ, ◌<◌, length, map, slice_index, if◌then◌else◌, ◌==◌};
ghost use Rattle.batch_rows.specs.Rows.{number_in, choice, IsWritten, AreTwoRows, AreChoiceRows};

use lane_rows::Lane;

// One of two numbers, by a bit. By masks, of which LLVM makes vector code, as it does not of two branches.
#[tactic(auto, using(crate::proofs::Masks::chosen_is))]
fn chosen<L: Lane, B: Lane>(bit: B, on: L, off: L) -> L
    ensures { L.value result ≡ choice (B.value bit) (L.value on) (L.value off) }
{
    let is = bit.is_same(B::bit(true));
    on.both(L::mask(is)).either(off.both(L::mask(!is)))
}

// At each clock one of two rows.
pub(crate) fn choose_row<L: Lane, B: Lane>(to: &mut [L], bit: &[B], on: &[L], off: &[L])
    requires { AreChoiceRows (length to.old) bit.now on.now off.now }
    ensures { IsWritten L.value to.old to.new (λ t. choice (number_in B.value bit.now t) (number_in L.value on.now t) (number_in L.value off.now t)) }
{
    for t in 0..to.len() {
        to[t] = chosen(bit[t], on[t], off[t]);
    }
}

// The same number, or else that of a row.
pub(crate) fn choose_number_row<L: Lane, B: Lane>(to: &mut [L], bit: &[B], number: L, off: &[L])
    requires { AreTwoRows (length to.old) bit.now off.now }
    ensures { IsWritten L.value to.old to.new (λ t. choice (number_in B.value bit.now t) (L.value number) (number_in L.value off.now t)) }
{
    for t in 0..to.len() {
        to[t] = chosen(bit[t], number, off[t]);
    }
}

// The number of a row, or else the same one.
pub(crate) fn choose_or_number_row<L: Lane, B: Lane>(to: &mut [L], bit: &[B], on: &[L], number: L)
    requires { AreTwoRows (length to.old) bit.now on.now }
    ensures { IsWritten L.value to.old to.new (λ t. choice (number_in B.value bit.now t) (number_in L.value on.now t) (L.value number)) }
{
    for t in 0..to.len() {
        to[t] = chosen(bit[t], on[t], number);
    }
}
