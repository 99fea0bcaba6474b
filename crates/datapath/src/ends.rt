// The ends of a type's range, as numbers of 64 bits.

ghost use Rattle.std.specs.Prelude.{◌≡◌, ◌+◌, ◌-◌, ◌^◌, ◌≤◌, ◌<◌};
ghost use Rattle.dk_base.specs.Types.{IsType, width_of, below as below_zero, above};

use dk_base::Ty;

// How many numbers below 0 there are.
#[tactic(auto, using(std::proofs::lemmas::Nat::one_shl, std::proofs::lemmas::Nat::pow_below))]
pub(crate) fn below(ty: Ty) -> u64
    requires { IsType ty }
    ensures value { result ≡ below_zero ty }
    ensures fits { result < 2 ^ width_of ty }
{
    match ty {
        Ty::Unsigned(_) => 0,
        Ty::Signed(width) => 1 << (width - 1),
    }
}

// The greatest number.
#[tactic(auto, using(std::proofs::lemmas::Nat::one_shl, std::proofs::lemmas::Nat::pow_below, std::proofs::lemmas::Nat::pow_pos))]
pub(crate) fn greatest(ty: Ty) -> u64
    requires { IsType ty }
    ensures { result + 1 ≡ above ty }
{
    match ty {
        Ty::Unsigned(width) => all_ones(width),
        Ty::Signed(width) => (1 << (width - 1)) - 1,
    }
}

// The number of `width` bits that are 1.
#[tactic(auto, using(std::proofs::lemmas::Nat::one_shl, dk_base::proofs::Codes::half, std::proofs::lemmas::Nat::pow_pos))]
pub(crate) fn all_ones(width: u8) -> u64
    requires { (1 ≤ width) × (width ≤ 64) }
    ensures { result + 1 ≡ 2 ^ width }
{
    let half: u64 = 1 << (width - 1);
    half - 1 + half
}
