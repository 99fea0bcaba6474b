// Nets by one operator each, over nets and constants of known widths.

ghost use Rattle.std.specs.Prelude.{◌≡◌, ◌+◌, ◌-◌, ◌*◌, ◌/◌, ◌%◌, ◌^◌, ◌<◌, ◌≤◌, [], length, IfOk, MatchResult, nat_eq, if◌then◌else◌, ◌∷◌};
ghost use Rattle.datapath.specs.declared.operand.Signal.TheVariants as signal;
ghost use Rattle.wiring.specs.Rights.{repeated, operator_width, operator_value};
ghost use Rattle.wiring.specs.Sizes.{IsWidth};
ghost use Rattle.wiring.specs.Snapshot.{right_accesses};
ghost use Rattle.net_build.specs.Draft.{IsOperation};
ghost use Rattle.datapath.specs.Nets.{AreChosen, AreJoined, AreOperandsOf, Grows, HasPart, HasWidth, IsNetFor, IsNetOf, IsSignal, IsSized, IsWidened, MakesWord, atom_of, bits_of};

use crate::constants::{
    constant, folded, folded_join, folded_not, folded_part, folded_repeat, known,
};
use crate::operand::Signal;
use dk_base::OutOfMemory;
use net_build::Builder;
use wiring::{Atom, Constant, Net, Operator, Right, Width};

// A net or a constant, in a right side.
fn atom(x: Signal) -> Atom<Net>
    requires { IsSignal x }
    ensures { result ≡ atom_of x }
{
    match x {
        Signal::Net(net) => Atom::Net(net),
        Signal::Constant(width, value) => {
            Atom::Constant(Constant::new(Width::new(width), value))
        }
    }
}

// The net of a right side that reads no array.
fn net_for(b: &mut Builder, operation: Right<Net, usize>) -> Result<Net, OutOfMemory>
    requires operation { IsOperation b.old operation }
    requires no_array { right_accesses operation ≡ [] }
    ensures grows { Grows b.old b.new }
    ensures net { IfOk result (IsNetOf b.old b.new operation) }
    ensures one { length b.new.assigns ≤ length b.old.assigns + 1 }
{
    let net = b.op(operation)?;
    b.law();
    Ok(net)
}

// The net of an operator of two operands.
pub(crate) fn operated(
    b: &mut Builder,
    operator: Operator,
    width: u8,
    x: Signal,
    y: Signal,
) -> Result<Signal, OutOfMemory>
    requires { AreOperandsOf b.old operator width x y }
    ensures { MakesWord b.old b.new result 1 (x ∷ (y ∷ [])) (operator_width operator width)
        (λ s. operator_value operator width (bits_of s x) (bits_of s y)) }
{
    match folded(b, operator, width, x, y) {
        Some(known) => return Ok(known),
        None => {}
    }
    let (left, right) = (atom(x), atom(y));
    let net = net_for(b, Right::Binary(operator, left, right))?;
    Ok(Signal::Net(net))
}

// The first where the bit is 1, else the second.
pub(crate) fn choose(
    b: &mut Builder,
    width: u8,
    c: Signal,
    x: Signal,
    y: Signal,
) -> Result<Signal, OutOfMemory>
    requires { AreChosen b.old width c x y }
    ensures { MakesWord b.old b.new result 1 (c ∷ (x ∷ (y ∷ []))) width
        (λ s. if nat_eq (bits_of s c) 1 then bits_of s x else bits_of s y) }
{
    match known(c) {
        Some(bit) => {
            if bit == 1 {
                return Ok(x);
            }
            return Ok(y);
        }
        None => {}
    }
    let condition = atom(c);
    let (left, right) = (atom(x), atom(y));
    let net = net_for(b, Right::Choose(condition, left, right))?;
    Ok(Signal::Net(net))
}

// The first above the second.
pub(crate) fn join(
    b: &mut Builder,
    high: u8,
    x: Signal,
    low: u8,
    y: Signal,
) -> Result<Signal, OutOfMemory>
    requires { AreJoined b.old high x low y }
    ensures { MakesWord b.old b.new result 0 (x ∷ (y ∷ [])) (high + low)
        (λ s. bits_of s x * 2 ^ low + bits_of s y) }
{
    match folded_join(b, high, x, low, y) {
        Some(known) => return Ok(known),
        None => {}
    }
    let (left, right) = (atom(x), atom(y));
    let net = net_for(b, Right::Join(left, right))?;
    Ok(Signal::Net(net))
}

// This many copies of a bit.
pub(crate) fn repeat(b: &mut Builder, count: u8, x: Signal) -> Result<Signal, OutOfMemory>
    requires width { IsWidth count }
    requires x { HasWidth b.old x 1 }
    ensures { MakesWord b.old b.new result 0 (x ∷ []) count (λ s. repeated count 1 (bits_of s x)) }
{
    match folded_repeat(b, count, x) {
        Some(known) => return Ok(known),
        None => {}
    }
    let operand = atom(x);
    let net = net_for(b, Right::Repeat(count, operand))?;
    Ok(Signal::Net(net))
}

// The other bits.
pub(crate) fn complement(b: &mut Builder, width: u8, x: Signal) -> Result<Signal, OutOfMemory>
    requires { IsSized b.old width x }
    ensures { MakesWord b.old b.new result 1 (x ∷ []) width (λ s. 2 ^ width - 1 - bits_of s x) }
{
    match folded_not(b, width, x) {
        Some(known) => return Ok(known),
        None => {}
    }
    let operand = atom(x);
    let net = net_for(b, Right::Not(operand))?;
    Ok(Signal::Net(net))
}

// A constant as a net.
fn copied(b: &mut Builder, width: u8, x: Signal) -> Result<Net, OutOfMemory>
    requires { IsSized b.old width x }
    ensures net { MatchResult result (IsNetFor b.old b.new width x) (λ e. Grows b.old b.new) }
    ensures one { length b.new.assigns ≤ length b.old.assigns + 1 }
{
    let operand = atom(x);
    let net = net_for(b, Right::Copy(operand))?;
    Ok(net)
}

// The net of an operand.
#[tactic(auto, using(crate::proofs::Growth::later))]
pub(crate) fn net_of(b: &mut Builder, width: u8, x: Signal) -> Result<Net, OutOfMemory>
    requires { IsSized b.old width x }
    ensures net { MatchResult result (IsNetFor b.old b.new width x) (λ e. Grows b.old b.new) }
    ensures one { length b.new.assigns ≤ length b.old.assigns + 1 }
{
    match x {
        Signal::Net(net) => Ok(net),
        Signal::Constant(_, _) => {
            let net = copied(b, width, x)?;
            Ok(net)
        }
    }
}

// The `count` bits of a net from bit `low` on, which are not all.
fn slice(b: &mut Builder, width: u8, x: Net, low: u8, count: u8) -> Result<Signal, OutOfMemory>
    requires part { HasPart b.old width (signal.Net x) low count }
    requires proper { count < width }
    ensures { MakesWord b.old b.new result 0 (signal.Net x ∷ []) count
        (λ s. bits_of s (signal.Net x) / 2 ^ low % 2 ^ count) }
{
    let first = low as u64;
    let last = first + count as u64 - 1;
    let net = net_for(b, Right::Slice(x, last, first))?;
    Ok(Signal::Net(net))
}

// The `count` bits from bit `low` on.
#[tactic(auto, using(crate::proofs::Growth::later))]
pub(crate) fn part(
    b: &mut Builder,
    width: u8,
    x: Signal,
    low: u8,
    count: u8,
) -> Result<Signal, OutOfMemory>
    requires { HasPart b.old width x low count }
    ensures { MakesWord b.old b.new result 0 (x ∷ []) count (λ s. bits_of s x / 2 ^ low % 2 ^ count) }
{
    if count == width {
        return Ok(x);
    }
    match folded_part(b, width, x, low, count) {
        Some(known) => return Ok(known),
        None => {}
    }
    let whole = net_of(b, width, x)?;
    let atom = slice(b, width, whole, low, count)?;
    Ok(atom)
}

// Zeros above `low` bits.
pub(crate) fn with_zeros(
    b: &mut Builder,
    high: u8,
    low: u8,
    x: Signal,
) -> Result<Signal, OutOfMemory>
    requires { IsWidened b.old high low x }
    ensures { MakesWord b.old b.new result 0 (x ∷ []) (high + low) (λ s. bits_of s x) }
{
    let zeros = constant(high, 0);
    let atom = join(b, high, zeros, low, x)?;
    Ok(atom)
}

// Copies of the highest bit above `low` bits.
#[tactic(auto, using(crate::proofs::Growth::later))]
pub(crate) fn with_signs(
    b: &mut Builder,
    high: u8,
    low: u8,
    x: Signal,
) -> Result<Signal, OutOfMemory>
    requires { IsWidened b.old high low x }
    ensures { MakesWord b.old b.new result 0 (x ∷ []) (high + low)
        (λ s. repeated high 1 (bits_of s x / 2 ^ (low - 1) % 2 ^ 1) * 2 ^ low + bits_of s x) }
{
    let sign = part(b, low, x, low - 1, 1)?;
    let signs = repeat(b, high, sign)?;
    let atom = join(b, high, signs, low, x)?;
    Ok(atom)
}
