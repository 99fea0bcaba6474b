// Counters of clocks.

ghost use Rattle.std.specs.Prelude.{suc, [], ◌∷◌, ◌++◌, ◌≡◌, ◌+◌, ◌%◌, min, ◌<◌, ◌^◌, if◌then◌else◌, IfOk, OnOk};
ghost use Rattle.wiring.specs.declared.right.Atom.TheVariants as atom;
ghost use Rattle.wiring.specs.Netlist.{net_width};
ghost use Rattle.wiring.specs.Sizes.{IsWidth};
ghost use Rattle.net_build.specs.Draft.{IsNet};
ghost use Rattle.wiring.specs.declared.netlist.Holder.TheVariants.{OfNet};
ghost use Rattle.net_build.specs.Control.{is_control};
ghost use Rattle.net_build.specs.Depth.{IsOver, IsWithin, hold_levels};
ghost use Rattle.net_build.specs.Logic.{AddsLogic};
ghost use Rattle.net_build.specs.Registers.{register_bits, count_bits};
ghost use Rattle.net_build.specs.Counters.{control_nets, reached, start_levels, unless_held, taken, loaded, AreChoices, AreRegisterIndices, IsChoice, IsEnding, IsFollowing, IsLoaded, IsRange, IsRegisterCount, MakesCounter, MakesCycle, AddsControl, Starts};

use crate::builder::Builder;
use crate::gates::{driven, gate, number};
use dk_base::{OutOfMemory, bits_for};
use wiring::{Atom, Net, Operator, Right};

// What follows the last number.
fn over(at: Net, bits: u8, wraps: bool) -> Atom<Net>
    requires { IsWidth bits }
    ensures { result ≡ (if wraps then atom.Constant
        (record { width = bits; value = 0 }) else atom.Net at) }
{
    if wraps {
        return number(bits, 0);
    }
    Atom::Net(at)
}

/// Whether a count is at its last number, and what follows.
#[derive(Clone, Copy)]
pub struct Counted {
    pub ending: Net,
    pub next: Net,
}

/// A count up to `last`, which is followed by 0 or by itself. The test is one of equality, which has no carry.
pub fn count(
    b: &mut Builder,
    at: Net,
    bits: u8,
    last: u64,
    wraps: bool,
) -> Result<Counted, OutOfMemory>
    requires at { IsNet b.old at }
    requires width { net_width b.old at ≡ bits }
    requires range { IsRange bits last }
    ensures logic { AddsLogic b.new b.old }
    ensures ending { IfOk result (λ c. IsEnding b.new b.old at last c.ending) }
    ensures next { IfOk result (λ c. IsFollowing b.new b.old at bits last wraps c.next) }
    ensures ending_depth { IfOk result (λ c. IsOver b.new b.old 1 (at ∷ []) c.ending) }
    ensures next_depth { IfOk result (λ c. IsOver b.new b.old 2 (at ∷ []) c.next) }
{
    let ending = gate(
        b,
        Right::Binary(Operator::Equal, Atom::Net(at), number(bits, last)),
    )?;
    let more = gate(
        b,
        Right::Binary(Operator::Add, Atom::Net(at), number(bits, 1)),
    )?;
    let next = gate(
        b,
        Right::Choose(Atom::Net(ending), over(at, bits, wraps), Atom::Net(more)),
    )?;
    Ok(Counted { ending, next })
}

/// What is next, or in a held clock what is now.
pub fn unless_held(b: &mut Builder, now: Net, next: Net, bits: u8) -> Result<Net, OutOfMemory>
    requires { AreChoices b.old bits now next }
    ensures logic { AddsLogic b.new b.old }
    ensures net { IfOk result (IsChoice b.new b.old now next bits (unless_held b.old.enable)) }
    ensures depth { IfOk result (IsOver b.new b.old (hold_levels b.old.enable)
        (control_nets b.old.enable ++ now ∷ (next ∷ []))) }
{
    if b.has_en() {
        let en = b.en();
        let net = gate(
            b,
            Right::Choose(Atom::Net(en), Atom::Net(next), Atom::Net(now)),
        )?;
        return Ok(net);
    }
    Ok(next)
}

/// What is next, or in a held clock what is now. In a reset clock it is what is next, with `en` 0 too.
pub fn loaded(b: &mut Builder, now: Net, next: Net, bits: u8) -> Result<Net, OutOfMemory>
    requires { AreChoices b.old bits now next }
    ensures logic { AddsLogic b.new b.old }
    ensures net { IfOk result (IsChoice b.new b.old now next bits (loaded b.old.enable)) }
    ensures right { IfOk result (IsLoaded b.new now next) }
    ensures depth { IfOk result
        (IsOver b.new b.old 2 (control_nets b.old.enable ++ now ∷ (next ∷ []))) }
{
    if b.has_en() {
        let reset = b.rst();
        let en = b.en();
        let going = driven(
            b,
            Right::Binary(Operator::Or, Atom::Net(reset), Atom::Net(en)),
        )?;
        let net = driven(
            b,
            Right::Choose(Atom::Net(going), Atom::Net(next), Atom::Net(now)),
        )?;
        return Ok(net);
    }
    Ok(next)
}

/// What a register takes that begins at `first` after a reset and is still in held clocks: in a reset clock `first`, in a held clock `now`, and else `next`.
pub fn register_value(
    b: &mut Builder,
    now: Net,
    next: Net,
    bits: u8,
    first: u64,
) -> Result<Net, OutOfMemory>
    requires now { IsNet b.old now }
    requires next { IsNet b.old next }
    requires now_width { net_width b.old now ≡ bits }
    requires next_width { net_width b.old next ≡ bits }
    requires bits { IsWidth bits }
    requires first { first < 2 ^ bits }
    ensures logic { AddsLogic b.new b.old }
    ensures net { IfOk result (IsChoice b.new b.old now next bits (taken b.old.enable first)) }
    ensures depth { IfOk result (IsOver b.new b.old (1 + hold_levels b.old.enable)
        (control_nets b.old.enable ++ now ∷ (next ∷ []))) }
{
    let going = unless_held(b, now, next, bits)?;
    let reset = b.rst();
    let net = gate(
        b,
        Right::Choose(Atom::Net(reset), number(bits, first), Atom::Net(going)),
    )?;
    Ok(net)
}

// A count, and what its register takes.
#[derive(Clone, Copy)]
struct Numbered {
    index: Net,
    next: Net,
}

// A register's count, which is 0 in a reset clock, and what the register takes.
fn registered(
    b: &mut Builder,
    register: Net,
    bits: u8,
    last: u64,
    wraps: bool,
) -> Result<Numbered, OutOfMemory>
    requires register { IsNet b.old register }
    requires width { net_width b.old register ≡ bits }
    requires range { IsRange bits last }
    ensures logic { AddsLogic b.new b.old }
    ensures count { IfOk result
        (λ c. IsRegisterCount b.new b.old register bits last wraps c.index c.next) }
{
    let reset = b.rst();
    let index = gate(
        b,
        Right::Choose(Atom::Net(reset), number(bits, 0), Atom::Net(register)),
    )?;
    let more = count(b, index, bits, last, wraps)?;
    let next = register_value(b, index, more.next, bits, 0)?;
    Ok(Numbered { index, next })
}

// A counter up to `last`, which then begins again or stays.
fn counter_of(b: &mut Builder, last: u64, wraps: bool) -> Result<Net, OutOfMemory>
    ensures { MakesCounter b.new b.old result (reached wraps last) last }
{
    let bits = bits_for(last);
    let register = b.reg(bits)?;
    let values = registered(b, register, bits, last, wraps)?;
    b.set(register, values.next);
    Ok(values.index)
}

/// A net that counts clocks from 0 to `last`, and then from 0 again: the number of the counted clocks since a reset, modulo `last` and one. It is 0 in a reset clock, and does not change in held clocks. It has one register, and no path of assigns to it has more than one operator.
pub fn counter(b: &mut Builder, last: u64) -> Result<Net, OutOfMemory>
    ensures { MakesCounter b.new b.old result (λ t. t % suc last) last }
{
    let net = counter_of(b, last, true)?;
    Ok(net)
}

/// A net that counts clocks from 0 to `last`, and stays there. Else it is as `counter`.
pub fn counter_up_to(b: &mut Builder, last: u64) -> Result<Net, OutOfMemory>
    ensures { MakesCounter b.new b.old result (λ t. min t last) last }
{
    let net = counter_of(b, last, false)?;
    Ok(net)
}

// Indices from a register, and what it takes.
#[derive(Clone, Copy)]
struct CycleValues {
    now: Net,
    next: Net,
    taken: Net,
}

// The indices 0 to `last` from a register, which begins a cycle after a reset: in a reset clock `now` is `last`, and 0 follows.
fn cycled(b: &mut Builder, register: Net, bits: u8, last: u64) -> Result<CycleValues, OutOfMemory>
    requires register { IsNet b.old register }
    requires width { net_width b.old register ≡ bits }
    requires range { IsRange bits last }
    ensures logic { AddsLogic b.new b.old }
    ensures indices { IfOk result
        (λ c. AreRegisterIndices b.new b.old register bits last c.now c.next c.taken) }
{
    let reset = b.rst();
    let now = gate(
        b,
        Right::Choose(Atom::Net(reset), number(bits, last), Atom::Net(register)),
    )?;
    let more = count(b, now, bits, last, true)?;
    let taken = loaded(b, register, more.next, bits)?;
    Ok(CycleValues {
        now,
        next: more.next,
        taken,
    })
}

/// Two indices into an array: that of this clock's write, and that of the next counted clock.
#[derive(Clone, Copy)]
pub struct Indices {
    pub now: Net,
    pub next: Net,
}

/// The indices 0 to `last` in a cycle, a step in each counted clock. In a reset clock `now` is `last` and `next` is 0, so the two differ in each clock if `last` is above 0. It has one register, which is still in held clocks.
pub fn cycle(b: &mut Builder, last: u64) -> Result<Indices, OutOfMemory>
    ensures { MakesCycle b.new b.old result last }
{
    let bits = bits_for(last);
    let register = b.reg(bits)?;
    let values = cycled(b, register, bits, last)?;
    b.set(register, values.taken);
    Ok(Indices {
        now: values.now,
        next: values.next,
    })
}

/// A net that is whether `last` clocks were counted since a reset. It is 0 in a reset clock. At 0 it uses no register.
pub fn started(b: &mut Builder, last: u64) -> Result<Net, OutOfMemory>
    ensures adds { OnOk result (AddsControl b.new b.old) }
    ensures net { IfOk result (IsNet b.new) }
    ensures width { IfOk result (λ n. net_width b.new n ≡ 1) }
    ensures starts { IfOk result (Starts b.new last) }
    ensures depth { IfOk result
        (λ n. IsWithin b.new (is_control b.new.enable) start_levels (OfNet n)) }
    ensures bits { OnOk result (register_bits b.new ≡ register_bits b.old + count_bits last) }
{
    if last == 0 {
        let reset = b.rst();
        let net = gate(b, Right::Not(Atom::Net(reset)))?;
        return Ok(net);
    }
    let count = counter_up_to(b, last)?;
    let net = gate(
        b,
        Right::Binary(
            Operator::Equal,
            Atom::Net(count),
            number(bits_for(last), last),
        ),
    )?;
    Ok(net)
}
