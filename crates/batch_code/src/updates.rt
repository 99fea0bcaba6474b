// What registers and arrays take at the clock edge, over slots.

ghost use Rattle.std.specs.Prelude.{◌≡◌, ◌+◌, ◌<◌, ℕ, length, IfOk};
ghost use Rattle.wiring.specs.Netlist.{netlist_of};
ghost use Rattle.wiring.specs.Rules.{KeepsRules};
ghost use Rattle.cycle_sim.specs.Simulated.{IsLayout};
ghost use Rattle.batch_code.specs.Parts.{AreNexts, ArePuts};

use batch_rows::WordPut;
use cycle_sim::{Layout, atom_of};
use netlist::{Atom, Netlist, Update};
use std::alloc::{AllocError, Global};

// The next value of a register, where this update has one.
fn note_next(nexts: &mut [Atom<usize>], layout: Layout, wiring: &Netlist, number: usize)
    requires layout { IsLayout (netlist_of wiring.now) layout }
    requires rules { KeepsRules (netlist_of wiring.now) }
    requires within { number < length wiring.now.updates.items }
    requires before { AreNexts (netlist_of wiring.now) number nexts.old }
    ensures { AreNexts (netlist_of wiring.now) (number + 1) nexts.new }
{
    match wiring.updates[number] {
        Update::Set(reg, next) => nexts[reg] = atom_of(layout, next),
        Update::Put(_, _, _) => {}
    }
}

fn bare_nexts(alloc: Global, wiring: &Netlist) -> Result<Vec<Atom<usize>>, AllocError>
    requires rules { KeepsRules (netlist_of wiring.now) }
    ensures { IfOk result (λ v. AreNexts (netlist_of wiring.now) 0 v.items) }
{
    let nexts = vec![in alloc; Atom::Net(0); wiring.regs.len()]?;
    Ok(nexts)
}

// The next value of each register.
pub fn nexts_of(
    alloc: Global,
    layout: Layout,
    wiring: &Netlist,
) -> Result<Vec<Atom<usize>>, AllocError>
    requires layout { IsLayout (netlist_of wiring.now) layout }
    requires rules { KeepsRules (netlist_of wiring.now) }
    ensures { IfOk result (λ v. AreNexts (netlist_of wiring.now) (length wiring.now.updates.items) v.items) }
{
    let mut nexts = bare_nexts(alloc, wiring)?;
    for number in 0..wiring.updates.len() {
        note_next(&mut nexts, layout, wiring, number);
    }
    Ok(nexts)
}

// The put of an array, where this update is one.
fn note_put(puts: &mut [WordPut], layout: Layout, wiring: &Netlist, number: usize)
    requires layout { IsLayout (netlist_of wiring.now) layout }
    requires rules { KeepsRules (netlist_of wiring.now) }
    requires within { number < length wiring.now.updates.items }
    requires before { ArePuts (netlist_of wiring.now) number puts.old }
    ensures { ArePuts (netlist_of wiring.now) (number + 1) puts.new }
{
    match wiring.updates[number] {
        Update::Put(array, index, value) => {
            let index = atom_of(layout, index);
            let value = atom_of(layout, value);
            puts[array] = WordPut { index, value };
        }
        Update::Set(_, _) => {}
    }
}

fn bare_puts(alloc: Global, wiring: &Netlist) -> Result<Vec<WordPut>, AllocError>
    requires rules { KeepsRules (netlist_of wiring.now) }
    ensures { IfOk result (λ v. ArePuts (netlist_of wiring.now) 0 v.items) }
{
    let index = Atom::Net(0);
    let value = Atom::Net(0);
    let puts = vec![in alloc; WordPut { index, value }; wiring.arrays.len()]?;
    Ok(puts)
}

// The put of each array.
pub fn puts_of(alloc: Global, layout: Layout, wiring: &Netlist) -> Result<Vec<WordPut>, AllocError>
    requires layout { IsLayout (netlist_of wiring.now) layout }
    requires rules { KeepsRules (netlist_of wiring.now) }
    ensures { IfOk result (λ v. ArePuts (netlist_of wiring.now) (length wiring.now.updates.items) v.items) }
{
    let mut puts = bare_puts(alloc, wiring)?;
    for number in 0..wiring.updates.len() {
        note_put(&mut puts, layout, wiring, number);
    }
    Ok(puts)
}
