// Netlists that grow.

ghost use Rattle.std.specs.Prelude.{position, ℕ, None, Some, slice_get, ◌≡◌, ◌≢◌, ◌+◌, ◌<◌, ◌≤◌, ◌++◌, ◌∷◌, [], length, map, IfNone, IfOk, OnOk, OnErr};
ghost use Rattle.std.specs.Vec.{vec_capacity, vec_len};
ghost use Rattle.indexmap.specs.IndexSet.{spare};
ghost use Rattle.wiring.specs.declared.netlist.Assign.{Assign};
ghost use Rattle.wiring.specs.declared.netlist.Update.TheVariants.{Set, Put};
ghost use Rattle.wiring.specs.declared.right.Atom.TheVariants as atom;
ghost use Rattle.wiring.specs.Netlist.{netlist_of};
ghost use Rattle.net_build.specs.States.{state_count};
ghost use Rattle.net_build.specs.Draft.{IsDraft, IsOperation, HasWire, SharesOrAdds, with_wire, with_reg, with_array, number};

use crate::size::right_size;
use dk_base::OutOfMemory;
use indexmap::IndexSet;
use std::alloc::AllocError;
use std::hash::Hash;
use wiring::{Assign, Atom, Net, Netlist, Right, Shape, Update, Width};

// Adds the wire of a right side that is not there yet.
fn push_wire(wiring: &mut Netlist, right: &Right<Net, usize>) -> Result<(), OutOfMemory>
    requires { IsOperation (netlist_of wiring.old) right.now }
    ensures ok { OnOk result (netlist_of wiring.new ≡ with_wire (netlist_of wiring.old) right.now) }
    ensures err { OnErr result (netlist_of wiring.new ≡ netlist_of wiring.old) }
    ensures room { vec_capacity wiring.new.updates ≡ vec_capacity wiring.old.updates }
{
    let width = right_size(wiring, right);
    wiring.wires.reserve(1)?;
    let target = Net::Wire(wiring.wires.len());
    wiring.assigns.push(Assign {
        target,
        right: *right,
    })?;
    let _ = wiring.wires.push(width);
    Ok(())
}

// The place of a key.
fn place_of<T: Eq + Hash + Drop>(known: &IndexSet<T>, key: &T) -> Option<usize>
    ensures found { result ≡ position (T.eq key.now) known.now.keys }
    ensures absent { IfNone result ((k : ℕ) (x : T) → slice_get known.now.keys k ≡ Some x
        → x ≢ key.now) }
{
    known.get_index_of(key)
}

// Makes room for a key.
fn reserve_key<T: Eq + Hash + Drop>(known: &mut IndexSet<T>) -> Result<(), OutOfMemory>
    ensures keys { known.new.keys ≡ known.old.keys }
    ensures room { OnOk result (0 < spare known.new) }
{
    known.reserve(1)
}

// Adds a key that is not there, for which there is room.
fn add_key<T: Copy + Eq + Hash + Drop>(known: &mut IndexSet<T>, key: &T)
    requires absent { position (T.eq key.now) known.old.keys ≡ None }
    requires room { 0 < spare known.old }
    ensures { known.new.keys ≡ known.old.keys ++ key.now ∷ [] }
{
    let _ = known.insert(*key);
}

// The wire with this right side, added where there is none.
pub fn wire_of(
    wiring: &mut Netlist,
    known: &mut IndexSet<Right<Net, usize>>,
    right: &Right<Net, usize>,
) -> Result<usize, OutOfMemory>
    requires draft { IsDraft (netlist_of wiring.old) }
    requires operation { IsOperation (netlist_of wiring.old) right.now }
    requires known { known.old.keys ≡ map (λ (a : Assign). a.right) wiring.old.assigns.items }
    ensures draft { IsDraft (netlist_of wiring.new) }
    ensures known { known.new.keys ≡ map (λ (a : Assign). a.right) wiring.new.assigns.items }
    ensures wire { IfOk result (λ k. HasWire (netlist_of wiring.new) k right.now) }
    ensures ok { OnOk result (SharesOrAdds (netlist_of wiring.new)
        (netlist_of wiring.old) right.now) }
    ensures err { OnErr result (netlist_of wiring.new ≡ netlist_of wiring.old) }
    ensures room { vec_capacity wiring.new.updates ≡ vec_capacity wiring.old.updates }
{
    if let Some(k) = place_of(known, right) {
        return Ok(k);
    }
    reserve_key(known)?;
    let k = wiring.assigns.len();
    push_wire(wiring, right)?;
    add_key(known, right);
    Ok(k)
}

// Makes room for the updates of this many registers and arrays and of one more.
fn make_room(updates: &mut Vec<Update>, states: usize) -> Result<(), OutOfMemory>
    ensures items { updates.new.items ≡ updates.old.items }
    ensures room { OnOk result (states < vec_capacity updates.new) }
    ensures kept { vec_capacity updates.old ≤ vec_capacity updates.new }
{
    match states.saturating_sub(updates.len()).checked_add(1) {
        Some(more) => updates.reserve(more),
        None => Err(AllocError),
    }
}

// Adds a register, with room for its update.
pub fn add_reg(wiring: &mut Netlist, width: Width) -> Result<usize, OutOfMemory>
    requires { state_count (netlist_of wiring.old) ≤ vec_capacity wiring.old.updates }
    ensures number { IfOk result (λ k. k ≡ length wiring.old.regs.items) }
    ensures ok { OnOk result (netlist_of wiring.new ≡ with_reg (netlist_of wiring.old) width) }
    ensures err { OnErr result (netlist_of wiring.new ≡ netlist_of wiring.old) }
    ensures room { state_count (netlist_of wiring.new) ≤ vec_capacity wiring.new.updates }
{
    make_room(&mut wiring.updates, wiring.regs.len() + wiring.arrays.len())?;
    let k = wiring.regs.len();
    wiring.regs.push(width)?;
    Ok(k)
}

// Adds an array, with room for its update.
pub fn add_array(wiring: &mut Netlist, shape: Shape) -> Result<usize, OutOfMemory>
    requires { state_count (netlist_of wiring.old) ≤ vec_capacity wiring.old.updates }
    ensures number { IfOk result (λ x. x ≡ length wiring.old.arrays.items) }
    ensures ok { OnOk result (netlist_of wiring.new ≡ with_array (netlist_of wiring.old) shape) }
    ensures err { OnErr result (netlist_of wiring.new ≡ netlist_of wiring.old) }
    ensures room { state_count (netlist_of wiring.new) ≤ vec_capacity wiring.new.updates }
{
    make_room(&mut wiring.updates, wiring.regs.len() + wiring.arrays.len())?;
    let x = wiring.arrays.len();
    wiring.arrays.push(shape)?;
    Ok(x)
}

// Adds the update of a register, for which there is room.
pub fn add_set(updates: &mut Vec<Update>, reg: Net, value: Net)
    requires { vec_len updates.old < vec_capacity updates.old }
    ensures items { updates.new.items ≡ updates.old.items ++ Set (number reg)
        (atom.Net value) ∷ [] }
    ensures room { vec_capacity updates.old ≤ vec_capacity updates.new }
{
    let _ = updates.push(Update::Set(number_of(reg), Atom::Net(value)));
}

// Adds the update of an array, for which there is room.
pub fn add_put(updates: &mut Vec<Update>, array: usize, index: Net, value: Net)
    requires { vec_len updates.old < vec_capacity updates.old }
    ensures items { updates.new.items ≡ updates.old.items ++ Put array (atom.Net index)
        (atom.Net value) ∷ [] }
    ensures room { vec_capacity updates.old ≤ vec_capacity updates.new }
{
    let _ = updates.push(Update::Put(array, Atom::Net(index), Atom::Net(value)));
}

fn number_of(net: Net) -> usize
    ensures { result ≡ number net }
{
    match net {
        Net::Input(k) | Net::Output(k) | Net::Wire(k) | Net::Reg(k) => k,
    }
}
