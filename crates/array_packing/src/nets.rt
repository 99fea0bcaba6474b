// Whether a netlist has the ports, the registers and the first wires of another one, and slots for its arrays.

ghost use Rattle.std.specs.Prelude.{◌≡◌, ◌<◌, IsTrue, Some, slice_get, take, length};
ghost use Rattle.std.specs.List.{AllZip};
ghost use Rattle.wiring.specs.declared.netlist.Shape.{Shape};
ghost use Rattle.wiring.specs.Netlist.{netlist_of};
ghost use Rattle.array_packing.specs.declared.slots.Slot.{Slot};
ghost use Rattle.array_packing.specs.Packing.{HasSlot, HaveSlotsTo};

use crate::slots::Slot;
use wiring::{Netlist, Shape, Width};

fn same_widths(a: &[Width], b: &[Width]) -> bool
    ensures { IsTrue result → a.now ≡ b.now }
{
    if a.len() != b.len() {
        return false;
    }
    for k in 0..a.len() {
        if a[k].bits() != b[k].bits() {
            return false;
        }
    }
    true
}

// Whether the list begins with this one.
fn begins_with(widths: &[Width], first: &[Width]) -> bool
    ensures { IsTrue result → take (length first.now) widths.now ≡ first.now }
{
    if widths.len() < first.len() {
        return false;
    }
    same_widths(&widths[..first.len()], first)
}

// Whether the slot is inside an array of as many words as this one, and as wide.
fn has_slot(m: &Netlist, slot: Slot, shape: &Shape) -> bool
    ensures { IsTrue result → HasSlot (netlist_of m.now) slot shape.now }
{
    let Some(there) = m.arrays.get(slot.array) else {
        return false;
    };
    if shape.width.bits() != slot.width {
        return false;
    }
    there.depth.words() == shape.depth.words()
}

fn is_slot_at(m: &Netlist, slots: &[Slot], arrays: &[Shape], x: usize) -> bool
    requires slot { x < length slots.now }
    requires array { x < length arrays.now }
    ensures { IsTrue result → (k : Slot) (s : Shape) → slice_get slots.now x ≡ Some k → slice_get arrays.now x ≡ Some s → HasSlot (netlist_of m.now) k s }
{
    has_slot(m, slots[x], &arrays[x])
}

// Whether each slot is.
fn are_slots(m: &Netlist, slots: &[Slot], arrays: &[Shape]) -> bool
    requires count { length slots.now ≡ length arrays.now }
    ensures { IsTrue result → HaveSlotsTo (netlist_of m.now) slots.now arrays.now (length arrays.now) }
{
    for x in 0..arrays.len() {
        if !is_slot_at(m, slots, arrays, x) {
            return false;
        }
    }
    true
}

// Whether there is a slot for each array.
pub(crate) fn have_slots(m: &Netlist, slots: &[Slot], arrays: &[Shape]) -> bool
    ensures { IsTrue result → AllZip (λ (k : Slot) (s : Shape). HasSlot (netlist_of m.now) k s) slots.now arrays.now }
{
    if slots.len() != arrays.len() {
        return false;
    }
    let all = are_slots(m, slots, arrays);
    all
}

// Whether the ports and the registers are the same, and the old wires are the first ones.
pub(crate) fn has_nets(new: &Netlist, old: &Netlist) -> bool
    ensures enable { IsTrue result → new.now.enable ≡ old.now.enable }
    ensures inputs { IsTrue result → new.now.inputs.items ≡ old.now.inputs.items }
    ensures outputs { IsTrue result → new.now.outputs.items ≡ old.now.outputs.items }
    ensures regs { IsTrue result → new.now.regs.items ≡ old.now.regs.items }
    ensures wires { IsTrue result → take (length old.now.wires.items) new.now.wires.items ≡ old.now.wires.items }
{
    if new.enable != old.enable {
        return false;
    }
    if !same_widths(&new.inputs, &old.inputs) {
        return false;
    }
    if !same_widths(&new.outputs, &old.outputs) {
        return false;
    }
    if !same_widths(&new.regs, &old.regs) {
        return false;
    }
    begins_with(&new.wires, &old.wires)
}
