// Whether no bit of a packed word is unused.

ghost use Rattle.std.specs.Prelude.{◌≡◌, ◌+◌, ◌<◌, IsTrue, IfOk, IfSome, slice_index, slice_set, length, replicate};
ghost use Rattle.array_packing.specs.Packing.{AreFilledTo, widths_of};

use crate::slots::Slot;
use dk_base::OutOfMemory;
use std::alloc::Global;
use wiring::Shape;

// Lets the slot fill the bits above those that are filled, if it begins there.
fn fill(reached: &mut [u64], slot: Slot) -> bool
    ensures within { IsTrue result → slot.array < length reached.old }
    ensures low { IsTrue result → slice_index reached.old slot.array ≡ slot.low }
    ensures filled { IsTrue result → reached.new ≡ slice_set reached.old slot.array (slot.low + slot.width) }
{
    if slot.array >= reached.len() {
        return false;
    }
    if reached[slot.array] != slot.low {
        return false;
    }
    let Some(high) = slot.low.checked_add(slot.width as u64) else {
        return false;
    };
    reached[slot.array] = high;
    true
}

// Lets the slot of this number do so.
fn fill_at(reached: &mut [u64], slots: &[Slot], k: usize) -> bool
    requires there { k < length slots.now }
    requires filled { AreFilledTo slots.now reached.old }
    ensures { IsTrue result → AreFilledTo slots.now reached.new }
{
    fill(reached, slots[k])
}

// Lets all slots do so, in their order.
fn fill_all(reached: &mut [u64], slots: &[Slot]) -> bool
    requires { AreFilledTo slots.now reached.old }
    ensures { IsTrue result → AreFilledTo slots.now reached.new }
{
    for k in 0..slots.len() {
        if !fill_at(reached, slots, k) {
            return false;
        }
    }
    true
}

fn none_filled(alloc: Global, arrays: usize) -> Result<Vec<u64>, OutOfMemory>
    ensures { IfOk result (λ reached. reached.items ≡ replicate arrays 0) }
{
    let reached = vec![in alloc; 0; arrays]?;
    Ok(reached)
}

// How far up each of this many arrays is filled, or None where a slot does not begin where the one below it ends.
fn filled_bits(
    alloc: Global,
    slots: &[Slot],
    arrays: usize,
) -> Result<Option<Vec<u64>>, OutOfMemory>
    ensures { IfOk result (λ made. IfSome made (λ reached. AreFilledTo slots.now reached.items)) }
{
    let mut reached = none_filled(alloc, arrays)?;
    if !fill_all(&mut reached, slots) {
        return Ok(None);
    }
    Ok(Some(reached))
}

// Whether these are the widths of the arrays.
fn are_widths(reached: &[u64], arrays: &[Shape]) -> bool
    ensures { IsTrue result → reached.now ≡ widths_of arrays.now }
{
    if reached.len() != arrays.len() {
        return false;
    }
    for k in 0..arrays.len() {
        if reached[k] != arrays[k].width.bits() as u64 {
            return false;
        }
    }
    true
}

// Whether the slots fill each array up to its width.
pub(crate) fn are_filled(
    alloc: Global,
    slots: &[Slot],
    arrays: &[Shape],
) -> Result<bool, OutOfMemory>
    ensures { IfOk result (λ is. IsTrue is → AreFilledTo slots.now (widths_of arrays.now)) }
{
    let Some(reached) = filled_bits(alloc, slots, arrays.len())? else {
        return Ok(false);
    };
    let all = are_widths(&reached, arrays);
    Ok(all)
}
