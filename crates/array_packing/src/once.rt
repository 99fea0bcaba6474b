// Whether each array is read by one assign and put by one update.

ghost use Rattle.std.specs.Prelude.{◌≡◌, ℕ, ◌<◌, true, false, IsTrue, IfOk, length, replicate, slice_index_or, slice_set};
ghost use Rattle.wiring.specs.declared.netlist.Assign.{Assign};
ghost use Rattle.wiring.specs.Netlist.{netlist_of};
ghost use Rattle.wiring.specs.Snapshot.{right_accesses, update_accesses, accesses_of};
ghost use Rattle.net_build.specs.Indices.{read_indices, put_indices};
ghost use Rattle.array_packing.specs.Packing.{Marks, AreAccessedOnce};

use dk_base::OutOfMemory;
use std::alloc::Global;
use wiring::{Assign, Net, Netlist, Right, Update};

// Marks an array as accessed, unless it is already.
fn mark(seen: &mut [bool], array: usize) -> bool
    ensures within { IsTrue result → array < length seen.old }
    ensures first { IsTrue result → slice_index_or seen.old array false ≡ false }
    ensures marked { IsTrue result → seen.new ≡ slice_set seen.old array true }
{
    if array >= seen.len() {
        return false;
    }
    if seen[array] {
        return false;
    }
    seen[array] = true;
    true
}

// Marks the array that a right side reads.
fn mark_read(seen: &mut [bool], right: &Right<Net, usize>) -> bool
    ensures { IsTrue result → Marks seen.old seen.new (right_accesses right.now) }
{
    match right {
        Right::Word(array, _) => mark(seen, *array),
        _ => true,
    }
}

// Marks the array that an update puts.
fn mark_put(seen: &mut [bool], update: &Update) -> bool
    ensures { IsTrue result → Marks seen.old seen.new (update_accesses update.now) }
{
    match update {
        Update::Put(array, _, _) => mark(seen, *array),
        Update::Set(_, _) => true,
    }
}

// Marks the arrays that the assigns read.
fn mark_reads(seen: &mut [bool], assigns: &[Assign]) -> bool
    ensures { IsTrue result → Marks seen.old seen.new
        (accesses_of (λ (a : Assign). right_accesses a.right) assigns.now) }
{
    for assign in assigns {
        if !mark_read(seen, &assign.right) {
            return false;
        }
    }
    true
}

// Marks the arrays that the updates put.
fn mark_puts(seen: &mut [bool], updates: &[Update]) -> bool
    ensures { IsTrue result → Marks seen.old seen.new (accesses_of update_accesses updates.now) }
{
    for update in updates {
        if !mark_put(seen, update) {
            return false;
        }
    }
    true
}

fn none_marked(alloc: Global, arrays: usize) -> Result<Vec<bool>, OutOfMemory>
    ensures { IfOk result (λ seen. seen.items ≡ replicate arrays false) }
{
    let seen = vec![in alloc; false; arrays]?;
    Ok(seen)
}

// Whether all are marked.
fn are_marked(seen: &[bool]) -> bool
    ensures { IsTrue result → (x : ℕ) → x < length seen.now → slice_index_or seen.now x false ≡ true }
{
    for x in 0..seen.len() {
        if !seen[x] {
            return false;
        }
    }
    true
}

// Whether each array is read by one assign.
fn are_read_once(alloc: Global, m: &Netlist) -> Result<bool, OutOfMemory>
    ensures { IfOk result (λ is. IsTrue is → (x : ℕ) → x < length (netlist_of m.now).arrays
        → length (read_indices (netlist_of m.now) x) ≡ 1) }
{
    let mut seen = none_marked(alloc, m.arrays.len())?;
    if !mark_reads(&mut seen, &m.assigns) {
        return Ok(false);
    }
    Ok(are_marked(&seen))
}

// Whether each array is put by one update.
fn are_put_once(alloc: Global, m: &Netlist) -> Result<bool, OutOfMemory>
    ensures { IfOk result (λ is. IsTrue is → (x : ℕ) → x < length (netlist_of m.now).arrays
        → length (put_indices (netlist_of m.now) x) ≡ 1) }
{
    let mut seen = none_marked(alloc, m.arrays.len())?;
    if !mark_puts(&mut seen, &m.updates) {
        return Ok(false);
    }
    Ok(are_marked(&seen))
}

// Whether each array is read by one assign and put by one update.
pub(crate) fn are_accessed_once(alloc: Global, m: &Netlist) -> Result<bool, OutOfMemory>
    ensures { IfOk result (λ is. IsTrue is → AreAccessedOnce (netlist_of m.now)) }
{
    let read = are_read_once(alloc, m)?;
    if !read {
        return Ok(false);
    }
    let put = are_put_once(alloc, m)?;
    Ok(put)
}
