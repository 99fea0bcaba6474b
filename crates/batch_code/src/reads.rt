// The reads of arrays, over slots.

ghost use Rattle.std.specs.Prelude.{◌≡◌, ◌+◌, ◌<◌, ℕ, false, true, length, replicate, slice_index_or, IsTrue, IfOk, IfSome};
ghost use Rattle.wiring.specs.Netlist.{netlist_of};
ghost use Rattle.wiring.specs.Rules.{KeepsRules};
ghost use Rattle.wiring.specs.declared.right.Atom.TheVariants as atom;
ghost use Rattle.cycle_sim.specs.Simulated.{IsLayout};
ghost use Rattle.batch_code.specs.Parts.{AreReads, AreReadWhereMarked, HasReads};

use crate::instructions::bare_marks;
use batch_rows::WordRead;
use cycle_sim::{Layout, atom_of, slot_of};
use netlist::{Atom, Netlist, Right};
use std::alloc::{AllocError, Global};

// The read of an array, where this assign is one. False where its array has one already.
fn note_read(
    reads: &mut [WordRead],
    marks: &mut [bool],
    layout: Layout,
    wiring: &Netlist,
    number: usize,
) -> bool
    requires layout { IsLayout (netlist_of wiring.now) layout }
    requires rules { KeepsRules (netlist_of wiring.now) }
    requires within { number < length wiring.now.assigns.items }
    requires before { AreReads (netlist_of wiring.now) number reads.old marks.old }
    requires marked { AreReadWhereMarked (netlist_of wiring.now) marks.old }
    ensures reads { IsTrue result → AreReads (netlist_of wiring.now) (number + 1) reads.new marks.new }
    ensures marked { IsTrue result → AreReadWhereMarked (netlist_of wiring.now) marks.new }
{
    let assign = &wiring.assigns[number];
    match assign.right {
        Right::Word(array, index) => {
            if marks[array] {
                return false;
            }
            marks[array] = true;
            let target = slot_of(layout, assign.target);
            let index = atom_of(layout, index);
            reads[array] = WordRead { target, index };
            true
        }
        _ => true,
    }
}

fn note_reads(reads: &mut [WordRead], marks: &mut [bool], layout: Layout, wiring: &Netlist) -> bool
    requires layout { IsLayout (netlist_of wiring.now) layout }
    requires rules { KeepsRules (netlist_of wiring.now) }
    requires before { AreReads (netlist_of wiring.now) 0 reads.old marks.old }
    requires marked { AreReadWhereMarked (netlist_of wiring.now) marks.old }
    ensures reads { IsTrue result → AreReads (netlist_of wiring.now) (length wiring.now.assigns.items) reads.new marks.new }
    ensures marked { IsTrue result → AreReadWhereMarked (netlist_of wiring.now) marks.new }
{
    for number in 0..wiring.assigns.len() {
        if !note_read(reads, marks, layout, wiring, number) {
            return false;
        }
    }
    true
}

fn all_marked(marks: &[bool]) -> bool
    ensures { IsTrue result → (x : ℕ) → x < length marks.now → slice_index_or marks.now x false ≡ true }
{
    for number in 0..marks.len() {
        if !marks[number] {
            return false;
        }
    }
    true
}

// The same, and whether each array has its read.
fn note_all(reads: &mut [WordRead], marks: &mut [bool], layout: Layout, wiring: &Netlist) -> bool
    requires layout { IsLayout (netlist_of wiring.now) layout }
    requires rules { KeepsRules (netlist_of wiring.now) }
    requires before { AreReads (netlist_of wiring.now) 0 reads.old marks.old }
    requires marked { AreReadWhereMarked (netlist_of wiring.now) marks.old }
    ensures { IsTrue result → HasReads (netlist_of wiring.now) reads.new }
{
    if !note_reads(reads, marks, layout, wiring) {
        return false;
    }
    all_marked(marks)
}

fn bare_reads(alloc: Global, wiring: &Netlist) -> Result<Vec<WordRead>, AllocError>
    ensures { IfOk result (λ v. v.items ≡ replicate (length wiring.now.arrays.items) (record { target = 0; index = atom.Net 0 })) }
{
    let read = WordRead {
        target: 0,
        index: Atom::Net(0),
    };
    let reads = vec![in alloc; read; wiring.arrays.len()]?;
    Ok(reads)
}

// The read of each array. None where some array is not read by one assign.
#[tactic(auto, using(crate::proofs::Assigned::none_read))]
pub fn reads_of(
    alloc: Global,
    layout: Layout,
    wiring: &Netlist,
) -> Result<Option<Vec<WordRead>>, AllocError>
    requires layout { IsLayout (netlist_of wiring.now) layout }
    requires rules { KeepsRules (netlist_of wiring.now) }
    ensures { IfOk result (λ o. IfSome o (λ v. HasReads (netlist_of wiring.now) v.items)) }
{
    let mut reads = bare_reads(alloc, wiring)?;
    let mut marks = bare_marks(alloc, wiring.arrays.len())?;
    if !note_all(&mut reads, &mut marks, layout, wiring) {
        return Ok(None);
    }
    Ok(Some(reads))
}
