// The assigns that read no array, as instructions.

ghost use Rattle.std.specs.Prelude.{◌≡◌, ◌<◌, ◌++◌, false, true, [], ◌∷◌, length, replicate, slice_get, slice_index_or, is_none, Some, None, IsTrue, IfOk, OnOk, IfSome, ℕ};
ghost use Rattle.wiring.specs.declared.netlist.Assign.{Assign};
ghost use Rattle.wiring.specs.Rights.{array_of};
ghost use Rattle.wiring.specs.Netlist.{netlist_of};
ghost use Rattle.wiring.specs.Rules.{KeepsRules};
ghost use Rattle.cycle_sim.specs.Simulated.{IsLayout};
ghost use Rattle.cycle_sim.specs.Slots.{all_widths};
ghost use Rattle.batch_rows.specs.Code.{IsOrdered};
ghost use Rattle.batch_code.specs.Parts.{IsInstructionOf, AreInstructions, HasInstructions};

use batch_rows::{Instruction, is_ordered};
use cycle_sim::{Layout, right_of, slot_of};
use netlist::{Net, Netlist, Right};
use std::alloc::{AllocError, Global};

fn reads_no_array(right: &Right<Net, usize>) -> bool
    ensures { result ≡ is_none (array_of right.now) }
{
    match right {
        Right::Word(_, _) => false,
        Right::Copy(_) | Right::Not(_) | Right::Binary(_, _, _) | Right::Choose(_, _, _) => true,
        Right::Join(_, _) | Right::Repeat(_, _) | Right::Bit(_, _) | Right::Slice(_, _, _) => true,
    }
}

// The instruction of the assign of this number.
fn instruction_at(layout: Layout, wiring: &Netlist, number: usize) -> Instruction
    requires layout { IsLayout (netlist_of wiring.now) layout }
    requires rules { KeepsRules (netlist_of wiring.now) }
    requires within { number < length wiring.now.assigns.items }
    ensures { IsInstructionOf (netlist_of wiring.now) number result }
{
    let assign = &wiring.assigns[number];
    let target = slot_of(layout, assign.target);
    let right = right_of(layout, assign.right);
    Instruction { target, right }
}

fn add_instruction(
    code: &mut Vec<Instruction>,
    target: usize,
    right: Right<usize, usize>,
) -> Result<(), AllocError>
    ensures { OnOk result (code.new.items ≡ code.old.items ++ record { target = target; right = right } ∷ []) }
{
    code.push(Instruction { target, right })?;
    Ok(())
}

// Adds it, and its mark.
fn add_assign(
    code: &mut Vec<Instruction>,
    marks: &mut [bool],
    layout: Layout,
    wiring: &Netlist,
    number: usize,
) -> Result<(), AllocError>
    requires layout { IsLayout (netlist_of wiring.now) layout }
    requires rules { KeepsRules (netlist_of wiring.now) }
    requires within { number < length wiring.now.assigns.items }
    requires plain { (a : Assign) → slice_get wiring.now.assigns.items number ≡ Some a → array_of a.right ≡ None }
    requires before { AreInstructions (netlist_of wiring.now) code.old.items marks.old }
    ensures { OnOk result (AreInstructions (netlist_of wiring.now) code.new.items marks.new) }
{
    let Instruction { target, right } = instruction_at(layout, wiring, number);
    add_instruction(code, target, right)?;
    marks[number] = true;
    Ok(())
}

fn is_plain(wiring: &Netlist, number: usize) -> bool
    requires within { number < length wiring.now.assigns.items }
    ensures { (a : Assign) → slice_get wiring.now.assigns.items number ≡ Some a → result ≡ is_none (array_of a.right) }
{
    reads_no_array(&wiring.assigns[number].right)
}

// The same where there is such an assign, and it reads no array.
fn note_assign(
    code: &mut Vec<Instruction>,
    marks: &mut [bool],
    layout: Layout,
    wiring: &Netlist,
    number: usize,
) -> Result<bool, AllocError>
    requires layout { IsLayout (netlist_of wiring.now) layout }
    requires rules { KeepsRules (netlist_of wiring.now) }
    requires before { AreInstructions (netlist_of wiring.now) code.old.items marks.old }
    ensures { IfOk result (λ noted. IsTrue noted → AreInstructions (netlist_of wiring.now) code.new.items marks.new) }
{
    if number >= wiring.assigns.len() {
        return Ok(false);
    }
    if !is_plain(wiring, number) {
        return Ok(false);
    }
    add_assign(code, marks, layout, wiring, number)?;
    Ok(true)
}

fn note_order(
    code: &mut Vec<Instruction>,
    marks: &mut [bool],
    layout: Layout,
    wiring: &Netlist,
    order: &[usize],
) -> Result<bool, AllocError>
    requires layout { IsLayout (netlist_of wiring.now) layout }
    requires rules { KeepsRules (netlist_of wiring.now) }
    requires before { AreInstructions (netlist_of wiring.now) code.old.items marks.old }
    ensures { IfOk result (λ noted. IsTrue noted → AreInstructions (netlist_of wiring.now) code.new.items marks.new) }
{
    for number in order {
        if !note_assign(code, marks, layout, wiring, *number)? {
            return Ok(false);
        }
    }
    Ok(true)
}

fn is_covered(marks: &[bool], wiring: &Netlist, number: usize) -> bool
    requires within { number < length wiring.now.assigns.items }
    requires count { length marks.now ≡ length wiring.now.assigns.items }
    ensures { IsTrue result → (a : Assign) → slice_get wiring.now.assigns.items number ≡ Some a → array_of a.right ≡ None
        → slice_index_or marks.now number false ≡ true }
{
    if !is_plain(wiring, number) {
        return true;
    }
    marks[number]
}

// Whether each assign that reads no array has its mark.
fn are_covered(marks: &[bool], wiring: &Netlist) -> bool
    requires count { length marks.now ≡ length wiring.now.assigns.items }
    ensures { IsTrue result → (k : ℕ) (a : Assign) → slice_get wiring.now.assigns.items k ≡ Some a → array_of a.right ≡ None
        → slice_index_or marks.now k false ≡ true }
{
    for number in 0..wiring.assigns.len() {
        if !is_covered(marks, wiring, number) {
            return false;
        }
    }
    true
}

// The same, and whether these are all.
fn note_all(
    code: &mut Vec<Instruction>,
    marks: &mut [bool],
    layout: Layout,
    wiring: &Netlist,
    order: &[usize],
) -> Result<bool, AllocError>
    requires layout { IsLayout (netlist_of wiring.now) layout }
    requires rules { KeepsRules (netlist_of wiring.now) }
    requires before { AreInstructions (netlist_of wiring.now) code.old.items marks.old }
    ensures { IfOk result (λ all. IsTrue all → HasInstructions (netlist_of wiring.now) code.new.items) }
{
    if !note_order(code, marks, layout, wiring, order)? {
        return Ok(false);
    }
    let covered = are_covered(marks, wiring);
    Ok(covered)
}

// No marks, of this many.
pub fn bare_marks(alloc: Global, count: usize) -> Result<Vec<bool>, AllocError>
    ensures { IfOk result (λ v. v.items ≡ replicate count false) }
{
    let marks = vec![in alloc; false; count]?;
    Ok(marks)
}

// The instructions of the assigns in this order. None where the order does not name each assign that reads no array, or does not
// put an instruction after those that it reads.
pub fn instructions_of(
    alloc: Global,
    layout: Layout,
    wiring: &Netlist,
    order: &[usize],
) -> Result<Option<Vec<Instruction>>, AllocError>
    requires layout { IsLayout (netlist_of wiring.now) layout }
    requires rules { KeepsRules (netlist_of wiring.now) }
    ensures all { IfOk result (λ o. IfSome o (λ v. HasInstructions (netlist_of wiring.now) v.items)) }
    ensures ordered { IfOk result (λ o. IfSome o (λ v. IsOrdered v.items)) }
{
    let mut code = Vec::new(alloc);
    let mut marks = bare_marks(alloc, wiring.assigns.len())?;
    if !note_all(&mut code, &mut marks, layout, wiring, order)? {
        return Ok(None);
    }
    if !is_ordered(alloc, layout.slots, &code)? {
        return Ok(None);
    }
    Ok(Some(code))
}
