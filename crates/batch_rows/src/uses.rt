// The first instruction that reads or writes each slot.

ghost use Rattle.std.specs.Prelude.{◌≤◌, ◌≡◌, length, IfOk, slice_index};
ghost use Rattle.wiring.specs.declared.right.Atom.TheVariants.{Net};
ghost use Rattle.wiring.specs.declared.right.Right.TheVariants.{Copy, Choose, Join};
ghost use Rattle.batch_rows.specs.Uses.{AreNoted, AreFirstUses};

use crate::code::Instruction;
use std::alloc::{AllocError, Global};
use wiring::{Atom, Right};

// A use of a slot by the instruction of this number.
fn note_slot(uses: &mut [usize], slot: usize, number: usize)
    ensures { AreNoted uses.old uses.new number (Copy (Net slot)) }
{
    if slot < uses.len() {
        uses[slot] = uses[slot].min(number);
    }
}

fn note_atom(uses: &mut [usize], a: &Atom<usize>, number: usize)
    ensures { AreNoted uses.old uses.new number (Copy a.now) }
{
    match a {
        Atom::Net(n) => note_slot(uses, *n, number),
        Atom::Constant(_) => {}
    }
}

fn note_two(uses: &mut [usize], a: &Atom<usize>, b: &Atom<usize>, number: usize)
    ensures { AreNoted uses.old uses.new number (Join a.now b.now) }
{
    note_atom(uses, a, number);
    note_atom(uses, b, number);
}

fn note_three(uses: &mut [usize], a: &Atom<usize>, b: &Atom<usize>, c: &Atom<usize>, number: usize)
    ensures { AreNoted uses.old uses.new number (Choose a.now b.now c.now) }
{
    note_atom(uses, a, number);
    note_two(uses, b, c, number);
}

fn note_right(uses: &mut [usize], right: &Right<usize, usize>, number: usize)
    ensures { AreNoted uses.old uses.new number right.now }
{
    match right {
        Right::Copy(a) => note_atom(uses, a, number),
        Right::Not(a) => note_atom(uses, a, number),
        Right::Binary(_, a, b) => note_two(uses, a, b, number),
        Right::Choose(c, a, b) => note_three(uses, c, a, b, number),
        Right::Join(a, b) => note_two(uses, a, b, number),
        Right::Repeat(_, a) => note_atom(uses, a, number),
        Right::Bit(v, _) => note_slot(uses, *v, number),
        Right::Slice(v, _, _) => note_slot(uses, *v, number),
        Right::Word(_, i) => note_atom(uses, i, number),
    }
}

#[tactic(auto, using(crate::proofs::FirstUses::right_later))]
fn note_instruction(uses: &mut [usize], instruction: &Instruction, number: usize)
    ensures right { AreNoted uses.old uses.new number instruction.now.right }
    ensures target { slice_index uses.new instruction.now.target ≤ number }
{
    note_right(uses, &instruction.right, number);
    note_slot(uses, instruction.target, number);
}

fn note_code(uses: &mut [usize], code: &[Instruction])
    ensures { AreFirstUses code.now uses.new }
{
    for number in 0..code.len() {
        note_instruction(uses, &code[number], number);
    }
}

// For each of this many slots the number of the first instruction that reads or writes it, or that of all.
pub fn first_uses(
    alloc: Global,
    slots: usize,
    code: &[Instruction],
) -> Result<Vec<usize>, AllocError>
    ensures { IfOk result (λ v. AreFirstUses code.now v.items) }
{
    let mut uses = vec![in alloc; code.len(); slots]?;
    note_code(&mut uses, code);
    Ok(uses)
}
