// Whether instructions are in an order in which they can be run.

ghost use Rattle.std.specs.Prelude.{◌≡◌, ◌<◌, length, false, IsTrue, IfOk, Contains, slice_index_or};
ghost use Rattle.wiring.specs.Rights.{nets_of};
ghost use Rattle.batch_rows.specs.Code.{IsOrdered};
ghost use Rattle.wiring.specs.declared.right.Atom.TheVariants.{Net};
ghost use Rattle.wiring.specs.declared.right.Right.TheVariants.{Choose, Copy, Join};
ghost use Rattle.batch_rows.specs.Seen.{AreMarked, GoesOn, IsOrderedUpTo};

use crate::code::Instruction;
use std::alloc::{AllocError, Global};
use wiring::{Atom, Right};

// Whether there was a place for the mark.
fn mark(seen: &mut [bool], slot: usize) -> bool
    ensures { AreMarked seen.old seen.new result (Copy (Net slot)) }
{
    if slot < seen.len() {
        seen[slot] = true;
        true
    } else {
        false
    }
}

fn mark_atom(seen: &mut [bool], a: &Atom<usize>) -> bool
    ensures { AreMarked seen.old seen.new result (Copy a.now) }
{
    match a {
        Atom::Net(n) => mark(seen, *n),
        Atom::Constant(_) => true,
    }
}

fn mark_two(seen: &mut [bool], a: &Atom<usize>, b: &Atom<usize>) -> bool
    ensures { AreMarked seen.old seen.new result (Join a.now b.now) }
{
    if !mark_atom(seen, a) {
        return false;
    }
    mark_atom(seen, b)
}

fn mark_three(seen: &mut [bool], c: &Atom<usize>, a: &Atom<usize>, b: &Atom<usize>) -> bool
    ensures { AreMarked seen.old seen.new result (Choose c.now a.now b.now) }
{
    if !mark_atom(seen, c) {
        return false;
    }
    mark_two(seen, a, b)
}

fn mark_right(seen: &mut [bool], right: &Right<usize, usize>) -> bool
    ensures { AreMarked seen.old seen.new result right.now }
{
    match right {
        Right::Copy(a) => mark_atom(seen, a),
        Right::Not(a) => mark_atom(seen, a),
        Right::Binary(_, a, b) => mark_two(seen, a, b),
        Right::Choose(c, a, b) => mark_three(seen, c, a, b),
        Right::Join(a, b) => mark_two(seen, a, b),
        Right::Repeat(_, a) => mark_atom(seen, a),
        Right::Bit(v, _) => mark(seen, *v),
        Right::Slice(v, _, _) => mark(seen, *v),
        Right::Word(_, i) => mark_atom(seen, i),
    }
}

fn is_marked(seen: &[bool], slot: usize) -> bool
    ensures { result ≡ slice_index_or seen.now slot false }
{
    if slot < seen.len() { seen[slot] } else { false }
}

// Marks what an instruction reads and writes. It answers true only where its target had no mark, and is none of what it reads.
#[tactic(auto, using(crate::proofs::Order::not_seen, crate::proofs::Order::not_read))]
fn goes_on(seen: &mut [bool], instruction: &Instruction) -> bool
    ensures { GoesOn seen.old seen.new result instruction.now }
{
    if !mark_right(seen, &instruction.right) {
        return false;
    }
    if is_marked(seen, instruction.target) {
        return false;
    }
    mark(seen, instruction.target)
}

// The same over instructions one after another, with no mark at first.
fn orders(seen: &mut [bool], code: &[Instruction]) -> bool
    ensures { IsTrue result → IsOrdered code.now }
{
    for k in 0..code.len() {
        if !goes_on(seen, &code[k]) {
            return false;
        }
    }
    true
}

/// Whether no instruction writes a slot that one before it, or itself, reads or has written: what `run_code` asks. Without that
/// many slots it answers false.
pub fn is_ordered(alloc: Global, slots: usize, code: &[Instruction]) -> Result<bool, AllocError>
    ensures { IfOk result (λ b. IsTrue b → IsOrdered code.now) }
{
    let mut seen = vec![in alloc; false; slots]?;
    let ordered = orders(&mut seen, code);
    Ok(ordered)
}
