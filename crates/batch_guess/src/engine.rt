// What is known of a module whose rows are guessed.

ghost use Rattle.std.specs.Prelude.{◌≡◌, IfOk};
ghost use Rattle.batch_rows.specs.Code.{AreSound, IsOrdered};
ghost use Rattle.batch_guess.specs.Engine.{IsEngine};

use crate::stored::Stored;
use batch_plan::{BatchPlan, WriteForm};
use batch_rows::{BatchCode, WordPut, first_uses, sizes_of};
use lane_rows::Size;
use netlist::Netlist;
use std::alloc::{AllocError, Global};
use wiring::{Atom, Right};

/// The code of a module, with the plan after which its rows are filled. The plan is a proposal: nothing rests on it.
#[derive(Drop)]
pub struct Engine {
    pub code: BatchCode,
    pub plan: BatchPlan,
    /// For each slot the first instruction that uses it.
    pub uses: Vec<usize>,
    /// The lane in which each instruction is run.
    pub sizes: Vec<Size>,
    /// The instruction that makes each slot, if one does.
    pub makers: Vec<Option<usize>>,
    /// Whether there is the port en, and how many dins there are.
    pub has_enable: bool,
    pub ports: usize,
}

// An array that is read and written clock by clock.
#[derive(Clone, Copy)]
pub(crate) struct WrittenArray {
    pub(crate) written: WriteForm,
    // The slot of what is read, and the index.
    pub(crate) target: usize,
    pub(crate) read: Atom<usize>,
    pub(crate) put: WordPut,
    // The choice by which it is written, if it is.
    pub(crate) choice: Option<Right<usize, usize>>,
    // The contents of the copying register, if there is one.
    pub(crate) copy: u64,
}

fn note_maker(makers: &mut [Option<usize>], slot: usize, number: usize) {
    if slot < makers.len() {
        makers[slot] = Some(number);
    }
}

// The instruction that makes each slot.
fn makers_of(alloc: Global, code: &BatchCode) -> Result<Vec<Option<usize>>, AllocError> {
    let mut makers = vec![in alloc; None; code.widths.len()]?;
    for number in 0..code.instructions.len() {
        note_maker(&mut makers, code.instructions[number].target, number);
    }
    Ok(makers)
}

impl Engine {
    /// The engine of a code and its plan, for a module with this many dins.
    pub fn new(
        alloc: Global,
        code: BatchCode,
        plan: BatchPlan,
        wiring: &Netlist,
        ports: usize,
    ) -> Result<Engine, AllocError>
        requires sound { AreSound code.widths.items code.instructions.items }
        requires ordered { IsOrdered code.instructions.items }
        ensures engine { IfOk result IsEngine }
        ensures code { IfOk result (λ e. e.code ≡ code) }
        ensures enable { IfOk result (λ e. e.has_enable ≡ wiring.now.enable) }
        ensures ports { IfOk result (λ e. e.ports ≡ ports) }
    {
        let uses = first_uses(alloc, code.widths.len(), &code.instructions)?;
        let sizes = sizes_of(alloc, &code.widths, &code.instructions)?;
        let makers = makers_of(alloc, &code)?;
        Ok(Engine {
            code,
            plan,
            uses,
            sizes,
            makers,
            has_enable: wiring.enable,
            ports,
        })
    }

    pub(crate) fn slot_of(&self, register: usize) -> usize {
        self.code.first_reg.saturating_add(register)
    }

    // The right side by which an atom is made.
    fn right_of(&self, a: &Atom<usize>) -> Option<Right<usize, usize>> {
        let Atom::Net(slot) = a else {
            return None;
        };
        let maker = self.makers.get(*slot)?;
        let instruction = self.code.instructions.get((*maker)?)?;
        Some(instruction.right)
    }

    // The right side by which the next value of a register is made.
    pub(crate) fn next_right(&self, register: usize) -> Option<Right<usize, usize>> {
        let next = self.code.nexts.get(register)?;
        self.right_of(next)
    }

    // The contents of the register that a choice keeps.
    fn kept(&self, stored: &Stored, choice: &Right<usize, usize>) -> u64 {
        if let Right::Choose(_, _, Atom::Net(slot)) = choice {
            stored.reg(slot.saturating_sub(self.code.first_reg))
        } else {
            0
        }
    }

    // How an array is read and written clock by clock.
    pub(crate) fn access_at(
        &self,
        stored: &Stored,
        array: usize,
        written: WriteForm,
    ) -> Option<WrittenArray> {
        let read = self.code.reads.get(array)?;
        let put = *self.code.puts.get(array)?;
        let mut access = WrittenArray {
            written,
            target: read.target,
            read: read.index,
            put,
            choice: None,
            copy: 0,
        };
        if written != WriteForm::Put {
            let choice = self.right_of(&put.value)?;
            access.copy = self.kept(stored, &choice);
            access.choice = Some(choice);
        }
        Some(access)
    }
}
