// The steps of a plan. The rows that they propose only have to fit.

ghost use Rattle.std.specs.Prelude.{◌≡◌, length, IsTrue};
ghost use Rattle.batch_guess.specs.Guess.{KeepsCode};

use crate::fill::{Line, count_steps, first_apart};
use crate::guess::RowGuess;
use crate::hints::ValueChange;
use crate::proposals::{ENABLE, RowProposal, propose_access, propose_row};
use crate::sources::{source_of, source_of_slot};
use crate::stored::Stored;
use crate::table::{offer, run_upto};
use batch_plan::{BatchStep, WriteForm};
use batch_rows::Code;

// The most rounds in which the rows of a cycle are guessed.
const ROUNDS: usize = 16;

// The registers of a cycle, by their first place in the plan's list and that after their last, and the instructions up to
// which it reaches.
#[derive(Clone, Copy)]
struct Cycle {
    first: usize,
    last: usize,
    upto: usize,
}

// A copy of words, as far as there is room.
fn copy_words(to: &mut [u64], words: &[u64]) {
    for i in 0..to.len().min(words.len()) {
        to[i] = words[i];
    }
}

impl RowGuess {
    // The spare row of its lane becomes that of a slot, if no instruction that was run uses this slot.
    pub(crate) fn offer(&mut self, slot: usize) -> bool
        ensures { KeepsCode self.old self.new }
    {
        offer(
            &self.engine.code.widths,
            &self.engine.code.instructions,
            &self.engine.uses,
            &mut self.table,
            self.done,
            slot,
        )
    }

    // A row is proposed for a slot.
    #[tactic(auto, using(crate::proofs::Tables::table_refilled))]
    fn propose(&mut self, slot: usize, proposal: &RowProposal<'_>) -> bool
        ensures { KeepsCode self.old self.new }
    {
        propose_row(&mut self.table, slot, proposal);
        self.offer(slot)
    }

    // The row of a register on no cycle.
    fn shift(&mut self, stored: &Stored, register: usize) -> bool
        ensures { KeepsCode self.old self.new }
    {
        let Some(next) = self.engine.code.nexts.get(register) else {
            return false;
        };
        let next = *next;
        let slot = self.engine.slot_of(register);
        let stored = stored.reg(register);
        self.propose(slot, &RowProposal::Shift { next, stored })
    }

    // The row of a register that takes what is read of an array, or keeps its value.
    fn load(&mut self, stored: &Stored, register: usize) -> bool
        ensures { KeepsCode self.old self.new }
    {
        let Some(choice) = self.engine.next_right(register) else {
            return false;
        };
        let slot = self.engine.slot_of(register);
        let stored = stored.reg(register);
        self.propose(slot, &RowProposal::Load { choice, stored })
    }

    // The row of a read of an array whose words stay as they are.
    fn read(&mut self, stored: &Stored, array: usize) -> bool
        ensures { KeepsCode self.old self.new }
    {
        let Some(read) = self.engine.code.reads.get(array) else {
            return false;
        };
        let Some(words) = stored.arrays.get(array) else {
            return false;
        };
        let slot = read.target;
        let index = read.index;
        self.propose(slot, &RowProposal::Read { index, words })
    }

    // The row of a read of an array that is written. It works on a copy of the array's words.
    #[tactic(auto, using(crate::proofs::Tables::table_refilled))]
    fn read_written(&mut self, stored: &Stored, array: usize, written: WriteForm) -> bool
        ensures { KeepsCode self.old self.new }
    {
        let Some(access) = self.engine.access_at(stored, array, written) else {
            return false;
        };
        let Some(words) = stored.arrays.get(array) else {
            return false;
        };
        let Some(copy) = self.hints.words.get_mut(array) else {
            return false;
        };
        copy_words(copy, words);
        propose_access(&mut self.table, &access, copy);
        self.offer(access.target)
    }

    // The clocks of a piece that are no held ones are counted.
    fn count_clocks(&mut self)
        ensures { KeepsCode self.old self.new }
    {
        if self.engine.has_enable {
            if let Some(enables) = source_of_slot(&self.table.rows, ENABLE).numbers() {
                count_steps(&mut self.hints.clocks, enables);
            }
        }
    }

    // A register's row as it is up to a place, and a line from there.
    #[tactic(auto, using(crate::proofs::Tables::table_refilled))]
    fn go_on(&mut self, register: usize, first: usize, line: Line) -> bool
        ensures { KeepsCode self.old self.new }
    {
        let slot = self.engine.slot_of(register);
        let steps = self.hints.steps_of(line);
        let proposal = RowProposal::Line {
            slot,
            first,
            line,
            steps,
        };
        propose_row(&mut self.table, slot, &proposal);
        self.offer(slot)
    }

    // A register of a cycle, by its place in the plan's list.
    fn looped_at(&self, place: usize) -> Option<usize> {
        match self.engine.plan.looped.get(place) {
            Some(register) => Some(*register),
            None => None,
        }
    }

    // The first guess of a register: a line from its contents.
    fn guess_one(&mut self, stored: &Stored, place: usize) -> bool
        ensures { KeepsCode self.old self.new }
    {
        let Some(register) = self.looped_at(place) else {
            return false;
        };
        let Some(line) = self.hints.begin(register, stored.reg(register)) else {
            return false;
        };
        self.go_on(register, 0, line)
    }

    // The registers of a cycle, each by its first guess.
    fn guess_all(&mut self, stored: &Stored, cycle: Cycle) -> bool
        ensures { KeepsCode self.old self.new }
    {
        for place in cycle.first..cycle.last {
            if !self.guess_one(stored, place) {
                return false;
            }
        }
        true
    }

    // The first of `count` clocks at which a register's row is not its next value's row, one clock later.
    fn wrong_one(&self, place: usize, count: usize) -> Option<usize> {
        let register = self.looped_at(place)?;
        let next = self.engine.code.nexts.get(register)?;
        let rows = &self.table.rows;
        let row = rows.get(self.engine.slot_of(register))?;
        Some(first_apart(row, source_of(rows, next), count))
    }

    fn wrong_first(&self, cycle: Cycle, count: usize) -> usize {
        let mut wrong = count;
        for place in cycle.first..cycle.last {
            wrong = self.wrong_one(place, wrong).unwrap_or(0);
        }
        wrong
    }

    // How a register changes after a clock.
    fn change_at(&self, register: usize, clock: usize) -> Option<ValueChange> {
        let next = self.engine.code.nexts.get(register)?;
        let row = source_of_slot(&self.table.rows, self.engine.slot_of(register));
        let enable = source_of_slot(&self.table.rows, ENABLE);
        Some(ValueChange {
            clock,
            value: row.at(clock),
            next: source_of(&self.table.rows, next).at(clock),
            guessed: row.at(clock.saturating_add(1)),
            held: self.engine.has_enable && enable.at(clock) == 0,
        })
    }

    // A register whose guess is wrong after a clock goes on from the right value.
    fn mend_one(&mut self, place: usize, wrong: usize) -> bool
        ensures { KeepsCode self.old self.new }
    {
        let Some(register) = self.looped_at(place) else {
            return false;
        };
        let Some(change) = self.change_at(register, wrong) else {
            return false;
        };
        if change.next == change.guessed {
            return true;
        }
        let Some(line) = self.hints.go_on(register, change) else {
            return false;
        };
        self.go_on(register, wrong.saturating_add(1), line)
    }

    fn mend_all(&mut self, cycle: Cycle, wrong: usize) -> bool
        ensures { KeepsCode self.old self.new }
    {
        for place in cycle.first..cycle.last {
            if !self.mend_one(place, wrong) {
                return false;
            }
        }
        true
    }

    // The instructions from those that were run up to a place.
    fn run(&mut self, upto: usize)
        ensures { KeepsCode self.old self.new }
    {
        let code = Code {
            widths: &self.engine.code.widths,
            instructions: &self.engine.code.instructions,
            sizes: &self.engine.sizes,
        };
        self.done = run_upto(&code, &mut self.table, self.done, upto);
    }

    // No more than this many instructions count as run: the slots that only later ones use are free again.
    #[tactic(auto, using(crate::proofs::Tables::hold_fewer))]
    pub(crate) fn go_back(&mut self, done: usize)
        ensures { KeepsCode self.old self.new }
    {
        self.done = self.done.min(done);
    }

    // The registers of a cycle, guessed and mended until they are right over `count` clocks; false if that takes too many rounds.
    fn guess_cycle(&mut self, stored: &Stored, cycle: Cycle, count: usize) -> bool
        ensures { KeepsCode self.old self.new }
    {
        let done = self.done;
        if !self.guess_all(stored, cycle) {
            return false;
        }
        for _round in 0..ROUNDS {
            self.run(cycle.upto);
            let wrong = self.wrong_first(cycle, count);
            if wrong >= count {
                return true;
            }
            self.go_back(done);
            if !self.mend_all(cycle, wrong) {
                return false;
            }
        }
        false
    }

    // One step of the plan, whether it succeeds.
    fn take_step(&mut self, stored: &Stored, step: BatchStep, count: usize) -> bool
        ensures { KeepsCode self.old self.new }
    {
        match step {
            BatchStep::Run { upto } => {
                self.run(upto);
                true
            }
            BatchStep::Shift { register } => self.shift(stored, register),
            BatchStep::Read { array } => self.read(stored, array),
            BatchStep::Load { register } => self.load(stored, register),
            BatchStep::ReadWritten { array, written } => self.read_written(stored, array, written),
            BatchStep::Guess { first, last, upto } => {
                self.guess_cycle(stored, Cycle { first, last, upto }, count)
            }
        }
    }

    // The step of this number.
    fn step_at(&self, number: usize) -> Option<BatchStep> {
        match self.engine.plan.steps.get(number) {
            Some(step) => Some(*step),
            None => None,
        }
    }

    fn take_all(&mut self, stored: &Stored, count: usize) -> bool
        ensures { KeepsCode self.old self.new }
    {
        for number in 0..self.engine.plan.steps.len() {
            let Some(step) = self.step_at(number) else {
                return false;
            };
            if !self.take_step(stored, step, count) {
                return false;
            }
        }
        true
    }

    // All steps of the plan: true if all instructions are run then.
    pub(crate) fn take_steps(&mut self, stored: &Stored, count: usize) -> bool
        ensures code { KeepsCode self.old self.new }
        ensures all { IsTrue result → self.new.done ≡ length self.old.engine.code.instructions.items }
    {
        self.count_clocks();
        if !self.take_all(stored, count) {
            return false;
        }
        self.done == self.engine.code.instructions.len()
    }
}
