// What earlier pieces showed of registers and arrays. It claims nothing.

use crate::fill::Line;
use netlist::Netlist;
use std::alloc::{AllocError, Global};

// How a register goes on: each value is one more than the one before.
#[derive(Clone, Copy)]
pub struct Habit {
    // For how many clocks it keeps a value: 1 for a counter of clocks, the clocks of a line for a counter of lines.
    pub stay: usize,
    // It wraps after its last value, to its first one.
    pub last: u64,
    pub first: u64,
    // Whether it keeps its value in held clocks, which do not count.
    pub waits: bool,
    // Where its value began after the last wrong guess in the piece, if there was one.
    pub since: Option<usize>,
}

// A register's value in a clock, the right one in the next clock, and the one that was guessed there.
#[derive(Clone, Copy)]
pub(crate) struct ValueChange {
    pub(crate) clock: usize,
    pub(crate) value: u64,
    pub(crate) next: u64,
    pub(crate) guessed: u64,
    // Whether the clock is held.
    pub(crate) held: bool,
}

// Copies of the words of arrays to which a batch comes back, how each register goes on, and how many clocks before each one of a
// piece were no held ones.
#[derive(Drop)]
pub struct Hints {
    pub words: Vec<Vec<u64>>,
    pub habits: Vec<Habit>,
    pub clocks: Vec<u16>,
}

// Room for the words of arrays of at most this many words.
fn copies_of(alloc: Global, wiring: &Netlist, most: usize) -> Result<Vec<Vec<u64>>, AllocError> {
    let mut copies = Vec::new(alloc);
    for shape in &wiring.arrays {
        let depth = shape.depth.words() as usize;
        let words = if depth <= most { depth } else { 0 };
        copies.push(vec![in alloc; 0; words]?)?;
    }
    Ok(copies)
}

impl Hints {
    // For batches of at most this many clocks, in rows of this many places: each register counts clocks.
    pub(crate) fn new(
        alloc: Global,
        wiring: &Netlist,
        most: usize,
        long: usize,
    ) -> Result<Hints, AllocError> {
        let words = copies_of(alloc, wiring, most)?;
        let habit = Habit {
            stay: 1,
            last: u64::MAX,
            first: 0,
            waits: wiring.enable,
            since: None,
        };
        let habits = vec![in alloc; habit; wiring.regs.len()]?;
        let clocks = vec![in alloc; 0; long]?;
        Ok(Hints {
            words,
            habits,
            clocks,
        })
    }

    // The line that a register takes from its contents on, at the start of a piece.
    pub(crate) fn begin(&mut self, register: usize, value: u64) -> Option<Line> {
        let habit = self.habits.get_mut(register)?;
        habit.since = None;
        let habit = *habit;
        Some(Line { value, habit })
    }

    // How many clocks before a place count.
    fn counted(&self, waits: bool, place: usize) -> usize {
        match self.clocks.get(place) {
            Some(count) if waits => *count as usize,
            _ => place,
        }
    }

    // For how many clocks a register kept a value, up to the clock in which it changes. Where none is known, as before.
    fn stay_of(&self, habit: Habit, change: ValueChange) -> usize {
        match habit.since {
            Some(since) if change.guessed == change.value => {
                let upto = self.counted(habit.waits, change.clock.saturating_add(1));
                upto.saturating_sub(self.counted(habit.waits, since)).max(1)
            }
            _ => habit.stay,
        }
    }

    // The line that a register takes after a wrong guess.
    pub(crate) fn go_on(&mut self, register: usize, change: ValueChange) -> Option<Line> {
        let mut habit = *self.habits.get(register)?;
        if change.next == change.value {
            habit.stay = usize::MAX;
        } else {
            habit.waits = habit.waits && !change.held;
            habit.stay = self.stay_of(habit, change);
            habit.since = Some(change.clock.saturating_add(1));
            if change.value == habit.last || change.next != change.value.saturating_add(1) {
                habit.last = change.value;
                habit.first = change.next;
            }
        }
        self.habits[register] = habit;
        Some(Line {
            value: change.next,
            habit,
        })
    }

    // What counts the steps of a line, where it takes none in held clocks.
    pub(crate) fn steps_of(&self, line: Line) -> Option<&[u16]> {
        if line.habit.waits {
            Some(&self.clocks)
        } else {
            None
        }
    }
}
