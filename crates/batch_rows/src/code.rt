// Instructions over rows.

ghost use Rattle.std.specs.Prelude.{◌≡◌, ◌<◌, ◌≤◌, length, map, IfOk};
ghost use Rattle.lane_rows.specs.Values.{InLanes, bits_of, values_of};
ghost use Rattle.batch_rows.specs.Rights.{IsRightRow};
ghost use Rattle.batch_rows.specs.Code.{IsStretch, CanRunIn, RowIsPut, CanRun, HaveRun, RowsAreRun};
ghost use Rattle.batch_rows.specs.LaneSizes.{HasScratch, HaveRooms};

use crate::rights::{Slots, Spares, right_row};
use lane_rows::{Lane, Row, Size, put_row};
use std::alloc::{AllocError, Global};
use wiring::{Right, Width};

/// A slot that takes the value of a right side over slots.
#[derive(Clone, Copy)]
pub struct Instruction {
    pub target: usize,
    pub right: Right<usize, usize>,
}

/// Room for the instructions that are run in a lane: a row for what one makes, and spare rows for its operands.
#[derive(Drop)]
pub struct Scratch<L> {
    pub(crate) to: Vec<L>,
    pub(crate) spares: Spares<L>,
}

impl<L: Lane> Scratch<L> {
    /// Room for rows of this many clocks.
    pub fn new(alloc: Global, count: usize) -> Result<Scratch<L>, AllocError>
        ensures { IfOk result (λ b. HasScratch b count) }
    {
        let to = vec![in alloc; L::cut(0); count]?;
        let spares = Spares::new(alloc, count)?;
        Ok(Scratch { to, spares })
    }
}

/// That of all lanes.
#[derive(Drop)]
pub struct Rooms {
    pub(crate) narrow: Scratch<u16>,
    pub(crate) middle: Scratch<u32>,
    pub(crate) wide: Scratch<u64>,
}

impl Rooms {
    /// Room for rows of this many clocks.
    pub fn new(alloc: Global, count: usize) -> Result<Rooms, AllocError>
        ensures { IfOk result (λ r. HaveRooms r count) }
    {
        let narrow = Scratch::new(alloc, count)?;
        let middle = Scratch::new(alloc, count)?;
        let wide = Scratch::new(alloc, count)?;
        Ok(Rooms {
            narrow,
            middle,
            wide,
        })
    }
}

// The row of an instruction, in a lane.
fn make_row<L: Lane>(
    widths: &[Width],
    rows: &[Row],
    scratch: &mut Scratch<L>,
    instruction: &Instruction,
)
    requires one { CanRunIn L.bits widths.now (length scratch.old.to.items) rows.now instruction.now }
    requires scratch { HasScratch scratch.old (length scratch.old.to.items) }
    ensures scratch { HasScratch scratch.new (length scratch.old.to.items) }
    ensures row { IsRightRow widths.now (values_of rows.now) instruction.now.right (map L.value scratch.new.to.items) }
{
    let slots = Slots { widths, rows };
    right_row(
        &slots,
        &mut scratch.spares,
        &instruction.right,
        &mut scratch.to,
    );
}

// One instruction in a lane: its row is put into its slot.
fn run_in<L: Lane>(
    widths: &[Width],
    rows: &mut [Row],
    scratch: &mut Scratch<L>,
    instruction: &Instruction,
)
    requires one { CanRunIn L.bits widths.now (length scratch.old.to.items) rows.old instruction.now }
    requires lanes { InLanes widths.now rows.old }
    requires scratch { HasScratch scratch.old (length scratch.old.to.items) }
    ensures scratch { HasScratch scratch.new (length scratch.old.to.items) }
    ensures put { RowIsPut widths.now (length scratch.old.to.items) instruction.now rows.old rows.new }
{
    make_row(widths, rows, scratch, instruction);
    put_row(rows, instruction.target, &mut scratch.to);
}

// One instruction in the lane of this size.
fn run_instruction(
    widths: &[Width],
    rows: &mut [Row],
    rooms: &mut Rooms,
    instruction: &Instruction,
    size: Size,
    count: usize,
)
    requires one { CanRunIn (bits_of size) widths.now count rows.old instruction.now }
    requires lanes { InLanes widths.now rows.old }
    requires rooms { HaveRooms rooms.old count }
    ensures rooms { HaveRooms rooms.new count }
    ensures put { RowIsPut widths.now count instruction.now rows.old rows.new }
{
    match size {
        Size::Narrow => run_in(widths, rows, &mut rooms.narrow, instruction),
        Size::Middle => run_in(widths, rows, &mut rooms.middle, instruction),
        Size::Wide => run_in(widths, rows, &mut rooms.wide, instruction),
    }
}

/// Instructions over slots of these widths, and the lane in which each is run.
#[derive(Clone, Copy)]
pub struct Code<'a> {
    pub widths: &'a [Width],
    pub instructions: &'a [Instruction],
    pub sizes: &'a [Size],
}

/// The instructions from one place up to another, after those that hold already: each slot that is a target of theirs gets its
/// row. No other row changes.
pub fn run_code(
    code: &Code<'_>,
    rows: &mut [Row],
    rooms: &mut Rooms,
    first: usize,
    last: usize,
    count: usize,
)
    requires places { IsStretch first last (length code.now.instructions.now) }
    requires code { CanRun code.now.widths.now code.now.instructions.now code.now.sizes.now }
    requires ran { HaveRun code.now.widths.now code.now.instructions.now count rows.old first }
    requires rooms { HaveRooms rooms.old count }
    ensures rooms { HaveRooms rooms.new count }
    ensures run { RowsAreRun code.now.widths.now code.now.instructions.now count rows.old rows.new last }
{
    let widths = code.widths;
    let instructions = code.instructions;
    let sizes = code.sizes;
    for k in first..last {
        run_instruction(widths, rows, rooms, &instructions[k], sizes[k], count);
    }
}
