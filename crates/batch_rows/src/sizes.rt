// Lanes for slots and for instructions.

ghost use Rattle.std.specs.Prelude.{◌≡◌, ℕ, ◌+◌, ◌<◌, ◌≤◌, length, replicate, slice_index, IfOk};
ghost use Rattle.wiring.specs.declared.right.Atom.TheVariants.{Net};
ghost use Rattle.wiring.specs.declared.right.Right.TheVariants.{Copy, Choose, Join};
ghost use Rattle.batch_rows.specs.LaneSizes.{IsWider, IsSized, AreSized};
ghost use Rattle.lane_rows.specs.Values.{bits_of, row_bits, row_values};

use crate::code::Instruction;
use crate::rights::{slot_width, width_of};
use lane_rows::{Size, size_of_width};
use std::alloc::{AllocError, Global};
use wiring::{Atom, Right, Width};

// The wider one of a width and an atom.
fn wider(widths: &[Width], a: &Atom<usize>, width: u8) -> u8
    requires { width ≤ 64 }
    ensures { IsWider widths.now width result (Copy a.now) }
{
    width_of(widths, a).max(width)
}

fn wider_slot(widths: &[Width], slot: usize, width: u8) -> u8
    requires { width ≤ 64 }
    ensures { IsWider widths.now width result (Copy (Net slot)) }
{
    slot_width(widths, slot).max(width)
}

fn wider_two(widths: &[Width], a: &Atom<usize>, b: &Atom<usize>, width: u8) -> u8
    requires { width ≤ 64 }
    ensures { IsWider widths.now width result (Join a.now b.now) }
{
    let both = wider(widths, a, width);
    wider(widths, b, both)
}

fn wider_three(widths: &[Width], a: &Atom<usize>, b: &Atom<usize>, c: &Atom<usize>, width: u8) -> u8
    requires { width ≤ 64 }
    ensures { IsWider widths.now width result (Choose a.now b.now c.now) }
{
    let two = wider_two(widths, a, b, width);
    wider(widths, c, two)
}

// The greatest width of the operands of a right side, at least this one.
fn widest(widths: &[Width], right: &Right<usize, usize>, width: u8) -> u8
    requires { width ≤ 64 }
    ensures { IsWider widths.now width result right.now }
{
    match right {
        Right::Copy(a) => wider(widths, a, width),
        Right::Not(a) => wider(widths, a, width),
        Right::Binary(_, a, b) => wider_two(widths, a, b, width),
        Right::Choose(c, a, b) => wider_three(widths, c, a, b, width),
        Right::Join(a, b) => wider_two(widths, a, b, width),
        Right::Repeat(_, a) => wider(widths, a, width),
        Right::Bit(v, _) => wider_slot(widths, *v, width),
        Right::Slice(v, _, _) => wider_slot(widths, *v, width),
        Right::Word(_, i) => wider(widths, i, width),
    }
}

/// The lane in which an instruction is run: the narrowest that holds its slots and constants.
#[tactic(auto, using(crate::proofs::Sized::sized_is))]
pub fn size_of(widths: &[Width], instruction: &Instruction) -> Size
    ensures { IsSized widths.now (bits_of result) instruction.now }
{
    let width = slot_width(widths, instruction.target);
    size_of_width(widest(widths, &instruction.right, width))
}

/// The lane of each instruction.
#[tactic(auto)]
pub fn sizes_of(
    alloc: Global,
    widths: &[Width],
    code: &[Instruction],
) -> Result<Vec<Size>, AllocError>
    ensures { IfOk result (λ v. AreSized widths.now code.now v.items) }
{
    let mut sizes = Vec::new(alloc);
    for k in 0..code.len() {
        sizes.push(size_of(widths, &code[k]))?;
    }
    Ok(sizes)
}
