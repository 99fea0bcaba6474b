// What is held at power-up.

ghost use Rattle.std.specs.Prelude.{◌≡◌, ◌≤◌, map, All, IfOk};
ghost use Rattle.wiring.specs.declared.netlist.Shape.{Shape};
ghost use Rattle.cycle_sim.specs.Slots.{words_of};
ghost use Rattle.cycle_sim.specs.Filled.{fill_value, filled_words};

use netlist::{Shape, Width};
use std::alloc::{AllocError, Global};
use wiring::limit;

/// What registers and words hold at power-up: all bits 0, or all bits 1.
#[derive(Clone, Copy, Debug, PartialEq, Eq)]
pub enum Fill {
    Zeros,
    Ones,
}

fn filled(fill: Fill, width: Width) -> u64
    ensures { result ≡ fill_value fill width }
{
    match fill {
        Fill::Zeros => 0,
        Fill::Ones => (limit(width.bits()) - 1) as u64,
    }
}

pub fn filled_slots(alloc: Global, fill: Fill, widths: &[Width]) -> Result<Vec<u64>, AllocError>
    ensures { IfOk result (λ v. v.items ≡ map (fill_value fill) widths.now) }
{
    let mut values = Vec::new(alloc);
    for width in widths {
        values.push(filled(fill, *width))?;
    }
    Ok(values)
}

pub fn filled_arrays(
    alloc: Global,
    fill: Fill,
    shapes: &[Shape],
) -> Result<Vec<Vec<u64>>, AllocError>
    ensures { IfOk result (λ v. words_of v.items ≡ map (filled_words fill) shapes.now) }
{
    let mut arrays = Vec::new(alloc);
    for shape in shapes {
        let word = filled(fill, shape.width);
        arrays.push(vec![in alloc; word; shape.depth.words() as usize]?)?;
    }
    Ok(arrays)
}
