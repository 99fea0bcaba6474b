// Where the words of packed arrays are.

ghost use Rattle.std.specs.Prelude.{◌≡◌, IfOk};
ghost use Rattle.array_packing.specs.Packing.{whole_slots as whole};

use dk_base::OutOfMemory;
use std::alloc::Global;
use wiring::Shape;

/// Where an array's words are: in the words of this array, this many bits from this one on.
#[derive(Clone, Copy, Debug, PartialEq, Eq)]
pub struct Slot {
    pub array: usize,
    pub low: u64,
    pub width: u8,
}

// Each array is where it was.
pub(crate) fn whole_slots(alloc: Global, arrays: &[Shape]) -> Result<Vec<Slot>, OutOfMemory>
    ensures { IfOk result (λ slots. slots.items ≡ whole 0 arrays.now) }
{
    let mut slots = Vec::new(alloc);
    for (array, shape) in arrays.iter().enumerate() {
        let width = shape.width.bits();
        slots.push(Slot {
            array,
            low: 0,
            width,
        })?;
    }
    Ok(slots)
}
