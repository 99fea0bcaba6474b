// Whether two modules have the same bits.

ghost use Rattle.std.specs.Prelude.{◌≡◌, ℕ, ◌+◌, ◌*◌, ◌≤◌, ◌↔◌, IsTrue, IfOk, length};
ghost use Rattle.wiring.specs.BufferBits.{IsBufferBits, array_bits as array_bits_of};
ghost use Rattle.module_pass.specs.Words.{word_bits as word_bits_of};

use dk_base::OutOfMemory;
use netlist::Module;
use std::alloc::Global;
use wiring::Shape;

fn shape_bits(shape: Shape) -> u128
    ensures bits { result ≡ shape.width * shape.depth }
    ensures bound { result ≤ 4294967296 }
{
    shape.width.bits() as u128 * shape.depth.words() as u128
}

fn array_bits(arrays: &[Shape]) -> u128
    ensures bits { result ≡ array_bits_of arrays.now }
    ensures bound { result ≤ length arrays.now * 4294967296 }
{
    let mut sum = 0;
    for shape in arrays {
        sum += shape_bits(*shape);
    }
    sum
}

fn same_number(a: u128, b: u128) -> bool
    ensures { IsTrue result → a ≡ b }
{
    a == b
}

fn bits_of(module: &Module) -> u128
    ensures { result ≡ array_bits_of «module».now.netlist.arrays }
{
    array_bits(&module.wiring().arrays)
}

// The bits of one word of each array of at least this number of words.
fn word_bits(arrays: &[Shape], least: u32) -> u128
    ensures bits { result ≡ word_bits_of least arrays.now }
    ensures bound { result ≤ length arrays.now * 256 }
{
    let mut sum = 0;
    for shape in arrays {
        if shape.depth.words() >= least {
            sum += shape.width.bits() as u128;
        }
    }
    sum
}

fn words_of(module: &Module, least: u32) -> u128
    ensures { result ≡ word_bits_of least «module».now.netlist.arrays }
{
    word_bits(&module.wiring().arrays, least)
}

/// Whether one word of each array of at least this number of words has the same number of bits in both modules.
pub fn same_word_bits(new: &Module, old: &Module, least: u32) -> bool
    ensures { IsTrue result → word_bits_of least new.now.netlist.arrays
        ≡ word_bits_of least old.now.netlist.arrays }
{
    let old_bits = words_of(old, least);
    let new_bits = words_of(new, least);
    same_number(new_bits, old_bits)
}

/// Whether the arrays of both modules have the same number of bits.
pub fn same_array_bits(new: &Module, old: &Module) -> bool
    ensures { IsTrue result → array_bits_of new.now.netlist.arrays ≡ array_bits_of old.now.netlist.arrays }
{
    let before = bits_of(old);
    let after = bits_of(new);
    same_number(after, before)
}

/// Whether both modules have the same number of buffer bits.
pub fn same_buffer_bits(alloc: Global, new: &Module, old: &Module) -> Result<bool, OutOfMemory>
    ensures { IfOk result (λ is. IsTrue is → (k : ℕ)
        → IsBufferBits old.now.netlist k ↔ IsBufferBits new.now.netlist k) }
{
    let before = netlist::buffer_bits(alloc, old)?;
    let after = netlist::buffer_bits(alloc, new)?;
    let same = same_number(before, after);
    Ok(same)
}
