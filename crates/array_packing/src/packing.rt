// Modules with packed arrays.

ghost use Rattle.std.specs.Prelude.{◌≡◌, ℕ, IsTrue, IfOk, IfSome};
ghost use Rattle.net_build.specs.Naming.{names_for};
ghost use Rattle.module_pass.specs.Words.{word_bits};
ghost use Rattle.array_packing.specs.Packing.{IsPacked, AreFilled, AreAccessedOnce, IsPacking};

use crate::check::{PackingHints, is_packed};
use crate::filled::are_filled;
use crate::once::are_accessed_once;
use crate::proposal::propose;
use crate::slots::{Slot, whole_slots};
use dk_base::OutOfMemory;
use module_pass::{made_module, same_array_bits, same_buffer_bits, same_word_bits};
use netlist::Module;
use std::alloc::Global;

/// A module, and where the arrays of the one that it was packed from are in it.
#[derive(Debug, Drop)]
pub struct Packed {
    pub module: Module,
    /// Of each array of the other module the slot that has its words.
    pub slots: Vec<Slot>,
}

// Whether the netlist of the module is that of the other one with its arrays packed by these slots.
fn is_packed_module(new: &Module, old: &Module, slots: &[Slot], hints: &PackingHints) -> bool
    ensures { IsTrue result → IsPacked new.now.netlist old.now.netlist slots.now }
{
    is_packed(new.wiring(), old.wiring(), slots, hints)
}

// Whether no bit of the module's arrays is unused.
fn is_full(alloc: Global, new: &Module, slots: &[Slot]) -> Result<bool, OutOfMemory>
    ensures { IfOk result (λ is. IsTrue is → AreFilled new.now.netlist slots.now) }
{
    let full = are_filled(alloc, slots, &new.wiring().arrays)?;
    Ok(full)
}

// Whether each array of the module is read by one assign and put by one update.
fn is_accessed_once(alloc: Global, new: &Module) -> Result<bool, OutOfMemory>
    ensures { IfOk result (λ is. IsTrue is → AreAccessedOnce new.now.netlist) }
{
    let once = are_accessed_once(alloc, new.wiring())?;
    Ok(once)
}

// Whether the netlist is the other one with its arrays packed, each array is accessed once, it has as many array bits and buffer bits, and no bit is unused.
fn is_packing(
    alloc: Global,
    new: &Module,
    old: &Module,
    slots: &[Slot],
    hints: &PackingHints,
) -> Result<bool, OutOfMemory>
    ensures { IfOk result (λ is. IsTrue is → IsPacking new.now.netlist old.now.netlist slots.now) }
{
    if !is_packed_module(new, old, slots, hints) {
        return Ok(false);
    }
    let full = is_full(alloc, new, slots)?;
    if !full {
        return Ok(false);
    }
    let once = is_accessed_once(alloc, new)?;
    if !once {
        return Ok(false);
    }
    if !same_array_bits(new, old) {
        return Ok(false);
    }
    let same = same_buffer_bits(alloc, new, old)?;
    Ok(same)
}

// The module with packed arrays, or None where no arrays go together or a test declines.
fn packed_module(alloc: Global, old: &Module, least: u32) -> Result<Option<Packed>, OutOfMemory>
    ensures packing { IfOk result (λ made. IfSome made (λ r. IsPacking r.«module».netlist old.now.netlist r.slots.items)) }
    ensures words { IfOk result (λ made. IfSome made (λ r. word_bits least r.«module».netlist.arrays
        ≡ word_bits least old.now.netlist.arrays)) }
    ensures named { IfOk result (λ made. IfSome made (λ r. r.«module».names ≡ names_for r.«module».netlist)) }
{
    let Some(made) = propose(alloc, old.wiring(), least)? else {
        return Ok(None);
    };
    let Some(module) = made_module(alloc, &made.netlist)? else {
        return Ok(None);
    };
    if !is_packing(alloc, &module, old, &made.slots, &made.hints)? {
        return Ok(None);
    }
    if !same_word_bits(&module, old, least) {
        return Ok(None);
    }
    let slots = made.slots;
    Ok(Some(Packed { module, slots }))
}

// The module as it is.
fn unpacked(alloc: Global, old: Module) -> Result<Packed, OutOfMemory>
    ensures packing { IfOk result (λ r. IsPacking r.«module».netlist old.netlist r.slots.items) }
    ensures same { IfOk result (λ r. r.«module» ≡ old) }
{
    let slots = whole_slots(alloc, &old.wiring().arrays)?;
    Ok(Packed { module: old, slots })
}

/// The module with arrays packed into arrays of at most 64 bits a word: arrays of one number of words, at least `least`, that are read at one index and put at one index. Which arrays are packed is not specified.
pub fn pack(alloc: Global, old: Module, least: u32) -> Result<Packed, OutOfMemory>
    requires named { old.names ≡ names_for old.netlist }
    ensures packing { IfOk result (λ r. IsPacking r.«module».netlist old.netlist r.slots.items) }
    ensures words { IfOk result (λ r. word_bits least r.«module».netlist.arrays
        ≡ word_bits least old.netlist.arrays) }
    ensures named { IfOk result (λ r. r.«module».names ≡ names_for r.«module».netlist) }
{
    match packed_module(alloc, &old, least)? {
        Some(packed) => Ok(packed),
        None => {
            let whole = unpacked(alloc, old)?;
            Ok(whole)
        }
    }
}
