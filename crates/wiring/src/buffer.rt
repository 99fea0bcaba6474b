// The buffer bits of a netlist.

ghost use Rattle.std.specs.Prelude.{◌≡◌, ◌≢◌, ℕ, ◌≤◌, ◌<◌, ◌+◌, ◌*◌, true, false, length, map, IfOk, IfNone, IfSome, OnOk, All, Some, slice_get, if◌then◌else◌};
ghost use Rattle.wiring.specs.declared.TheConstants.{MOST_BITS};
ghost use Rattle.wiring.specs.declared.netlist.Assign.{Assign};
ghost use Rattle.wiring.specs.declared.netlist.Update.{Update};
ghost use Rattle.wiring.specs.declared.netlist.Holder.{Holder};
ghost use Rattle.wiring.specs.declared.netlist.Holder.TheVariants.{OfNet};
ghost use Rattle.wiring.specs.declared.netlist.Net.TheVariants.{Input};
ghost use Rattle.wiring.specs.Netlist.{netlist_of, first_din};
ghost use Rattle.wiring.specs.Rules.{KeepsRules};
ghost use Rattle.wiring.specs.BufferBits.{assign_drive, update_drive, drives, IsFed, IsBufferBits, array_bits as array_bits_of, chosen_bits as chosen_bits_of};
ghost use Rattle.wiring.specs.Marks.{is_marked, HasMarks, IsSound, AreClosed, IsClosed, IsOpenAmong, Spreads, gap};

use crate::marks::{Marks, add_mark, is_open_assign, is_open_update, no_marks, target_of};
use crate::netlist::{Assign, Holder, Net, Netlist, Shape, Update};
use crate::order::read_at;
use crate::right::Right;
use crate::size::Width;
use std::alloc::{AllocError, Global};

// A place at which something is read: the assign or update that reads it, and the next place in the same list.
#[derive(Clone, Copy, Debug)]
struct Reading {
    drive: usize,
    next: Option<usize>,
}

// Of each net and array the list of the places at which it is read.
#[derive(Debug, Drop)]
struct Readings {
    first: Vec<Option<usize>>,
    readings: Vec<Reading>,
}

// The number of a net or array among all, the sorts one after another.
fn slot(wiring: &Netlist, holder: Holder) -> usize {
    let outputs = wiring.inputs.len();
    let wires = outputs.saturating_add(wiring.outputs.len());
    let regs = wires.saturating_add(wiring.wires.len());
    let arrays = regs.saturating_add(wiring.regs.len());
    match holder {
        Holder::OfNet(Net::Input(i)) => i,
        Holder::OfNet(Net::Output(i)) => outputs.saturating_add(i),
        Holder::OfNet(Net::Wire(i)) => wires.saturating_add(i),
        Holder::OfNet(Net::Reg(i)) => regs.saturating_add(i),
        Holder::OfArray(i) => arrays.saturating_add(i),
    }
}

fn note(readings: &mut Readings, slot: usize, drive: usize) -> Result<(), AllocError> {
    let number = readings.readings.len();
    match readings.first.get_mut(slot) {
        None => Ok(()),
        Some(first) => {
            let next = *first;
            *first = Some(number);
            readings.readings.push(Reading { drive, next })?;
            Ok(())
        }
    }
}

fn note_right(
    readings: &mut Readings,
    wiring: &Netlist,
    right: &Right<Net, usize>,
    drive: usize,
) -> Result<(), AllocError> {
    for place in 0..3 {
        if let Some(net) = read_at(right, place) {
            note(readings, slot(wiring, Holder::OfNet(net)), drive)?;
        }
    }
    if let Right::Word(array, _) = right {
        note(readings, slot(wiring, Holder::OfArray(*array)), drive)?;
    }
    Ok(())
}

fn note_update(
    readings: &mut Readings,
    wiring: &Netlist,
    update: &Update,
    drive: usize,
) -> Result<(), AllocError> {
    match update {
        Update::Set(_, a) => note_right(readings, wiring, &Right::Copy(*a), drive),
        Update::Put(_, i, a) => note_right(readings, wiring, &Right::Join(*i, *a), drive),
    }
}

fn readings_of(alloc: Global, wiring: &Netlist) -> Result<Readings, AllocError> {
    let slots = slot(wiring, Holder::OfArray(wiring.arrays.len()));
    let mut readings = Readings {
        first: vec![in alloc; None; slots]?,
        readings: Vec::new(alloc),
    };
    let assigns = wiring.assigns.len();
    for (k, assign) in wiring.assigns.iter().enumerate() {
        note_right(&mut readings, wiring, &assign.right, k)?;
    }
    for (k, update) in wiring.updates.iter().enumerate() {
        note_update(&mut readings, wiring, update, assigns.saturating_add(k))?;
    }
    Ok(readings)
}

fn assign_at(assigns: &[Assign], number: usize) -> Option<&Assign>
    ensures { IfSome result (λ a. slice_get assigns.now number ≡ Some a.now) }
{
    assigns.get(number)
}

fn update_at(updates: &[Update], number: usize) -> Option<&Update>
    ensures { IfSome result (λ u. slice_get updates.now number ≡ Some u.now) }
{
    updates.get(number)
}

fn mark_assign(marks: &mut Marks, wiring: &Netlist, number: usize) -> Option<Holder>
    requires rules { KeepsRules (netlist_of wiring.now) }
    requires size { HasMarks (netlist_of wiring.now) marks.old }
    ensures { Spreads (netlist_of wiring.now) marks.old marks.new }
{
    match assign_at(&wiring.assigns, number) {
        None => None,
        Some(assign) => {
            if !is_open_assign(marks, assign) {
                return None;
            }
            let target = Holder::OfNet(assign.target);
            add_mark(marks, target);
            Some(target)
        }
    }
}

fn mark_update(marks: &mut Marks, wiring: &Netlist, number: usize) -> Option<Holder>
    requires rules { KeepsRules (netlist_of wiring.now) }
    requires size { HasMarks (netlist_of wiring.now) marks.old }
    ensures { Spreads (netlist_of wiring.now) marks.old marks.new }
{
    match update_at(&wiring.updates, number) {
        None => None,
        Some(update) => {
            if !is_open_update(marks, update) {
                return None;
            }
            let target = target_of(update);
            add_mark(marks, target);
            Some(target)
        }
    }
}

// Marks the target of an assign or update that reads what has a mark. The target, where it is new.
fn mark_drive(marks: &mut Marks, wiring: &Netlist, drive: usize) -> Option<Holder>
    requires rules { KeepsRules (netlist_of wiring.now) }
    requires size { HasMarks (netlist_of wiring.now) marks.old }
    ensures { Spreads (netlist_of wiring.now) marks.old marks.new }
{
    let assigns = wiring.assigns.len();
    if drive < assigns {
        mark_assign(marks, wiring, drive)
    } else {
        mark_update(marks, wiring, drive - assigns)
    }
}

// Marks what reads this net or array, and notes what got a mark.
fn follow(
    marks: &mut Marks,
    wiring: &Netlist,
    readings: &Readings,
    found: &mut Vec<Holder>,
    holder: Holder,
) -> Result<(), AllocError>
    requires rules { KeepsRules (netlist_of wiring.now) }
    requires size { HasMarks (netlist_of wiring.now) marks.old }
    ensures { Spreads (netlist_of wiring.now) marks.old marks.new }
{
    let mut place = readings
        .first
        .get(slot(wiring, holder))
        .copied()
        .unwrap_or(None);
    for _ in 0..readings.readings.len() {
        let Some(number) = place else {
            return Ok(());
        };
        let Some(reading) = readings.readings.get(number).copied() else {
            return Ok(());
        };
        place = reading.next;
        if let Some(target) = mark_drive(marks, wiring, reading.drive) {
            found.push(target)?;
        }
    }
    Ok(())
}

// Marks all that is reached from what was found. Which readings there are is not proved: `close` looks whether all was reached.
fn spread(
    marks: &mut Marks,
    wiring: &Netlist,
    readings: &Readings,
    found: &mut Vec<Holder>,
) -> Result<(), AllocError>
    requires rules { KeepsRules (netlist_of wiring.now) }
    requires size { HasMarks (netlist_of wiring.now) marks.old }
    ensures { Spreads (netlist_of wiring.now) marks.old marks.new }
{
    for number in 0..usize::MAX {
        let Some(holder) = found.get(number).copied() else {
            return Ok(());
        };
        follow(marks, wiring, readings, found, holder)?;
    }
    Ok(())
}

fn open_assign(marks: &Marks, assigns: &[Assign]) -> Option<Holder>
    ensures none { IfNone result (AreClosed marks.now assign_drive assigns.now) }
    ensures some { IfSome result (IsOpenAmong marks.now assign_drive assigns.now) }
{
    for assign in assigns {
        if is_open_assign(marks, assign) {
            return Some(Holder::OfNet(assign.target));
        }
    }
    None
}

fn open_update(marks: &Marks, updates: &[Update]) -> Option<Holder>
    ensures none { IfNone result (AreClosed marks.now update_drive updates.now) }
    ensures some { IfSome result (IsOpenAmong marks.now update_drive updates.now) }
{
    for update in updates {
        if is_open_update(marks, update) {
            return Some(target_of(update));
        }
    }
    None
}

// Marks the target of one assign or update that reads what has a mark. Whether there was one.
fn close(marks: &mut Marks, wiring: &Netlist) -> bool
    requires rules { KeepsRules (netlist_of wiring.now) }
    requires size { HasMarks (netlist_of wiring.now) marks.old }
    ensures spreads { Spreads (netlist_of wiring.now) marks.old marks.new }
    ensures closed { result ≡ false → All (IsClosed marks.new) (drives (netlist_of wiring.now)) }
    ensures nearer { result ≡ true → gap marks.new < gap marks.old }
{
    match open_assign(marks, &wiring.assigns) {
        Some(target) => {
            add_mark(marks, target);
            true
        }
        None => close_updates(marks, wiring),
    }
}

fn close_updates(marks: &mut Marks, wiring: &Netlist) -> bool
    requires rules { KeepsRules (netlist_of wiring.now) }
    requires size { HasMarks (netlist_of wiring.now) marks.old }
    requires assigns { AreClosed marks.old assign_drive wiring.now.assigns.items }
    ensures spreads { Spreads (netlist_of wiring.now) marks.old marks.new }
    ensures closed { result ≡ false → All (IsClosed marks.new) (drives (netlist_of wiring.now)) }
    ensures nearer { result ≡ true → gap marks.new < gap marks.old }
{
    match open_update(marks, &wiring.updates) {
        Some(target) => {
            add_mark(marks, target);
            true
        }
        None => false,
    }
}

fn mark_din(marks: &mut Marks, wiring: &Netlist, number: usize)
    requires port { first_din (netlist_of wiring.now) ≤ number }
    requires within { number < length wiring.now.inputs.items }
    requires size { HasMarks (netlist_of wiring.now) marks.old }
    ensures spreads { Spreads (netlist_of wiring.now) marks.old marks.new }
    ensures added { is_marked marks.new (OfNet (Input number)) ≡ true }
{
    let holder = Holder::OfNet(Net::Input(number));
    if marks.has(holder) {
        return;
    }
    add_mark(marks, holder);
}

// Marks each din, and notes it.
fn mark_dins(marks: &mut Marks, wiring: &Netlist, found: &mut Vec<Holder>) -> Result<(), AllocError>
    requires size { HasMarks (netlist_of wiring.now) marks.old }
    ensures spreads { Spreads (netlist_of wiring.now) marks.old marks.new }
    ensures dins { OnOk result ((i : ℕ) → first_din (netlist_of wiring.now) ≤ i
        → i < length wiring.now.inputs.items → is_marked marks.new (OfNet (Input i)) ≡ true) }
{
    let first = if wiring.enable { 2 } else { 1 };
    for i in first..wiring.inputs.len() {
        mark_din(marks, wiring, i);
        found.push(Holder::OfNet(Net::Input(i)))?;
    }
    Ok(())
}

// The nets and arrays that the inputs feed.
fn fed_marks(alloc: Global, wiring: &Netlist) -> Result<Marks, AllocError>
    requires { KeepsRules (netlist_of wiring.now) }
    ensures size { IfOk result (HasMarks (netlist_of wiring.now)) }
    ensures sound { IfOk result (IsSound (netlist_of wiring.now)) }
    ensures complete { IfOk result
        (λ d. (h : Holder) → IsFed (netlist_of wiring.now) h → is_marked d h ≡ true) }
{
    let readings = readings_of(alloc, wiring)?;
    let mut marks = no_marks(alloc, wiring)?;
    let mut found = Vec::new(alloc);
    mark_dins(&mut marks, wiring, &mut found)?;
    spread(&mut marks, wiring, &readings, &mut found)?;
    let mut open = true;
    while open {
        open = close(&mut marks, wiring);
    }
    Ok(marks)
}

fn shape_bits(shape: Shape) -> u128
    ensures bits { result ≡ shape.width * shape.depth }
    ensures bound { result ≤ 4294967296 }
{
    shape.width.bits() as u128 * shape.depth.words() as u128
}

fn array_bits(arrays: &[Shape]) -> u128
    ensures bits { result ≡ array_bits_of arrays.now }
    ensures bound { result ≤ length arrays.now * 4294967296 }
{
    let mut sum = 0;
    for shape in arrays {
        sum += shape_bits(*shape);
    }
    sum
}

fn chosen_width(width: Width, chosen: bool) -> u128
    ensures bits { result ≡ (if chosen then width else 0) }
    ensures bound { result ≤ MOST_BITS }
{
    if chosen { width.bits() as u128 } else { 0 }
}

fn chosen_bits(widths: &[Width], chosen: &[bool]) -> u128
    requires { length chosen.now ≡ length widths.now }
    ensures bits { result ≡ chosen_bits_of widths.now chosen.now }
    ensures bound { result ≤ length widths.now * MOST_BITS }
{
    let mut sum = 0;
    for k in 0..widths.len() {
        sum += chosen_width(widths[k], chosen[k]);
    }
    sum
}

/// The bits of all arrays, and of each register that takes in what the inputs were fed, through assigns and state.
pub fn buffer_bits(alloc: Global, wiring: &Netlist) -> Result<u128, AllocError>
    requires { KeepsRules (netlist_of wiring.now) }
    ensures { IfOk result (IsBufferBits (netlist_of wiring.now)) }
{
    let marks = fed_marks(alloc, wiring)?;
    let arrays = array_bits(&wiring.arrays);
    let regs = chosen_bits(&wiring.regs, &marks.regs);
    Ok(arrays + regs)
}
