// A netlist with packed arrays. Nothing is claimed of it: it is tested.

use crate::check::PackingHints;
use crate::groups::{Column, PackingPlan, plan_of, put_of, read_index};
use crate::slots::Slot;
use dk_base::OutOfMemory;
use std::alloc::Global;
use wiring::{Assign, Atom, Net, Netlist, Right, Shape, Update, Width};

// A packed netlist, with what its test needs.
#[derive(Debug, Drop)]
pub(crate) struct PackingProposal {
    pub netlist: Netlist,
    pub slots: Vec<Slot>,
    pub hints: PackingHints,
}

// The value that is put into a column so far, and its width.
#[derive(Clone, Copy, Debug)]
struct Joined {
    value: Atom<Net>,
    bits: u8,
}

impl PackingPlan {
    fn column(&self, array: usize) -> Option<Column> {
        let slot = self.slots.get(array)?;
        self.columns.get(slot.array).copied()
    }

    // The index at which a column is read, with the place of the assign that reads its first part.
    fn read_index(&self, old: &Netlist, column: Column) -> Option<(Atom<Net>, usize)> {
        let used = self.uses.get(column.first)?;
        Some((read_index(old, used.read)?, used.read))
    }

    // The index at which a column is put, with the place of the update that puts its first part.
    fn put_index(&self, old: &Netlist, column: Column) -> Option<(Atom<Net>, usize)> {
        let used = self.uses.get(column.first)?;
        let (index, _) = put_of(old, used.put)?;
        Some((index, used.put))
    }

    // The value that is put into an array, with the place of the update that puts it.
    fn put_value(&self, old: &Netlist, array: usize) -> Option<(Atom<Net>, usize)> {
        let used = self.uses.get(array)?;
        let (_, value) = put_of(old, used.put)?;
        Some((value, used.put))
    }

    // The right side with words of packed arrays as slices.
    fn packed_right(&self, right: &Right<Net, usize>) -> Right<Net, usize> {
        let Right::Word(array, index) = right else {
            return *right;
        };
        let (Some(slot), Some(column)) = (self.slots.get(*array), self.column(*array)) else {
            return *right;
        };
        if column.parts > 1 {
            let above = slot.low.saturating_add(slot.width as u64);
            Right::Slice(Net::Wire(column.wire), above.saturating_sub(1), slot.low)
        } else {
            Right::Word(slot.array, *index)
        }
    }
}

impl PackingProposal {
    // Adds a wire with the assign that drives it.
    fn add_wire(
        &mut self,
        bits: u8,
        right: Right<Net, usize>,
        source: usize,
    ) -> Result<Net, OutOfMemory> {
        let target = Net::Wire(self.netlist.wires.len());
        if let Some(width) = Width::checked(bits) {
            self.netlist.wires.push(width)?;
            self.netlist.assigns.push(Assign { target, right })?;
            self.hints.reads.push(source)?;
        }
        Ok(target)
    }

    fn add_arrays(&mut self, columns: &[Column]) -> Result<(), OutOfMemory> {
        for column in columns {
            if let Some(width) = Width::checked(column.bits) {
                let depth = column.depth;
                self.netlist.arrays.push(Shape { width, depth })?;
            }
        }
        Ok(())
    }

    // The assigns of the old netlist, in their order.
    fn add_assigns(&mut self, old: &Netlist, plan: &PackingPlan) -> Result<(), OutOfMemory> {
        for (place, assign) in old.assigns.iter().enumerate() {
            let target = assign.target;
            let right = plan.packed_right(&assign.right);
            self.netlist.assigns.push(Assign { target, right })?;
            self.hints.reads.push(place)?;
        }
        Ok(())
    }

    // A wire for the word of each column of several parts.
    fn add_words(&mut self, old: &Netlist, plan: &PackingPlan) -> Result<(), OutOfMemory> {
        for (number, column) in plan.columns.iter().enumerate() {
            if column.parts < 2 {
                continue;
            }
            if let Some((index, source)) = plan.read_index(old, *column) {
                let _ = self.add_wire(column.bits, Right::Word(number, index), source)?;
            }
        }
        Ok(())
    }

    // The updates of registers, in their order, and where each old update is among the new ones: after them come the puts, one for each column.
    fn add_sets(&mut self, old: &Netlist) -> Result<(), OutOfMemory> {
        for (place, update) in old.updates.iter().enumerate() {
            if let Update::Set(_, _) = update {
                self.netlist.updates.push(*update)?;
                self.hints.puts.push(place)?;
            }
        }
        Ok(())
    }

    fn add_hints(&mut self, old: &Netlist, plan: &PackingPlan) -> Result<(), OutOfMemory> {
        let sets = self.netlist.updates.len();
        let mut set: usize = 0;
        for update in old.updates.iter() {
            if let Update::Put(array, _, _) = update {
                let column = plan.slots.get(*array).map(|slot| slot.array).unwrap_or(0);
                self.hints.updates.push(sets.saturating_add(column))?;
            } else {
                self.hints.updates.push(set)?;
                set = set.saturating_add(1);
            }
        }
        Ok(())
    }

    // The value with one more, which the update at this place puts, above what is joined already.
    fn join(
        &mut self,
        below: Option<Joined>,
        value: Atom<Net>,
        width: u8,
        source: usize,
    ) -> Result<Joined, OutOfMemory> {
        let Some(low) = below else {
            return Ok(Joined { value, bits: width });
        };
        let bits = low.bits.saturating_add(width);
        let wire = self.add_wire(bits, Right::Join(value, low.value), source)?;
        Ok(Joined {
            value: Atom::Net(wire),
            bits,
        })
    }

    // The value that is put into each column.
    fn join_values(
        &mut self,
        alloc: Global,
        old: &Netlist,
        plan: &PackingPlan,
    ) -> Result<Vec<Option<Joined>>, OutOfMemory> {
        let mut joined = vec![in alloc; None; plan.columns.len()]?;
        for (array, slot) in plan.slots.iter().enumerate() {
            let Some((value, source)) = plan.put_value(old, array) else {
                continue;
            };
            let below = joined.get(slot.array).copied().flatten();
            let whole = self.join(below, value, slot.width, source)?;
            if let Some(place) = joined.get_mut(slot.array) {
                *place = Some(whole);
            }
        }
        Ok(joined)
    }

    // The put of each column.
    fn add_puts(
        &mut self,
        old: &Netlist,
        plan: &PackingPlan,
        values: &[Option<Joined>],
    ) -> Result<(), OutOfMemory> {
        for (number, column) in plan.columns.iter().enumerate() {
            let value = values.get(number).copied().flatten();
            if let (Some((index, source)), Some(whole)) = (plan.put_index(old, *column), value) {
                let put = Update::Put(number, index, whole.value);
                self.netlist.updates.push(put)?;
                self.hints.puts.push(source)?;
            }
        }
        Ok(())
    }
}

fn copied(alloc: Global, widths: &[Width]) -> Result<Vec<Width>, OutOfMemory> {
    let mut copy = Vec::new(alloc);
    for width in widths {
        copy.push(*width)?;
    }
    Ok(copy)
}

// The nets of the netlist, with no arrays and nothing that drives them.
fn begun(alloc: Global, old: &Netlist) -> Result<PackingProposal, OutOfMemory> {
    Ok(PackingProposal {
        netlist: Netlist {
            enable: old.enable,
            inputs: copied(alloc, &old.inputs)?,
            outputs: copied(alloc, &old.outputs)?,
            wires: copied(alloc, &old.wires)?,
            regs: copied(alloc, &old.regs)?,
            arrays: Vec::new(alloc),
            assigns: Vec::new(alloc),
            updates: Vec::new(alloc),
        },
        slots: Vec::new(alloc),
        hints: PackingHints {
            updates: Vec::new(alloc),
            reads: Vec::new(alloc),
            puts: Vec::new(alloc),
        },
    })
}

// The netlist with its arrays of at least `least` words packed, or None where no two go together. Wires are added in the order of the assigns that drive them.
pub(crate) fn propose(
    alloc: Global,
    old: &Netlist,
    least: u32,
) -> Result<Option<PackingProposal>, OutOfMemory> {
    let plan = plan_of(alloc, old, least)?;
    if plan.columns.len() == old.arrays.len() {
        return Ok(None);
    }
    let mut made = begun(alloc, old)?;
    made.add_arrays(&plan.columns)?;
    made.add_assigns(old, &plan)?;
    made.add_words(old, &plan)?;
    made.add_sets(old)?;
    made.add_hints(old, &plan)?;
    let values = made.join_values(alloc, old, &plan)?;
    made.add_puts(old, &plan, &values)?;
    made.slots = plan.slots;
    Ok(Some(made))
}
