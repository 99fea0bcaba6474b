// Which arrays are packed together. Nothing is claimed of it: what is made of it is tested.

use crate::slots::Slot;
use dk_base::OutOfMemory;
use indexmap::IndexMap;
use std::alloc::Global;
use wiring::{Atom, Depth, Net, Netlist, Right, Shape, Update};

// The greatest number of bits of a packed word.
const MOST: u8 = 64;

// The assign that reads an array, by its place, and how many do; the update that puts a word, by its place.
#[derive(Clone, Copy, Debug)]
pub(crate) struct Use {
    pub reads: usize,
    pub read: usize,
    pub put: usize,
}

// An array of the packed netlist: its words, how many arrays are in it, the first of them, and the wire that the word is read into.
#[derive(Clone, Copy, Debug)]
pub(crate) struct Column {
    pub depth: Depth,
    pub bits: u8,
    pub parts: usize,
    pub first: usize,
    pub wire: usize,
}

// How the arrays of a netlist are used and packed.
#[derive(Debug, Drop)]
pub(crate) struct PackingPlan {
    pub uses: Vec<Use>,
    pub columns: Vec<Column>,
    pub slots: Vec<Slot>,
}

// An index as a part of a key.
#[derive(Clone, Copy, Debug, PartialEq, Eq, Hash)]
enum IndexKey {
    Input(usize),
    Output(usize),
    Wire(usize),
    Reg(usize),
    Constant(u8, u64),
}

// What arrays in one group have in common, and how many bits the group still has room for.
#[derive(Clone, Copy, Debug, PartialEq, Eq, Hash)]
struct Key {
    words: u32,
    read: IndexKey,
    put: IndexKey,
    room: u8,
}

fn index_key(index: &Atom<Net>) -> IndexKey {
    match index {
        Atom::Net(Net::Input(k)) => IndexKey::Input(*k),
        Atom::Net(Net::Output(k)) => IndexKey::Output(*k),
        Atom::Net(Net::Wire(k)) => IndexKey::Wire(*k),
        Atom::Net(Net::Reg(k)) => IndexKey::Reg(*k),
        Atom::Constant(c) => IndexKey::Constant(c.width(), c.value()),
    }
}

// Groups by number. Those with room are in lists, one for each key: the map has the last group of a list, and each group the one before it.
#[derive(Drop)]
struct Groups {
    last: IndexMap<Key, usize>,
    before: Vec<Option<usize>>,
}

impl Groups {
    // A group with this much room, which has it no longer.
    fn find(&mut self, key: Key) -> Result<Option<usize>, OutOfMemory> {
        let Some(group) = self.last.get(&key).copied() else {
            return Ok(None);
        };
        match self.before.get(group).copied().flatten() {
            Some(before) => {
                self.last.insert(key, before)?;
            }
            None => {
                let _ = self.last.swap_remove(&key);
            }
        }
        Ok(Some(group))
    }

    // The group with the least room that is enough.
    fn find_room(&mut self, key: Key, bits: u8) -> Result<Option<(usize, u8)>, OutOfMemory> {
        for room in bits..MOST {
            if let Some(group) = self.find(Key { room, ..key })? {
                return Ok(Some((group, room)));
            }
        }
        Ok(None)
    }

    fn add(&mut self) -> Result<usize, OutOfMemory> {
        let group = self.before.len();
        self.before.push(None)?;
        Ok(group)
    }

    // Notes that the group has room.
    fn note(&mut self, key: Key, group: usize) -> Result<(), OutOfMemory> {
        let before = self.last.insert(key, group)?;
        if let Some(place) = self.before.get_mut(group) {
            *place = before;
        }
        Ok(())
    }

    // A group for an array of this key and width, which is in it from now on.
    fn take(&mut self, key: Key, bits: u8) -> Result<usize, OutOfMemory> {
        let (group, room) = match self.find_room(key, bits)? {
            Some(found) => found,
            None => (self.add()?, MOST),
        };
        let room = room.saturating_sub(bits);
        self.note(Key { room, ..key }, group)?;
        Ok(group)
    }
}

fn note_reads(uses: &mut [Use], m: &Netlist) {
    for (place, assign) in m.assigns.iter().enumerate() {
        let Right::Word(array, _) = &assign.right else {
            continue;
        };
        if let Some(found) = uses.get_mut(*array) {
            found.read = place;
            found.reads = found.reads.saturating_add(1);
        }
    }
}

fn note_puts(uses: &mut [Use], m: &Netlist) {
    for (place, update) in m.updates.iter().enumerate() {
        let Update::Put(array, _, _) = update else {
            continue;
        };
        if let Some(found) = uses.get_mut(*array) {
            found.put = place;
        }
    }
}

fn uses_of(alloc: Global, m: &Netlist) -> Result<Vec<Use>, OutOfMemory> {
    let none = Use {
        reads: 0,
        read: 0,
        put: 0,
    };
    let mut uses = vec![in alloc; none; m.arrays.len()]?;
    note_reads(&mut uses, m);
    note_puts(&mut uses, m);
    Ok(uses)
}

// The index at which the assign at this place reads.
pub(crate) fn read_index(m: &Netlist, place: usize) -> Option<Atom<Net>> {
    match &m.assigns.get(place)?.right {
        Right::Word(_, index) => Some(*index),
        _ => None,
    }
}

// The index at which the update at this place puts, and the value.
pub(crate) fn put_of(m: &Netlist, place: usize) -> Option<(Atom<Net>, Atom<Net>)> {
    match m.updates.get(place)? {
        Update::Put(_, index, value) => Some((*index, *value)),
        _ => None,
    }
}

// The key of an array that may be packed: one of at least `least` words that one assign reads.
fn key_of(m: &Netlist, used: Use, shape: &Shape, least: u32) -> Option<Key> {
    let words = shape.depth.words();
    if used.reads != 1 || words < least {
        return None;
    }
    let read = read_index(m, used.read)?;
    let (put, _) = put_of(m, used.put)?;
    Some(Key {
        words,
        read: index_key(&read),
        put: index_key(&put),
        room: MOST,
    })
}

// The arrays by width, the widest first.
fn widest_first(alloc: Global, m: &Netlist) -> Result<Vec<(u8, usize)>, OutOfMemory> {
    let mut order = Vec::new(alloc);
    for (array, shape) in m.arrays.iter().enumerate() {
        order.push((MOST.saturating_sub(shape.width.bits()), array))?;
    }
    order.sort_unstable();
    Ok(order)
}

fn group_of(
    groups: &mut Groups,
    m: &Netlist,
    used: Use,
    shape: &Shape,
    least: u32,
) -> Result<usize, OutOfMemory> {
    match key_of(m, used, shape, least) {
        Some(key) => groups.take(key, shape.width.bits()),
        None => groups.add(),
    }
}

// The number of each array's group.
fn group_of_each(
    alloc: Global,
    m: &Netlist,
    uses: &[Use],
    least: u32,
) -> Result<Vec<usize>, OutOfMemory> {
    let mut groups = Groups {
        last: IndexMap::new(alloc),
        before: Vec::new(alloc),
    };
    let mut of = vec![in alloc; 0; m.arrays.len()]?;
    for (_, array) in widest_first(alloc, m)? {
        let (Some(used), Some(shape)) = (uses.get(array), m.arrays.get(array)) else {
            continue;
        };
        let group = group_of(&mut groups, m, *used, shape, least)?;
        if let Some(place) = of.get_mut(array) {
            *place = group;
        }
    }
    Ok(of)
}

// Adds an array of this width above those that the column has.
fn widen_column(columns: &mut [Column], number: usize, width: u8) -> Option<Slot> {
    let column = columns.get_mut(number)?;
    let low = column.bits as u64;
    column.bits = column.bits.saturating_add(width);
    column.parts = column.parts.saturating_add(1);
    Some(Slot {
        array: number,
        low,
        width,
    })
}

// Adds an array to the column of its group, which is a new one for the first array.
fn add_part(
    columns: &mut Vec<Column>,
    column: Option<usize>,
    array: usize,
    shape: Shape,
) -> Result<Slot, OutOfMemory> {
    let width = shape.width.bits();
    if let Some(number) = column {
        if let Some(slot) = widen_column(columns, number, width) {
            return Ok(slot);
        }
    }
    let number = columns.len();
    columns.push(Column {
        depth: shape.depth,
        bits: width,
        parts: 1,
        first: array,
        wire: 0,
    })?;
    Ok(Slot {
        array: number,
        low: 0,
        width,
    })
}

// Fills the columns and the slots, both in the order of the arrays.
fn add_parts(
    alloc: Global,
    m: &Netlist,
    of: &[usize],
    plan: &mut PackingPlan,
) -> Result<(), OutOfMemory> {
    let mut columns = vec![in alloc; None; m.arrays.len()]?;
    for (array, shape) in m.arrays.iter().enumerate() {
        let group = of.get(array).copied().unwrap_or(0);
        let column = columns.get(group).copied().flatten();
        let slot = add_part(&mut plan.columns, column, array, *shape)?;
        if let Some(place) = columns.get_mut(group) {
            *place = Some(slot.array);
        }
        plan.slots.push(slot)?;
    }
    Ok(())
}

// Numbers the wires that words of several parts are read into, from this number on.
fn number_wires(columns: &mut [Column], first: usize) {
    let mut wire = first;
    for column in columns.iter_mut() {
        if column.parts > 1 {
            column.wire = wire;
            wire = wire.saturating_add(1);
        }
    }
}

// The plan for arrays of at least `least` words.
pub(crate) fn plan_of(alloc: Global, m: &Netlist, least: u32) -> Result<PackingPlan, OutOfMemory> {
    let uses = uses_of(alloc, m)?;
    let of = group_of_each(alloc, m, &uses, least)?;
    let mut plan = PackingPlan {
        uses,
        columns: Vec::new(alloc),
        slots: Vec::new(alloc),
    };
    add_parts(alloc, m, &of, &mut plan)?;
    number_wires(&mut plan.columns, m.wires.len());
    Ok(plan)
}
