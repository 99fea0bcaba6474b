// What each assign and each update needs. The nodes are the assigns, and then the updates.

use crate::plan::WriteForm;
use netlist::Netlist;
use std::alloc::{AllocError, Global};
use wiring::{Assign, Atom, Net, Right, Update};

// The nodes that a node reads.
#[derive(Clone, Copy)]
pub(crate) struct Needs {
    pub(crate) first: Option<usize>,
    pub(crate) second: Option<usize>,
    pub(crate) third: Option<usize>,
}

const NONE: Needs = Needs {
    first: None,
    second: None,
    third: None,
};

pub(crate) fn put(numbers: &mut [usize], place: usize, number: usize) {
    if place < numbers.len() {
        numbers[place] = number;
    }
}

pub(crate) fn number_at(numbers: &[usize], place: usize) -> usize {
    numbers.get(place).copied().unwrap_or(0)
}

fn put_node(nodes: &mut [Option<usize>], place: usize, node: usize) {
    if place < nodes.len() {
        nodes[place] = Some(node);
    }
}

fn node_at(nodes: &[Option<usize>], place: usize) -> Option<usize> {
    match nodes.get(place) {
        Some(node) => *node,
        None => None,
    }
}

// The place of a net among outputs, wires and registers.
fn place_of(wiring: &Netlist, net: Net) -> Option<usize> {
    let wires = wiring.outputs.len();
    let regs = wires.saturating_add(wiring.wires.len());
    match net {
        Net::Input(_) => None,
        Net::Output(i) => Some(i),
        Net::Wire(i) => Some(wires.saturating_add(i)),
        Net::Reg(i) => Some(regs.saturating_add(i)),
    }
}

fn note_assigns(wiring: &Netlist, nodes: &mut [Option<usize>]) {
    for number in 0..wiring.assigns.len() {
        let target = wiring.assigns[number].target;
        if let Some(place) = place_of(wiring, target) {
            put_node(nodes, place, number);
        }
    }
}

// The place of the register that an update sets.
fn place_set(wiring: &Netlist, update: Update) -> Option<usize> {
    match update {
        Update::Set(reg, _) => place_of(wiring, Net::Reg(reg)),
        Update::Put(_, _, _) => None,
    }
}

fn note_updates(wiring: &Netlist, nodes: &mut [Option<usize>]) {
    let first = wiring.assigns.len();
    for number in 0..wiring.updates.len() {
        if let Some(place) = place_set(wiring, wiring.updates[number]) {
            put_node(nodes, place, first.saturating_add(number));
        }
    }
}

// The node that drives each net.
fn nodes_of(alloc: Global, wiring: &Netlist) -> Result<Vec<Option<usize>>, AllocError> {
    let wires = wiring.outputs.len().saturating_add(wiring.wires.len());
    let mut nodes = vec![in alloc; None; wires.saturating_add(wiring.regs.len())]?;
    note_assigns(wiring, &mut nodes);
    note_updates(wiring, &mut nodes);
    Ok(nodes)
}

// The number of words of an array.
fn depth_of(wiring: &Netlist, array: usize) -> usize {
    match wiring.arrays.get(array) {
        Some(shape) => shape.depth.words() as usize,
        None => 0,
    }
}

// The array that a right side reads, if it reads one.
fn array_of(right: &Right<Net, usize>) -> Option<usize> {
    match right {
        Right::Word(array, _) => Some(*array),
        Right::Copy(_) | Right::Not(_) | Right::Binary(_, _, _) | Right::Choose(_, _, _) => None,
        Right::Join(_, _) | Right::Repeat(_, _) | Right::Bit(_, _) | Right::Slice(_, _, _) => None,
    }
}

// The number of words of the array that an assign reads, 0 where it reads none.
pub(crate) fn words_read(wiring: &Netlist, number: usize) -> usize {
    match wiring.assigns.get(number) {
        Some(assign) => match array_of(&assign.right) {
            Some(array) => depth_of(wiring, array),
            None => 0,
        },
        None => 0,
    }
}

// An array that an assign reads.
#[derive(Clone, Copy)]
pub(crate) struct ArrayRead {
    pub(crate) array: usize,
    // How its words are written clock by clock, if a batch comes back to them. Else it has more words than the batch has clocks, and
    // what is read was there before the batch.
    pub(crate) written: Option<WriteForm>,
}

// How many assigns read each array.
fn count_reads(wiring: &Netlist, counts: &mut [usize]) {
    for number in 0..wiring.assigns.len() {
        if let Right::Word(array, _) = wiring.assigns[number].right {
            let count = number_at(counts, array);
            put(counts, array, count.saturating_add(1));
        }
    }
}

// How many updates put into each array.
fn count_puts(wiring: &Netlist, counts: &mut [usize]) {
    for update in &wiring.updates {
        if let Update::Put(array, _, _) = update {
            let count = number_at(counts, *array);
            put(counts, *array, count.saturating_add(1));
        }
    }
}

// The update that puts into each array.
fn puts_of(alloc: Global, wiring: &Netlist) -> Result<Vec<usize>, AllocError> {
    let mut puts = vec![in alloc; 0usize; wiring.arrays.len()]?;
    for number in 0..wiring.updates.len() {
        if let Update::Put(array, _, _) = wiring.updates[number] {
            put(&mut puts, array, number);
        }
    }
    Ok(puts)
}

fn are_one(counts: &[usize]) -> bool {
    for count in counts {
        if *count != 1 {
            return false;
        }
    }
    true
}

// Whether each array is read by one assign and put once.
pub(crate) fn arrays_are_single(alloc: Global, wiring: &Netlist) -> Result<bool, AllocError> {
    let mut reads = vec![in alloc; 0usize; wiring.arrays.len()]?;
    count_reads(wiring, &mut reads);
    let mut puts = vec![in alloc; 0usize; wiring.arrays.len()]?;
    count_puts(wiring, &mut puts);
    Ok(are_one(&reads) && are_one(&puts))
}

fn is_net(a: &Atom<Net>, net: Net) -> bool {
    match a {
        Atom::Net(other) => *other == net,
        Atom::Constant(_) => false,
    }
}

// Whether two atoms are the same net.
fn are_one_net(a: &Atom<Net>, b: &Atom<Net>) -> bool {
    match a {
        Atom::Net(net) => is_net(b, *net),
        Atom::Constant(_) => false,
    }
}

// A module's wiring with what drives its nets, for batches of some clocks.
#[derive(Drop)]
struct NetDrivers<'a> {
    wiring: &'a Netlist,
    // the node that drives each net
    nodes: Vec<Option<usize>>,
    // the update that puts into each array
    puts: Vec<usize>,
    // the clocks of a batch
    size: usize,
}

impl<'a> NetDrivers<'a> {
    // The node that drives a net.
    fn of_net(&self, net: Net) -> Option<usize> {
        match place_of(self.wiring, net) {
            Some(place) => node_at(&self.nodes, place),
            None => None,
        }
    }

    fn of(&self, a: &Atom<Net>) -> Option<usize> {
        match a {
            Atom::Net(net) => self.of_net(*net),
            Atom::Constant(_) => None,
        }
    }

    // The right side of the assign that drives an atom.
    fn right_of(&self, a: &Atom<Net>) -> Option<&'a Right<Net, usize>> {
        let node = self.of(a)?;
        let assign = self.wiring.assigns.get(node)?;
        Some(&assign.right)
    }

    fn is_word(&self, net: Net) -> bool {
        matches!(self.right_of(&Atom::Net(net)), Some(Right::Word(_, _)))
    }

    // Whether an atom is what is read of an array, or bits of it.
    fn is_read(&self, a: &Atom<Net>) -> bool {
        match self.right_of(a) {
            Some(Right::Word(_, _)) => true,
            Some(Right::Bit(net, _) | Right::Slice(net, _, _)) => self.is_word(*net),
            _ => false,
        }
    }

    // The bit by which a register takes what is read of an array or bits of it, and that net; where the bit is 0 it keeps its value.
    fn loaded(&self, update: &Update) -> Option<(&'a Atom<Net>, &'a Atom<Net>)> {
        let Update::Set(register, next) = update else {
            return None;
        };
        match self.right_of(next) {
            Some(Right::Choose(bit, read, kept))
                if is_net(kept, Net::Reg(*register)) && self.is_read(read) => { Some((bit, read)) }
            _ => None,
        }
    }

    // The update that sets the register of an atom.
    fn setting(&self, a: &Atom<Net>) -> Option<&'a Update> {
        let node = self.of(a)?;
        let update = node.checked_sub(self.wiring.assigns.len())?;
        self.wiring.updates.get(update)
    }

    // Whether an atom is a register that takes this net, which is read of an array, or keeps its value.
    fn is_copy(&self, a: &Atom<Net>, target: Net) -> bool {
        match self.setting(a) {
            Some(update) => match self.loaded(update) {
                Some((_, read)) => is_net(read, target),
                None => false,
            },
            None => false,
        }
    }

    // What two atoms need: the bit and the value of a choice, or the index and the value of a put.
    fn both_needs(&self, one: &Atom<Net>, other: &Atom<Net>) -> Needs {
        let mut needs = NONE;
        needs.second = self.of(one);
        needs.third = self.of(other);
        needs
    }

    // What is put by a choice at an index, or else this net there.
    fn kept_needs(&self, value: &Atom<Net>, target: Net) -> Option<Needs> {
        match self.right_of(value) {
            Some(Right::Choose(bit, put, kept)) if is_net(kept, target) => {
                Some(self.both_needs(bit, put))
            }
            _ => None,
        }
    }

    // What is put by a choice, or else the register that takes this net.
    fn copied_needs(&self, value: &Atom<Net>, target: Net) -> Option<Needs> {
        match self.right_of(value) {
            Some(Right::Choose(bit, put, kept)) if self.is_copy(kept, target) => {
                Some(self.both_needs(bit, put))
            }
            _ => None,
        }
    }

    // What the read of an array to whose words a batch comes back needs beside its index: what is put, or what it is chosen from.
    fn written_needs(&self, update: &Update, target: Net, index: &Atom<Net>) -> (Needs, WriteForm) {
        let Update::Put(_, place, value) = update else {
            return (NONE, WriteForm::Put);
        };
        match self.kept_needs(value, target) {
            Some(kept) if are_one_net(place, index) => return (kept, WriteForm::Choice),
            _ => {}
        }
        if let Some(copied) = self.copied_needs(value, target) {
            return (copied, WriteForm::Copy);
        }
        (self.both_needs(place, value), WriteForm::Put)
    }

    // What the read of an array needs: where a batch comes back to its words also what is put.
    fn word_needs(&self, target: Net, array: usize, index: &Atom<Net>) -> (Needs, ArrayRead) {
        let mut needs = NONE;
        let mut written = None;
        if depth_of(self.wiring, array) <= self.size {
            if let Some(update) = self.wiring.updates.get(number_at(&self.puts, array)) {
                let found = self.written_needs(update, target, index);
                needs = found.0;
                written = Some(found.1);
            }
        }
        needs.first = self.of(index);
        (needs, ArrayRead { array, written })
    }

    // What an assign that reads no array needs.
    fn right_needs(&self, right: &Right<Net, usize>) -> Needs {
        let mut needs = NONE;
        match right {
            Right::Copy(a) | Right::Not(a) | Right::Repeat(_, a) | Right::Word(_, a) => {
                needs.first = self.of(a);
            }
            Right::Binary(_, a, b) | Right::Join(a, b) => {
                needs.first = self.of(a);
                needs.second = self.of(b);
            }
            Right::Choose(c, a, b) => {
                needs.first = self.of(c);
                needs.second = self.of(a);
                needs.third = self.of(b);
            }
            Right::Bit(net, _) | Right::Slice(net, _, _) => {
                needs.first = self.of_net(*net);
            }
        }
        needs
    }

    fn assign_needs(&self, assign: &Assign) -> (Needs, Option<ArrayRead>) {
        if let Right::Word(array, index) = &assign.right {
            let (needs, access) = self.word_needs(assign.target, *array, index);
            (needs, Some(access))
        } else {
            (self.right_needs(&assign.right), None)
        }
    }

    fn update_needs(&self, update: &Update) -> Needs {
        let mut needs = NONE;
        if let Some((bit, read)) = self.loaded(update) {
            needs.first = self.of(bit);
            needs.second = self.of(read);
        } else if let Update::Set(_, value) = update {
            needs.first = self.of(value);
        }
        needs
    }
}

// What each node needs, how each assign that reads an array does so, and which updates are of registers that take what is read
// of an array or keep their value.
#[derive(Drop)]
pub(crate) struct Graph {
    pub(crate) needs: Vec<Needs>,
    pub(crate) accesses: Vec<Option<ArrayRead>>,
    pub(crate) loads: Vec<bool>,
}

fn add_assigns(graph: &mut Graph, drivers: &NetDrivers<'_>) -> Result<(), AllocError> {
    for assign in &drivers.wiring.assigns {
        let (needs, access) = drivers.assign_needs(assign);
        graph.needs.push(needs)?;
        graph.accesses.push(access)?;
    }
    Ok(())
}

fn add_updates(graph: &mut Graph, drivers: &NetDrivers<'_>) -> Result<(), AllocError> {
    for update in &drivers.wiring.updates {
        graph.needs.push(drivers.update_needs(update))?;
        graph.loads.push(drivers.loaded(update).is_some())?;
    }
    Ok(())
}

// The graph of a module, for batches of this many clocks.
pub(crate) fn graph_of(alloc: Global, wiring: &Netlist, size: usize) -> Result<Graph, AllocError> {
    let nodes = nodes_of(alloc, wiring)?;
    let puts = puts_of(alloc, wiring)?;
    let drivers = NetDrivers {
        wiring,
        nodes,
        puts,
        size,
    };
    let mut graph = Graph {
        needs: Vec::new(alloc),
        accesses: Vec::new(alloc),
        loads: Vec::new(alloc),
    };
    add_assigns(&mut graph, &drivers)?;
    add_updates(&mut graph, &drivers)?;
    Ok(graph)
}
