// Whether a netlist is another one with its arrays packed.

ghost use Rattle.std.specs.Prelude.{◌≡◌, ◌+◌, ◌≤◌, IsTrue, Contains, IfSome, All, slice_index};
ghost use Rattle.wiring.specs.declared.netlist.Assign.{Assign};
ghost use Rattle.wiring.specs.declared.netlist.Update.TheVariants.{Set, Put};
ghost use Rattle.wiring.specs.Rights.{atom_width};
ghost use Rattle.wiring.specs.Netlist.{netlist_of, net_width, word_width};
ghost use Rattle.array_packing.specs.Packing.{assign, IsReadAt, HoldsPart, IsAssigned, IsUpdated, IsReadOf, IsPutOf, IsInner, IsPacked};

use crate::joins::are_joined;
use crate::nets::{has_nets, have_slots};
use crate::slots::Slot;
use wiring::{Assign, Atom, Net, Netlist, Right, Update, Width};

pub(crate) fn same_right(a: &Right<Net, usize>, b: &Right<Net, usize>) -> bool
    ensures { IsTrue result → a.now ≡ b.now }
{
    wiring::equal_rights_law();
    a == b
}

pub(crate) fn same_atom(a: &Atom<Net>, b: &Atom<Net>) -> bool
    ensures { IsTrue result → a.now ≡ b.now }
{
    same_right(&Right::Copy(*a), &Right::Copy(*b))
}

pub(crate) fn same_net(a: Net, b: Net) -> bool
    ensures { IsTrue result → a ≡ b }
{
    same_atom(&Atom::Net(a), &Atom::Net(b))
}

fn same_assign(found: &Assign, target: Net, right: &Right<Net, usize>) -> bool
    ensures { IsTrue result → found.now ≡ assign target right.now }
{
    if !same_net(found.target, target) {
        return false;
    }
    same_right(&found.right, right)
}

// Whether this assign is at this place.
pub(crate) fn has_assign(
    assigns: &[Assign],
    place: usize,
    target: Net,
    right: &Right<Net, usize>,
) -> bool
    ensures { IsTrue result → Contains assigns.now (assign target right.now) }
{
    let Some(found) = assigns.get(place) else {
        return false;
    };
    same_assign(found, target, right)
}

// Where the nets and assigns begin that the pass adds; each added wire is driven by the assign added with it.
#[derive(Clone, Copy, Debug)]
pub(crate) struct Added {
    pub wire: usize,
    pub assign: usize,
}

// Where a net's assign should be; nothing is claimed of it.
pub(crate) fn place_of(added: Added, net: Net) -> usize {
    match net {
        Net::Wire(w) => w.saturating_sub(added.wire).saturating_add(added.assign),
        _ => added.assign,
    }
}

fn width_in(widths: &[Width], i: usize) -> Option<u64>
    ensures { IfSome result (λ w. slice_index widths.now i ≡ w) }
{
    match widths.get(i) {
        Some(width) => Some(width.bits() as u64),
        None => None,
    }
}

fn net_bits(m: &Netlist, net: Net) -> Option<u64>
    ensures { IfSome result (λ w. net_width (netlist_of m.now) net ≡ w) }
{
    match net {
        Net::Input(i) => width_in(&m.inputs, i),
        Net::Output(i) => width_in(&m.outputs, i),
        Net::Wire(i) => width_in(&m.wires, i),
        Net::Reg(i) => width_in(&m.regs, i),
    }
}

fn atom_bits(m: &Netlist, a: &Atom<Net>) -> Option<u64>
    ensures { IfSome result (λ w. atom_width (net_width (netlist_of m.now)) a.now ≡ w) }
{
    match a {
        Atom::Net(net) => net_bits(m, *net),
        Atom::Constant(c) => Some(c.width() as u64),
    }
}

// Whether this array has words of this width.
fn has_words(m: &Netlist, array: usize, width: u8) -> bool
    ensures { IsTrue result → word_width (netlist_of m.now) array ≡ width }
{
    let Some(shape) = m.arrays.get(array) else {
        return false;
    };
    shape.width.bits() == width
}

// Whether the net is the whole word of the slot.
fn is_word(m: &Netlist, place: usize, slot: Slot, index: &Atom<Net>, net: Net) -> bool
    ensures { IsTrue result → IsReadAt (netlist_of m.now) slot index.now net }
{
    if slot.low != 0 {
        return false;
    }
    if !has_words(m, slot.array, slot.width) {
        return false;
    }
    has_assign(&m.assigns, place, net, &Right::Word(slot.array, *index))
}

// Whether this is the slot's highest bit.
fn ends_at(slot: Slot, top: u64) -> bool
    ensures low { IsTrue result → slot.low ≤ top }
    ensures top { IsTrue result → top + 1 ≡ slot.low + slot.width }
{
    if slot.low > top {
        return false;
    }
    top as u128 + 1 == slot.low as u128 + slot.width as u128
}

// Whether the net is a slice of another one, which is the word.
fn is_slice(
    m: &Netlist,
    added: Added,
    place: usize,
    slot: Slot,
    index: &Atom<Net>,
    net: Net,
) -> bool
    ensures { IsTrue result → IsReadAt (netlist_of m.now) slot index.now net }
{
    let Some(found) = m.assigns.get(place) else {
        return false;
    };
    let Right::Slice(word, top, _) = found.right else {
        return false;
    };
    if !ends_at(slot, top) {
        return false;
    }
    if !has_assign(
        &m.assigns,
        place_of(added, word),
        word,
        &Right::Word(slot.array, *index),
    ) {
        return false;
    }
    has_assign(&m.assigns, place, net, &Right::Slice(word, top, slot.low))
}

fn is_read_at(
    m: &Netlist,
    added: Added,
    place: usize,
    slot: Slot,
    index: &Atom<Net>,
    net: Net,
) -> bool
    ensures { IsTrue result → IsReadAt (netlist_of m.now) slot index.now net }
{
    if is_word(m, place, slot, index, net) {
        return true;
    }
    is_slice(m, added, place, slot, index, net)
}

// Whether the assign is there as it was, or reads the slot of its array.
fn is_assigned(m: &Netlist, added: Added, slots: &[Slot], place: usize, assign: &Assign) -> bool
    ensures { IsTrue result → IsAssigned (netlist_of m.now) slots.now assign.now.target assign.now.right }
{
    let Right::Word(array, index) = &assign.right else {
        return has_assign(&m.assigns, place, assign.target, &assign.right);
    };
    let Some(slot) = slots.get(*array) else {
        return false;
    };
    is_read_at(m, added, place, *slot, index, assign.target)
}

// Whether each of the assigns is.
fn are_assigned(m: &Netlist, added: Added, slots: &[Slot], assigns: &[Assign]) -> bool
    ensures { IsTrue result → All (λ (a : Assign). IsAssigned (netlist_of m.now) slots.now a.target a.right) assigns.now }
{
    for (place, assign) in assigns.iter().enumerate() {
        if !is_assigned(m, added, slots, place, assign) {
            return false;
        }
    }
    true
}

// The part of a join in which bit `low` is, and where it begins there.
fn inner_part(m: &Netlist, added: Added, whole: &Atom<Net>, low: u64) -> Option<(Atom<Net>, u64)>
    ensures { IfSome result (λ r. IsInner (netlist_of m.now) whole.now low r.0 r.1) }
{
    let Atom::Net(net) = whole else {
        return None;
    };
    let net = *net;
    let place = place_of(added, net);
    let Some(found) = m.assigns.get(place) else {
        return None;
    };
    let Right::Join(upper, lower) = &found.right else {
        return None;
    };
    if !has_assign(&m.assigns, place, net, &found.right) {
        return None;
    }
    let Some(bits) = atom_bits(m, lower) else {
        return None;
    };
    if low < bits {
        return Some((*lower, low));
    }
    Some((*upper, low - bits))
}

// Whether a value holds this part from this bit on.
fn holds_part(m: &Netlist, added: Added, part: &Atom<Net>, value: Atom<Net>, low: u64) -> bool
    ensures { IsTrue result → HoldsPart (netlist_of m.now) part.now value low }
{
    let mut whole = value;
    let mut rest = low;
    for _ in 0..64 {
        if rest == 0 && same_atom(&whole, part) {
            return true;
        }
        let Some((inner, begin)) = inner_part(m, added, &whole, rest) else {
            return false;
        };
        whole = inner;
        rest = begin;
    }
    false
}

// Whether the register takes this value, by the update at this place.
fn has_set(updates: &[Update], place: usize, reg: usize, value: &Atom<Net>) -> bool
    ensures { IsTrue result → Contains updates.now (Set reg value.now) }
{
    let Some(Update::Set(found, taken)) = updates.get(place) else {
        return false;
    };
    if *found != reg {
        return false;
    }
    same_atom(taken, value)
}

// What the update at this place puts into this array at this index.
pub(crate) fn put_at(
    updates: &[Update],
    place: usize,
    array: usize,
    index: &Atom<Net>,
) -> Option<Atom<Net>>
    ensures { IfSome result (λ v. Contains updates.now (Put array index.now v)) }
{
    let Some(Update::Put(found, at, value)) = updates.get(place) else {
        return None;
    };
    if *found != array {
        return None;
    }
    if !same_atom(at, index) {
        return None;
    }
    Some(*value)
}

// Whether the update is there as it was, or its value is put as a part.
fn is_updated(m: &Netlist, added: Added, slots: &[Slot], place: usize, update: &Update) -> bool
    ensures { IsTrue result → IsUpdated (netlist_of m.now) slots.now update.now }
{
    match update {
        Update::Set(reg, value) => has_set(&m.updates, place, *reg, value),
        Update::Put(array, index, value) => {
            let Some(slot) = slots.get(*array) else {
                return false;
            };
            let Some(joined) = put_at(&m.updates, place, slot.array, index) else {
                return false;
            };
            holds_part(m, added, value, joined, slot.low)
        }
    }
}

// Whether each of the updates is, at the place that is named for it.
fn are_updated(
    m: &Netlist,
    added: Added,
    slots: &[Slot],
    places: &[usize],
    updates: &[Update],
) -> bool
    ensures { IsTrue result → All (IsUpdated (netlist_of m.now) slots.now) updates.now }
{
    for (number, update) in updates.iter().enumerate() {
        let place = places.get(number).copied().unwrap_or(0);
        if !is_updated(m, added, slots, place, update) {
            return false;
        }
    }
    true
}

// Whether a word that is read is one of which an old assign, at this place, reads a part.
fn is_read_of(m: &Netlist, slots: &[Slot], place: usize, right: &Right<Net, usize>) -> bool
    ensures { IsTrue result → IsReadOf (netlist_of m.now) slots.now right.now }
{
    let Right::Word(array, index) = right else {
        return true;
    };
    let Some(found) = m.assigns.get(place) else {
        return false;
    };
    let Right::Word(part, _) = &found.right else {
        return false;
    };
    let Some(slot) = slots.get(*part) else {
        return false;
    };
    if slot.array != *array {
        return false;
    }
    has_assign(&m.assigns, place, found.target, &Right::Word(*part, *index))
}

// Whether each word that is read is, at the place that is named for it.
fn are_reads_of(m: &Netlist, slots: &[Slot], places: &[usize], assigns: &[Assign]) -> bool
    ensures { IsTrue result → All (λ (a : Assign). IsReadOf (netlist_of m.now) slots.now a.right) assigns.now }
{
    for (number, assign) in assigns.iter().enumerate() {
        let place = places.get(number).copied().unwrap_or(0);
        if !is_read_of(m, slots, place, &assign.right) {
            return false;
        }
    }
    true
}

// Whether a put is one of which an old update, at this place, puts a part.
fn is_put_of(m: &Netlist, slots: &[Slot], place: usize, update: &Update) -> bool
    ensures { IsTrue result → IsPutOf (netlist_of m.now) slots.now update.now }
{
    let Update::Put(array, index, _) = update else {
        return true;
    };
    let Some(Update::Put(part, _, _)) = m.updates.get(place) else {
        return false;
    };
    let Some(slot) = slots.get(*part) else {
        return false;
    };
    if slot.array != *array {
        return false;
    }
    put_at(&m.updates, place, *part, index).is_some()
}

// Whether each put is, at the place that is named for it.
fn are_puts_of(m: &Netlist, slots: &[Slot], places: &[usize], updates: &[Update]) -> bool
    ensures { IsTrue result → All (IsPutOf (netlist_of m.now) slots.now) updates.now }
{
    for (number, update) in updates.iter().enumerate() {
        let place = places.get(number).copied().unwrap_or(0);
        if !is_put_of(m, slots, place, update) {
            return false;
        }
    }
    true
}

// Where the new netlist should have what the old one has, and the other way round: of each old update the new one, of each new assign that reads a word an old one that does, of each new assign that joins the old update that puts its upper part, of each new put an old one. Nothing is claimed of it.
#[derive(Debug, Drop)]
pub(crate) struct PackingHints {
    pub updates: Vec<usize>,
    pub reads: Vec<usize>,
    pub puts: Vec<usize>,
}

// Whether a netlist is another one with its arrays packed by these slots.
pub(crate) fn is_packed(new: &Netlist, old: &Netlist, slots: &[Slot], hints: &PackingHints) -> bool
    ensures { IsTrue result → IsPacked (netlist_of new.now) (netlist_of old.now) slots.now }
{
    let added = Added {
        wire: old.wires.len(),
        assign: old.assigns.len(),
    };
    if !has_nets(new, old) {
        return false;
    }
    if !have_slots(new, slots, &old.arrays) {
        return false;
    }
    if !are_assigned(new, added, slots, &old.assigns) {
        return false;
    }
    if !are_updated(new, added, slots, &hints.updates, &old.updates) {
        return false;
    }
    if !are_reads_of(old, slots, &hints.reads, &new.assigns) {
        return false;
    }
    if !are_puts_of(old, slots, &hints.puts, &new.updates) {
        return false;
    }
    are_joined(new, old, &hints.reads, &hints.puts, &new.updates)
}
