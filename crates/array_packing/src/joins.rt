// Whether what is put into packed arrays is joined of what the other netlist puts.

ghost use Rattle.std.specs.Prelude.{IsTrue, All, IfSome};
ghost use Rattle.wiring.specs.Netlist.{netlist_of};
ghost use Rattle.array_packing.specs.Packing.{IsJoin, IsJoinedOf, IsPutAmong, PutsJoined};

use crate::check::{Added, has_assign, place_of, put_at, same_atom};
use wiring::{Atom, Net, Netlist, Right, Update};

// Whether the update at this place puts this value at this index.
fn puts_at(updates: &[Update], place: usize, index: &Atom<Net>, value: &Atom<Net>) -> bool
    ensures { IsTrue result → IsPutAmong updates.now index.now value.now }
{
    let Some(Update::Put(array, _, _)) = updates.get(place) else {
        return false;
    };
    let Some(given) = put_at(updates, place, *array, index) else {
        return false;
    };
    same_atom(&given, value)
}

// Where the assign of a join should be; nothing is claimed of it.
fn join_place(old: &Netlist, whole: &Atom<Net>) -> usize {
    let added = Added {
        wire: old.wires.len(),
        assign: old.assigns.len(),
    };
    match whole {
        Atom::Net(net) => place_of(added, *net),
        Atom::Constant(_) => 0,
    }
}

// The two parts of a join, whose assign is at this place, the upper one first.
fn joined_parts(m: &Netlist, place: usize, whole: &Atom<Net>) -> Option<(Atom<Net>, Atom<Net>)>
    ensures { IfSome result (λ r. IsJoin (netlist_of m.now) whole.now r.0 r.1) }
{
    let Atom::Net(net) = whole else {
        return None;
    };
    let Some(found) = m.assigns.get(place) else {
        return None;
    };
    let Right::Join(upper, lower) = &found.right else {
        return None;
    };
    if !has_assign(&m.assigns, place, *net, &found.right) {
        return None;
    }
    Some((*upper, *lower))
}

// Whether a value is joined of values that the old netlist puts at this index, the lowest by the update at this place, and each other one by the update that is named for its join.
fn is_joined(
    new: &Netlist,
    old: &Netlist,
    sources: &[usize],
    place: usize,
    index: &Atom<Net>,
    value: Atom<Net>,
) -> bool
    ensures { IsTrue result → IsJoinedOf (netlist_of new.now) (netlist_of old.now) index.now value }
{
    let mut whole = value;
    for _ in 0..64 {
        if puts_at(&old.updates, place, index, &whole) {
            return true;
        }
        let join = join_place(old, &whole);
        let Some((upper, lower)) = joined_parts(new, join, &whole) else {
            return false;
        };
        let source = sources.get(join).copied().unwrap_or(0);
        if !puts_at(&old.updates, source, index, &upper) {
            return false;
        }
        whole = lower;
    }
    false
}

// Whether what an update puts is.
fn puts_joined(
    new: &Netlist,
    old: &Netlist,
    sources: &[usize],
    place: usize,
    update: &Update,
) -> bool
    ensures { IsTrue result → PutsJoined (netlist_of new.now) (netlist_of old.now) update.now }
{
    match update {
        Update::Set(_, _) => true,
        Update::Put(_, index, value) => is_joined(new, old, sources, place, index, *value),
    }
}

// Whether what each of the updates of the new netlist puts is, at the place that is named for it.
pub(crate) fn are_joined(
    new: &Netlist,
    old: &Netlist,
    sources: &[usize],
    places: &[usize],
    updates: &[Update],
) -> bool
    ensures { IsTrue result
        → All (PutsJoined (netlist_of new.now) (netlist_of old.now)) updates.now }
{
    for (number, update) in updates.iter().enumerate() {
        let place = places.get(number).copied().unwrap_or(0);
        if !puts_joined(new, old, sources, place, update) {
            return false;
        }
    }
    true
}
