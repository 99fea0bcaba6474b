// The strongly connected components of what nodes need, each after those that it needs: the search of Tarjan ("Depth-first
// search and linear graph algorithms", 1972), with a path of its own in place of recursion.

use crate::graph::{Needs, number_at, put};
use std::alloc::{AllocError, Global};

// A node on the path, and at how many of its needs the search has looked.
#[derive(Clone, Copy)]
struct Visit {
    node: usize,
    looked: usize,
}

// The component of each node, counted from 1 in the order in which they were found, and how many there are.
#[derive(Drop)]
pub(crate) struct Found {
    pub(crate) component: Vec<usize>,
    pub(crate) count: usize,
}

#[derive(Drop)]
struct Search {
    // the number of each node in the order of the search, from 1; 0 for one that it has not come to
    number: Vec<usize>,
    // the least number that is reached from each node over nodes that have no component yet
    low: Vec<usize>,
    path: Vec<Visit>,
    // nodes that have no component yet
    waiting: Vec<usize>,
    seen: usize,
    found: Found,
}

fn enter(search: &mut Search, node: usize) -> Result<(), AllocError> {
    search.seen = search.seen.saturating_add(1);
    put(&mut search.number, node, search.seen);
    put(&mut search.low, node, search.seen);
    search.waiting.push(node)?;
    search.path.push(Visit { node, looked: 0 })?;
    Ok(())
}

fn lower(low: &mut [usize], node: usize, number: usize) {
    if number < number_at(low, node) {
        put(low, node, number);
    }
}

// The nodes that wait, down to this one, are a component.
fn close(search: &mut Search, node: usize) {
    search.found.count = search.found.count.saturating_add(1);
    for _ in 0..search.waiting.len() {
        let Some(last) = search.waiting.pop() else {
            return;
        };
        put(&mut search.found.component, last, search.found.count);
        if last == node {
            return;
        }
    }
}

fn leave(search: &mut Search, node: usize) {
    let _ = search.path.pop();
    let low = number_at(&search.low, node);
    if low == number_at(&search.number, node) {
        close(search, node);
    }
    if let Some(above) = search.path.last().copied() {
        lower(&mut search.low, above.node, low);
    }
}

// Looks at what a node needs.
fn look(search: &mut Search, node: usize, need: usize) -> Result<(), AllocError> {
    let number = number_at(&search.number, need);
    if number == 0 {
        return enter(search, need);
    }
    if number_at(&search.found.component, need) == 0 {
        lower(&mut search.low, node, number);
    }
    Ok(())
}

fn need_at(needs: &[Needs], visit: Visit) -> Option<usize> {
    match needs.get(visit.node) {
        None => None,
        Some(need) => match visit.looked {
            0 => need.first,
            1 => need.second,
            _ => need.third,
        },
    }
}

// The search goes on from the end of its path.
fn go_on(search: &mut Search, needs: &[Needs], visit: Visit) -> Result<(), AllocError> {
    if visit.looked > 2 {
        leave(search, visit.node);
        return Ok(());
    }
    if let Some(top) = search.path.last_mut() {
        top.looked = visit.looked.saturating_add(1);
    }
    match need_at(needs, visit) {
        Some(need) if need < needs.len() => look(search, visit.node, need),
        _ => Ok(()),
    }
}

// Takes up a node, if the search has not come to it.
fn begin(search: &mut Search, node: usize) -> Result<(), AllocError> {
    if number_at(&search.number, node) == 0 {
        return enter(search, node);
    }
    Ok(())
}

// The components of all nodes.
pub(crate) fn components_of(alloc: Global, needs: &[Needs]) -> Result<Found, AllocError> {
    let count = needs.len();
    let mut search = Search {
        number: vec![in alloc; 0usize; count]?,
        low: vec![in alloc; 0usize; count]?,
        path: Vec::new(alloc),
        waiting: Vec::new(alloc),
        seen: 0,
        found: Found {
            component: vec![in alloc; 0usize; count]?,
            count: 0,
        },
    };
    let mut next = 0;
    // each node is taken up, looked at three times and left
    for _ in 0..count.saturating_mul(5) {
        if let Some(visit) = search.path.last().copied() {
            go_on(&mut search, needs, visit)?;
        } else {
            begin(&mut search, next)?;
            next = next.saturating_add(1).min(count);
        }
    }
    Ok(search.found)
}
