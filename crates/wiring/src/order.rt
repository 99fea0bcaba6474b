// An order in which assigns can be evaluated.

ghost use Rattle.std.specs.Prelude.{◌≡◌, ◌≢◌, ℕ, ◌+◌, ◌<◌, ◌≤◌, ◌++◌, ◌∷◌, [], length, slice_get, slice_set, Some, None, All, OnOk, OnErr, IfOk, IfErr, vec_len};
ghost use Rattle.wiring.specs.Order.{IsEvaluationOrder, reads_at, net_in, driver_at_of, IsCause};
ghost use Rattle.wiring.specs.Moves.{IsSearchOf, Enters, Leaves, Looks, weight, KeepsMarks, DriverIs};
ghost use Rattle.wiring.specs.Tables.{IsTable};
ghost use Rattle.wiring.specs.declared.order.Mark.TheVariants.{New, Open, Done};

use crate::drivers::Drivers;
use crate::netlist::{Assign, Net};
use crate::right::{Atom, Right};
use std::alloc::{AllocError, AllocFailed, Global};

// How far the search has come with an assign.
#[derive(Clone, Copy, Debug, PartialEq, Eq)]
pub enum Mark {
    New,
    Open,
    Done,
}

// An assign on the way, and at how many of its places it was looked.
#[derive(Clone, Copy, Debug)]
pub struct Visit {
    pub assign: usize,
    pub looked: usize,
}

// A search in depth.
#[derive(Debug, Drop)]
pub struct Search {
    pub marks: Vec<Mark>,
    pub path: Vec<Visit>,
    pub order: Vec<usize>,
}

fn net_of(a: &Atom<Net>) -> Option<Net>
    ensures { result ≡ net_in a.now }
{
    match a {
        Atom::Net(n) => Some(*n),
        Atom::Constant(_) => None,
    }
}

fn first(right: &Right<Net, usize>) -> Option<Net>
    ensures { result ≡ reads_at right.now 0 }
{
    match right {
        Right::Copy(a)
        | Right::Not(a)
        | Right::Binary(_, a, _)
        | Right::Choose(a, _, _)
        | Right::Join(a, _)
        | Right::Repeat(_, a)
        | Right::Word(_, a) => net_of(a),
        Right::Bit(v, _) | Right::Slice(v, _, _) => Some(*v),
    }
}

fn second(right: &Right<Net, usize>) -> Option<Net>
    ensures { result ≡ reads_at right.now 1 }
{
    match right {
        Right::Binary(_, _, b) | Right::Choose(_, b, _) | Right::Join(_, b) => net_of(b),
        _ => None,
    }
}

fn third(right: &Right<Net, usize>) -> Option<Net>
    ensures { result ≡ reads_at right.now 2 }
{
    match right {
        Right::Choose(_, _, b) => net_of(b),
        _ => None,
    }
}

#[tactic(auto, using(crate::proofs::Places::reads_past))]
pub(crate) fn read_at(right: &Right<Net, usize>, place: usize) -> Option<Net>
    ensures { result ≡ reads_at right.now place }
{
    match place {
        0 => first(right),
        1 => second(right),
        2 => third(right),
        _ => None,
    }
}

/// Why there is no order.
#[derive(Debug, Drop)]
pub enum OrderFault {
    /// The assign of this number depends on itself.
    Cycle(usize),
    OutOfMemory,
}

impl From<AllocError> for OrderFault {
    ghost use Rattle.wiring.specs.declared.order.OrderFault.TheVariants.{OutOfMemory};
    ghost use Rattle.std.specs.Prelude.{◌≡◌};

    ghost from_gives = { λ _ e. e ≡ OutOfMemory };

    fn from(_: AllocError) -> Self {
        OrderFault::OutOfMemory
    }
}

// The assign that drives what is at a place of a right side.
fn driver_at(drivers: &Drivers, right: &Right<Net, usize>, place: usize) -> Option<usize>
    ensures { result ≡ driver_at_of drivers.now right.now place }
{
    match read_at(right, place) {
        Some(net) => drivers.of(net),
        None => None,
    }
}

// What drives the place of an assign at which the search looks next.
fn driver_for(assigns: &[Assign], drivers: &Drivers, visit: Visit) -> Option<usize>
    requires { visit.assign < length assigns.now }
    ensures { DriverIs assigns.now drivers.now visit.assign visit.looked result }
{
    let assign = &assigns[visit.assign];
    driver_at(drivers, &assign.right, visit.looked)
}

fn enter(search: &mut Search, assign: usize) -> Result<(), AllocError>
    requires { assign < length search.old.marks.items }
    ensures ok { OnOk result (Enters search.old search.new assign) }
{
    search.path.push(Visit { assign, looked: 0 })?;
    search.marks[assign] = Mark::Open;
    Ok(())
}

fn leave(search: &mut Search, assign: usize) -> Result<(), AllocError>
    requires { assign < length search.old.marks.items }
    ensures ok { OnOk result (Leaves search.old search.new assign) }
{
    search.order.push(assign)?;
    let _ = search.path.pop();
    search.marks[assign] = Mark::Done;
    Ok(())
}

fn look(search: &mut Search, top: usize, visit: Visit)
    requires { top < vec_len search.old.path }
    ensures { Looks search.old search.new top visit }
{
    let Visit { assign, looked } = visit;
    let looked = looked.saturating_add(1);
    search.path[top] = Visit { assign, looked };
}

// One move: a look at the next place of the last assign on the path, or its end.
fn step(search: &mut Search, assigns: &[Assign], drivers: &Drivers) -> Result<(), OrderFault>
    requires search { IsSearchOf assigns.now search.old }
    requires table { IsTable assigns.now drivers.now }
    requires path { 0 < vec_len search.old.path }
    ensures search { OnOk result (IsSearchOf assigns.now search.new) }
    ensures nearer { OnOk result (weight search.new < weight search.old) }
    ensures marks { OnOk result (KeepsMarks search.old.marks.items search.new.marks.items) }
    ensures cycle { IfErr result (IsCause assigns.now) }
{
    let top = search.path.len() - 1;
    let visit = search.path[top];
    if visit.looked >= 3 {
        leave(search, visit.assign)?;
        return Ok(());
    }
    match driver_for(assigns, drivers, visit) {
        None => {
            look(search, top, visit);
            Ok(())
        }
        Some(j) => match search.marks[j] {
            Mark::Done => {
                look(search, top, visit);
                Ok(())
            }
            Mark::New => {
                enter(search, j)?;
                Ok(())
            }
            Mark::Open => Err(OrderFault::Cycle(j)),
        },
    }
}

// Goes on until the path is empty.
fn finish(search: &mut Search, assigns: &[Assign], drivers: &Drivers) -> Result<(), OrderFault>
    requires search { IsSearchOf assigns.now search.old }
    requires table { IsTable assigns.now drivers.now }
    ensures search { OnOk result (IsSearchOf assigns.now search.new) }
    ensures path { OnOk result (search.new.path.items ≡ []) }
    ensures marks { OnOk result (KeepsMarks search.old.marks.items search.new.marks.items) }
    ensures cycle { IfErr result (IsCause assigns.now) }
{
    while !search.path.is_empty() {
        step(search, assigns, drivers)?;
    }
    Ok(())
}

// Comes to an assign, and to all that it depends on.
fn search_from(
    search: &mut Search,
    assigns: &[Assign],
    drivers: &Drivers,
    start: usize,
) -> Result<(), OrderFault>
    requires search { IsSearchOf assigns.now search.old }
    requires table { IsTable assigns.now drivers.now }
    requires path { search.old.path.items ≡ [] }
    requires start { start < length assigns.now }
    ensures search { OnOk result (IsSearchOf assigns.now search.new) }
    ensures path { OnOk result (search.new.path.items ≡ []) }
    ensures marks { OnOk result (KeepsMarks search.old.marks.items search.new.marks.items) }
    ensures visited { OnOk result (slice_get search.new.marks.items start ≢ Some New) }
    ensures cycle { IfErr result (IsCause assigns.now) }
{
    match search.marks[start] {
        Mark::New => {
            enter(search, start)?;
            finish(search, assigns, drivers)?;
            Ok(())
        }
        Mark::Open | Mark::Done => Ok(()),
    }
}

/// An order in which the assigns can be evaluated, or an assign that depends on itself.
pub fn evaluation_order(
    alloc: Global,
    assigns: &[Assign],
    drivers: &Drivers,
) -> Result<Vec<usize>, OrderFault>
    requires { IsTable assigns.now drivers.now }
    ensures ok { IfOk result (λ order. IsEvaluationOrder assigns.now order.items) }
    ensures cycle { IfErr result (IsCause assigns.now) }
{
    let mut search = Search {
        marks: vec![in alloc; Mark::New; assigns.len()]?,
        path: Vec::new(alloc),
        order: Vec::new(alloc),
    };
    for start in 0..assigns.len() {
        search_from(&mut search, assigns, drivers, start)?;
    }
    Ok(search.order)
}
