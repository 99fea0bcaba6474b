// What drives each net and array, and in which order.

ghost use Rattle.std.specs.Prelude.{◌≡◌, ◌<◌, length, slice_get, All, OnOk, IfOk, IfErr, IfNone, IfSome};
ghost use Rattle.wiring.specs.Netlist.{netlist_of};
ghost use Rattle.wiring.specs.Tables.{IsTable, IsUpdateTable};
ghost use Rattle.wiring.specs.Order.{IsEvaluationOrder};
ghost use Rattle.netlist.specs.Scopes.{Entry};
ghost use Rattle.netlist.specs.Entries.{meaning_of};
ghost use Rattle.netlist.specs.Faults.{IsErrorBy};
ghost use Rattle.netlist.specs.Passes.{IsPlace};
ghost use Rattle.netlist.specs.Driven.{is_driven_by, AreStateTargets, AreTables, AreTargets, IsDrivenEntry, IsUndrivenPlace, IsDrivenTwice, IsSecondAssign, IsSecondUpdate, IsFirstUndriven, IsCycle};

use crate::fault::{Declared, NetError, NetFault, Statement};
use crate::parts::Parts;
use crate::scope::{Scope, Stands};
use std::alloc::Global;
use wiring::{Drivers, Net, Netlist, OrderFault, TableFault, Updaters};

// What drives each net and array.
#[derive(Debug, Drop)]
pub(crate) struct Tables {
    pub drivers: Drivers,
    pub updaters: Updaters,
}

// The assign of each output and wire, or the second assign of one.
fn drivers_of(alloc: Global, wiring: &Netlist) -> Result<Drivers, NetError>
    requires { AreTargets (netlist_of wiring.now) }
    ensures ok { IfOk result (IsTable wiring.now.assigns.items) }
    ensures fault { IfErr result (IsErrorBy (IsSecondAssign (netlist_of wiring.now))) }
{
    let outputs = wiring.outputs.len();
    match wiring::drivers_of(alloc, outputs, wiring.wires.len(), &wiring.assigns) {
        Ok(drivers) => Ok(drivers),
        Err(TableFault::Twice(k)) => {
            let fault = NetFault::DrivenTwice(Statement::Assign(k));
            Err(NetError::Fault(fault))
        }
        Err(TableFault::OutOfMemory) => Err(NetError::OutOfMemory),
    }
}

// The update of each register and array, or the second update of one.
fn updaters_of(alloc: Global, wiring: &Netlist) -> Result<Updaters, NetError>
    requires { AreStateTargets (netlist_of wiring.now) }
    ensures ok { IfOk result (IsUpdateTable wiring.now.updates.items) }
    ensures fault { IfErr result (IsErrorBy (IsSecondUpdate (netlist_of wiring.now))) }
{
    let regs = wiring.regs.len();
    match wiring::updaters_of(alloc, regs, wiring.arrays.len(), &wiring.updates) {
        Ok(updaters) => Ok(updaters),
        Err(TableFault::Twice(k)) => {
            let fault = NetFault::DrivenTwice(Statement::Update(k));
            Err(NetError::Fault(fault))
        }
        Err(TableFault::OutOfMemory) => Err(NetError::OutOfMemory),
    }
}

// What drives each net and array, or the second driver of one, assigns first.
pub(crate) fn tables_of(alloc: Global, wiring: &Netlist) -> Result<Tables, NetError>
    requires targets { AreTargets (netlist_of wiring.now) }
    requires states { AreStateTargets (netlist_of wiring.now) }
    ensures tables { IfOk result (AreTables (netlist_of wiring.now)) }
    ensures fault { IfErr result (IsErrorBy (IsDrivenTwice (netlist_of wiring.now))) }
{
    let drivers = drivers_of(alloc, wiring)?;
    let updaters = updaters_of(alloc, wiring)?;
    Ok(Tables { drivers, updaters })
}

fn is_driven(tables: &Tables, stands: Stands) -> bool
    ensures { result ≡ is_driven_by tables.now (meaning_of stands) }
{
    match stands {
        Stands::Clock => true,
        Stands::Input(_) => true,
        Stands::Output(i) => tables.drivers.of(Net::Output(i)).is_some(),
        Stands::Wire(i) => tables.drivers.of(Net::Wire(i)).is_some(),
        Stands::Reg(i) => tables.updaters.of_reg(i).is_some(),
        Stands::Array(x) => tables.updaters.of_array(x).is_some(),
    }
}

// Whether what is at this place of the scope is driven.
fn is_driven_at(scope: &Scope, tables: &Tables, place: usize) -> bool
    requires { place < length scope.now }
    ensures { (e : Entry)
        → slice_get scope.now place ≡ Some e → result ≡ is_driven_by tables.now e.meaning }
{
    match scope.stands_at(place) {
        Some(stands) => is_driven(tables, stands),
        None => false,
    }
}

// The first place of the scope at which nothing drives what is there.
fn first_undriven(scope: &Scope, tables: &Tables) -> Option<usize>
    ensures none { IfNone result (All (IsDrivenEntry tables.now) scope.now) }
    ensures some { IfSome result (IsUndrivenPlace tables.now scope.now) }
{
    for place in 0..scope.len() {
        if !is_driven_at(scope, tables, place) {
            return Some(place);
        }
    }
    None
}

fn declared_at(parts: &Parts, place: usize) -> Declared
    ensures { IsPlace parts.now result place }
{
    let ports = parts.ports.len();
    if place < ports {
        Declared::Port(place)
    } else {
        Declared::Declaration(place - ports)
    }
}

// Whether each wire, output, register and array is driven.
pub(crate) fn check_driven(parts: &Parts, scope: &Scope, tables: &Tables) -> Result<(), NetFault>
    ensures ok { OnOk result (All (IsDrivenEntry tables.now) scope.now) }
    ensures fault { IfErr result (IsFirstUndriven parts.now scope.now tables.now) }
{
    match first_undriven(scope, tables) {
        None => Ok(()),
        Some(place) => Err(NetFault::Undriven(declared_at(parts, place))),
    }
}

// An order in which the assigns can be evaluated, or one that depends on itself.
pub(crate) fn order_of(
    alloc: Global,
    wiring: &Netlist,
    drivers: &Drivers,
) -> Result<Vec<usize>, NetError>
    requires { IsTable wiring.now.assigns.items drivers.now }
    ensures ok { IfOk result (λ order. IsEvaluationOrder wiring.now.assigns.items order.items) }
    ensures fault { IfErr result (IsErrorBy (IsCycle (netlist_of wiring.now))) }
{
    match wiring::evaluation_order(alloc, &wiring.assigns, drivers) {
        Ok(order) => Ok(order),
        Err(OrderFault::Cycle(k)) => Err(NetError::Fault(NetFault::Cycle(k))),
        Err(OrderFault::OutOfMemory) => Err(NetError::OutOfMemory),
    }
}
