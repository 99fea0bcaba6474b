// Statements, checked one by one.

ghost use Rattle.std.specs.Prelude.{◌≡◌, ◌++◌, ◌∷◌, [], All, OnOk, IfOk, IfErr, IsTrue};
ghost use Rattle.wiring.specs.Netlist.{netlist_of};
ghost use Rattle.netlist.specs.Scopes.{collected, assign_named, update_named};
ghost use Rattle.netlist.specs.Faults.{IsErrorBy};
ghost use Rattle.netlist.specs.Statements.{IsOfDrivenSort, StandsForAssign, StandsForUpdate, IsGoodAssign, IsGoodUpdate, IsWrongAssign, IsWrongUpdate, IsAssignFault, IsUpdateFault, fault_of};

use crate::fault::{NetError, NetFault, Statement};
use crate::parts::{NamedAssign, NamedUpdate};
use crate::scope::Scope;
use crate::{resolve, width};
use std::alloc::{AllocError, Global};
use wiring::{Assign, Net, Netlist, Update};

// What is wrong with a statement.
#[derive(Clone, Copy, Debug)]
pub(crate) enum Wrong {
    Unknown,
    WrongSort,
    Divisor,
    Width,
}

fn fault(wrong: Wrong, statement: Statement) -> NetFault
    ensures { result ≡ fault_of wrong statement }
{
    match wrong {
        Wrong::Unknown => NetFault::Unknown(statement),
        Wrong::WrongSort => NetFault::WrongSort(statement),
        Wrong::Divisor => NetFault::Divisor(statement),
        Wrong::Width => NetFault::Width(statement),
    }
}

fn is_driven(net: Net) -> bool
    ensures yes { IsTrue result → IsOfDrivenSort net }
    ensures no { IsOfDrivenSort net → IsTrue result }
{
    match net {
        Net::Output(_) => true,
        Net::Wire(_) => true,
        Net::Input(_) => false,
        Net::Reg(_) => false,
    }
}

fn checked_assign(scope: &Scope, wiring: &Netlist, named: &NamedAssign) -> Result<Assign, Wrong>
    ensures ok { IfOk result (StandsForAssign scope.now (netlist_of wiring.now) named.now) }
    ensures wrong { IfErr result
        (λ w. IsWrongAssign scope.now (netlist_of wiring.now) w named.now) }
{
    let Some(assign) = resolve::assign(scope, named) else {
        if resolve::assign_is_known(scope, named) {
            return Err(Wrong::WrongSort);
        }
        return Err(Wrong::Unknown);
    };
    if !is_driven(assign.target) {
        return Err(Wrong::WrongSort);
    }
    if !width::divisor_is_constant(&assign.right) {
        return Err(Wrong::Divisor);
    }
    if !width::assign_fits(wiring, &assign) {
        return Err(Wrong::Width);
    }
    Ok(assign)
}

fn checked_update(scope: &Scope, wiring: &Netlist, named: &NamedUpdate) -> Result<Update, Wrong>
    ensures ok { IfOk result (StandsForUpdate scope.now (netlist_of wiring.now) named.now) }
    ensures wrong { IfErr result
        (λ w. IsWrongUpdate scope.now (netlist_of wiring.now) w named.now) }
{
    let Some(update) = resolve::update(scope, named) else {
        if resolve::update_is_known(scope, named) {
            return Err(Wrong::WrongSort);
        }
        return Err(Wrong::Unknown);
    };
    if !width::update_fits(wiring, &update) {
        return Err(Wrong::Width);
    }
    Ok(update)
}

fn keep_assign(assigns: &mut Vec<Assign>, assign: Assign) -> Result<(), AllocError>
    ensures { OnOk result (assigns.new.items ≡ assigns.old.items ++ assign ∷ []) }
{
    let Assign { target, right } = assign;
    assigns.push(Assign { target, right })?;
    Ok(())
}

fn keep_update(updates: &mut Vec<Update>, update: Update) -> Result<(), AllocError>
    ensures { OnOk result (updates.new.items ≡ updates.old.items ++ update ∷ []) }
{
    match update {
        Update::Set(r, a) => updates.push(Update::Set(r, a))?,
        Update::Put(m, i, a) => updates.push(Update::Put(m, i, a))?,
    }
    Ok(())
}

// The assigns that these denote, or the first that is wrong.
pub(crate) fn checked_assigns(
    alloc: Global,
    scope: &Scope,
    wiring: &Netlist,
    named: &[NamedAssign],
) -> Result<Vec<Assign>, NetError>
    ensures ok { IfOk result (λ bs. bs.items ≡ collected (assign_named scope.now) named.now) }
    ensures good { OnOk result (All (IsGoodAssign scope.now (netlist_of wiring.now)) named.now) }
    ensures wrong { IfErr result
        (IsErrorBy (IsAssignFault scope.now (netlist_of wiring.now) named.now)) }
{
    let mut assigns = Vec::new(alloc);
    for (k, one) in named.iter().enumerate() {
        match checked_assign(scope, wiring, one) {
            Ok(assign) => keep_assign(&mut assigns, assign)?,
            Err(wrong) => return Err(NetError::Fault(fault(wrong, Statement::Assign(k)))),
        }
    }
    Ok(assigns)
}

// The updates that these denote, or the first that is wrong.
pub(crate) fn checked_updates(
    alloc: Global,
    scope: &Scope,
    wiring: &Netlist,
    named: &[NamedUpdate],
) -> Result<Vec<Update>, NetError>
    ensures ok { IfOk result (λ vs. vs.items ≡ collected (update_named scope.now) named.now) }
    ensures good { OnOk result (All (IsGoodUpdate scope.now (netlist_of wiring.now)) named.now) }
    ensures wrong { IfErr result
        (IsErrorBy (IsUpdateFault scope.now (netlist_of wiring.now) named.now)) }
{
    let mut updates = Vec::new(alloc);
    for (k, one) in named.iter().enumerate() {
        match checked_update(scope, wiring, one) {
            Ok(update) => keep_update(&mut updates, update)?,
            Err(wrong) => return Err(NetError::Fault(fault(wrong, Statement::Update(k)))),
        }
    }
    Ok(updates)
}
