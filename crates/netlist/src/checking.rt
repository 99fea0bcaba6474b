// The module that parts make, or their first fault.

ghost use Rattle.std.specs.Prelude.{◌≡◌, reverse, OnOk, IfOk, IfErr};
ghost use Rattle.wiring.specs.Netlist.{netlist_of};
ghost use Rattle.netlist.specs.Names.{names_of as names_told};
ghost use Rattle.netlist.specs.Scopes.{scope_of, netlist_of_parts, names_of_parts, SizesFit};
ghost use Rattle.netlist.specs.Faults.{IsFault, IsErrorBy, IsModuleOf};
ghost use Rattle.netlist.specs.Noted.{AreNamesBackwards, NotesName};
ghost use Rattle.netlist.specs.Passes.{PassesPorts, PassesStatements, IsPassFault};
ghost use Rattle.netlist.specs.Driven.{IsWired};

use crate::fault::NetError;
use crate::laws::rules_kept_law;
use crate::module::Module;
use crate::names::Names;
use crate::parts::{Declaration, Parts, Sort};
use crate::scope::Scope;
use crate::{declare, drive, profile, statement};
use net_names::Name;
use std::alloc::{AllocError, Global};
use wiring::Netlist;

// Parts with nets and arrays in place of names, and an order of their assigns.
#[derive(Debug, Drop)]
pub(crate) struct Wired {
    pub wiring: Netlist,
    pub order: Vec<usize>,
}

// The nets, and the statements that drive them.
fn wiring_of(alloc: Global, parts: &Parts, scope: &Scope) -> Result<Netlist, NetError>
    requires passes { PassesPorts parts.now }
    requires scope { scope.now ≡ scope_of parts.now }
    ensures netlist { IfOk result (λ w. netlist_of w ≡ netlist_of_parts parts.now) }
    ensures passes { OnOk result (PassesStatements parts.now) }
    ensures sizes { OnOk result (SizesFit parts.now) }
    ensures fault { IfErr result (IsErrorBy (IsPassFault parts.now)) }
{
    let nets = declare::nets_of(alloc, parts)?;
    let assigns = statement::checked_assigns(alloc, scope, &nets, &parts.assigns)?;
    let updates = statement::checked_updates(alloc, scope, &nets, &parts.updates)?;
    Ok(Netlist {
        assigns,
        updates,
        ..nets
    })
}

// The parts with nets and arrays in place of names.
fn wired_of(alloc: Global, parts: &Parts) -> Result<Wired, NetError>
    ensures ok { IfOk result (IsWired parts.now) }
    ensures fault { IfErr result (IsErrorBy (IsPassFault parts.now)) }
{
    let scope = declare::scope_of(alloc, parts)?;
    profile::check_ports(parts)?;
    let wiring = wiring_of(alloc, parts, &scope)?;
    let tables = drive::tables_of(alloc, &wiring)?;
    drive::check_driven(parts, &scope, &tables)?;
    let order = drive::order_of(alloc, &wiring, &tables.drivers)?;
    Ok(Wired { wiring, order })
}

// Adds the name of a declaration to those of its sort.
fn note_name(names: &mut Names, declaration: Declaration) -> Result<(), AllocError>
    ensures { OnOk result (NotesName names.new names.old declaration) }
{
    let Declaration { name, sort } = declaration;
    match sort {
        Sort::Wire(_) => names.wires.push(name)?,
        Sort::Reg(_) => names.regs.push(name)?,
        Sort::Array(_) => names.arrays.push(name)?,
    }
    Ok(())
}

// The names of declarations, the last first.
fn names_backwards(
    alloc: Global,
    name: Name,
    mut declarations: Vec<Declaration>,
) -> Result<Names, AllocError>
    ensures { IfOk result (λ n. AreNamesBackwards n name declarations.items) }
{
    let mut names = Names {
        module: name,
        wires: Vec::new(alloc),
        regs: Vec::new(alloc),
        arrays: Vec::new(alloc),
    };
    while let Some(declaration) = declarations.pop() {
        note_name(&mut names, declaration)?;
    }
    Ok(names)
}

fn turn(names: &mut Vec<Name>)
    ensures { names.new.items ≡ reverse names.old.items }
{
    names.reverse();
}

// The names of the module and of what is declared after the ports.
fn names_of(alloc: Global, parts: Parts) -> Result<Names, AllocError>
    ensures { IfOk result (λ n. names_told n ≡ names_of_parts parts) }
{
    let Parts {
        name,
        ports: _,
        declarations,
        assigns: _,
        updates: _,
    } = parts;
    let mut names = names_backwards(alloc, name, declarations)?;
    turn(&mut names.wires);
    turn(&mut names.regs);
    turn(&mut names.arrays);
    Ok(names)
}

impl Module {
    /// The module that these parts make, or their first fault in the order of the passes.
    pub fn checked(alloc: Global, parts: Parts) -> Result<Module, NetError>
        ensures made { IfOk result (IsModuleOf parts) }
        ensures fault { IfErr result (IsErrorBy (IsFault parts)) }
    {
        let Wired { wiring, order } = wired_of(alloc, &parts)?;
        let names = names_of(alloc, parts)?;
        wiring::no_cycle_law();
        rules_kept_law();
        let made = Module::in_order(names, wiring, order);
        Ok(made)
    }
}
