// What drives each net and array.

ghost use Rattle.std.specs.Prelude.{◌≡◌, ◌≤◌, length, All, IfOk, IfErr};
ghost use Rattle.wiring.specs.declared.netlist.Assign.{Assign};
ghost use Rattle.wiring.specs.declared.netlist.Update.{Update};
ghost use Rattle.wiring.specs.Netlist.{update_target};
ghost use Rattle.wiring.specs.declared.netlist.Holder.TheVariants.{OfNet, OfArray};
ghost use Rattle.wiring.specs.Tables.{assign_target, driver_of, updater_of, IsTable, IsUpdateTable, IsTwice, IsTarget, IsStateTarget, Notes};
ghost use Rattle.wiring.specs.declared.netlist.Net.TheVariants.{Reg};
ghost use Rattle.wiring.specs.declared.drivers.TableFault.TheVariants.{Twice};

use crate::netlist::{Assign, Net, Update};
use std::alloc::{AllocError, Global};

/// The assign that drives each output and each wire.
#[derive(Debug, Drop)]
pub struct Drivers {
    pub outputs: Vec<Option<usize>>,
    pub wires: Vec<Option<usize>>,
}

/// The update of each register and each array.
#[derive(Debug, Drop)]
pub struct Updaters {
    pub regs: Vec<Option<usize>>,
    pub arrays: Vec<Option<usize>>,
}

/// Why there is no table.
#[derive(Debug, Drop)]
pub enum TableFault {
    /// The item of this number is the second one of its target.
    Twice(usize),
    OutOfMemory,
}

impl From<AllocError> for TableFault {
    ghost use Rattle.wiring.specs.declared.drivers.TableFault.TheVariants.{OutOfMemory};
    ghost use Rattle.std.specs.Prelude.{◌≡◌};

    ghost from_gives = { λ _ e. e ≡ OutOfMemory };

    fn from(_: AllocError) -> Self {
        TableFault::OutOfMemory
    }
}

impl Drivers {
    /// The assign of a net.
    pub fn of(&self, net: Net) -> Option<usize>
        ensures { result ≡ driver_of self.now net }
    {
        match net {
            Net::Output(i) => self.outputs.get(i).copied().unwrap_or(None),
            Net::Wire(i) => self.wires.get(i).copied().unwrap_or(None),
            Net::Input(_) | Net::Reg(_) => None,
        }
    }
}

impl Updaters {
    /// The update of a register.
    pub fn of_reg(&self, reg: usize) -> Option<usize>
        ensures { result ≡ updater_of self.now (OfNet (Reg reg)) }
    {
        self.regs.get(reg).copied().unwrap_or(None)
    }

    /// The update of an array.
    pub fn of_array(&self, array: usize) -> Option<usize>
        ensures { result ≡ updater_of self.now (OfArray array) }
    {
        self.arrays.get(array).copied().unwrap_or(None)
    }
}

fn note_driver(drivers: &mut Drivers, net: Net, assign: usize)
    requires { IsTarget (length drivers.old.outputs.items) (length drivers.old.wires.items) net }
    ensures notes { Notes (driver_of drivers.old) (driver_of drivers.new) net assign }
    ensures outputs { length drivers.new.outputs.items ≡ length drivers.old.outputs.items }
    ensures wires { length drivers.new.wires.items ≡ length drivers.old.wires.items }
{
    match net {
        Net::Output(i) => drivers.outputs[i] = Some(assign),
        Net::Wire(i) => drivers.wires[i] = Some(assign),
        Net::Input(_) | Net::Reg(_) => {}
    }
}

// The fault of two items with one target.
fn twice(_first: usize, second: usize) -> TableFault
    ensures { result ≡ Twice second }
{
    TableFault::Twice(second)
}

/// The assign of each output and wire, or the second assign of one.
pub fn drivers_of(
    alloc: Global,
    outputs: usize,
    wires: usize,
    assigns: &[Assign],
) -> Result<Drivers, TableFault>
    requires { All (λ (a : Assign). IsTarget outputs wires a.target) assigns.now }
    ensures ok { IfOk result (IsTable assigns.now) }
    ensures twice { IfErr result (IsTwice assign_target assigns.now) }
{
    let mut drivers = Drivers {
        outputs: vec![in alloc; None; outputs]?,
        wires: vec![in alloc; None; wires]?,
    };
    for (k, assign) in assigns.iter().enumerate() {
        match drivers.of(assign.target) {
            Some(first) => return Err(twice(first, k)),
            None => note_driver(&mut drivers, assign.target, k),
        }
    }
    Ok(drivers)
}

fn updater(updaters: &Updaters, update: &Update) -> Option<usize>
    ensures { result ≡ updater_of updaters.now (update_target update.now) }
{
    match update {
        Update::Set(reg, _) => updaters.of_reg(*reg),
        Update::Put(array, _, _) => updaters.of_array(*array),
    }
}

fn note_updater(updaters: &mut Updaters, update: &Update, number: usize)
    requires { IsStateTarget (length updaters.old.regs.items)
        (length updaters.old.arrays.items) (update_target update.now) }
    ensures notes { Notes
        (updater_of updaters.old) (updater_of updaters.new) (update_target update.now) number }
    ensures regs { length updaters.new.regs.items ≡ length updaters.old.regs.items }
    ensures arrays { length updaters.new.arrays.items ≡ length updaters.old.arrays.items }
{
    match update {
        Update::Set(reg, _) => updaters.regs[*reg] = Some(number),
        Update::Put(array, _, _) => updaters.arrays[*array] = Some(number),
    }
}

/// The update of each register and array, or the second update of one.
pub fn updaters_of(
    alloc: Global,
    regs: usize,
    arrays: usize,
    updates: &[Update],
) -> Result<Updaters, TableFault>
    requires { All (λ (u : Update). IsStateTarget regs arrays (update_target u)) updates.now }
    ensures ok { IfOk result (IsUpdateTable updates.now) }
    ensures twice { IfErr result (IsTwice update_target updates.now) }
{
    let mut updaters = Updaters {
        regs: vec![in alloc; None; regs]?,
        arrays: vec![in alloc; None; arrays]?,
    };
    for (k, update) in updates.iter().enumerate() {
        match updater(&updaters, update) {
            Some(first) => return Err(twice(first, k)),
            None => note_updater(&mut updaters, update, k),
        }
    }
    Ok(updaters)
}
