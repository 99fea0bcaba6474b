// What is declared: the scope and the nets of parts.

ghost use Rattle.std.specs.Prelude.{◌≡◌, ◌+◌, ◌++◌, ◌<◌, ◌^◌, length, OnOk, IfOk, IfErr};
ghost use Rattle.netlist.specs.Scopes.{port_meaning, inputs_after, outputs_after, port_entries, all_ports, sort_meaning, wires_after, regs_after, arrays_after, declared_entries, scope_of as scope_of_parts, past_clock as ports_past_clock, has_enable as enable_among, AreNamed, AreSized, SortFits, NamesAre};
ghost use Rattle.netlist.specs.Entries.{meaning_of, names_in, IsSecondPort, IsSecondDeclaration};
ghost use Rattle.netlist.specs.Faults.{IsErrorBy};
ghost use Rattle.netlist.specs.Noted.{ArePortWidths, AreSorts, NotesPort, NotesSort};
ghost use Rattle.netlist.specs.Passes.{NamesDiffer, IsPassFault};
ghost use Rattle.netlist.specs.Statements.{HasNets};

use crate::fault::{Declared, NetError};
use crate::parts::{Declaration, Direction, Parts, Port, Sort};
use crate::profile;
use crate::scope::{Scope, Stands};
use std::alloc::{AllocError, Global};
use wiring::{Netlist, Shape, Width};

fn port_stands(direction: Direction, inputs: usize, outputs: usize) -> Stands
    ensures { meaning_of result ≡ port_meaning direction inputs outputs }
{
    match direction {
        Direction::Input => Stands::Input(inputs),
        Direction::Output => Stands::Output(outputs),
    }
}

fn input_after(direction: Direction, inputs: usize) -> usize
    requires { inputs + 1 < 2 ^ 64 }
    ensures { result ≡ inputs_after direction inputs }
{
    match direction {
        Direction::Input => inputs + 1,
        Direction::Output => inputs,
    }
}

fn output_after(direction: Direction, outputs: usize) -> usize
    requires { outputs + 1 < 2 ^ 64 }
    ensures { result ≡ outputs_after direction outputs }
{
    match direction {
        Direction::Input => outputs,
        Direction::Output => outputs + 1,
    }
}

// Adds the ports after the clock.
fn add_ports<'a>(scope: &mut Scope<'a>, ports: &'a [Port]) -> Result<(), NetError>
    requires { length scope.old ≡ 1 }
    ensures ok { OnOk result (scope.new ≡ scope.old ++ port_entries 0 0 ports.now) }
    ensures fault { IfErr result (IsErrorBy (IsSecondPort
        (names_in (scope.old ++ port_entries 0 0 ports.now)) (1 + length ports.now))) }
{
    let mut inputs = 0;
    let mut outputs = 0;
    for (k, port) in ports.iter().enumerate() {
        let stands = port_stands(port.direction, inputs, outputs);
        scope.add(port.name.as_bytes(), stands, Declared::Port(k + 1))?;
        inputs = input_after(port.direction, inputs);
        outputs = output_after(port.direction, outputs);
    }
    Ok(())
}

// Adds the clock, where there is one, and the ports after it.
fn add_all_ports<'a>(scope: &mut Scope<'a>, ports: &'a [Port]) -> Result<(), NetError>
    requires { length scope.old ≡ 0 }
    ensures ok { OnOk result (scope.new ≡ all_ports ports.now) }
    ensures fault { IfErr result
        (IsErrorBy (IsSecondPort (names_in (all_ports ports.now)) (length ports.now))) }
{
    match ports.split_first() {
        None => Ok(()),
        Some((clock, rest)) => {
            scope.add(clock.name.as_bytes(), Stands::Clock, Declared::Port(0))?;
            add_ports(scope, rest)?;
            Ok(())
        }
    }
}

// How many wires, registers and arrays there are so far.
#[derive(Clone, Copy, Debug)]
pub(crate) struct Counts {
    pub wires: usize,
    pub regs: usize,
    pub arrays: usize,
}

fn sort_stands(sort: Sort, counts: Counts) -> Stands
    ensures { meaning_of result ≡ sort_meaning sort counts.wires counts.regs counts.arrays }
{
    match sort {
        Sort::Wire(_) => Stands::Wire(counts.wires),
        Sort::Reg(_) => Stands::Reg(counts.regs),
        Sort::Array(_) => Stands::Array(counts.arrays),
    }
}

fn counts_after(sort: Sort, counts: Counts) -> Counts
    requires wires { counts.wires + 1 < 2 ^ 64 }
    requires regs { counts.regs + 1 < 2 ^ 64 }
    requires arrays { counts.arrays + 1 < 2 ^ 64 }
    ensures wires { result.wires ≡ wires_after sort counts.wires }
    ensures regs { result.regs ≡ regs_after sort counts.regs }
    ensures arrays { result.arrays ≡ arrays_after sort counts.arrays }
{
    let Counts {
        wires,
        regs,
        arrays,
    } = counts;
    match sort {
        Sort::Wire(_) => Counts {
            wires: wires + 1,
            regs,
            arrays,
        },
        Sort::Reg(_) => Counts {
            wires,
            regs: regs + 1,
            arrays,
        },
        Sort::Array(_) => Counts {
            wires,
            regs,
            arrays: arrays + 1,
        },
    }
}

// Adds the declarations.
fn add_declarations<'a>(
    scope: &mut Scope<'a>,
    declarations: &'a [Declaration],
) -> Result<(), NetError>
    ensures ok { OnOk result (scope.new ≡ scope.old ++ declared_entries 0 0 0 declarations.now) }
    ensures names { OnOk result (AreNamed declarations.now) }
    ensures fault { IfErr result (IsErrorBy (IsSecondDeclaration
        (names_in (scope.old ++ declared_entries 0 0 0 declarations.now)) (length scope.old))) }
{
    let mut counts = Counts {
        wires: 0,
        regs: 0,
        arrays: 0,
    };
    for (k, declaration) in declarations.iter().enumerate() {
        let stands = sort_stands(declaration.sort, counts);
        scope.add(
            declaration.name.as_bytes(),
            stands,
            Declared::Declaration(k),
        )?;
        counts = counts_after(declaration.sort, counts);
    }
    Ok(())
}

// What each name of the parts denotes, or the first name that is declared a second time.
pub(crate) fn scope_of(alloc: Global, parts: &Parts) -> Result<Scope<'_>, NetError>
    ensures scope { IfOk result (λ s. s ≡ scope_of_parts parts.now) }
    ensures differ { OnOk result (NamesDiffer parts.now) }
    ensures names { OnOk result (NamesAre parts.now) }
    ensures fault { IfErr result (IsErrorBy (IsPassFault parts.now)) }
{
    let mut scope = Scope::new(alloc);
    let _name = parts.name.as_bytes();
    add_all_ports(&mut scope, &parts.ports)?;
    add_declarations(&mut scope, &parts.declarations)?;
    scope.law();
    Ok(scope)
}

fn past_clock(ports: &[Port]) -> &[Port]
    ensures { result.now ≡ ports_past_clock ports.now }
{
    match ports.split_first() {
        None => ports,
        Some((_, rest)) => rest,
    }
}

fn has_enable(ports: &[Port]) -> bool
    ensures { result ≡ enable_among ports.now }
{
    match ports.get(2) {
        None => false,
        Some(port) => profile::same(port.name.as_bytes(), b"en"),
    }
}

// Widths of inputs and outputs.
#[derive(Debug, Drop)]
pub(crate) struct PortWidths {
    pub inputs: Vec<Width>,
    pub outputs: Vec<Width>,
}

fn note_port(widths: &mut PortWidths, port: &Port) -> Result<(), AllocError>
    ensures { OnOk result (NotesPort widths.new widths.old port.now) }
{
    match port.direction {
        Direction::Input => widths.inputs.push(port.width)?,
        Direction::Output => widths.outputs.push(port.width)?,
    }
    Ok(())
}

fn port_widths(alloc: Global, ports: &[Port]) -> Result<PortWidths, AllocError>
    ensures { IfOk result (ArePortWidths ports.now) }
{
    let mut widths = PortWidths {
        inputs: Vec::new(alloc),
        outputs: Vec::new(alloc),
    };
    for port in ports {
        note_port(&mut widths, port)?;
    }
    Ok(widths)
}

// Widths of wires and registers, and shapes of arrays.
#[derive(Debug, Drop)]
pub(crate) struct Sorts {
    pub wires: Vec<Width>,
    pub regs: Vec<Width>,
    pub arrays: Vec<Shape>,
}

fn sort_law(sort: Sort)
    ensures { SortFits sort }
{
    match sort {
        Sort::Wire(width) => {
            let _bits = width.bits();
        }
        Sort::Reg(width) => {
            let _bits = width.bits();
        }
        Sort::Array(shape) => {
            let _bits = shape.width.bits();
            let _words = shape.depth.words();
        }
    }
}

fn note_sort(sorts: &mut Sorts, sort: Sort) -> Result<(), AllocError>
    ensures { OnOk result (NotesSort sorts.new sorts.old sort) }
{
    match sort {
        Sort::Wire(width) => sorts.wires.push(width)?,
        Sort::Reg(width) => sorts.regs.push(width)?,
        Sort::Array(shape) => sorts.arrays.push(shape)?,
    }
    Ok(())
}

fn sorts_of(alloc: Global, declarations: &[Declaration]) -> Result<Sorts, AllocError>
    ensures { IfOk result (AreSorts declarations.now) }
{
    let mut sorts = Sorts {
        wires: Vec::new(alloc),
        regs: Vec::new(alloc),
        arrays: Vec::new(alloc),
    };
    for declaration in declarations {
        sort_law(declaration.sort);
        note_sort(&mut sorts, declaration.sort)?;
    }
    Ok(sorts)
}

// The nets and arrays of parts, with nothing that drives them.
pub(crate) fn nets_of(alloc: Global, parts: &Parts) -> Result<Netlist, AllocError>
    ensures nets { IfOk result (HasNets parts.now) }
    ensures fit { OnOk result (AreSized parts.now.declarations.items) }
{
    let PortWidths { inputs, outputs } = port_widths(alloc, past_clock(&parts.ports))?;
    let Sorts {
        wires,
        regs,
        arrays,
    } = sorts_of(alloc, &parts.declarations)?;
    Ok(Netlist {
        enable: has_enable(&parts.ports),
        inputs,
        outputs,
        wires,
        regs,
        arrays,
        assigns: Vec::new(alloc),
        updates: Vec::new(alloc),
    })
}
