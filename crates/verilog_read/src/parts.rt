// The parts of a module, with the names in place of their spans.

ghost use Rattle.std.specs.Prelude.{◌≡◌, ℕ, List, ◌++◌, map, All, Some, None, IfOk, OnOk};
ghost use Rattle.verilog_text.specs.Grammar.{source_of};
ghost use Rattle.verilog_text.specs.Limits.{width_fault, right_fault, limit_fault};
ghost use Rattle.verilog_text.specs.Stands.{bytes_at, port_of as named_port, sort_of as told_sort, declaration_of as named_declaration, atom_of as named_atom, right_of as named_right, assign_of as named_assign, update_of as named_update, ArePartsOf};
ghost use Rattle.verilog_read.specs.Within.{WordsFit, PortFits, DeclarationFits, AssignFits};
ghost use Rattle.verilog_parse.specs.Named.{IsNameSpan, IsNamedAtom, IsNamedRight, IsNamedAssign, IsNamedUpdate, IsNamedSource};

use crate::limits::{depth_of, width_of};
use dk_base::{OutOfMemory, Span};
use net_names::Name;
use netlist::{Declaration, NamedAssign, NamedUpdate, Parts, Port, Sort};
use std::alloc::Global;
use verilog_text::{
    Range, Written, WrittenAssign, WrittenDeclaration, WrittenPort, WrittenRight, WrittenSort,
    WrittenUpdate,
};
use wiring::{Atom, Depth, Right, Shape, Width};

// The name that is at a span.
fn name_at(alloc: Global, text: &[u8], span: Span) -> Result<Name, OutOfMemory>
    requires { IsNameSpan text.now span }
    ensures { IfOk result (λ n. n ≡ bytes_at text.now span) }
{
    let (_, behind) = text.split_at(span.start);
    let (own, _) = behind.split_at(span.stop - span.start);
    let bytes = Vec::from_slice(alloc, own)?;
    Ok(Name::new(bytes))
}

fn atom_of(alloc: Global, text: &[u8], atom: &Atom<Span>) -> Result<Atom<Name>, OutOfMemory>
    requires { IsNamedAtom text.now atom.now }
    ensures { IfOk result (λ a. a ≡ named_atom text.now atom.now) }
{
    match atom {
        Atom::Net(span) => {
            let name = name_at(alloc, text, *span)?;
            Ok(Atom::Net(name))
        }
        Atom::Constant(constant) => Ok(Atom::Constant(*constant)),
    }
}

fn port_of(alloc: Global, text: &[u8], port: &WrittenPort) -> Result<Port, OutOfMemory>
    requires name { IsNameSpan text.now port.now.name }
    requires width { width_fault port.now.bits ≡ None }
    ensures { IfOk result (λ p. p ≡ named_port text.now port.now) }
{
    let name = name_at(alloc, text, port.name)?;
    Ok(Port {
        direction: port.direction,
        width: Width::new(width_of(&port.bits)),
        name,
    })
}

// What is declared, where the words of an array keep their limit.
fn sort_of(bits: &Option<Range>, sort: &WrittenSort) -> Sort
    requires width { width_fault bits.now ≡ None }
    requires words { WordsFit sort.now }
    ensures { (text : List ℕ) → result ≡ told_sort text bits.now sort.now }
{
    let width = Width::new(width_of(bits));
    match sort {
        WrittenSort::Wire => Sort::Wire(width),
        WrittenSort::Reg => Sort::Reg(width),
        WrittenSort::Array(words) => Sort::Array(Shape {
            width,
            depth: Depth::new(depth_of(words)),
        }),
    }
}

fn declaration_of(
    alloc: Global,
    text: &[u8],
    declaration: &WrittenDeclaration,
) -> Result<Declaration, OutOfMemory>
    requires name { IsNameSpan text.now declaration.now.name }
    requires width { width_fault declaration.now.bits ≡ None }
    requires words { WordsFit declaration.now.sort }
    ensures { IfOk result (λ d. d ≡ named_declaration text.now declaration.now) }
{
    let name = name_at(alloc, text, declaration.name)?;
    let sort = sort_of(&declaration.bits, &declaration.sort);
    Ok(Declaration { name, sort })
}

fn right_of(
    alloc: Global,
    text: &[u8],
    right: &WrittenRight,
) -> Result<Right<Name, Name>, OutOfMemory>
    requires names { IsNamedRight text.now right.now }
    requires count { right_fault right.now ≡ None }
    ensures { IfOk result (λ r. r ≡ named_right text.now right.now) }
{
    match right {
        WrittenRight::Copy(a) => Ok(Right::Copy(atom_of(alloc, text, a)?)),
        WrittenRight::Not(a) => Ok(Right::Not(atom_of(alloc, text, a)?)),
        WrittenRight::Binary(operator, a, b) => {
            let a = atom_of(alloc, text, a)?;
            let b = atom_of(alloc, text, b)?;
            Ok(Right::Binary(*operator, a, b))
        }
        WrittenRight::Choose(c, a, b) => {
            let c = atom_of(alloc, text, c)?;
            let a = atom_of(alloc, text, a)?;
            let b = atom_of(alloc, text, b)?;
            Ok(Right::Choose(c, a, b))
        }
        WrittenRight::Join(a, b) => {
            let a = atom_of(alloc, text, a)?;
            let b = atom_of(alloc, text, b)?;
            Ok(Right::Join(a, b))
        }
        WrittenRight::Repeat(count, a) => {
            let a = atom_of(alloc, text, a)?;
            Ok(Right::Repeat(count.value as u8, a))
        }
        WrittenRight::Bit(net, bit) => {
            let net = name_at(alloc, text, *net)?;
            Ok(Right::Bit(net, *bit))
        }
        WrittenRight::Slice(net, high, low) => {
            let net = name_at(alloc, text, *net)?;
            Ok(Right::Slice(net, *high, *low))
        }
        WrittenRight::Word(array, index) => {
            let array = name_at(alloc, text, *array)?;
            let index = atom_of(alloc, text, index)?;
            Ok(Right::Word(array, index))
        }
    }
}

fn assign_of(alloc: Global, text: &[u8], assign: &WrittenAssign) -> Result<NamedAssign, OutOfMemory>
    requires names { IsNamedAssign text.now assign.now }
    requires count { right_fault assign.now.right ≡ None }
    ensures { IfOk result (λ a. a ≡ named_assign text.now assign.now) }
{
    let target = name_at(alloc, text, assign.target)?;
    let right = right_of(alloc, text, &assign.right)?;
    Ok(NamedAssign { target, right })
}

fn update_of(alloc: Global, text: &[u8], update: &WrittenUpdate) -> Result<NamedUpdate, OutOfMemory>
    requires { IsNamedUpdate text.now update.now }
    ensures { IfOk result (λ u. u ≡ named_update text.now update.now) }
{
    match update {
        WrittenUpdate::Set(register, value) => {
            let register = name_at(alloc, text, *register)?;
            let value = atom_of(alloc, text, value)?;
            Ok(NamedUpdate::Set(register, value))
        }
        WrittenUpdate::Put(array, index, value) => {
            let array = name_at(alloc, text, *array)?;
            let index = atom_of(alloc, text, index)?;
            let value = atom_of(alloc, text, value)?;
            Ok(NamedUpdate::Put(array, index, value))
        }
    }
}

fn ports_of(alloc: Global, text: &[u8], ports: &[WrittenPort]) -> Result<Vec<Port>, OutOfMemory>
    requires names { All (λ p. IsNameSpan text.now p.name) ports.now }
    requires fit { All PortFits ports.now }
    ensures { IfOk result (λ v. v.items ≡ map (named_port text.now) ports.now) }
{
    let mut items = Vec::with_capacity(alloc, ports.len())?;
    for port in ports {
        items.push(port_of(alloc, text, port)?)?;
    }
    Ok(items)
}

fn declarations_of(
    alloc: Global,
    text: &[u8],
    declarations: &[WrittenDeclaration],
) -> Result<Vec<Declaration>, OutOfMemory>
    requires names { All (λ d. IsNameSpan text.now d.name) declarations.now }
    requires fit { All DeclarationFits declarations.now }
    ensures { IfOk result (λ v. v.items ≡ map (named_declaration text.now) declarations.now) }
{
    let mut items = Vec::with_capacity(alloc, declarations.len())?;
    for declaration in declarations {
        items.push(declaration_of(alloc, text, declaration)?)?;
    }
    Ok(items)
}

fn assigns_of(
    alloc: Global,
    text: &[u8],
    assigns: &[WrittenAssign],
) -> Result<Vec<NamedAssign>, OutOfMemory>
    requires names { All (IsNamedAssign text.now) assigns.now }
    requires fit { All AssignFits assigns.now }
    ensures { IfOk result (λ v. v.items ≡ map (named_assign text.now) assigns.now) }
{
    let mut items = Vec::with_capacity(alloc, assigns.len())?;
    for assign in assigns {
        items.push(assign_of(alloc, text, assign)?)?;
    }
    Ok(items)
}

fn updates_of(
    alloc: Global,
    text: &[u8],
    updates: &[WrittenUpdate],
) -> Result<Vec<NamedUpdate>, OutOfMemory>
    requires { All (IsNamedUpdate text.now) updates.now }
    ensures { IfOk result (λ v. v.items ≡ map (named_update text.now) updates.now) }
{
    let mut items = Vec::with_capacity(alloc, updates.len())?;
    for update in updates {
        items.push(update_of(alloc, text, update)?)?;
    }
    Ok(items)
}

// The parts that are written in a text.
pub fn parts_of(alloc: Global, text: &[u8], written: &Written) -> Result<Parts, OutOfMemory>
    requires names { IsNamedSource text.now (source_of written.now) }
    requires limits { limit_fault (source_of written.now) ≡ None }
    ensures { IfOk result (ArePartsOf text.now (source_of written.now)) }
{
    let name = name_at(alloc, text, written.name)?;
    let ports = ports_of(alloc, text, &written.ports)?;
    let declarations = declarations_of(alloc, text, &written.declarations)?;
    let assigns = assigns_of(alloc, text, &written.assigns)?;
    let updates = updates_of(alloc, text, &written.updates)?;
    Ok(Parts {
        name,
        ports,
        declarations,
        assigns,
        updates,
    })
}
