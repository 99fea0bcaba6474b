// A program of a netlist.
ghost use Rattle.std.specs.Prelude.{◌≡◌, ◌+◌, ◌<◌, ◌^◌, ◌++◌, [], ◌∷◌, length, map, All, IfOk, OnOk};
ghost use Rattle.cycle_sim.specs.declared.settle.Instruction.{Instruction};
ghost use Rattle.wiring.specs.Rights.{atom_nets, nets_of};
ghost use Rattle.wiring.specs.Netlist.{Netlist as TheNetlist, netlist_of, IsDeclared};
ghost use Rattle.wiring.specs.Snapshot.{accesses, accesses_of, update_accesses};
ghost use Rattle.cycle_sim.specs.Slots.{slot, rename, rename_atom, all_widths};
ghost use Rattle.cycle_sim.specs.Simulated.{IsLaidOut, IsLayout, IsProgram};
ghost use Rattle.wiring.specs.Rules.{KeepsRules, UpdateIsSound};
ghost use Rattle.cycle_sim.specs.Code.{instruction, IsInstructionAt, IsCode};
ghost use Rattle.cycle_sim.specs.Edge.{edge, access, assign_accesses_of};

use crate::edge::{Access, Edge};
use crate::machine::Program;
use crate::settle::Instruction;
use netlist::{Assign, Atom, Net, Netlist, Right, Update, Width};
use std::alloc::{AllocError, Global};

/// Where the nets of each sort begin.
#[derive(Clone, Copy, Debug)]
pub struct Layout {
    pub first_output: usize,
    pub first_wire: usize,
    pub first_reg: usize,
    pub slots: usize,
}

/// The slot of a net: inputs before outputs before wires before registers, each in the module's order.
pub fn slot_of(layout: Layout, net: Net) -> usize
    ensures { (m : TheNetlist) → IsLayout m layout → IsDeclared m net → result ≡ slot m net }
{
    match net {
        Net::Input(i) => i,
        Net::Reg(i) => layout.first_reg.saturating_add(i),
        Net::Wire(i) => layout.first_wire.saturating_add(i),
        Net::Output(i) => layout.first_output.saturating_add(i),
    }
}

/// An atom over slots.
pub fn atom_of(layout: Layout, a: Atom<Net>) -> Atom<usize>
    ensures { (m : TheNetlist) → IsLayout m layout → All (IsDeclared m) (atom_nets a)
        → result ≡ rename_atom (slot m) a }
{
    match a {
        Atom::Net(n) => Atom::Net(slot_of(layout, n)),
        Atom::Constant(c) => Atom::Constant(c),
    }
}

/// A right side over slots.
pub fn right_of(layout: Layout, r: Right<Net, usize>) -> Right<usize, usize>
    ensures { (m : TheNetlist) → IsLayout m layout → All (IsDeclared m) (nets_of r)
        → result ≡ rename (slot m) r }
{
    match r {
        Right::Copy(a) => Right::Copy(atom_of(layout, a)),
        Right::Not(a) => Right::Not(atom_of(layout, a)),
        Right::Binary(o, a, b) => Right::Binary(o, atom_of(layout, a), atom_of(layout, b)),
        Right::Choose(c, a, b) => {
            Right::Choose(atom_of(layout, c), atom_of(layout, a), atom_of(layout, b))
        }
        Right::Join(a, b) => Right::Join(atom_of(layout, a), atom_of(layout, b)),
        Right::Repeat(n, a) => Right::Repeat(n, atom_of(layout, a)),
        Right::Bit(v, k) => Right::Bit(slot_of(layout, v), k),
        Right::Slice(v, m, l) => Right::Slice(slot_of(layout, v), m, l),
        Right::Word(m, i) => Right::Word(m, atom_of(layout, i)),
    }
}

pub fn instruction_of(layout: Layout, a: &Assign) -> Instruction
    ensures { (m : TheNetlist) → IsLayout m layout → IsDeclared m a.now.target
        → All (IsDeclared m) (nets_of a.now.right) → result ≡ instruction m a.now }
{
    let target = slot_of(layout, a.target);
    let right = right_of(layout, a.right);
    Instruction { target, right }
}

pub fn edge_of(layout: Layout, u: &Update) -> Edge
    ensures { (m : TheNetlist) → IsLayout m layout → UpdateIsSound m u.now → result ≡ edge m u.now }
{
    match u {
        Update::Set(r, a) => Edge::Set(*r, atom_of(layout, *a)),
        Update::Put(m, i, a) => Edge::Put(*m, atom_of(layout, *i), atom_of(layout, *a)),
    }
}

// The instruction of the assign of this number.
fn instruction_at(layout: Layout, wiring: &Netlist, number: usize) -> Instruction
    requires laid { IsLaidOut (netlist_of wiring.now) layout }
    requires within { number < length wiring.now.assigns.items }
    ensures { IsInstructionAt (netlist_of wiring.now) number result }
{
    instruction_of(layout, &wiring.assigns[number])
}

// The right side comes by itself: with it inside an instruction the loop over the code gets no proof.
fn add_instruction(
    code: &mut Vec<Instruction>,
    target: usize,
    right: Right<usize, usize>,
) -> Result<(), AllocError>
    ensures { OnOk result
        (code.new.items ≡ code.old.items ++ record { target = target; right = right } ∷ []) }
{
    code.push(Instruction { target, right })?;
    Ok(())
}

// Adds the instruction of the assign of this number.
fn note_instruction(
    code: &mut Vec<Instruction>,
    layout: Layout,
    wiring: &Netlist,
    number: usize,
) -> Result<(), AllocError>
    requires laid { IsLaidOut (netlist_of wiring.now) layout }
    requires within { number < length wiring.now.assigns.items }
    ensures { OnOk result ((i : Instruction) × IsInstructionAt (netlist_of wiring.now) number i
        × (code.new.items ≡ code.old.items ++ i ∷ [])) }
{
    let Instruction { target, right } = instruction_at(layout, wiring, number);
    add_instruction(code, target, right)
}

fn note_code(
    code: &mut Vec<Instruction>,
    layout: Layout,
    wiring: &Netlist,
    order: &[usize],
) -> Result<(), AllocError>
    requires laid { IsLaidOut (netlist_of wiring.now) layout }
    requires within { All (λ k. k < length wiring.now.assigns.items) order.now }
    requires empty { code.old.items ≡ [] }
    ensures { OnOk result (IsCode (netlist_of wiring.now) order.now code.new.items) }
{
    for number in order {
        note_instruction(code, layout, wiring, *number)?;
    }
    Ok(())
}

// The code of the assigns in this order.
pub fn code_of(
    alloc: Global,
    layout: Layout,
    wiring: &Netlist,
    order: &[usize],
) -> Result<Vec<Instruction>, AllocError>
    requires laid { IsLaidOut (netlist_of wiring.now) layout }
    requires within { All (λ k. k < length wiring.now.assigns.items) order.now }
    ensures { IfOk result (λ v. IsCode (netlist_of wiring.now) order.now v.items) }
{
    let mut code = Vec::new(alloc);
    note_code(&mut code, layout, wiring, order)?;
    Ok(code)
}

fn note_assign(accesses: &mut Vec<Access>, layout: Layout, a: &Assign) -> Result<(), AllocError>
    ensures { OnOk result ((m : TheNetlist) → IsLayout m layout
        → All (IsDeclared m) (nets_of a.now.right)
        → accesses.new.items ≡ accesses.old.items ++ map (access m) (assign_accesses_of a.now)) }
{
    match a.right {
        Right::Word(array, index) => {
            let index = atom_of(layout, index);
            accesses.push(Access { array, index })?;
            Ok(())
        }
        _ => Ok(()),
    }
}

fn note_update(accesses: &mut Vec<Access>, layout: Layout, u: &Update) -> Result<(), AllocError>
    ensures { OnOk result ((m : TheNetlist) → IsLayout m layout → UpdateIsSound m u.now
        → accesses.new.items ≡ accesses.old.items ++ map (access m) (update_accesses u.now)) }
{
    match *u {
        Update::Put(array, index, _) => {
            let index = atom_of(layout, index);
            accesses.push(Access { array, index })?;
            Ok(())
        }
        Update::Set(_, _) => Ok(()),
    }
}

// The accesses of the assigns, in their order.
fn assign_accesses(
    alloc: Global,
    layout: Layout,
    wiring: &Netlist,
) -> Result<Vec<Access>, AllocError>
    requires { IsLaidOut (netlist_of wiring.now) layout }
    ensures { IfOk result (λ v. v.items ≡ map (access (netlist_of wiring.now))
        (accesses_of assign_accesses_of wiring.now.assigns.items)) }
{
    let mut accesses = Vec::new(alloc);
    for a in &wiring.assigns {
        note_assign(&mut accesses, layout, a)?;
    }
    Ok(accesses)
}

// The accesses of assigns and updates, in their order.
pub fn accesses_of_wiring(
    alloc: Global,
    layout: Layout,
    wiring: &Netlist,
) -> Result<Vec<Access>, AllocError>
    requires { IsLaidOut (netlist_of wiring.now) layout }
    ensures { IfOk result
        (λ v. v.items ≡ map (access (netlist_of wiring.now)) (accesses (netlist_of wiring.now))) }
{
    let mut accesses = assign_accesses(alloc, layout, wiring)?;
    for u in &wiring.updates {
        note_update(&mut accesses, layout, u)?;
    }
    Ok(accesses)
}

// The edges of the updates.
pub fn edges_of_wiring(
    alloc: Global,
    layout: Layout,
    wiring: &Netlist,
) -> Result<Vec<Edge>, AllocError>
    requires { IsLaidOut (netlist_of wiring.now) layout }
    ensures { IfOk result
        (λ v. v.items ≡ map (edge (netlist_of wiring.now)) wiring.now.updates.items) }
{
    let mut edges = Vec::new(alloc);
    for u in &wiring.updates {
        edges.push(edge_of(layout, u))?;
    }
    Ok(edges)
}

/// The widths of all slots.
pub fn widths_of_wiring(alloc: Global, wiring: &Netlist) -> Result<Vec<Width>, AllocError>
    ensures { IfOk result (λ v. v.items ≡ all_widths (netlist_of wiring.now)) }
{
    let mut widths = Vec::from_slice(alloc, &wiring.inputs)?;
    widths.extend_from_slice(&wiring.outputs)?;
    widths.extend_from_slice(&wiring.wires)?;
    widths.extend_from_slice(&wiring.regs)?;
    Ok(widths)
}

/// Where the nets of each sort begin.
pub fn layout_of(wiring: &Netlist) -> Layout
    ensures { length (all_widths (netlist_of wiring.now)) < 2 ^ 64
        → IsLayout (netlist_of wiring.now) result }
{
    let first_output = wiring.inputs.len();
    let first_wire = first_output.saturating_add(wiring.outputs.len());
    let first_reg = first_wire.saturating_add(wiring.wires.len());
    let slots = first_reg.saturating_add(wiring.regs.len());
    Layout {
        first_output,
        first_wire,
        first_reg,
        slots,
    }
}

// The program of a netlist.
pub fn program_of(alloc: Global, wiring: &Netlist, order: &[usize]) -> Result<Program, AllocError>
    requires rules { KeepsRules (netlist_of wiring.now) }
    requires within { All (λ k. k < length wiring.now.assigns.items) order.now }
    ensures { IfOk result (IsProgram (netlist_of wiring.now) order.now) }
{
    let layout = layout_of(wiring);
    let widths = widths_of_wiring(alloc, wiring)?;
    let code = code_of(alloc, layout, wiring, order)?;
    let accesses = accesses_of_wiring(alloc, layout, wiring)?;
    let edges = edges_of_wiring(alloc, layout, wiring)?;
    Ok(Program {
        code,
        widths,
        accesses,
        edges,
        enable: wiring.enable,
        first_reg: layout.first_reg,
    })
}
