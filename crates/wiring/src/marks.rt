// Marks on nets and arrays.

ghost use Rattle.std.specs.Prelude.{◌≡◌, false, replicate, IfOk};
ghost use Rattle.wiring.specs.declared.netlist.Holder.{Holder};
ghost use Rattle.wiring.specs.declared.netlist.Holder.TheVariants.{OfNet, OfArray};
ghost use Rattle.wiring.specs.Netlist.{netlist_of, update_target};
ghost use Rattle.wiring.specs.BufferBits.{atom_reads, right_reads, update_reads, assign_drive, update_drive};
ghost use Rattle.wiring.specs.Marks.{is_marked, any_marked, HasMark, HasMarks, Adds, TestsOpen};

use crate::netlist::{Assign, Holder, Net, Netlist, Update};
use crate::right::{Atom, Right};
use std::alloc::{AllocError, Global};

// Which nets and arrays have a mark.
#[derive(Debug, Drop)]
pub struct Marks {
    pub inputs: Vec<bool>,
    pub outputs: Vec<bool>,
    pub wires: Vec<bool>,
    pub regs: Vec<bool>,
    pub arrays: Vec<bool>,
}

fn bare(alloc: Global, length: usize) -> Result<Vec<bool>, AllocError>
    ensures { IfOk result (λ v. v.items ≡ replicate length false) }
{
    let marks = vec![in alloc; false; length]?;
    Ok(marks)
}

// No marks, with a place for each.
pub fn no_marks(alloc: Global, wiring: &Netlist) -> Result<Marks, AllocError>
    ensures size { IfOk result (HasMarks (netlist_of wiring.now)) }
    ensures none { IfOk result (λ d. (h : Holder) → is_marked d h ≡ false) }
{
    Ok(Marks {
        inputs: bare(alloc, wiring.inputs.len())?,
        outputs: bare(alloc, wiring.outputs.len())?,
        wires: bare(alloc, wiring.wires.len())?,
        regs: bare(alloc, wiring.regs.len())?,
        arrays: bare(alloc, wiring.arrays.len())?,
    })
}

impl Marks {
    // Whether it has a mark.
    pub fn has(&self, holder: Holder) -> bool
        ensures { result ≡ is_marked self.now holder }
    {
        match holder {
            Holder::OfNet(Net::Input(i)) => self.inputs.get(i).copied().unwrap_or(false),
            Holder::OfNet(Net::Output(i)) => self.outputs.get(i).copied().unwrap_or(false),
            Holder::OfNet(Net::Wire(i)) => self.wires.get(i).copied().unwrap_or(false),
            Holder::OfNet(Net::Reg(i)) => self.regs.get(i).copied().unwrap_or(false),
            Holder::OfArray(i) => self.arrays.get(i).copied().unwrap_or(false),
        }
    }
}

fn add_net_mark(marks: &mut Marks, net: Net)
    requires place { HasMark marks.old (OfNet net) }
    requires free { is_marked marks.old (OfNet net) ≡ false }
    ensures { Adds marks.old marks.new (OfNet net) }
{
    match net {
        Net::Input(i) => marks.inputs[i] = true,
        Net::Output(i) => marks.outputs[i] = true,
        Net::Wire(i) => marks.wires[i] = true,
        Net::Reg(i) => marks.regs[i] = true,
    }
}

fn add_array_mark(marks: &mut Marks, array: usize)
    requires place { HasMark marks.old (OfArray array) }
    requires free { is_marked marks.old (OfArray array) ≡ false }
    ensures { Adds marks.old marks.new (OfArray array) }
{
    marks.arrays[array] = true;
}

// Gives it a mark.
pub fn add_mark(marks: &mut Marks, holder: Holder)
    requires place { HasMark marks.old holder }
    requires free { is_marked marks.old holder ≡ false }
    ensures { Adds marks.old marks.new holder }
{
    match holder {
        Holder::OfNet(net) => add_net_mark(marks, net),
        Holder::OfArray(array) => add_array_mark(marks, array),
    }
}

fn reads_atom(marks: &Marks, atom: &Atom<Net>) -> bool
    ensures { result ≡ any_marked marks.now (atom_reads atom.now) }
{
    match atom {
        Atom::Net(net) => marks.has(Holder::OfNet(*net)),
        Atom::Constant(_) => false,
    }
}

// Whether a right side reads what has a mark.
#[tactic(auto, using(crate::proofs::MarkSpread::any_append))]
pub fn reads_right(marks: &Marks, right: &Right<Net, usize>) -> bool
    ensures { result ≡ any_marked marks.now (right_reads right.now) }
{
    match right {
        Right::Copy(a) | Right::Not(a) | Right::Repeat(_, a) => reads_atom(marks, a),
        Right::Binary(_, a, b) | Right::Join(a, b) => reads_atom(marks, a) || reads_atom(marks, b),
        Right::Choose(c, a, b) => {
            reads_atom(marks, c) || reads_atom(marks, a) || reads_atom(marks, b)
        }
        Right::Bit(v, _) | Right::Slice(v, _, _) => marks.has(Holder::OfNet(*v)),
        Right::Word(array, i) => marks.has(Holder::OfArray(*array)) || reads_atom(marks, i),
    }
}

// Whether an update reads what has a mark.
#[tactic(auto, using(crate::proofs::MarkSpread::any_append))]
pub fn reads_update(marks: &Marks, update: &Update) -> bool
    ensures { result ≡ any_marked marks.now (update_reads update.now) }
{
    match update {
        Update::Set(_, a) => reads_atom(marks, a),
        Update::Put(_, i, a) => reads_atom(marks, i) || reads_atom(marks, a),
    }
}

// What an update changes.
pub fn target_of(update: &Update) -> Holder
    ensures { result ≡ update_target update.now }
{
    match update {
        Update::Set(reg, _) => Holder::OfNet(Net::Reg(*reg)),
        Update::Put(array, _, _) => Holder::OfArray(*array),
    }
}

// Whether an assign reads what has a mark, and its target has none.
pub fn is_open_assign(marks: &Marks, assign: &Assign) -> bool
    ensures { TestsOpen result marks.now (assign_drive assign.now) }
{
    if marks.has(Holder::OfNet(assign.target)) {
        return false;
    }
    reads_right(marks, &assign.right)
}

// Whether an update reads what has a mark, and its target has none.
pub fn is_open_update(marks: &Marks, update: &Update) -> bool
    ensures { TestsOpen result marks.now (update_drive update.now) }
{
    if marks.has(target_of(update)) {
        return false;
    }
    reads_update(marks, update)
}
