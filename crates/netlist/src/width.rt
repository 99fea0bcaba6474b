// Whether widths agree.

ghost use Rattle.std.specs.Prelude.{◌≡◌, ◌+◌, ◌-◌, ◌*◌, ◌<◌, ◌≤◌, IsTrue, slice_index};
ghost use Rattle.wiring.specs.Rights.{atom_width as width_of_atom, operator_width as width_of_operator};
ghost use Rattle.wiring.specs.Netlist.{netlist_of, net_width as width_of_net, word_width as width_of_word};
ghost use Rattle.wiring.specs.Rules.{DivisorIsConstant, IsDivisor, DividesByDivisor};
ghost use Rattle.netlist.specs.Faults.{AssignFits, UpdateFits};
ghost use Rattle.netlist.specs.Statements.{IsSliceOf, RightFits};

use wiring::{Assign, Atom, Net, Netlist, Operator, Right, Update, Width};

fn width_at(widths: &[Width], place: usize) -> u8
    ensures { result ≡ slice_index widths.now place }
{
    match widths.get(place) {
        Some(width) => width.bits(),
        None => 0,
    }
}

fn net_width(wiring: &Netlist, net: Net) -> u8
    ensures { result ≡ width_of_net (netlist_of wiring.now) net }
{
    match net {
        Net::Input(i) => width_at(&wiring.inputs, i),
        Net::Output(i) => width_at(&wiring.outputs, i),
        Net::Wire(i) => width_at(&wiring.wires, i),
        Net::Reg(i) => width_at(&wiring.regs, i),
    }
}

fn word_width(wiring: &Netlist, array: usize) -> u8
    ensures { result ≡ width_of_word (netlist_of wiring.now) array }
{
    match wiring.arrays.get(array) {
        Some(shape) => shape.width.bits(),
        None => 0,
    }
}

fn atom_width(wiring: &Netlist, atom: &Atom<Net>) -> u8
    ensures { result ≡ width_of_atom (width_of_net (netlist_of wiring.now)) atom.now }
{
    match atom {
        Atom::Net(net) => net_width(wiring, *net),
        Atom::Constant(constant) => constant.width(),
    }
}

fn operator_width(operator: Operator, width: u8) -> u8
    ensures { result ≡ width_of_operator operator width }
{
    match operator {
        Operator::Less | Operator::Equal => 1,
        Operator::Add
        | Operator::Subtract
        | Operator::Multiply
        | Operator::Divide
        | Operator::And
        | Operator::Or
        | Operator::Xor => width,
    }
}

fn binary_fits(operator: Operator, a: u8, b: u8, target: u8) -> bool
    ensures yes { IsTrue result → (a ≡ b) × (width_of_operator operator a ≡ target) }
    ensures no { (a ≡ b) × (width_of_operator operator a ≡ target) → IsTrue result }
{
    if a != b {
        return false;
    }
    operator_width(operator, a) == target
}

fn choice_fits(condition: u8, a: u8, b: u8, target: u8) -> bool
    ensures yes { IsTrue result → ((condition ≡ 1) × (a ≡ b)) × (a ≡ target) }
    ensures no { ((condition ≡ 1) × (a ≡ b)) × (a ≡ target) → IsTrue result }
{
    if condition != 1 {
        return false;
    }
    if a != b {
        return false;
    }
    a == target
}

fn join_fits(a: u8, b: u8, target: u8) -> bool
    ensures yes { IsTrue result → a + b ≡ target }
    ensures no { a + b ≡ target → IsTrue result }
{
    a as u16 + b as u16 == target as u16
}

fn repeat_fits(times: u8, a: u8, target: u8) -> bool
    ensures yes { IsTrue result → times * a ≡ target }
    ensures no { times * a ≡ target → IsTrue result }
{
    times as u16 * a as u16 == target as u16
}

fn bit_fits(vector: u8, place: u64, target: u8) -> bool
    ensures yes { IsTrue result → ((2 ≤ vector) × (place < vector)) × (1 ≡ target) }
    ensures no { ((2 ≤ vector) × (place < vector)) × (1 ≡ target) → IsTrue result }
{
    if vector < 2 {
        return false;
    }
    if place >= vector as u64 {
        return false;
    }
    target == 1
}

fn slice_fits(vector: u8, high: u64, low: u64, target: u8) -> bool
    ensures yes { IsTrue result → IsSliceOf vector high low target }
    ensures no { IsSliceOf vector high low target → IsTrue result }
{
    if vector < 2 {
        return false;
    }
    if high < low {
        return false;
    }
    if high >= vector as u64 {
        return false;
    }
    high - low + 1 == target as u64
}

fn right_fits(wiring: &Netlist, right: &Right<Net, usize>, target: u8) -> bool
    ensures yes { IsTrue result → RightFits (netlist_of wiring.now) right.now target }
    ensures no { RightFits (netlist_of wiring.now) right.now target → IsTrue result }
{
    match right {
        Right::Copy(a) => atom_width(wiring, a) == target,
        Right::Not(a) => atom_width(wiring, a) == target,
        Right::Binary(o, a, b) => {
            binary_fits(*o, atom_width(wiring, a), atom_width(wiring, b), target)
        }
        Right::Choose(c, a, b) => choice_fits(
            atom_width(wiring, c),
            atom_width(wiring, a),
            atom_width(wiring, b),
            target,
        ),
        Right::Join(a, b) => join_fits(atom_width(wiring, a), atom_width(wiring, b), target),
        Right::Repeat(n, a) => repeat_fits(*n, atom_width(wiring, a), target),
        Right::Bit(v, k) => bit_fits(net_width(wiring, *v), *k, target),
        Right::Slice(v, m, l) => slice_fits(net_width(wiring, *v), *m, *l, target),
        Right::Word(m, _) => word_width(wiring, *m) == target,
    }
}

// Whether the widths of an assign agree.
pub(crate) fn assign_fits(wiring: &Netlist, assign: &Assign) -> bool
    ensures yes { IsTrue result → AssignFits (netlist_of wiring.now) assign.now }
    ensures no { AssignFits (netlist_of wiring.now) assign.now → IsTrue result }
{
    right_fits(wiring, &assign.right, net_width(wiring, assign.target))
}

// Whether the widths of an update agree.
pub(crate) fn update_fits(wiring: &Netlist, update: &Update) -> bool
    ensures yes { IsTrue result → UpdateFits (netlist_of wiring.now) update.now }
    ensures no { UpdateFits (netlist_of wiring.now) update.now → IsTrue result }
{
    match update {
        Update::Set(r, a) => atom_width(wiring, a) == net_width(wiring, Net::Reg(*r)),
        Update::Put(m, _, a) => atom_width(wiring, a) == word_width(wiring, *m),
    }
}

fn is_divisor(atom: &Atom<Net>) -> bool
    ensures yes { IsTrue result → IsDivisor atom.now }
    ensures no { IsDivisor atom.now → IsTrue result }
{
    match atom {
        Atom::Net(_) => false,
        Atom::Constant(constant) => constant.value() > 0,
    }
}

fn divides_by_divisor(operator: Operator, b: &Atom<Net>) -> bool
    ensures yes { IsTrue result → DividesByDivisor operator b.now }
    ensures no { DividesByDivisor operator b.now → IsTrue result }
{
    match operator {
        Operator::Divide => is_divisor(b),
        Operator::Add
        | Operator::Subtract
        | Operator::Multiply
        | Operator::Less
        | Operator::Equal
        | Operator::And
        | Operator::Or
        | Operator::Xor => true,
    }
}

// Whether a division is by a constant above 0.
pub(crate) fn divisor_is_constant(right: &Right<Net, usize>) -> bool
    ensures yes { IsTrue result → DivisorIsConstant right.now }
    ensures no { DivisorIsConstant right.now → IsTrue result }
{
    match right {
        Right::Binary(o, _, b) => divides_by_divisor(*o, b),
        Right::Copy(_)
        | Right::Not(_)
        | Right::Choose(_, _, _)
        | Right::Join(_, _)
        | Right::Repeat(_, _)
        | Right::Bit(_, _)
        | Right::Slice(_, _, _)
        | Right::Word(_, _) => true,
    }
}
