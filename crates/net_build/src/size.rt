// Widths of nets and right sides.

ghost use Rattle.std.specs.Prelude.{◌≡◌, slice_index};
ghost use Rattle.wiring.specs.Netlist.{netlist_of, net_width, word_width};
ghost use Rattle.wiring.specs.Rights.{atom_width, operator_width};
ghost use Rattle.net_build.specs.Draft.{width_of};
ghost use Rattle.wiring.specs.Sizes.{IsWidth};

use wiring::{Atom, Net, Netlist, Operator, Right, Width};

fn bits_at(widths: &[Width], k: usize) -> u8
    ensures { result ≡ slice_index widths.now k }
{
    match widths.get(k) {
        Some(width) => width.bits(),
        None => 0,
    }
}

fn net_bits(wiring: &Netlist, net: Net) -> u8
    ensures { result ≡ net_width (netlist_of wiring.now) net }
{
    match net {
        Net::Input(k) => bits_at(&wiring.inputs, k),
        Net::Output(k) => bits_at(&wiring.outputs, k),
        Net::Wire(k) => bits_at(&wiring.wires, k),
        Net::Reg(k) => bits_at(&wiring.regs, k),
    }
}

fn atom_bits(wiring: &Netlist, atom: &Atom<Net>) -> u8
    ensures { result ≡ atom_width (net_width (netlist_of wiring.now)) atom.now }
{
    match atom {
        Atom::Net(net) => net_bits(wiring, *net),
        Atom::Constant(constant) => constant.width(),
    }
}

fn word_bits(wiring: &Netlist, array: usize) -> u8
    ensures { result ≡ word_width (netlist_of wiring.now) array }
{
    match wiring.arrays.get(array) {
        Some(shape) => shape.width.bits(),
        None => 0,
    }
}

fn operator_bits(operator: Operator, bits: u8) -> u8
    ensures { result ≡ operator_width operator bits }
{
    match operator {
        Operator::Less | Operator::Equal => 1,
        Operator::Add | Operator::Subtract | Operator::Multiply | Operator::Divide => bits,
        Operator::And | Operator::Or | Operator::Xor => bits,
    }
}

// The width of a right side.
pub fn right_size(wiring: &Netlist, right: &Right<Net, usize>) -> Width
    requires { IsWidth (width_of (netlist_of wiring.now) right.now) }
    ensures { result ≡ width_of (netlist_of wiring.now) right.now }
{
    let bits = match right {
        Right::Copy(a) | Right::Not(a) => atom_bits(wiring, a),
        Right::Binary(operator, a, _) => operator_bits(*operator, atom_bits(wiring, a)),
        Right::Choose(_, a, _) => atom_bits(wiring, a),
        Right::Join(a, b) => atom_bits(wiring, a) + atom_bits(wiring, b),
        Right::Repeat(count, a) => count * atom_bits(wiring, a),
        Right::Bit(_, _) => 1,
        Right::Slice(_, high, low) => high.saturating_sub(*low) as u8 + 1,
        Right::Word(array, _) => word_bits(wiring, *array),
    };
    Width::new(bits)
}
