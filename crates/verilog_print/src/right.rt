// Right sides.

ghost use Rattle.std.specs.Prelude.{◌≡◌, ◌++◌, OnOk, codes};
ghost use Rattle.wiring.specs.declared.right.Right.TheVariants as right;
ghost use Rattle.verilog_layout.specs.Layout.{operator_layout, right_layout};

use crate::name::{push_array, push_atom, push_net};
use crate::number::push_number;
use netlist::{Atom, Module, Net, Operator, Right};
use std::alloc::AllocError;

fn operator_text(operator: Operator) -> &'static [u8]
    ensures { result.now ≡ operator_layout operator }
{
    match operator {
        Operator::Add => b" + ",
        Operator::Subtract => b" - ",
        Operator::Multiply => b" * ",
        Operator::Divide => b" / ",
        Operator::Less => b" < ",
        Operator::Equal => b" == ",
        Operator::And => b" & ",
        Operator::Or => b" | ",
        Operator::Xor => b" ^ ",
    }
}

fn push_binary(
    out: &mut Vec<u8>,
    module: &Module,
    operator: Operator,
    left: Atom<Net>,
    other: Atom<Net>,
) -> Result<(), AllocError>
    ensures { OnOk result (out.new.items ≡ out.old.items ++ right_layout «module».now (right.Binary operator left other)) }
{
    push_atom(out, module, left)?;
    out.extend_from_slice(operator_text(operator))?;
    push_atom(out, module, other)?;
    Ok(())
}

fn push_choice(
    out: &mut Vec<u8>,
    module: &Module,
    condition: Atom<Net>,
    first: Atom<Net>,
    second: Atom<Net>,
) -> Result<(), AllocError>
    ensures { OnOk result (out.new.items ≡ out.old.items ++ right_layout «module».now (right.Choose condition first second)) }
{
    push_atom(out, module, condition)?;
    out.extend_from_slice(b" ? ")?;
    push_atom(out, module, first)?;
    out.extend_from_slice(b" : ")?;
    push_atom(out, module, second)?;
    Ok(())
}

fn push_join(
    out: &mut Vec<u8>,
    module: &Module,
    above: Atom<Net>,
    below: Atom<Net>,
) -> Result<(), AllocError>
    ensures { OnOk result (out.new.items ≡ out.old.items ++ right_layout «module».now (right.Join above below)) }
{
    out.extend_from_slice(b"{")?;
    push_atom(out, module, above)?;
    out.extend_from_slice(b", ")?;
    push_atom(out, module, below)?;
    out.extend_from_slice(b"}")?;
    Ok(())
}

fn push_copies(
    out: &mut Vec<u8>,
    module: &Module,
    count: u8,
    atom: Atom<Net>,
) -> Result<(), AllocError>
    ensures { OnOk result (out.new.items ≡ out.old.items ++ right_layout «module».now (right.Repeat count atom)) }
{
    out.extend_from_slice(b"{")?;
    push_number(out, u64::from(count))?;
    out.extend_from_slice(b"{")?;
    push_atom(out, module, atom)?;
    out.extend_from_slice(b"}}")?;
    Ok(())
}

fn push_bit(out: &mut Vec<u8>, module: &Module, net: Net, bit: u64) -> Result<(), AllocError>
    ensures { OnOk result (out.new.items ≡ out.old.items ++ right_layout «module».now (right.Bit net bit)) }
{
    push_net(out, module, net)?;
    out.extend_from_slice(b"[")?;
    push_number(out, bit)?;
    out.extend_from_slice(b"]")?;
    Ok(())
}

fn push_slice(
    out: &mut Vec<u8>,
    module: &Module,
    net: Net,
    most: u64,
    least: u64,
) -> Result<(), AllocError>
    ensures { OnOk result (out.new.items ≡ out.old.items ++ right_layout «module».now (right.Slice net most least)) }
{
    push_net(out, module, net)?;
    out.extend_from_slice(b"[")?;
    push_number(out, most)?;
    out.extend_from_slice(b":")?;
    push_number(out, least)?;
    out.extend_from_slice(b"]")?;
    Ok(())
}

fn push_word(
    out: &mut Vec<u8>,
    module: &Module,
    array: usize,
    index: Atom<Net>,
) -> Result<(), AllocError>
    ensures { OnOk result (out.new.items ≡ out.old.items ++ right_layout «module».now (right.Word array index)) }
{
    push_array(out, module, array)?;
    out.extend_from_slice(b"[")?;
    push_atom(out, module, index)?;
    out.extend_from_slice(b"]")?;
    Ok(())
}

fn push_complement(out: &mut Vec<u8>, module: &Module, atom: Atom<Net>) -> Result<(), AllocError>
    ensures { OnOk result (out.new.items ≡ out.old.items ++ right_layout «module».now (right.Not atom)) }
{
    out.extend_from_slice(b"~")?;
    push_atom(out, module, atom)?;
    Ok(())
}

pub(crate) fn push_right(
    out: &mut Vec<u8>,
    module: &Module,
    side: Right<Net, usize>,
) -> Result<(), AllocError>
    ensures { OnOk result (out.new.items ≡ out.old.items ++ right_layout «module».now side) }
{
    match side {
        Right::Copy(a) => push_atom(out, module, a),
        Right::Not(a) => push_complement(out, module, a),
        Right::Binary(operator, a, b) => push_binary(out, module, operator, a, b),
        Right::Choose(c, a, b) => push_choice(out, module, c, a, b),
        Right::Join(a, b) => push_join(out, module, a, b),
        Right::Repeat(count, a) => push_copies(out, module, count, a),
        Right::Bit(net, bit) => push_bit(out, module, net, bit),
        Right::Slice(net, most, least) => push_slice(out, module, net, most, least),
        Right::Word(array, index) => push_word(out, module, array, index),
    }
}
