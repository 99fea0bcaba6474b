// Lines: declarations, assigns and updates.

ghost use Rattle.std.specs.Prelude.{◌≡◌, ◌++◌, OnOk, codes};
ghost use Rattle.wiring.specs.declared.netlist.Update.TheVariants as update;
ghost use Rattle.verilog_layout.specs.Layout.{net_line, array_line, assign_layout, update_layout, named_layout, each, each_at};

use crate::name::{push_array, push_atom, push_name, push_net};
use crate::number::{push_number, push_range};
use crate::right::push_right;
use netlist::{Assign, Atom, Module, Name, Net, Shape, Update, Width};
use std::alloc::AllocError;

// A word, the bits and a name.
pub(crate) fn push_named(
    out: &mut Vec<u8>,
    word: &[u8],
    width: Width,
    name: &[u8],
) -> Result<(), AllocError>
    ensures { OnOk result (out.new.items ≡ out.old.items ++ named_layout word.now width name.now) }
{
    out.extend_from_slice(word)?;
    push_range(out, width)?;
    out.extend_from_slice(name)?;
    Ok(())
}

fn push_net_line(
    out: &mut Vec<u8>,
    word: &[u8],
    names: &[Name],
    place: usize,
    width: Width,
) -> Result<(), AllocError>
    ensures { OnOk result (out.new.items ≡ out.old.items ++ net_line word.now names.now place width) }
{
    out.extend_from_slice(word)?;
    push_range(out, width)?;
    push_name(out, names, place)?;
    out.extend_from_slice(b";\n")?;
    Ok(())
}

fn push_array_line(
    out: &mut Vec<u8>,
    names: &[Name],
    place: usize,
    shape: Shape,
) -> Result<(), AllocError>
    ensures { OnOk result (out.new.items ≡ out.old.items ++ array_line names.now place shape) }
{
    out.extend_from_slice(b"  reg ")?;
    push_range(out, shape.width)?;
    push_name(out, names, place)?;
    out.extend_from_slice(b" [0:")?;
    push_number(out, u64::from(shape.depth.words() - 1))?;
    out.extend_from_slice(b"];\n")?;
    Ok(())
}

fn push_assign(out: &mut Vec<u8>, module: &Module, assign: &Assign) -> Result<(), AllocError>
    ensures { OnOk result (out.new.items ≡ out.old.items ++ assign_layout «module».now assign.now) }
{
    out.extend_from_slice(b"  assign ")?;
    push_net(out, module, assign.target)?;
    out.extend_from_slice(b" = ")?;
    push_right(out, module, assign.right)?;
    out.extend_from_slice(b";\n")?;
    Ok(())
}

fn push_set(
    out: &mut Vec<u8>,
    module: &Module,
    reg: usize,
    value: Atom<Net>,
) -> Result<(), AllocError>
    ensures { OnOk result (out.new.items ≡ out.old.items ++ update_layout «module».now (update.Set reg value)) }
{
    out.extend_from_slice(b"    ")?;
    push_net(out, module, Net::Reg(reg))?;
    out.extend_from_slice(b" <= ")?;
    push_atom(out, module, value)?;
    out.extend_from_slice(b";\n")?;
    Ok(())
}

fn push_put(
    out: &mut Vec<u8>,
    module: &Module,
    array: usize,
    index: Atom<Net>,
    value: Atom<Net>,
) -> Result<(), AllocError>
    ensures { OnOk result (out.new.items ≡ out.old.items ++ update_layout «module».now (update.Put array index value)) }
{
    out.extend_from_slice(b"    ")?;
    push_array(out, module, array)?;
    out.extend_from_slice(b"[")?;
    push_atom(out, module, index)?;
    out.extend_from_slice(b"] <= ")?;
    push_atom(out, module, value)?;
    out.extend_from_slice(b";\n")?;
    Ok(())
}

fn push_update(out: &mut Vec<u8>, module: &Module, update: &Update) -> Result<(), AllocError>
    ensures { OnOk result (out.new.items ≡ out.old.items ++ update_layout «module».now update.now) }
{
    match update {
        Update::Set(reg, value) => push_set(out, module, *reg, *value),
        Update::Put(array, index, value) => push_put(out, module, *array, *index, *value),
    }
}

// A line for each net of one sort.
pub(crate) fn push_nets(
    out: &mut Vec<u8>,
    word: &[u8],
    names: &[Name],
    widths: &[Width],
) -> Result<(), AllocError>
    ensures { OnOk result (out.new.items ≡ out.old.items ++ each_at (net_line word.now names.now) 0 widths.now) }
{
    for (k, width) in widths.iter().enumerate() {
        push_net_line(out, word, names, k, *width)?;
    }
    Ok(())
}

pub(crate) fn push_arrays(
    out: &mut Vec<u8>,
    names: &[Name],
    shapes: &[Shape],
) -> Result<(), AllocError>
    ensures { OnOk result (out.new.items ≡ out.old.items ++ each_at (array_line names.now) 0 shapes.now) }
{
    for (k, shape) in shapes.iter().enumerate() {
        push_array_line(out, names, k, *shape)?;
    }
    Ok(())
}

pub(crate) fn push_assigns(
    out: &mut Vec<u8>,
    module: &Module,
    assigns: &[Assign],
) -> Result<(), AllocError>
    ensures { OnOk result (out.new.items ≡ out.old.items ++ each (assign_layout «module».now) assigns.now) }
{
    for assign in assigns {
        push_assign(out, module, assign)?;
    }
    Ok(())
}

pub(crate) fn push_updates(
    out: &mut Vec<u8>,
    module: &Module,
    updates: &[Update],
) -> Result<(), AllocError>
    ensures { OnOk result (out.new.items ≡ out.old.items ++ each (update_layout «module».now) updates.now) }
{
    for update in updates {
        push_update(out, module, update)?;
    }
    Ok(())
}
