// The lines before the first time.

ghost use Rattle.std.specs.Prelude.{◌≡◌, ◌+◌, ◌++◌, OnOk, IfOk, codes, decimal, length};
ghost use Rattle.netlist.specs.Names.{name_at};
ghost use Rattle.wiring.specs.Netlist.{netlist_of};
ghost use Rattle.vcd_trace.specs.Layout.{id_of};
ghost use Rattle.vcd_trace.specs.Header.{each_at, kind_text, variable_text, input_text, output_text, named_text, ports_text, variables_text, scope_head, scope_text, timescale_text, end_text, header_text};

use crate::number::{id_length, push_id};
use dk_base::OutOfMemory;
use itoa::Buffer;
use netlist::{Module, Name, Netlist, Width, input_name, output_name};
use std::alloc::{AllocError, Global};

fn push_number(out: &mut Vec<u8>, number: u8) -> Result<(), OutOfMemory>
    ensures { OnOk result (out.new.items ≡ out.old.items ++ decimal number) }
{
    let mut digits = Buffer::new();
    out.extend_from_slice(digits.format(number).as_bytes())?;
    Ok(())
}

// Makes room for a variable's identifier and adds it.
fn add_id(out: &mut Vec<u8>, place: usize) -> Result<(), OutOfMemory>
    ensures { OnOk result (out.new.items ≡ out.old.items ++ id_of place) }
{
    out.try_reserve(id_length(place))?;
    push_id(out, place);
    Ok(())
}

// The kind, the width and the identifier of a variable.
fn push_kind(out: &mut Vec<u8>, kind: &[u8], width: Width, place: usize) -> Result<(), OutOfMemory>
    ensures { OnOk result (out.new.items ≡ out.old.items ++ kind_text kind.now width place) }
{
    out.extend_from_slice(b"$var ")?;
    out.extend_from_slice(kind)?;
    out.extend_from_slice(b" ")?;
    push_number(out, width.bits())?;
    out.extend_from_slice(b" ")?;
    add_id(out, place)
}

fn push_variable(
    out: &mut Vec<u8>,
    kind: &[u8],
    width: Width,
    place: usize,
    name: &[u8],
) -> Result<(), OutOfMemory>
    ensures { OnOk result (out.new.items ≡ out.old.items ++ variable_text kind.now width place name.now) }
{
    push_kind(out, kind, width, place)?;
    out.extend_from_slice(b" ")?;
    out.extend_from_slice(name)?;
    out.extend_from_slice(b" $end\n")?;
    Ok(())
}

// The variable of a name at a place of a list of names.
fn push_named(
    out: &mut Vec<u8>,
    kind: &[u8],
    names: &[Name],
    from: usize,
    place: usize,
    width: Width,
) -> Result<(), OutOfMemory>
    ensures { OnOk result (out.new.items ≡ out.old.items ++ named_text kind.now names.now from place width) }
{
    let name = match names.get(place) {
        None => b"".as_slice(),
        Some(name) => name.as_bytes(),
    };
    let id = place_behind(from, place)?;
    push_variable(out, kind, width, id, name)
}

// The number of a variable after others. More than there are numbers find no memory.
fn place_behind(from: usize, place: usize) -> Result<usize, OutOfMemory>
    ensures { IfOk result (λ n. n ≡ from + place) }
{
    match from.checked_add(place) {
        None => Err(AllocError),
        Some(number) => Ok(number),
    }
}

fn push_input(
    out: &mut Vec<u8>,
    enable: bool,
    place: usize,
    width: Width,
) -> Result<(), OutOfMemory>
    ensures { OnOk result (out.new.items ≡ out.old.items ++ input_text enable place width) }
{
    push_variable(out, b"wire", width, place, input_name(enable, place))
}

fn push_inputs(out: &mut Vec<u8>, enable: bool, widths: &[Width]) -> Result<(), OutOfMemory>
    ensures { OnOk result (out.new.items ≡ out.old.items ++ each_at (input_text enable) 0 widths.now) }
{
    for (k, width) in widths.iter().enumerate() {
        push_input(out, enable, k, *width)?;
    }
    Ok(())
}

fn push_output(
    out: &mut Vec<u8>,
    from: usize,
    place: usize,
    width: Width,
) -> Result<(), OutOfMemory>
    ensures { OnOk result (out.new.items ≡ out.old.items ++ output_text from place width) }
{
    let id = place_behind(from, place)?;
    push_variable(out, b"wire", width, id, output_name(place))
}

fn push_outputs(out: &mut Vec<u8>, from: usize, widths: &[Width]) -> Result<(), OutOfMemory>
    ensures { OnOk result (out.new.items ≡ out.old.items ++ each_at (output_text from) 0 widths.now) }
{
    for (k, width) in widths.iter().enumerate() {
        push_output(out, from, k, *width)?;
    }
    Ok(())
}

fn push_nets(
    out: &mut Vec<u8>,
    kind: &[u8],
    names: &[Name],
    from: usize,
    widths: &[Width],
) -> Result<(), OutOfMemory>
    ensures { OnOk result (out.new.items ≡ out.old.items ++ each_at (named_text kind.now names.now from) 0 widths.now) }
{
    for (k, width) in widths.iter().enumerate() {
        push_named(out, kind, names, from, k, *width)?;
    }
    Ok(())
}

fn push_ports(out: &mut Vec<u8>, wiring: &Netlist) -> Result<(), OutOfMemory>
    ensures { OnOk result (out.new.items ≡ out.old.items ++ ports_text (netlist_of wiring.now)) }
{
    push_inputs(out, wiring.enable, &wiring.inputs)?;
    push_outputs(out, wiring.inputs.len(), &wiring.outputs)?;
    Ok(())
}

fn push_all(out: &mut Vec<u8>, module: &Module) -> Result<(), OutOfMemory>
    ensures { OnOk result (out.new.items ≡ out.old.items ++ variables_text «module».now) }
{
    let names = module.names();
    let wiring = module.wiring();
    push_ports(out, wiring)?;
    let ports = place_behind(wiring.inputs.len(), wiring.outputs.len())?;
    push_nets(out, b"wire", &names.wires, ports, &wiring.wires)?;
    let nets = place_behind(ports, wiring.wires.len())?;
    push_nets(out, b"reg", &names.regs, nets, &wiring.regs)?;
    Ok(())
}

#[tactic(auto, unfolding(crate::specs::Header::scope_head))]
fn push_scope_head(out: &mut Vec<u8>) -> Result<(), OutOfMemory>
    ensures { OnOk result (out.new.items ≡ out.old.items ++ scope_head) }
{
    out.extend_from_slice(b"$scope module ")?;
    Ok(())
}

fn push_scope(out: &mut Vec<u8>, name: &[u8]) -> Result<(), OutOfMemory>
    ensures { OnOk result (out.new.items ≡ out.old.items ++ scope_text name.now) }
{
    push_scope_head(out)?;
    out.extend_from_slice(name)?;
    out.extend_from_slice(b" $end\n")?;
    Ok(())
}

#[tactic(auto, unfolding(crate::specs::Header::timescale_text))]
fn push_timescale(out: &mut Vec<u8>) -> Result<(), OutOfMemory>
    ensures { OnOk result (out.new.items ≡ out.old.items ++ timescale_text) }
{
    out.extend_from_slice(b"$timescale 1 ns $end\n")?;
    Ok(())
}

#[tactic(auto, unfolding(crate::specs::Header::end_text))]
fn push_end(out: &mut Vec<u8>) -> Result<(), OutOfMemory>
    ensures { OnOk result (out.new.items ≡ out.old.items ++ end_text) }
{
    out.extend_from_slice(b"$upscope $end\n$enddefinitions $end\n")?;
    Ok(())
}

/// The lines of a module's trace before its first time: the time scale, the scope and the variables, which are the ports but the clock, the wires and the registers in the module's order (IEEE Std 1364-2005, 18.2.3). The only error is out of memory.
pub fn header(alloc: Global, module: &Module) -> Result<Vec<u8>, OutOfMemory>
    ensures { IfOk result (λ text. text.items ≡ header_text «module».now) }
{
    let mut out = Vec::new(alloc);
    push_timescale(&mut out)?;
    push_scope(&mut out, module.names().module.as_bytes())?;
    push_all(&mut out, module)?;
    push_end(&mut out)?;
    Ok(out)
}
