// The ports of a program's module.

ghost use Rattle.std.specs.Prelude.{◌≡◌, IfOk, map};
ghost use Rattle.dk_base.specs.Types.{width_of};
ghost use Rattle.circuit.specs.Rounds.{type_at};
ghost use Rattle.circuit.specs.Whole.{HasOnlyPorts};

use dk_base::OutOfMemory;
use net_build::Builder;
use pointwise_ir::Program;
use std::alloc::Global;

// The width of each input.
fn din_bits(alloc: Global, ir: &Program) -> Result<Vec<u8>, OutOfMemory>
    ensures { IfOk result (λ bits. bits.items ≡ map (λ i. width_of i.ty) ir.now.inputs) }
{
    let mut bits = Vec::new(alloc);
    for input in ir.inputs() {
        bits.push(input.ty.width())?;
    }
    Ok(bits)
}

// The width of each output.
#[tactic(auto, using(crate::proofs::Typing::type_is))]
fn dout_bits(alloc: Global, ir: &Program) -> Result<Vec<u8>, OutOfMemory>
    ensures { IfOk result (λ bits. bits.items
        ≡ map (λ g. width_of (type_at ir.now g)) ir.now.outputs) }
{
    ir.law();
    let mut bits = Vec::new(alloc);
    for image in ir.outputs() {
        bits.push(ir.type_of(*image).width())?;
    }
    Ok(bits)
}

// A builder with the ports of a program, and nothing else.
pub fn begun(alloc: Global, ir: &Program, enable: bool) -> Result<Builder, OutOfMemory>
    ensures { IfOk result (HasOnlyPorts ir.now enable) }
{
    ir.law();
    let dins = din_bits(alloc, ir)?;
    let douts = dout_bits(alloc, ir)?;
    let b = Builder::with_ports(alloc, enable, &dins, &douts)?;
    Ok(b)
}
