// The text of a module.

ghost use Rattle.std.specs.Prelude.{◌≡◌, ◌≤◌, ◌++◌, OnOk, IfOk};
ghost use Rattle.dk_base.specs.declared.TheConstants.{MAX_BUFFER_BITS};
ghost use Rattle.wiring.specs.BufferBits.{array_bits};
ghost use Rattle.netlist.specs.Names.{NamedNetlist};
ghost use Rattle.verilog_text.specs.Stands.{StandsFor};
ghost use Rattle.verilog_layout.specs.Layout.{layout, head_layout, declarations_layout, block_head, whole_block, block_layout, input_layout, output_layout, each_at};

use crate::line::{push_arrays, push_assigns, push_named, push_nets, push_updates};
use netlist::{Module, Update, Width, input_name, output_name};
use std::alloc::{AllocError, Global};

// The bytes that are kept ready for a declaration and for a statement.
const DECLARATION_BYTES: usize = 24;

const STATEMENT_BYTES: usize = 48;

fn push_input(out: &mut Vec<u8>, enable: bool, place: usize, width: Width) -> Result<(), AllocError>
    ensures { OnOk result (out.new.items ≡ out.old.items ++ input_layout enable place width) }
{
    push_named(out, b", input ", width, input_name(enable, place))?;
    Ok(())
}

fn push_output(out: &mut Vec<u8>, place: usize, width: Width) -> Result<(), AllocError>
    ensures { OnOk result (out.new.items ≡ out.old.items ++ output_layout place width) }
{
    push_named(out, b", output ", width, output_name(place))?;
    Ok(())
}

fn push_inputs(out: &mut Vec<u8>, enable: bool, widths: &[Width]) -> Result<(), AllocError>
    ensures { OnOk result (out.new.items ≡ out.old.items ++ each_at (input_layout enable) 0 widths.now) }
{
    for (k, width) in widths.iter().enumerate() {
        push_input(out, enable, k, *width)?;
    }
    Ok(())
}

fn push_outputs(out: &mut Vec<u8>, widths: &[Width]) -> Result<(), AllocError>
    ensures { OnOk result (out.new.items ≡ out.old.items ++ each_at output_layout 0 widths.now) }
{
    for (k, width) in widths.iter().enumerate() {
        push_output(out, k, *width)?;
    }
    Ok(())
}

fn push_head(out: &mut Vec<u8>, module: &Module) -> Result<(), AllocError>
    ensures { OnOk result (out.new.items ≡ out.old.items ++ head_layout «module».now) }
{
    let wiring = module.wiring();
    out.extend_from_slice(b"module ")?;
    out.extend_from_slice(module.names().module.as_bytes())?;
    out.extend_from_slice(b"(input clk")?;
    push_inputs(out, wiring.enable, &wiring.inputs)?;
    push_outputs(out, &wiring.outputs)?;
    out.extend_from_slice(b");\n")?;
    Ok(())
}

fn push_declarations(out: &mut Vec<u8>, module: &Module) -> Result<(), AllocError>
    ensures { OnOk result (out.new.items ≡ out.old.items ++ declarations_layout «module».now) }
{
    let names = module.names();
    let wiring = module.wiring();
    push_nets(out, b"  wire ", &names.wires, &wiring.wires)?;
    push_nets(out, b"  reg ", &names.regs, &wiring.regs)?;
    push_arrays(out, &names.arrays, &wiring.arrays)?;
    Ok(())
}

#[tactic(auto, unfolding(verilog_layout::specs::Layout::block_head))]
fn push_block_head(out: &mut Vec<u8>) -> Result<(), AllocError>
    ensures { OnOk result (out.new.items ≡ out.old.items ++ block_head) }
{
    out.extend_from_slice(b"  always @(posedge clk) begin\n")?;
    Ok(())
}

fn push_whole_block(
    out: &mut Vec<u8>,
    module: &Module,
    updates: &[Update],
) -> Result<(), AllocError>
    ensures { OnOk result (out.new.items ≡ out.old.items ++ whole_block «module».now updates.now) }
{
    push_block_head(out)?;
    push_updates(out, module, updates)?;
    out.extend_from_slice(b"  end\n")?;
    Ok(())
}

fn push_block(out: &mut Vec<u8>, module: &Module, updates: &[Update]) -> Result<(), AllocError>
    ensures { OnOk result (out.new.items ≡ out.old.items ++ block_layout «module».now updates.now) }
{
    match updates {
        [] => Ok(()),
        [_first, _rest @ ..] => push_whole_block(out, module, updates),
    }
}

// About as many bytes as the text of a compiled module has.
fn room_for(module: &Module) -> usize {
    let wiring = module.wiring();
    let declarations = wiring
        .wires
        .len()
        .saturating_add(wiring.regs.len())
        .saturating_add(wiring.arrays.len())
        .saturating_add(40);
    let statements = wiring.assigns.len().saturating_add(wiring.updates.len());
    declarations
        .saturating_mul(DECLARATION_BYTES)
        .saturating_add(statements.saturating_mul(STATEMENT_BYTES))
}

fn push_text(text: &mut Vec<u8>, module: &Module) -> Result<(), AllocError>
    ensures { OnOk result (text.new.items ≡ text.old.items ++ layout «module».now) }
{
    let wiring = module.wiring();
    push_head(text, module)?;
    push_declarations(text, module)?;
    push_assigns(text, module, &wiring.assigns)?;
    push_block(text, module, &wiring.updates)?;
    text.extend_from_slice(b"endmodule\n")?;
    Ok(())
}

/// The Verilog text of a module, whose every byte is fixed by the module. It denotes this module, and no other, where the arrays have no more than 67,108,864 bits, which is what a text may have. The only error is out of memory. The layout is that of docs/VERILOG.md, part 12, in the language of IEEE Std 1364-2005.
pub fn print(alloc: Global, module: &Module) -> Result<Vec<u8>, AllocError>
    ensures text { IfOk result (λ t. t.items ≡ layout «module».now) }
    ensures stands { array_bits «module».now.netlist.arrays ≤ MAX_BUFFER_BITS → IfOk result (λ t. StandsFor t.items «module».now) }
    ensures only { array_bits «module».now.netlist.arrays ≤ MAX_BUFFER_BITS → IfOk result (λ t. (other : NamedNetlist) → StandsFor t.items other
        → other ≡ «module».now) }
{
    let mut text = Vec::with_capacity(alloc, room_for(module))?;
    push_text(&mut text, module)?;
    let _rules = module.wiring();
    let _names = module.names();
    verilog_layout::layout_stands_law();
    Ok(text)
}
