//! What a stream of a module reads and writes, by the module's ports.

ghost use Rattle.std.specs.Prelude.{◌≡◌, ◌≤◌, ◌-◌, ◌^◌, length, slice_index};
ghost use Rattle.dk_base.specs.declared.TheConstants.{MAX_PORT_WIDTH};

use crate::line::OutputFormat;
use dk_base::FrameSize;
use netlist::Module;

/// The bits of the din of a module with no port `en` and one din.
pub fn din_bits(module: &Module) -> u8
    requires { length «module».now.netlist.inputs ≡ 2 }
    ensures { result ≡ slice_index «module».now.netlist.inputs 1 }
{
    module.wiring().inputs[1].bits()
}

/// The bits of the dout of a module with one output.
pub fn dout_bits(module: &Module) -> u8
    requires { length «module».now.netlist.outputs ≡ 2 }
    ensures { result ≡ slice_index «module».now.netlist.outputs 1 }
{
    module.wiring().outputs[1].bits()
}

/// The images that a module with a dout of this width writes.
pub fn format_of(size: FrameSize, bits: u8) -> OutputFormat
    requires { bits ≤ MAX_PORT_WIDTH }
    ensures size { result.size ≡ size }
    ensures maxval { result.maxval ≡ 2 ^ bits - 1 }
{
    OutputFormat {
        size,
        maxval: ((1u32 << bits) - 1) as u16,
    }
}
