// What the ports take and show.

ghost use Rattle.std.specs.Prelude.{◌≡◌, ℕ, ◌+◌, ◌*◌, ◌<◌, length, slice_get, All, Some, IsTrue, if◌then◌else◌};
ghost use Rattle.wiring.specs.Netlist.{netlist_of};
ghost use Rattle.wiring.specs.Rules.{KeepsRules, IsPortCount, IsPortWidth};
ghost use Rattle.wiring.specs.Snapshot.{Fit};
ghost use Rattle.cycle_sim.specs.Ports.{din_widths, out_of};

use netlist::{Module, Netlist, Width};
use wiring::limit;

/// What the two ports of an output show.
#[derive(Clone, Copy, Debug, PartialEq, Eq)]
pub struct Out {
    pub valid: bool,
    pub dout: u64,
}

// The ports of the output of this number.
pub fn out_at(outputs: &[u64], output: usize) -> Out
    requires { 2 * output + 1 < length outputs.now }
    ensures { result ≡ out_of outputs.now output }
{
    Out {
        valid: outputs[2 * output] == 1,
        dout: outputs[2 * output + 1],
    }
}

// The ports of all outputs in their order.
pub fn show_outs(outputs: &[u64], outs: &mut [Out])
    requires { length outputs.now ≡ 2 * length outs.old }
    ensures length { length outs.new ≡ length outs.old }
    ensures each { (k : ℕ) → k < length outs.old
        → slice_get outs.new k ≡ Some (out_of outputs.now k) }
{
    for output in 0..outs.len() {
        outs[output] = out_at(outputs, output);
    }
}

// Whether there is a number for each width, and each fits its own.
pub fn all_fit(widths: &[Width], numbers: &[u64]) -> bool
    ensures yes { IsTrue result → Fit widths.now numbers.now }
    ensures no { Fit widths.now numbers.now → IsTrue result }
{
    if widths.len() != numbers.len() {
        return false;
    }
    for k in 0..widths.len() {
        if numbers[k] as u128 >= limit(widths[k].bits()) {
            return false;
        }
    }
    true
}

// The number of the first din among the inputs.
fn first_din(has_enable: bool) -> usize
    ensures { result ≡ (if has_enable then 2 else 1) }
{
    if has_enable { 2 } else { 1 }
}

// The widths of the din ports.
pub fn dins_in(wiring: &Netlist) -> &[Width]
    requires { KeepsRules (netlist_of wiring.now) }
    ensures { result.now ≡ din_widths (netlist_of wiring.now) }
{
    wiring.inputs.split_at(first_din(wiring.enable)).1
}

/// The widths of a module's dins in bits, the first din first.
pub fn dins_of(module: &Module) -> &[Width]
    ensures widths { result.now ≡ din_widths «module».now.netlist }
    ensures count { IsPortCount (length result.now) }
    ensures ports { All IsPortWidth result.now }
{
    let wiring = module.wiring();
    dins_in(wiring)
}

// The number of outputs.
pub fn output_count(wiring: &Netlist) -> usize
    requires { KeepsRules (netlist_of wiring.now) }
    ensures { length (netlist_of wiring.now).outputs ≡ 2 * result }
{
    wiring.outputs.len() / 2
}
