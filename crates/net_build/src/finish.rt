// From a draft to a module.

ghost use Rattle.std.specs.Prelude.{◌≡◌, ◌++◌, IfOk, OnOk};
ghost use Rattle.wiring.specs.Netlist.{netlist_of};
ghost use Rattle.net_build.specs.Draft.{flat, output_assigns, with_outputs, IsCounted};

use dk_base::OutOfMemory;
use std::alloc::Global;
use wiring::{Assign, Atom, Net, Netlist, Right};

// Each `valid` before its `dout`.
pub fn sources(alloc: Global, outs: &[(Net, Net)]) -> Result<Vec<Net>, OutOfMemory>
    ensures { IfOk result (λ nets. nets.items ≡ flat outs.now) }
{
    let mut nets = Vec::new(alloc);
    for (valid, dout) in outs {
        nets.push(*valid)?;
        nets.push(*dout)?;
    }
    Ok(nets)
}

fn push_outputs(assigns: &mut Vec<Assign>, nets: &[Net]) -> Result<(), OutOfMemory>
    ensures { OnOk result (assigns.new.items ≡ assigns.old.items ++ output_assigns 0 nets.now) }
{
    for (k, net) in nets.iter().enumerate() {
        let target = Net::Output(k);
        let right = Right::Copy(Atom::Net(*net));
        assigns.push(Assign { target, right })?;
    }
    Ok(())
}

// Lets the outputs take these nets.
pub fn drive_outputs(wiring: &mut Netlist, nets: &[Net]) -> Result<(), OutOfMemory>
    ensures { OnOk result (netlist_of wiring.new ≡ with_outputs (netlist_of wiring.old) nets.now) }
{
    push_outputs(&mut wiring.assigns, nets)?;
    Ok(())
}

// The numbers below a count.
pub fn counted(alloc: Global, count: usize) -> Result<Vec<usize>, OutOfMemory>
    ensures { IfOk result (λ order. IsCounted order.items count) }
{
    let mut order = Vec::new(alloc);
    for k in 0..count {
        order.push(k)?;
    }
    Ok(order)
}
