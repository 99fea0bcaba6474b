// The least numbers that suit a flow.

ghost use Rattle.std.specs.Prelude.{◌≡◌, ◌<◌, ◌≤◌, ℕ, length, slice_index, OnOk, IfSome, IfNone};
ghost use Rattle.flow_dual.specs.Tree.{IsRooted, IsSettled, IsState};

use crate::shifting::{least_slack, lower};
use crate::tree::{Network, reach};
use dk_base::OutOfMemory;
use std::alloc::Global;

// A node that is not reached, if there is one.
fn unreached(order: &[usize]) -> Option<usize>
    ensures some { IfSome result (λ v. (v < length order.now) × (slice_index order.now v ≡ 0)) }
    ensures none { IfNone result ((v : ℕ) → v < length order.now → 0 < slice_index order.now v) }
{
    order.iter().position(|o| *o == 0)
}

// Lowers the numbers as far as the constraints and the flow allow.
pub fn settle(
    alloc: Global,
    network: &Network,
    numbers: &mut [u64],
    flow: &[u64],
) -> Result<(), OutOfMemory>
    requires state { IsState network.now.constraints.now numbers.old flow.now }
    requires some { 0 < length numbers.old }
    requires nodes { length numbers.old ≤ 528 }
    requires rooted { IsRooted network.now.constraints.now (length numbers.old) }
    requires zero { slice_index numbers.old 0 ≡ 0 }
    ensures { OnOk result (IsSettled network.now.constraints.now flow.now numbers.new) }
{
    loop {
        let tree = reach(alloc, network, numbers, flow, 0)?;
        let order = tree.order.as_slice();
        match unreached(order) {
            None => return Ok(()),
            Some(_node) => {
                let by = least_slack(network.constraints, numbers, order);
                lower(numbers, order, by);
            }
        }
    }
}
