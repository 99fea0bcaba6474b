// The outputs of a circuit: for each when it is valid, and what it shows.

ghost use Rattle.std.specs.Prelude.{◌≡◌, ℕ, ◌<◌, IfOk, IfSome, IfNone, length};
ghost use Rattle.dk_base.specs.FrameSizes.{size_of};
ghost use Rattle.edge_select.specs.FrameTests.{AreFrameTests};
ghost use Rattle.buffer_plan.specs.Plans.{latency_of};
ghost use Rattle.circuit.specs.Behaviour.{net_of};
ghost use Rattle.circuit.specs.Ends.{output_in, AreValids, IsValidOf};
ghost use Rattle.circuit.specs.Growing.{AddsOuts, AddsValid, HasOuts};

use crate::valid::valid_from;
use buffer_plan::Plan;
use dk_base::OutOfMemory;
use edge_select::FrameTests;
use net_build::Builder;
use std::alloc::Global;
use wiring::Net;

// An output before the one at k that has its latency.
fn same_latency(plan: &Plan, k: usize) -> Option<usize>
    requires within { k < length plan.now.system.stencils.outputs }
    ensures earlier { IfSome result (λ j. j < k) }
    ensures same { IfSome result (λ j. latency_of plan.now j ≡ latency_of plan.now k) }
    ensures none { IfNone result
        ((j : ℕ) → j < k → latency_of plan.now j ≡ latency_of plan.now k → ⊥) }
{
    let latency = plan.latency_of(k);
    for j in 0..k {
        if plan.latency_of(j) == latency {
            return Some(j);
        }
    }
    None
}

// The valid of the output after these: that of one of them, or a new one.
fn valid_behind(
    b: &mut Builder,
    plan: &Plan,
    tests: &FrameTests,
    outs: &[(Net, Net)],
) -> Result<Net, OutOfMemory>
    requires next { HasOuts b.old plan.now tests.now outs.now }
    requires valids { AreValids b.old plan.now outs.now }
    ensures { IfOk result (λ n. AddsValid b.new b.old plan.now tests.now outs.now
        (IsValidOf b.new plan.now (length outs.now) n) n) }
{
    match same_latency(plan, outs.len()) {
        Some(j) => Ok(outs[j].0),
        None => {
            let net = valid_from(b, tests, plan.latency_of(outs.len()))?;
            Ok(net)
        }
    }
}

// The net of an output's image.
fn dout_at(plan: &Plan, nets: &[Net], k: usize) -> Net
    requires count { length nets.now ≡ length plan.now.system.stencils.images }
    requires within { k < length plan.now.system.stencils.outputs }
    ensures { result ≡ net_of plan.now nets.now (output_in plan.now k) }
{
    plan.law();
    let g = plan.outputs()[k];
    nets[plan.place(g)]
}

// For each output of a plan its valid and its dout, the net of its image. Outputs of one latency share their valid.
pub fn all_outs(
    alloc: Global,
    b: &mut Builder,
    plan: &Plan,
    nets: &[Net],
    tests: &FrameTests,
) -> Result<Vec<(Net, Net)>, OutOfMemory>
    requires tests { AreFrameTests b.old (size_of tests.now.size) tests.now }
    requires count { length nets.now ≡ length plan.now.system.stencils.images }
    ensures { IfOk result (λ outs. AddsOuts b.new b.old plan.now nets.now tests.now outs.items) }
{
    let mut outs = Vec::new(alloc);
    for _ in plan.outputs() {
        let valid = valid_behind(b, plan, tests, &outs)?;
        let dout = dout_at(plan, nets, outs.len());
        outs.push((valid, dout))?;
    }
    Ok(outs)
}
