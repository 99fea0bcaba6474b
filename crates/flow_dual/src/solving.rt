// The least vector of least bits, and a flow that shows them least.

ghost use Rattle.std.specs.Prelude.{◌≡◌, length, IfOk, OnOk};
ghost use Rattle.raster_delay.specs.Systems.{AreBegins, AreEnds, nodes};
ghost use Rattle.flow_dual.specs.Solutions.{IsGreatest, IsOptimum, IsSolution, IsStart};

use crate::checking::is_optimal;
use crate::sending::send_all;
use crate::settling::settle;
use crate::shifting::rebase;
use crate::simplex::propose;
use crate::solution::{Numbers, Solution};
use crate::tree::{Network, incidence};
use dk_base::OutOfMemory;
use raster_delay::{System, begin_numbers, earliest_numbers, end_numbers};
use std::alloc::Global;

// Finds a balanced flow, and numbers of the nodes that show its worth to be the greatest. What the simplex proposes is taken where
// it is that, as in every trial it was. Otherwise the flow is sent image by image, which is slow.
fn find_flow(
    alloc: Global,
    system: &System,
    incident: &[Vec<usize>],
    numbers: &mut [u64],
    flow: &mut [u64],
) -> Result<(), OutOfMemory>
    requires { IsStart system.now numbers.old flow.old }
    ensures { OnOk result (IsGreatest system.now numbers.new flow.new) }
{
    let proposal = propose(alloc, system)?;
    let optimal = is_optimal(alloc, system, &proposal.potentials, &proposal.flow)?;
    if optimal && proposal.potentials.len() == numbers.len() && proposal.flow.len() == flow.len() {
        numbers.copy_from_slice(&proposal.potentials);
        flow.copy_from_slice(&proposal.flow);
        return Ok(());
    }
    send_all(alloc, system, incident, numbers, flow)?;
    Ok(())
}

// Finds a balanced flow, and the least numbers of the nodes that show its worth to be the greatest.
fn balance(
    alloc: Global,
    system: &System,
    numbers: &mut [u64],
    flow: &mut [u64],
) -> Result<(), OutOfMemory>
    requires { IsStart system.now numbers.old flow.old }
    ensures { OnOk result (IsOptimum system.now numbers.new flow.new) }
{
    system.law();
    let constraints = system.constraints();
    let incident = incidence(alloc, constraints, numbers.len())?;
    let network = Network {
        constraints,
        incident: &incident,
    };
    find_flow(alloc, system, &incident, numbers, flow)?;
    rebase(numbers);
    settle(alloc, &network, numbers, flow)?;
    Ok(())
}

// The delays among numbers of the nodes.
fn delays_among(alloc: Global, system: &System, numbers: &[u64]) -> Result<Numbers, OutOfMemory>
    requires { length numbers.now ≡ nodes system.now }
    ensures { IfOk result (λ delays. AreBegins system.now numbers.now delays) }
{
    let delays = begin_numbers(alloc, system, numbers)?;
    Ok(Numbers::new(delays))
}

// The ends among numbers of the nodes.
fn ends_among(alloc: Global, system: &System, numbers: &[u64]) -> Result<Numbers, OutOfMemory>
    requires { length numbers.now ≡ nodes system.now }
    ensures { IfOk result (λ ends. AreEnds system.now numbers.now ends) }
{
    let ends = end_numbers(alloc, system, numbers)?;
    Ok(Numbers::new(ends))
}

// The solution that an optimum determines.
fn answer(
    alloc: Global,
    system: &System,
    numbers: &[u64],
    flow: Vec<u64>,
) -> Result<Solution, OutOfMemory>
    requires { IsOptimum system.now numbers.now flow.items }
    ensures { IfOk result (λ x. IsSolution system.now x) }
{
    system.law();
    let delays = delays_among(alloc, system, numbers)?;
    let ends = ends_among(alloc, system, numbers)?;
    let flow = Numbers::new(flow);
    Ok(Solution { delays, ends, flow })
}

/// The least vector of least bits: of all causal delays that need the least bits, those that are least in every place. With them the ends, and a flow whose worth is these bits.
pub fn solve(alloc: Global, system: &System) -> Result<Solution, OutOfMemory>
    ensures { IfOk result (λ x. IsSolution system.now x) }
{
    let mut numbers = earliest_numbers(alloc, system)?;
    let mut flow = vec![in alloc; 0u64; system.constraints().len()]?;
    balance(alloc, system, &mut numbers, &mut flow)?;
    let solution = answer(alloc, system, &numbers, flow)?;
    Ok(solution)
}
