// The plan of a solution, or why there is none.

ghost use Rattle.std.specs.Prelude.{◌≡◌, Err, length, All, IfOk, IfErr, OnOk};
ghost use Rattle.dk_base.specs.Stencils.{IsKept, Ascends};
ghost use Rattle.flow_dual.specs.Solutions.{IsSolution};
ghost use Rattle.buffer_plan.specs.Limits.{greatest_delay, IsWithinLimits, Passes};

use crate::fault::PlanFault;
use crate::plans::{Plan, made};
use dk_base::{Image, MAX_BUFFER_BITS, MAX_LATENCY};
use flow_dual::Solution;
use raster_delay::{System, bits, place_of};
use std::alloc::Global;

// The greatest delay of these images, 0 of none.
fn greatest_delay(images: &[Image], delays: &[u64], numbers: &[u32]) -> u64
    requires ascending { Ascends images.now }
    requires kept { All (IsKept images.now) numbers.now }
    requires one_each { length delays.now ≡ length images.now }
    ensures { result ≡ greatest_delay images.now delays.now numbers.now }
{
    let mut greatest: u64 = 0;
    for number in numbers {
        greatest = greatest.max(delays[place_of(images, *number)]);
    }
    greatest
}

/// The plan of a solution, if its bits and then its latency are within the limits.
pub fn plan(alloc: Global, system: &System, solution: &Solution) -> Result<Plan, PlanFault>
    requires { IsSolution system.now solution.now }
    ensures plan { IfOk result (λ p. p ≡ record { system = system.now; delays = solution.now.delays }) }
    ensures within { OnOk result (IsWithinLimits system.now solution.now.delays) }
    ensures fault { IfErr result (Passes system.now solution.now.delays) }
    ensures memory { result ≡ Err PlanFault.OutOfMemory → IsWithinLimits system.now solution.now.delays }
{
    system.law();
    let delays = solution.delays.as_slice();
    let least = bits(system, delays);
    if least > MAX_BUFFER_BITS {
        return Err(PlanFault::Bits { least });
    }
    let clocks = greatest_delay(system.images(), delays, system.outputs());
    if clocks > MAX_LATENCY {
        return Err(PlanFault::Latency { clocks });
    }
    match made(alloc, system, delays, clocks, least) {
        Ok(plan) => Ok(plan),
        Err(_) => Err(PlanFault::OutOfMemory),
    }
}
