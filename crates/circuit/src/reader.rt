// An image that reads others, and what it reads.

ghost use Rattle.std.specs.Prelude.{◌≡◌, ◌<◌, Some, Contains, length, slice_get};
ghost use Rattle.std.specs.List.Sorted.{IsStrictlyIncreasing};
ghost use Rattle.buffer_plan.specs.Plans.{place_in, ages_of};
ghost use Rattle.circuit.specs.Taps.{taps_at, IsTapOf};

use crate::taps::Taps;
use buffer_plan::Plan;
use dk_base::LiveRead;
use edge_select::Step;
use pointwise_ir::Program;
use wiring::Net;

// An image that reads others, by its number, and the taps of the kept images before it, in order.
#[derive(Clone, Copy)]
pub struct Reader<'a> {
    pub ir: &'a Program,
    pub plan: &'a Plan,
    pub taps: &'a [Taps],
    pub image: u32,
}

// A read of an image at the end of these steps.
#[derive(Clone, Copy)]
pub struct Leaf<'a> {
    pub image: u32,
    pub steps: &'a [Step],
}

// The place of an age among the ages of an image.
fn place_of_age(ages: &[u64], age: u64) -> usize
    requires ascending { IsStrictlyIncreasing ages.now }
    requires there { Contains ages.now age }
    ensures { slice_get ages.now result ≡ Some age }
{
    match ages.binary_search(&age) {
        Ok(place) => place,
        Err(_) => 0,
    }
}

// The tap of a live read.
pub fn tap_of(plan: &Plan, taps: &[Taps], read: LiveRead) -> Net
    requires read { Contains plan.now.system.stencils.reads read }
    requires there { place_in plan.now read.g < length taps.now }
    requires one_each { length (taps_at plan.now taps.now read.g)
        ≡ length (ages_of plan.now read.g) }
    ensures { IsTapOf plan.now taps.now read result }
{
    plan.law();
    let age = plan.age(read);
    let place = place_of_age(plan.ages(read.g), age);
    taps[plan.place(read.g)].nets()[place]
}
