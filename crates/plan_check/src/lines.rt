// Whether the lines of images, latencies and flow hold.

ghost use Rattle.std.specs.Prelude.{◌≡◌, ◌<◌, ◌↔◌, length, slice_index, IsTrue, Contains};
ghost use Rattle.dk_base.specs.Stencils.{place};
ghost use Rattle.raster_delay.specs.Systems.{image_count, placed_reads};
ghost use Rattle.plan_check.specs.Orders.{IsEarlier, AreSorted};
ghost use Rattle.plan_check.specs.Holding.{ImageHolds, LatencyHolds, HasConstraint, read_at};
ghost use Rattle.plan_check.specs.Stages.{HaveLines};

use crate::ages::{are_old, depth};
use dk_base::is_before;
use raster_delay::{PlacedRead, System, place_of};
use report_text::{FlowLine, ImageLine};

// Whether the image line at a place is right.
pub(crate) fn image_holds(system: &System, images: &[ImageLine], k: usize) -> bool
    requires count { length images.now ≡ image_count system.now }
    requires place { k < length images.now }
    ensures { IsTrue result ↔ ImageHolds system.now images.now k }
{
    system.law();
    let row = system.width();
    let inputs = system.inputs();
    let reads = system.placed_reads();
    let line = &images[k];
    if line.width != system.images()[k].width {
        return false;
    }
    if k < inputs && line.delay != 0 {
        return false;
    }
    if !are_old(row, system.age(), inputs, images, reads, k) {
        return false;
    }
    depth(row, inputs, images, reads, k) == u128::from(line.depth)
}

// The place of the output numbered `k` among the kept images.
fn output_place(system: &System, k: usize) -> usize
    requires { k < length system.now.stencils.outputs }
    ensures place { result
        ≡ place system.now.stencils.images (slice_index system.now.stencils.outputs k) }
    ensures within { result < image_count system.now }
{
    system.law();
    place_of(system.images(), system.outputs()[k])
}

// Whether the latency line of the output at a place is right.
pub(crate) fn latency_holds(
    system: &System,
    images: &[ImageLine],
    latencies: &[u64],
    k: usize,
) -> bool
    requires lines { HaveLines system.now images.now latencies.now }
    requires place { k < length latencies.now }
    ensures { IsTrue result ↔ LatencyHolds system.now images.now latencies.now k }
{
    let place = output_place(system, k);
    latencies[k] == images[place].delay
}

// Whether one live read comes before another.
fn is_earlier(a: PlacedRead, b: PlacedRead) -> bool
    ensures { IsTrue result ↔ IsEarlier a b }
{
    is_before((a.f, a.g, a.dy, a.dx), (b.f, b.g, b.dy, b.dx))
}

// A law: a system's live reads are in order.
fn order_law(system: &System)
    ensures { AreSorted (placed_reads system.now) }
{
    system.law();
}

fn is_same(a: PlacedRead, b: PlacedRead) -> bool
    ensures { IsTrue result ↔ (a ≡ b) }
{
    a == b
}

// Whether there is such a live read, by halves.
fn is_read(reads: &[PlacedRead], read: PlacedRead) -> bool
    requires { AreSorted reads.now }
    ensures { IsTrue result ↔ Contains reads.now read }
{
    let mut low = 0;
    let mut high = reads.len();
    while low < high {
        let middle = low + (high - low) / 2;
        if is_same(reads[middle], read) {
            return true;
        }
        if is_earlier(reads[middle], read) {
            low = middle + 1;
        } else {
            high = middle;
        }
    }
    false
}

// The read that a flow line names.
pub(crate) fn named(reader: usize, source: usize, dx: i32, dy: i32) -> PlacedRead
    ensures { result ≡ read_at reader source dx dy }
{
    PlacedRead {
        f: reader,
        g: source,
        dx,
        dy,
    }
}

// Whether there is the constraint of a flow line.
pub(crate) fn has_constraint(system: &System, line: FlowLine) -> bool
    ensures { IsTrue result ↔ HasConstraint system.now line }
{
    order_law(system);
    let reads = system.placed_reads();
    match line {
        FlowLine::Hold { image, .. } => image < system.images().len(),
        FlowLine::Start { image, .. } => image >= system.inputs() && image < system.images().len(),
        FlowLine::Read {
            reader,
            source,
            dx,
            dy,
            ..
        } => is_read(reads, named(reader, source, dx, dy)),
        FlowLine::Keep {
            reader,
            source,
            dx,
            dy,
            ..
        } => is_read(reads, named(reader, source, dx, dy)),
    }
}
