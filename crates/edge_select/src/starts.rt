// Whether clocks were counted, by the counters of column and row.

ghost use Rattle.std.specs.Prelude.{◌-◌, ◌<◌, ◌≤◌, ◌==◌, ◌&&◌, if◌then◌else◌, IsTrue, [], ◌∷◌, Some, IfOk, OnOk};
ghost use Rattle.dk_base.specs.Frames.{area};
ghost use Rattle.dk_base.specs.FrameSizes.{size_of};
ghost use Rattle.wiring.specs.Netlist.{reset_net};
ghost use Rattle.wiring.specs.Snapshot.{net_value};
ghost use Rattle.edge_select.specs.Counters.{IsPlaceOf};
ghost use Rattle.edge_select.specs.Logic.{HasOneBit, WiresFrom, WiresTest};
ghost use Rattle.edge_select.specs.MadeTests.{AddsBit, MakesStart};
ghost use Rattle.edge_select.specs.Pixels.{HasSpot};
ghost use Rattle.edge_select.specs.FrameTests.{AreCounters, IsStartTest};

use crate::bands::equal_to;
use crate::counters::Counters;
use crate::frame_conditions::constant_test;
use crate::pixel::{Pixel, width_for};
use crate::registers::register_of;
use dk_base::{FrameSize, OutOfMemory};
use net_build::{Builder, gate, number, started};
use wiring::{Atom, Net, Operator, Right};

// A pixel by its column and row.
#[derive(Clone, Copy)]
struct Spot {
    column: u32,
    row: u32,
}

// The column and the row of a pixel, counted from 0 through frames one after another.
fn spot_of(size: FrameSize, pixel: u64) -> Spot
    ensures { IsPlaceOf (size_of size) pixel result.column result.row }
{
    let width = u64::from(size.width);
    let height = u64::from(size.height);
    Spot {
        column: (pixel % width) as u32,
        row: (pixel / width % height) as u32,
    }
}

// The pixel of the clock after which `last` clocks were counted.
fn last_spot(size: FrameSize, last: u64) -> Spot
    requires { 1 < last }
    ensures { IsPlaceOf (size_of size) (last - 1) result.column result.row }
{
    spot_of(size, last - 1)
}

// The test that a pixel is this one.
fn is_at(b: &mut Builder, pixel: &Pixel, spot: Spot) -> Result<Net, OutOfMemory>
    requires { HasSpot b.old pixel.now spot.column spot.row }
    ensures { WiresTest b.new b.old result 2 (pixel.now.column ∷ (pixel.now.row ∷ []))
        (λ s. net_value s pixel.now.column == spot.column
        && net_value s pixel.now.row == spot.row) }
{
    let across = equal_to(b, pixel.column, width_for(pixel.size.width), spot.column)?;
    let down = equal_to(b, pixel.row, width_for(pixel.size.height), spot.row)?;
    let net = gate(
        b,
        Right::Binary(Operator::And, Atom::Net(across), Atom::Net(down)),
    )?;
    Ok(net)
}

// A register of one bit that is 0 after a reset, and is set at the edge of the clock in which the `last`-th pixel of the first frame comes.
fn start_register(b: &mut Builder, k: &Counters, last: u64) -> Result<Net, OutOfMemory>
    requires counters { AreCounters b.old (size_of k.now.pixel.size) k.now }
    requires some { 1 < last }
    requires most { last ≤ area (size_of k.now.pixel.size) }
    ensures register { OnOk result (AddsBit b.new b.old k.now) }
    ensures test { IfOk result (IsStartTest b.new last) }
{
    let spot = last_spot(k.pixel.size, last);
    let here = is_at(b, &k.pixel, spot)?;
    let one = constant_test(b, true)?;
    let net = register_of(b, Some(here), 0, one)?;
    Ok(net)
}

// What a register of one bit has, and 0 in a reset clock.
fn unless_reset(b: &mut Builder, register: Net) -> Result<Net, OutOfMemory>
    requires { HasOneBit b.old register }
    ensures { WiresFrom b.new b.old result 1 (reset_net ∷ (register ∷ [])) 1
        (λ s. if net_value s reset_net == 1 then 0 else net_value s register) }
{
    let reset = b.rst();
    let net = gate(
        b,
        Right::Choose(Atom::Net(reset), number(1, 0), Atom::Net(register)),
    )?;
    Ok(net)
}

// Whether a register is set at a pixel of the first frame. The count of one clock is one register of one bit too, and needs no test of a pixel.
fn is_set_at_a_pixel(size: FrameSize, last: u64) -> bool
    ensures yes { IsTrue result → (1 < last) × (last ≤ area (size_of size)) }
    ensures no { 1 < last → last ≤ area (size_of size) → IsTrue result }
{
    if last < 2 {
        return false;
    }
    last <= size.area()
}

// A net that is whether `last` clocks were counted since a reset. It is 0 in a reset clock. From 1 to the end of the first frame it uses one register of one bit.
pub fn started_by(b: &mut Builder, k: &Counters, last: u64) -> Result<Net, OutOfMemory>
    requires counters { AreCounters b.old (size_of k.now.pixel.size) k.now }
    ensures { IfOk result (MakesStart b.new b.old (size_of k.now.pixel.size) (Some k.now) last) }
{
    if is_set_at_a_pixel(k.pixel.size, last) {
        let register = start_register(b, k, last)?;
        let net = unless_reset(b, register)?;
        return Ok(net);
    }
    let net = started(b, last)?;
    Ok(net)
}
