// Tests of where a pixel's neighbours are.

ghost use Rattle.std.specs.Prelude.{◌<◌, ◌≤◌, ◌^◌, ◌==◌, not, ℤ, pos, ◌+ℤ◌, IsTrue, true, [], ◌∷◌, ◌++◌, Some, IfSome};
ghost use Rattle.std.specs.Option.{option_to_list};
ghost use Rattle.dk_base.specs.Frames.{in_frame};
ghost use Rattle.dk_base.specs.FrameSizes.{size_of};
ghost use Rattle.wiring.specs.Snapshot.{net_value};
ghost use Rattle.wiring.specs.Clock.{bit};
ghost use Rattle.edge_select.specs.Steps.{LeadBy, LeadOn};
ghost use Rattle.frame_paths.specs.Moves.{IsInterval};
ghost use Rattle.edge_select.specs.Passes.{IsRectangle, PassesOn, is_in_rectangle};
ghost use Rattle.net_build.specs.Depth.{IsOver};
ghost use Rattle.net_build.specs.Logic.{Computes};
ghost use Rattle.edge_select.specs.Logic.{AreCompared, HoldsSide, IsCoordinate, WiresSome, IsBit, IsBoth, IsTestNet, Wires, WiresFrom, WiresOver, WiresTest, is_up_to, is_from, is_within};
ghost use Rattle.edge_select.specs.Pixels.{HasPixel, IsTest};

use crate::paths::{Rectangle, leading_pixels, passing_pixels};
use crate::pixel::{Pixel, width_for};
use crate::step::Step;
use dk_base::OutOfMemory;
use frame_paths::Interval;
use net_build::{Builder, gate, number};
use pointwise_ir::Edge;
use wiring::{Atom, Net, Operator, Right};

// The test that a coordinate is not this one. Equality has no carry, so such a test is faster than an order.
fn apart_from(b: &mut Builder, x: Net, bits: u8, value: u32) -> Result<Net, OutOfMemory>
    requires { AreCompared b.old x bits value }
    ensures { WiresTest b.new b.old result 2 (x ∷ []) (λ s. not (net_value s x == value)) }
{
    let same = gate(
        b,
        Right::Binary(
            Operator::Equal,
            Atom::Net(x),
            number(bits, u64::from(value)),
        ),
    )?;
    let net = gate(
        b,
        Right::Choose(Atom::Net(same), number(1, 0), number(1, 1)),
    )?;
    Ok(net)
}

// The test that a coordinate is at least `first`, or None where each is.
fn at_least(
    b: &mut Builder,
    x: Net,
    bits: u8,
    first: u32,
    side: u32,
) -> Result<Option<Net>, OutOfMemory>
    requires x { HoldsSide b.old side bits x }
    requires first { first ≤ 2 ^ bits }
    ensures { WiresSome b.new b.old result 2 (x ∷ []) (λ s. is_from side first (net_value s x)) }
{
    if first == 0 {
        return Ok(None);
    }
    if first == side - 1 {
        let last = number(bits, u64::from(first));
        let net = gate(b, Right::Binary(Operator::Equal, Atom::Net(x), last))?;
        return Ok(Some(net));
    }
    if first == 1 {
        let net = apart_from(b, x, bits, 0)?;
        return Ok(Some(net));
    }
    let before = number(bits, u64::from(first) - 1);
    let net = gate(b, Right::Binary(Operator::Less, before, Atom::Net(x)))?;
    Ok(Some(net))
}

// The test that a coordinate of a side of this many is at most `last`, or None where each is.
fn at_most(
    b: &mut Builder,
    x: Net,
    bits: u8,
    last: u32,
    side: u32,
) -> Result<Option<Net>, OutOfMemory>
    requires x { HoldsSide b.old side bits x }
    requires last { last < side }
    ensures { WiresSome b.new b.old result 2 (x ∷ []) (λ s. is_up_to side last (net_value s x)) }
{
    let end = last + 1;
    if end >= side {
        return Ok(None);
    }
    if end + 1 == side {
        let net = apart_from(b, x, bits, end)?;
        return Ok(Some(net));
    }
    if end == 1 {
        let zero = number(bits, 0);
        let net = gate(b, Right::Binary(Operator::Equal, Atom::Net(x), zero))?;
        return Ok(Some(net));
    }
    let net = gate(
        b,
        Right::Binary(Operator::Less, Atom::Net(x), number(bits, u64::from(end))),
    )?;
    Ok(Some(net))
}

// The test that passes where both do.
pub fn both(
    b: &mut Builder,
    one: Option<Net>,
    other: Option<Net>,
) -> Result<Option<Net>, OutOfMemory>
    requires one { IsBit b.old one }
    requires other { IsBit b.old other }
    ensures { WiresOver b.new b.old result (IsBoth b.new b.old one other)
        (λ test. IfSome test (IsOver b.new b.old 1 (option_to_list one ++ option_to_list other))) }
{
    match one {
        None => Ok(other),
        Some(left) => match other {
            None => Ok(one),
            Some(right) => {
                let net = gate(
                    b,
                    Right::Binary(Operator::And, Atom::Net(left), Atom::Net(right)),
                )?;
                Ok(Some(net))
            }
        },
    }
}

// The test that a coordinate is in the interval, or None where each of the side is.
pub fn within(
    b: &mut Builder,
    x: Net,
    side: u32,
    interval: Interval,
) -> Result<Option<Net>, OutOfMemory>
    requires coordinate { IsCoordinate b.old side x }
    requires interval { IsInterval side interval }
    ensures { WiresSome b.new b.old result 3 (x ∷ [])
        (λ s. is_within side interval.first interval.last (net_value s x)) }
{
    let bits = width_for(side);
    let low = at_least(b, x, bits, interval.first, side)?;
    let high = at_most(b, x, bits, interval.last, side)?;
    let test = both(b, low, high)?;
    Ok(test)
}

/// The test that passes always, or never.
pub fn constant_test(b: &mut Builder, passes: bool) -> Result<Net, OutOfMemory>
    ensures { WiresFrom b.new b.old result 0 [] 1 (λ s. bit passes) }
{
    let net = gate(b, Right::Copy(number(1, u64::from(passes))))?;
    Ok(net)
}

// The net of a test.
pub fn test_net(b: &mut Builder, test: Option<Net>) -> Result<Net, OutOfMemory>
    ensures { WiresOver b.new b.old result (IsTestNet b.new b.old test)
        (IsOver b.new b.old 0 (option_to_list test)) }
{
    match test {
        Some(net) => Ok(net),
        None => {
            let net = constant_test(b, true)?;
            Ok(net)
        }
    }
}

// The test that a pixel is in one of these columns and in one of these rows.
fn rectangle_test(b: &mut Builder, pixel: &Pixel, rectangle: Rectangle) -> Result<Net, OutOfMemory>
    requires pixel { HasPixel b.old pixel.now }
    requires rectangle { IsRectangle (size_of pixel.now.size) rectangle }
    ensures { Wires b.new b.old result (Computes b.new b.old
        (pixel.now.column ∷ (pixel.now.row ∷ [])) 1
        (λ s. bit (is_in_rectangle pixel.now rectangle s))) }
{
    let across = within(b, pixel.column, pixel.size.width, rectangle.across)?;
    let down = within(b, pixel.row, pixel.size.height, rectangle.down)?;
    let test = both(b, across, down)?;
    let net = test_net(b, test)?;
    Ok(net)
}

// The test that a pixel is in one of these columns and rows, or the one that none passes.
fn passing_test(
    b: &mut Builder,
    pixel: &Pixel,
    rectangle: Option<Rectangle>,
) -> Result<Net, OutOfMemory>
    requires pixel { HasPixel b.old pixel.now }
    requires rectangle { IfSome rectangle (λ r. IsRectangle (size_of pixel.now.size) r) }
    ensures { Wires b.new b.old result (IsTest b.new b.old pixel.now (PassesOn rectangle)) }
{
    match rectangle {
        Some(rectangle) => {
            let net = rectangle_test(b, pixel, rectangle)?;
            Ok(net)
        }
        None => {
            let net = constant_test(b, false)?;
            Ok(net)
        }
    }
}

/// The test that a pixel passes exactly where the steps lead from it somewhere, each step that is not clamped to a point in the frame.
pub fn leads(b: &mut Builder, pixel: &Pixel, steps: &[Step]) -> Result<Net, OutOfMemory>
    requires { HasPixel b.old pixel.now }
    ensures { Wires b.new b.old result
        (IsTest b.new b.old pixel.now (LeadOn (size_of pixel.now.size) steps.now)) }
{
    let rectangle = leading_pixels(steps, pixel.size);
    let net = passing_test(b, pixel, rectangle)?;
    Ok(net)
}

/// The test that a pixel passes exactly where the steps lead from it to the point that is `dx` columns to the right and `dy` rows down.
pub fn at(
    b: &mut Builder,
    pixel: &Pixel,
    steps: &[Step],
    dx: i32,
    dy: i32,
) -> Result<Net, OutOfMemory>
    requires { HasPixel b.old pixel.now }
    ensures { Wires b.new b.old result
        (IsTest b.new b.old pixel.now (LeadBy (size_of pixel.now.size) steps.now dx dy)) }
{
    let rectangle = passing_pixels(steps, pixel.size, dx, dy);
    let net = passing_test(b, pixel, rectangle)?;
    Ok(net)
}

/// The test that a pixel passes exactly where the point that is `dx` columns to the right and `dy` rows down is in the frame.
pub fn inside(b: &mut Builder, pixel: &Pixel, dx: i32, dy: i32) -> Result<Net, OutOfMemory>
    requires { HasPixel b.old pixel.now }
    ensures { Wires b.new b.old result (IsTest b.new b.old pixel.now
        (λ x y. IsTrue (in_frame (size_of pixel.now.size) (pos x +ℤ dx) (pos y +ℤ dy)))) }
{
    let edge = Edge::Zero;
    let steps = [Step { edge, dx, dy }];
    let net = at(b, pixel, &steps, dx, dy)?;
    Ok(net)
}
