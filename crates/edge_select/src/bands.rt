// Intervals of columns or rows, moved on around the end of a side, and their tests.

ghost use Rattle.std.specs.Prelude.{◌≡◌, ◌+◌, ◌-◌, ◌<◌, ◌≤◌, ◌^◌, ◌==◌, ℕ, true, false, if◌then◌else◌, IsTrue, [], ◌∷◌};
ghost use Rattle.dk_base.specs.declared.TheConstants.{MAX_SIDE};
ghost use Rattle.wiring.specs.Snapshot.{net_value};
ghost use Rattle.wiring.specs.Clock.{bit};
ghost use Rattle.net_build.specs.Counters.{after};
ghost use Rattle.frame_paths.specs.Moves.{IsInterval};
ghost use Rattle.edge_select.specs.Bands.{IsBand, IsMoved, in_interval, in_band};
ghost use Rattle.edge_select.specs.FrameTests.{band_levels};
ghost use Rattle.edge_select.specs.Logic.{AreCompared, HasOneBit, IsCoordinate, WiresFrom, WiresTest};

use crate::frame_conditions::{test_net, within};
use crate::pixel::width_for;
use dk_base::OutOfMemory;
use frame_paths::Interval;
use net_build::{Builder, gate, number};
use wiring::{Atom, Net, Operator, Right};

// The coordinates of a side from `first` to `last` or, if `outside`, all others.
#[derive(Clone, Copy)]
pub struct Band {
    pub first: u32,
    pub last: u32,
    pub outside: bool,
}

// Whether two bands are written alike.
pub fn same_band(one: Band, other: Band) -> bool
    ensures yes { IsTrue result → one ≡ other }
    ensures no { one ≡ other → IsTrue result }
{
    one.first == other.first && one.last == other.last && one.outside == other.outside
}

// The coordinates of an interval, each moved on by `shift`. After the last coordinate of the side comes the first. They are written as an interval if the side's last coordinate is not among them, and else as what is outside one. So a band and the one of all other coordinates have the same interval.
pub fn moved(interval: Interval, shift: u32, side: u32) -> Band
    requires interval { IsInterval side interval }
    requires part { interval.last + 1 < side + interval.first }
    requires shift { shift < side }
    requires most { side ≤ MAX_SIDE }
    ensures { IsMoved side interval shift result }
{
    let first = interval.first + shift;
    let last = interval.last + shift;
    if last + 1 < side {
        return Band {
            first,
            last,
            outside: false,
        };
    }
    if first >= side {
        return Band {
            first: first - side,
            last: last - side,
            outside: false,
        };
    }
    Band {
        first: last + 1 - side,
        last: first - 1,
        outside: true,
    }
}

// The band that is one coordinate before this one: a coordinate is in it exactly where the next coordinate is in this band. After the last coordinate of the side comes the first.
pub fn before(band: Band, side: u32) -> Band
    requires band { IsBand side band }
    requires most { side ≤ MAX_SIDE }
    ensures band { IsBand side result }
    ensures before { (x : ℕ) → x < side
        → in_band side result x ≡ in_band side band (after true (side - 1) x) }
{
    if band.first > 0 {
        return Band {
            first: band.first - 1,
            last: band.last - 1,
            outside: band.outside,
        };
    }
    if band.last + 1 == side {
        return band;
    }
    Band {
        first: band.last,
        last: side - 2,
        outside: !band.outside,
    }
}

// The coordinate before this one. Before the first coordinate of the side is the last.
pub fn one_before(x: u32, side: u32) -> u32
    requires x { x < side }
    ensures low { result < side }
    ensures next { after true (side - 1) result ≡ x }
{
    if x == 0 {
        return side - 1;
    }
    x - 1
}

// 1 if the first coordinate is in the band, and else 0.
pub fn first_bit(band: Band) -> u64
    ensures low { result < 2 ^ 1 }
    ensures bit { (side : ℕ) → IsBand side band → result ≡ bit (in_band side band 0) }
{
    if band.first == 0 {
        if band.outside {
            return 0;
        }
        return 1;
    }
    if band.outside {
        return 1;
    }
    0
}

// The test that a coordinate is this one.
pub fn equal_to(b: &mut Builder, x: Net, bits: u8, value: u32) -> Result<Net, OutOfMemory>
    requires { AreCompared b.old x bits value }
    ensures { WiresTest b.new b.old result 1 (x ∷ []) (λ s. net_value s x == value) }
{
    let same = number(bits, u64::from(value));
    let net = gate(b, Right::Binary(Operator::Equal, Atom::Net(x), same))?;
    Ok(net)
}

// The band's interval.
pub fn interval_of(band: Band) -> Band
    ensures { result ≡ record { first = band.first; last = band.last; outside = false } }
{
    Band {
        first: band.first,
        last: band.last,
        outside: false,
    }
}

// The test of a band from that of its interval.
pub fn turned(b: &mut Builder, test: Net, outside: bool) -> Result<Net, OutOfMemory>
    requires { HasOneBit b.old test }
    ensures { WiresFrom b.new b.old result 1 (test ∷ []) 1
        (λ s. if outside then 1 - net_value s test else net_value s test) }
{
    if outside {
        let net = negated(b, test)?;
        return Ok(net);
    }
    Ok(test)
}

// The test that passes where another one does not.
fn negated(b: &mut Builder, test: Net) -> Result<Net, OutOfMemory>
    requires { HasOneBit b.old test }
    ensures { WiresFrom b.new b.old result 1 (test ∷ []) 1 (λ s. 1 - net_value s test) }
{
    let net = gate(b, Right::Not(Atom::Net(test)))?;
    Ok(net)
}

// The test that a coordinate is in the interval. Equality has no carry, so it tests an interval of one coordinate.
fn interval_test(b: &mut Builder, x: Net, side: u32, band: Band) -> Result<Net, OutOfMemory>
    requires coordinate { IsCoordinate b.old side x }
    requires band { IsBand side band }
    ensures { WiresTest b.new b.old result 3 (x ∷ [])
        (λ s. in_interval side band.first band.last (net_value s x)) }
{
    if band.first == band.last {
        let net = equal_to(b, x, width_for(side), band.first)?;
        return Ok(net);
    }
    let interval = Interval {
        first: band.first,
        last: band.last,
    };
    let test = within(b, x, side, interval)?;
    let net = test_net(b, test)?;
    Ok(net)
}

// The test that a coordinate is in the band.
pub fn band_test(b: &mut Builder, x: Net, side: u32, band: Band) -> Result<Net, OutOfMemory>
    requires coordinate { IsCoordinate b.old side x }
    requires band { IsBand side band }
    ensures { WiresTest b.new b.old result band_levels (x ∷ [])
        (λ s. in_band side band (net_value s x)) }
{
    let net = interval_test(b, x, side, band)?;
    if !band.outside {
        return Ok(net);
    }
    let other = negated(b, net)?;
    Ok(other)
}
