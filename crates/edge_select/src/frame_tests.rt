// Tests of the pixels of a module, for each delay: one pair of counters, and registers of one bit.

ghost use Rattle.std.specs.Prelude.{[], ◌∷◌, ◌≡◌, ◌<◌, ◌-◌, ◌==◌, true, IsTrue, Contains, IfOk, IfSome, IfNone, OnOk};
ghost use Rattle.dk_base.specs.FrameSizes.{size_of};
ghost use Rattle.net_build.specs.Counters.{after};
ghost use Rattle.net_build.specs.Depth.{IsOver};
ghost use Rattle.frame_paths.specs.Moves.{IsInterval};
ghost use Rattle.edge_select.specs.Steps.{LeadBy, LeadOn};
ghost use Rattle.edge_select.specs.Bands.{is_new_row_in, is_next_in};
ghost use Rattle.edge_select.specs.Logic.{WiresOver};
ghost use Rattle.edge_select.specs.MadeTests.{AddsBit, AreNoTests, HasColumnTest, HasColumns, HasCounters, HasRowTest, HasRows, MakesAcross, MakesDown, MakesFrameTest, MakesStart};
ghost use Rattle.edge_select.specs.Passes.{IsRectangle, Passes, PassesOn};
ghost use Rattle.edge_select.specs.FrameTests.{band_levels, AreCounters, IsColumnTest, IsRowTest, AreFrameTests, IsTested, IsTestOf, HasNone};

use crate::bands::{
    Band, band_test, before, equal_to, first_bit, interval_of, moved, one_before, same_band, turned,
};
use crate::counters::{Counters, counted};
use crate::extents::is_whole;
use crate::frame_conditions::{both, constant_test, test_net};
use crate::paths::{Rectangle, leading_pixels, passing_pixels};
use crate::pixel::width_for;
use crate::registers::register_of;
use crate::starts::started_by;
use crate::step::Step;
use dk_base::{FrameSize, OutOfMemory};
use frame_paths::Interval;
use net_build::{Builder, started};
use std::alloc::Global;
use wiring::Net;

// A register that tests columns or rows. One of rows is loaded where the next column is `start`.
#[derive(Clone, Copy)]
pub struct Test {
    pub start: u32,
    pub band: Band,
    pub net: Net,
}

/// The frame tests of a module: one pair of counters, which is made where it is first needed, and a register of one bit for each distinct test of columns or of rows.
#[derive(Drop)]
pub struct FrameTests {
    pub size: FrameSize,
    counters: Option<Counters>,
    columns: Vec<Test>,
    rows: Vec<Test>,
}

// The test of the next column, by the present one. A register that takes it tests the column of its own clock.
fn next_column_test(b: &mut Builder, k: &Counters, band: Band) -> Result<Net, OutOfMemory>
    requires { HasColumns b.old k.now band }
    ensures { WiresOver b.new b.old result (IsTestOf b.new b.old k.now.pixel.size.width
        (is_next_in k.now.pixel.size.width band) k.now.pixel.column)
        (IsOver b.new b.old band_levels (k.now.pixel.column ∷ [])) }
{
    let earlier = before(band, k.pixel.size.width);
    let net = band_test(b, k.pixel.column, k.pixel.size.width, earlier)?;
    Ok(net)
}

// The test that the next column is `start`, by the present one.
fn starts(b: &mut Builder, k: &Counters, start: u32) -> Result<Net, OutOfMemory>
    requires counters { AreCounters b.old (size_of k.now.pixel.size) k.now }
    requires start { start < k.now.pixel.size.width }
    ensures { WiresOver b.new b.old result (IsTestOf b.new b.old k.now.pixel.size.width
        (λ x. after true (k.now.pixel.size.width - 1) x == start) k.now.pixel.column)
        (IsOver b.new b.old 1 (k.now.pixel.column ∷ [])) }
{
    let bits = width_for(k.pixel.size.width);
    let earlier = one_before(start, k.pixel.size.width);
    let net = equal_to(b, k.pixel.column, bits, earlier)?;
    Ok(net)
}

// The test of the next row where the next column is `start`, by the present row. The row changes where the next column is the first.
fn next_row_test(b: &mut Builder, k: &Counters, start: u32, band: Band) -> Result<Net, OutOfMemory>
    requires { HasRows b.old k.now start band }
    ensures { WiresOver b.new b.old result (IsTestOf b.new b.old k.now.pixel.size.height
        (is_new_row_in k.now.pixel.size.height start band) k.now.pixel.row)
        (IsOver b.new b.old band_levels (k.now.pixel.row ∷ [])) }
{
    if start == 0 {
        let earlier = before(band, k.pixel.size.height);
        let net = band_test(b, k.pixel.row, k.pixel.size.height, earlier)?;
        return Ok(net);
    }
    let net = band_test(b, k.pixel.row, k.pixel.size.height, band)?;
    Ok(net)
}

// A register that tests the column.
fn column_register(b: &mut Builder, k: &Counters, band: Band) -> Result<Net, OutOfMemory>
    requires { HasColumns b.old k.now band }
    ensures register { OnOk result (AddsBit b.new b.old k.now) }
    ensures test { IfOk result (λ n. IsColumnTest b.new (size_of k.now.pixel.size)
        (record { start = 0; band = band; net = n })) }
{
    let test = next_column_test(b, k, band)?;
    let net = register_of(b, None, first_bit(band), test)?;
    Ok(net)
}

// A register that tests the row, of the pixel that came this many columns ago.
fn row_register(b: &mut Builder, k: &Counters, start: u32, band: Band) -> Result<Net, OutOfMemory>
    requires { HasRows b.old k.now start band }
    ensures register { OnOk result (AddsBit b.new b.old k.now) }
    ensures test { IfOk result (λ n. IsRowTest b.new (size_of k.now.pixel.size)
        (record { start = start; band = band; net = n })) }
{
    let begins = starts(b, k, start)?;
    let test = next_row_test(b, k, start, band)?;
    let net = register_of(b, Some(begins), first_bit(band), test)?;
    Ok(net)
}

// Whether a test has this start and this band.
fn is_same_test(test: Test, start: u32, band: Band) -> bool
    ensures yes { IsTrue result → (test.start ≡ start) × (test.band ≡ band) }
    ensures no { test.start ≡ start → test.band ≡ band → IsTrue result }
{
    if test.start != start {
        return false;
    }
    same_band(test.band, band)
}

// The register of a test that is there.
fn test_in(tests: &[Test], start: u32, band: Band) -> Option<Net>
    ensures found { IfSome result (λ n. Contains tests.now
        (record { start = start; band = band; net = n })) }
    ensures none { IfNone result (HasNone tests.now start band) }
{
    for k in 0..tests.len() {
        let test = tests[k];
        if is_same_test(test, start, band) {
            return Some(test.net);
        }
    }
    None
}

// The counters, which are made where they are first needed.
fn counters_of(b: &mut Builder, tests: &FrameTests) -> Result<Counters, OutOfMemory>
    requires tests { AreFrameTests b.old (size_of tests.now.size) tests.now }
    ensures { IfOk result (HasCounters b.new b.old (size_of tests.now.size) tests.now.counters) }
{
    match tests.counters {
        Some(counters) => Ok(counters),
        None => {
            let size = tests.size;
            let counters = counted(b, 0, size.width, size.height)?;
            Ok(counters)
        }
    }
}

// The register that tests the column.
fn column_test(b: &mut Builder, tests: &mut FrameTests, band: Band) -> Result<Net, OutOfMemory>
    requires tests { AreFrameTests b.old (size_of tests.old.size) tests.old }
    requires band { IsTested tests.old.size.width band }
    ensures { IfOk result
        (HasColumnTest b.new b.old (size_of tests.old.size) band tests.new tests.old) }
{
    if let Some(net) = test_in(&tests.columns, 0, band) {
        return Ok(net);
    }
    let counters = counters_of(b, tests)?;
    let net = column_register(b, &counters, band)?;
    tests.columns.push(Test {
        start: 0,
        band,
        net,
    })?;
    tests.counters = Some(counters);
    Ok(net)
}

// The register that tests the row of the pixel that came this many columns ago.
fn row_test(
    b: &mut Builder,
    tests: &mut FrameTests,
    start: u32,
    band: Band,
) -> Result<Net, OutOfMemory>
    requires tests { AreFrameTests b.old (size_of tests.old.size) tests.old }
    requires start { start < tests.old.size.width }
    requires band { IsTested tests.old.size.height band }
    ensures { IfOk result
        (HasRowTest b.new b.old (size_of tests.old.size) start band tests.new tests.old) }
{
    if let Some(net) = test_in(&tests.rows, start, band) {
        return Ok(net);
    }
    let counters = counters_of(b, tests)?;
    let net = row_register(b, &counters, start, band)?;
    tests.rows.push(Test { start, band, net })?;
    tests.counters = Some(counters);
    Ok(net)
}

// The test that the column is in the interval, or None where each is.
fn across_test(
    b: &mut Builder,
    tests: &mut FrameTests,
    delay: u64,
    interval: Interval,
) -> Result<Option<Net>, OutOfMemory>
    requires tests { AreFrameTests b.old (size_of tests.old.size) tests.old }
    requires interval { IsInterval tests.old.size.width interval }
    ensures { IfOk result
        (MakesAcross b.new b.old (size_of tests.old.size) delay interval tests.new tests.old) }
{
    let side = tests.size.width;
    if is_whole(interval, side) {
        return Ok(None);
    }
    let shift = (delay % u64::from(side)) as u32;
    let band = moved(interval, shift, side);
    let test = column_test(b, tests, interval_of(band))?;
    let net = turned(b, test, band.outside)?;
    Ok(Some(net))
}

// The test that the row is in the interval, or None where each is.
fn down_test(
    b: &mut Builder,
    tests: &mut FrameTests,
    delay: u64,
    interval: Interval,
) -> Result<Option<Net>, OutOfMemory>
    requires tests { AreFrameTests b.old (size_of tests.old.size) tests.old }
    requires interval { IsInterval tests.old.size.height interval }
    ensures { IfOk result
        (MakesDown b.new b.old (size_of tests.old.size) delay interval tests.new tests.old) }
{
    let size = tests.size;
    if is_whole(interval, size.height) {
        return Ok(None);
    }
    let width = u64::from(size.width);
    let start = (delay % width) as u32;
    let shift = (delay / width % u64::from(size.height)) as u32;
    let band = moved(interval, shift, size.height);
    let test = row_test(b, tests, start, interval_of(band))?;
    let net = turned(b, test, band.outside)?;
    Ok(Some(net))
}

// The test that the pixel is in one of these columns and in one of these rows.
fn rectangle_of(
    b: &mut Builder,
    tests: &mut FrameTests,
    delay: u64,
    rectangle: Rectangle,
) -> Result<Net, OutOfMemory>
    requires tests { AreFrameTests b.old (size_of tests.old.size) tests.old }
    requires rectangle { IsRectangle (size_of tests.old.size) rectangle }
    ensures { IfOk result (MakesFrameTest b.new b.old (size_of tests.old.size) delay
        (Passes rectangle) tests.new tests.old) }
{
    let across = across_test(b, tests, delay, rectangle.across)?;
    let down = down_test(b, tests, delay, rectangle.down)?;
    let test = both(b, across, down)?;
    let net = test_net(b, test)?;
    Ok(net)
}

// The test of such pixels, or the one that none passes.
fn test_of(
    b: &mut Builder,
    tests: &mut FrameTests,
    delay: u64,
    rectangle: Option<Rectangle>,
) -> Result<Net, OutOfMemory>
    requires tests { AreFrameTests b.old (size_of tests.old.size) tests.old }
    requires rectangle { IfSome rectangle (λ r. IsRectangle (size_of tests.old.size) r) }
    ensures { IfOk result (MakesFrameTest b.new b.old (size_of tests.old.size) delay
        (PassesOn rectangle) tests.new tests.old) }
{
    match rectangle {
        Some(rectangle) => {
            let net = rectangle_of(b, tests, delay, rectangle)?;
            Ok(net)
        }
        None => {
            let net = constant_test(b, false)?;
            Ok(net)
        }
    }
}

impl FrameTests {
    /// No counters and no tests, for frames of this size.
    pub fn new(alloc: Global, size: FrameSize) -> FrameTests
        ensures none { AreNoTests (size_of size) result }
        ensures size { result.size ≡ size }
    {
        FrameTests {
            size,
            counters: None,
            columns: Vec::new(alloc),
            rows: Vec::new(alloc),
        }
    }

    /// The test that the pixel that came `delay` counted clocks ago passes exactly where the steps lead from it to the point that is `dx` columns to the right and `dy` rows down.
    pub fn at(
        &mut self,
        b: &mut Builder,
        delay: u64,
        steps: &[Step],
        dx: i32,
        dy: i32,
    ) -> Result<Net, OutOfMemory>
        requires tests { AreFrameTests b.old (size_of self.old.size) self.old }
        ensures { IfOk result (MakesFrameTest b.new b.old (size_of self.old.size) delay
            (LeadBy (size_of self.old.size) steps.now dx dy) self.new self.old) }
    {
        let rectangle = passing_pixels(steps, self.size, dx, dy);
        let net = test_of(b, self, delay, rectangle)?;
        Ok(net)
    }

    /// The test that the pixel that came `delay` counted clocks ago passes exactly where the steps lead from it somewhere, each step that is not clamped to a point in the frame.
    pub fn leads(&mut self, b: &mut Builder, delay: u64, steps: &[Step]) -> Result<Net, OutOfMemory>
        requires tests { AreFrameTests b.old (size_of self.old.size) self.old }
        ensures { IfOk result (MakesFrameTest b.new b.old (size_of self.old.size) delay
            (LeadOn (size_of self.old.size) steps.now) self.new self.old) }
    {
        let rectangle = leading_pixels(steps, self.size);
        let net = test_of(b, self, delay, rectangle)?;
        Ok(net)
    }

    /// A net that is whether `last` clocks were counted since a reset. It is 0 in a reset clock. Where there are counters, and the first frame has that many pixels, it uses one register of one bit. Else it is `net_build::started`.
    pub fn started(&self, b: &mut Builder, last: u64) -> Result<Net, OutOfMemory>
        requires tests { AreFrameTests b.old (size_of self.now.size) self.now }
        ensures tests { OnOk result (AreFrameTests b.new (size_of self.now.size) self.now) }
        ensures start { IfOk result
            (MakesStart b.new b.old (size_of self.now.size) self.now.counters last) }
    {
        match self.counters {
            Some(counters) => {
                let net = started_by(b, &counters, last)?;
                Ok(net)
            }
            None => {
                let net = started(b, last)?;
                Ok(net)
            }
        }
    }
}
