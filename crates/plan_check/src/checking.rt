// Whether a report holds by its printed numbers.

ghost use Rattle.std.specs.Prelude.{◌≡◌, ◌≤◌, ◌<◌, ◌^◌, ℕ, length};
ghost use Rattle.dk_base.specs.declared.TheConstants.{MAX_SIDE};
ghost use Rattle.raster_delay.specs.Systems.{image_count};
ghost use Rattle.report_text.specs.Reports.{parts_of, Ascend};
ghost use Rattle.plan_check.specs.declared.verdict.Verdict.TheVariants as verdict;
ghost use Rattle.plan_check.specs.Numbering.{last_number};
ghost use Rattle.plan_check.specs.Holding.{ImageHolds, LatencyHolds, AreLeast, clocks_of};
ghost use Rattle.plan_check.specs.Judging.{Judges, NamesConstraint, Suits, number_rules};
ghost use Rattle.plan_check.specs.First.{IsFirstMiss};
ghost use Rattle.plan_check.specs.Rules.{UnlessBroken};
ghost use Rattle.plan_check.specs.Stages.{HasFewLines, HaveLines, SurroundsFlow, ImagesHold, LatenciesHold, TotalsHold};

use crate::flow::flow_holds;
use crate::lines::{has_constraint, image_holds, latency_holds};
use crate::numbering::{bits_line, clocks_line, size_line};
use crate::sums::{bits, greatest};
use crate::verdict::Verdict;
use raster_delay::System;
use report_text::{FlowLine, ImageLine, Report};

// The place of the first image line that is wrong.
fn wrong_image(system: &System, images: &[ImageLine]) -> Option<usize>
    requires count { length images.now ≡ image_count system.now }
    ensures { IsFirstMiss (ImageHolds system.now images.now) (length images.now) result }
{
    for k in 0..images.len() {
        if !image_holds(system, images, k) {
            return Some(k);
        }
    }
    None
}

// The place of the first latency line that is wrong.
fn wrong_latency(system: &System, images: &[ImageLine], latencies: &[u64]) -> Option<usize>
    requires { HaveLines system.now images.now latencies.now }
    ensures { IsFirstMiss (LatencyHolds system.now images.now latencies.now)
        (length latencies.now) result }
{
    for k in 0..latencies.len() {
        if !latency_holds(system, images, latencies, k) {
            return Some(k);
        }
    }
    None
}

// The place of the first flow line of no constraint.
fn wrong_constraint(system: &System, flow: &[FlowLine]) -> Option<usize>
    ensures { IsFirstMiss (NamesConstraint system.now flow.now) (length flow.now) result }
{
    for k in 0..flow.len() {
        if !has_constraint(system, flow[k]) {
            return Some(k);
        }
    }
    None
}

// A law: flow lines that ascend and name constraints are few, since there are few constraints.
fn few_lines_law(system: &System, flow: &[FlowLine])
    requires ascending { Ascend flow.now }
    requires constraints { (k : ℕ) → k < length flow.now → NamesConstraint system.now flow.now k }
    ensures { length flow.now ≤ 2 ^ 18 }
{
    system.law();
}

// How many lines are between that of the bits and the flow lines, and how many after those.
fn between(report: &Report) -> u64
    ensures { SurroundsFlow (parts_of report.now) result }
{
    if report.version == 1 { 0 } else { 1 }
}

// The number of the last line.
fn last_line(report: &Report) -> u64
    requires lines { HasFewLines (parts_of report.now) }
    requires few { length report.now.flow.items ≤ 2 ^ 32 }
    ensures { result ≡ last_number (parts_of report.now) }
{
    bits_line(report) + between(report) + report.flow.len() as u64 + between(report)
}

// How many lines of images and latencies there are.
fn counts(system: &System, report: &Report)
    requires { Suits system.now (parts_of report.now) }
    ensures { HasFewLines (parts_of report.now) }
{
    system.law();
}

// The first wrong line of an image.
fn faulty_image(system: &System, report: &Report) -> Option<u64>
    requires { Suits system.now (parts_of report.now) }
    ensures { UnlessBroken (number_rules system.now (parts_of report.now))
        (ImagesHold system.now (parts_of report.now)) result }
{
    counts(system, report);
    match wrong_image(system, &report.images) {
        None => None,
        Some(k) => Some(size_line(report) + 1 + k as u64),
    }
}

// The first wrong line of a latency, where none before them is wrong.
fn faulty_latency(system: &System, report: &Report) -> Option<u64>
    requires { ImagesHold system.now (parts_of report.now) }
    ensures { UnlessBroken (number_rules system.now (parts_of report.now))
        (LatenciesHold system.now (parts_of report.now)) result }
{
    counts(system, report);
    match wrong_latency(system, &report.images, &report.latencies) {
        None => None,
        Some(k) => Some(size_line(report) + report.images.len() as u64 + 1 + k as u64),
    }
}

// The clocks that follow from the printed size and latencies.
fn clocks(report: &Report) -> u128
    requires width { report.now.width ≤ MAX_SIDE }
    requires height { report.now.height ≤ MAX_SIDE }
    ensures { result ≡ clocks_of (parts_of report.now) }
{
    let pixels = u64::from(report.width) * u64::from(report.height);
    u128::from(pixels) + u128::from(greatest(&report.latencies))
}

// The line of the clocks or of the bits, where it is wrong and none before it is.
fn faulty_sum(system: &System, report: &Report) -> Option<u64>
    requires { LatenciesHold system.now (parts_of report.now) }
    ensures { UnlessBroken (number_rules system.now (parts_of report.now))
        (TotalsHold system.now (parts_of report.now)) result }
{
    system.law();
    counts(system, report);
    if u128::from(report.clocks) != clocks(report) {
        return Some(clocks_line(report));
    }
    if u128::from(report.bits) != bits(&report.images) {
        return Some(bits_line(report));
    }
    None
}

// The first flow line of no constraint, where none before the flow lines is wrong.
fn faulty_constraint(system: &System, report: &Report) -> Option<u64>
    requires { TotalsHold system.now (parts_of report.now) }
    ensures { UnlessBroken (number_rules system.now (parts_of report.now))
        ((k : ℕ) → k < length report.now.flow.items
        → NamesConstraint system.now report.now.flow.items k) result }
{
    counts(system, report);
    match wrong_constraint(system, &report.flow) {
        None => None,
        Some(k) => Some(bits_line(report) + between(report) + 1 + k as u64),
    }
}

/// Whether a report holds by its printed numbers, or its first wrong line. It takes no memory.
pub fn check(system: &System, report: &Report) -> Verdict
    requires { Suits system.now (parts_of report.now) }
    ensures judged { Judges system.now (parts_of report.now) result }
    ensures least { result ≡ verdict.Yes → AreLeast system.now (parts_of report.now) }
{
    system.law();
    counts(system, report);
    match faulty_image(system, report) {
        None => {}
        Some(line) => return Verdict::No { line },
    }
    match faulty_latency(system, report) {
        None => {}
        Some(line) => return Verdict::No { line },
    }
    match faulty_sum(system, report) {
        None => {}
        Some(line) => return Verdict::No { line },
    }
    match faulty_constraint(system, report) {
        None => {}
        Some(line) => return Verdict::No { line },
    }
    few_lines_law(system, &report.flow);
    if flow_holds(system, &report.flow, report.bits) {
        Verdict::Yes
    } else {
        Verdict::No {
            line: last_line(report),
        }
    }
}
