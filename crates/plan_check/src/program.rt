// Whether the lines of a report are those of a program.

ghost use Rattle.std.specs.Prelude.{◌≡◌, ◌<◌, ◌↔◌, [], length, slice_index_or, IsTrue};
ghost use Rattle.pointwise_ir.specs.Programs.{names_of};
ghost use Rattle.report_text.specs.Reports.{Meets, parts_of};
ghost use Rattle.plan_check.specs.Program.{AreNamed, IsNamed, IsOfSize, IsOfCounts, HasReads, program_rules};
ghost use Rattle.plan_check.specs.First.{IsFirstMiss};
ghost use Rattle.plan_check.specs.Rules.{UnlessBroken, IsFirstBroken};
ghost use Rattle.plan_check.specs.Stages.{HasFewLines, NamesHold, CountsHold};

use crate::numbering::{bits_line, clocks_line, size_line};
use dk_base::Stencils;
use pointwise_ir::Program;
use raster_delay::System;
use report_text::{ImageLine, Report};

// The name of an image.
fn name_of(ir: &Program, number: usize) -> &[u8]
    requires { number < length (names_of ir.now) }
    ensures { result.now ≡ slice_index_or (names_of ir.now) number [] }
{
    let inputs = ir.inputs();
    if number < inputs.len() {
        inputs[number].name.as_bytes()
    } else {
        ir.images()[number - inputs.len()].name.as_bytes()
    }
}

fn is_same(a: &[u8], b: &[u8]) -> bool
    ensures { IsTrue result ↔ (a.now ≡ b.now) }
{
    a == b
}

// Whether the image line at a place is that of the program's kept image there.
fn is_named(ir: &Program, stencils: &Stencils, images: &[ImageLine], k: usize) -> bool
    requires place { k < length images.now }
    requires images { AreNamed (names_of ir.now) stencils.now.images }
    ensures { IsTrue result ↔ IsNamed (names_of ir.now) stencils.now images.now k }
{
    let kept = stencils.images();
    if k >= kept.len() {
        return false;
    }
    if images[k].width != kept[k].width {
        return false;
    }
    is_same(
        images[k].name.as_bytes(),
        name_of(ir, kept[k].number as usize),
    )
}

// The place of the first image line that is not.
fn unnamed(ir: &Program, stencils: &Stencils, images: &[ImageLine]) -> Option<usize>
    requires { AreNamed (names_of ir.now) stencils.now.images }
    ensures { IsFirstMiss (IsNamed (names_of ir.now) stencils.now images.now)
        (length images.now) result }
{
    for k in 0..images.len() {
        if !is_named(ir, stencils, images, k) {
            return Some(k);
        }
    }
    None
}

// Whether the frame's size is that of the program.
fn is_of_size(stencils: &Stencils, report: &Report) -> bool
    ensures { IsTrue result ↔ IsOfSize stencils.now (parts_of report.now) }
{
    if report.width != stencils.width() {
        return false;
    }
    report.height == stencils.height()
}

// Whether there are as many image lines and latency lines as kept images and outputs.
pub(crate) fn is_of_counts(system: &System, report: &Report) -> bool
    ensures { IsTrue result ↔ IsOfCounts system.now.stencils (parts_of report.now) }
{
    if report.images.len() != system.images().len() {
        return false;
    }
    report.latencies.len() == system.outputs().len()
}

// The line of the size or of an image, where it is wrong by the program and none before it is.
fn foreign_image(ir: &Program, stencils: &Stencils, report: &Report) -> Option<u64>
    requires images { AreNamed (names_of ir.now) stencils.now.images }
    requires few { HasFewLines (parts_of report.now) }
    ensures { UnlessBroken (program_rules (names_of ir.now) stencils.now (parts_of report.now))
        (NamesHold (names_of ir.now) stencils.now (parts_of report.now)) result }
{
    if !is_of_size(stencils, report) {
        return Some(size_line(report));
    }
    match unnamed(ir, stencils, &report.images) {
        None => None,
        Some(k) => Some(size_line(report) + 1 + k as u64),
    }
}

// The line at which there are too few images or too many latencies, where none before it is wrong by the program.
fn foreign_latency(ir: &Program, stencils: &Stencils, report: &Report) -> Option<u64>
    requires { NamesHold (names_of ir.now) stencils.now (parts_of report.now) }
    ensures { UnlessBroken (program_rules (names_of ir.now) stencils.now (parts_of report.now))
        (CountsHold (names_of ir.now) stencils.now (parts_of report.now)) result }
{
    let first = size_line(report) + report.images.len() as u64 + 1;
    if report.images.len() < stencils.images().len() {
        return Some(first);
    }
    if report.latencies.len() > stencils.outputs().len() {
        return Some(first + stencils.outputs().len() as u64);
    }
    None
}

// Whether the number of live reads is that of the program, where the version has it.
fn has_reads(stencils: &Stencils, report: &Report) -> bool
    ensures { IsTrue result ↔ HasReads stencils.now (parts_of report.now) }
{
    if report.version == 1 {
        return true;
    }
    report.reads == stencils.reads().len() as u64
}

// The line of the clocks where there are too few latencies, or of the reads, where it is wrong by the program and none before it is.
fn foreign_sum(ir: &Program, stencils: &Stencils, report: &Report) -> Option<u64>
    requires { CountsHold (names_of ir.now) stencils.now (parts_of report.now) }
    ensures { IsFirstBroken (program_rules (names_of ir.now) stencils.now (parts_of report.now))
        result }
{
    if report.latencies.len() < stencils.outputs().len() {
        return Some(clocks_line(report));
    }
    if !has_reads(stencils, report) {
        return Some(bits_line(report) + 1);
    }
    None
}

// How many lines of images and latencies there are at most.
fn most_lines_law(report: &Report)
    requires { Meets (parts_of report.now) }
    ensures { HasFewLines (parts_of report.now) }
{}

// The first line that is wrong by the program.
pub(crate) fn foreign_line(ir: &Program, stencils: &Stencils, report: &Report) -> Option<u64>
    requires meets { Meets (parts_of report.now) }
    requires images { AreNamed (names_of ir.now) stencils.now.images }
    ensures { IsFirstBroken (program_rules (names_of ir.now) stencils.now (parts_of report.now))
        result }
{
    most_lines_law(report);
    match foreign_image(ir, stencils, report) {
        None => {}
        Some(line) => return Some(line),
    }
    match foreign_latency(ir, stencils, report) {
        None => {}
        Some(line) => return Some(line),
    }
    foreign_sum(ir, stencils, report)
}
