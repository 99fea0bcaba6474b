// What a line makes of the report so far.

ghost use Rattle.std.specs.Prelude.{◌≡◌, Some, None, IfOk};
ghost use Rattle.report_text.specs.Reports.{parts_of, most_images as images_for, most_latencies as latencies_for};
ghost use Rattle.report_text.specs.Reading.{or_else, next, planned, aged, sized, imaged, delayed, counted, flowing, ended};
ghost use Rattle.report_text.specs.Steps.{Does, clocked};

use crate::field::{find, image_parts, number_line, owned, pair_line};
use crate::flow::{flow_line, may_follow};
use crate::report::Report;
use crate::word::same;
use dk_base::{MAX_AGE, MAX_DEFINITIONS, MAX_KEPT_IMAGES, MAX_OUTPUTS, MAX_SIDE, OutOfMemory};
use std::alloc::Global;

// The greatest width and the greatest height of a frame.
const SIDE: u64 = MAX_SIDE as u64;

// Which kind of line was read last.
#[derive(Clone, Copy)]
pub(crate) enum Stage {
    Start,
    Plan,
    Limits,
    Age,
    Size,
    Images,
    Latencies,
    Clocks,
    Bits,
    Reads,
    Flow,
    End,
}

// Each of these answers the kind of the line, or None if the line is none of that kind that may come here; the report then has its values too.

fn plan(report: &mut Report, line: &[u8]) -> Option<Stage>
    ensures { Does (planned (parts_of report.old) line.now) (parts_of report.old) result (parts_of report.new) }
{
    let version = number_line(b"plan ", line)?;
    if version == 2 || version == 3 {
        report.version = version as u8;
        return Some(Stage::Plan);
    }
    None
}

fn limits(report: &mut Report, line: &[u8]) -> Option<Stage>
    ensures { Does (next Stage.Plan (parts_of report.old) line.now) (parts_of report.old) result (parts_of report.new) }
{
    let (bits, latency) = pair_line(b"limits ", line)?;
    report.limits.bits = bits;
    report.limits.latency = latency;
    Some(Stage::Limits)
}

fn age(report: &mut Report, line: &[u8]) -> Option<Stage>
    ensures { Does (aged (parts_of report.old) line.now) (parts_of report.old) result (parts_of report.new) }
{
    let age = number_line(b"age ", line)?;
    if age > MAX_AGE {
        return None;
    }
    report.age = age as u8;
    Some(Stage::Age)
}

fn size(report: &mut Report, line: &[u8]) -> Option<Stage>
    ensures { Does (sized (parts_of report.old) line.now) (parts_of report.old) result (parts_of report.new) }
{
    let (width, height) = pair_line(b"size ", line)?;
    if width == 0 || width > SIDE || height == 0 || height > SIDE {
        return None;
    }
    report.width = width as u32;
    report.height = height as u32;
    Some(Stage::Size)
}

fn most_images(version: u8) -> usize
    ensures { result ≡ images_for version }
{
    if version == 3 {
        MAX_KEPT_IMAGES
    } else {
        MAX_DEFINITIONS + 1
    }
}

fn most_latencies(version: u8) -> usize
    ensures { result ≡ latencies_for version }
{
    if version == 3 { MAX_OUTPUTS } else { 1 }
}

fn image(alloc: Global, report: &mut Report, line: &[u8]) -> Result<Option<Stage>, OutOfMemory>
    ensures { IfOk result (λ stage. Does (imaged (parts_of report.old) line.now) (parts_of report.old) stage (parts_of report.new)) }
{
    let Some(parts) = image_parts(line) else {
        return Ok(None);
    };
    if report.images.len() >= most_images(report.version) {
        return Ok(None);
    }
    match find(&report.images, parts.name) {
        Some(_) => Ok(None),
        None => {
            report.images.push(owned(alloc, &parts)?)?;
            Ok(Some(Stage::Images))
        }
    }
}

fn latency(report: &mut Report, line: &[u8]) -> Result<Option<Stage>, OutOfMemory>
    ensures { IfOk result (λ stage. Does (delayed (parts_of report.old) line.now) (parts_of report.old) stage (parts_of report.new)) }
{
    let Some(clocks) = number_line(b"latency ", line) else {
        return Ok(None);
    };
    if report.latencies.len() >= most_latencies(report.version) {
        return Ok(None);
    }
    report.latencies.push(clocks)?;
    Ok(Some(Stage::Latencies))
}

fn clocks(report: &mut Report, line: &[u8]) -> Option<Stage>
    ensures { Does (clocked (parts_of report.old) line.now) (parts_of report.old) result (parts_of report.new) }
{
    report.clocks = number_line(b"clocks ", line)?;
    Some(Stage::Clocks)
}

fn bits(report: &mut Report, line: &[u8]) -> Option<Stage>
    ensures { Does (next Stage.Clocks (parts_of report.old) line.now) (parts_of report.old) result (parts_of report.new) }
{
    report.bits = number_line(b"bits ", line)?;
    Some(Stage::Bits)
}

fn reads(report: &mut Report, line: &[u8]) -> Option<Stage>
    ensures { Does (counted (parts_of report.old) line.now) (parts_of report.old) result (parts_of report.new) }
{
    report.reads = number_line(b"reads ", line)?;
    Some(Stage::Reads)
}

fn flow(report: &mut Report, line: &[u8]) -> Result<Option<Stage>, OutOfMemory>
    ensures { IfOk result (λ stage. Does (flowing (parts_of report.old) line.now) (parts_of report.old) stage (parts_of report.new)) }
{
    let Some(found) = flow_line(&report.images, line) else {
        return Ok(None);
    };
    if !may_follow(&report.flow, found) {
        return Ok(None);
    }
    report.flow.push(found)?;
    Ok(Some(Stage::Flow))
}

fn ending(report: &Report, line: &[u8]) -> Option<Stage>
    ensures { Does (ended (parts_of report.now) line.now) (parts_of report.now) result (parts_of report.now) }
{
    if same(line, b"end\n") && report.version != 1 {
        Some(Stage::End)
    } else {
        None
    }
}

fn plan_or_size(report: &mut Report, line: &[u8]) -> Option<Stage>
    ensures { Does (next Stage.Start (parts_of report.old) line.now) (parts_of report.old) result (parts_of report.new) }
{
    match plan(report, line) {
        Some(stage) => Some(stage),
        None => size(report, line),
    }
}

fn image_or_latency(
    alloc: Global,
    report: &mut Report,
    line: &[u8],
) -> Result<Option<Stage>, OutOfMemory>
    ensures { IfOk result (λ stage. Does (next Stage.Images (parts_of report.old) line.now) (parts_of report.old) stage (parts_of report.new)) }
{
    match image(alloc, report, line)? {
        Some(stage) => Ok(Some(stage)),
        None => latency(report, line),
    }
}

fn latency_or_clocks(report: &mut Report, line: &[u8]) -> Result<Option<Stage>, OutOfMemory>
    ensures { IfOk result (λ stage. Does (next Stage.Latencies (parts_of report.old) line.now) (parts_of report.old) stage (parts_of report.new)) }
{
    match latency(report, line)? {
        Some(stage) => Ok(Some(stage)),
        None => Ok(clocks(report, line)),
    }
}

fn flow_or_reads(report: &mut Report, line: &[u8]) -> Result<Option<Stage>, OutOfMemory>
    ensures { IfOk result (λ stage. Does (next Stage.Bits (parts_of report.old) line.now) (parts_of report.old) stage (parts_of report.new)) }
{
    if report.version == 1 {
        flow(report, line)
    } else {
        Ok(reads(report, line))
    }
}

fn flow_or_end(report: &mut Report, line: &[u8]) -> Result<Option<Stage>, OutOfMemory>
    ensures { IfOk result (λ stage. Does (or_else (flowing (parts_of report.old) line.now) (ended (parts_of report.old) line.now))
        (parts_of report.old) stage (parts_of report.new)) }
{
    match flow(report, line)? {
        Some(stage) => Ok(Some(stage)),
        None => Ok(ending(report, line)),
    }
}

// The kind of a line after one of this kind, with its values put into the report; None where the line continues no report.
pub(crate) fn step(
    alloc: Global,
    report: &mut Report,
    stage: Stage,
    line: &[u8],
) -> Result<Option<Stage>, OutOfMemory>
    ensures { IfOk result (λ new. Does (next stage (parts_of report.old) line.now) (parts_of report.old) new (parts_of report.new)) }
{
    match stage {
        Stage::Start => Ok(plan_or_size(report, line)),
        Stage::Plan => Ok(limits(report, line)),
        Stage::Limits => Ok(age(report, line)),
        Stage::Age => Ok(size(report, line)),
        Stage::Size => image(alloc, report, line),
        Stage::Images => image_or_latency(alloc, report, line),
        Stage::Latencies => latency_or_clocks(report, line),
        Stage::Clocks => Ok(bits(report, line)),
        Stage::Bits => flow_or_reads(report, line),
        Stage::Reads => flow_or_end(report, line),
        Stage::Flow => flow_or_end(report, line),
        Stage::End => Ok(None),
    }
}
