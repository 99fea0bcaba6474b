// The lines of the flow: a line for each constraint that carries some, in the order of the constraints.

ghost use Rattle.std.specs.Prelude.{◌≡◌, ◌+◌, ◌++◌, ◌≤◌, [], ◌∷◌, length, map, nat_eq, if◌then◌else◌, IfOk, OnOk};
ghost use Rattle.dk_base.specs.declared.TheConstants.{MAX_KEPT_IMAGES};
ghost use Rattle.std.specs.List.{range_with_len};
ghost use Rattle.raster_delay.specs.Systems.{constraints_in};
ghost use Rattle.plan_check.specs.Flows.{makers, carried};
ghost use Rattle.plan_check.specs.Sums.{hold_maker, start_maker, read_maker, keep_maker};

use dk_base::OutOfMemory;
use raster_delay::{PlacedRead, System};
use report_text::FlowLine;
use std::alloc::Global;

// The line, where it carries flow.
fn push_line(lines: &mut Vec<FlowLine>, line: FlowLine, flow: u64) -> Result<(), OutOfMemory>
    ensures { OnOk result (lines.new.items ≡ lines.old.items ++ (if nat_eq flow 0 then [] else line ∷ [])) }
{
    if flow == 0 {
        return Ok(());
    }
    lines.push(line)?;
    Ok(())
}

// The lines of kind hold.
fn push_holds(lines: &mut Vec<FlowLine>, flow: &[u64]) -> Result<(), OutOfMemory>
    ensures { OnOk result (lines.new.items ≡ lines.old.items ++ carried (map hold_maker (range_with_len 0 (length flow.now))) flow.now) }
{
    for image in 0..flow.len() {
        let amount = flow[image];
        let line = FlowLine::Hold {
            image,
            flow: amount,
        };
        push_line(lines, line, amount)?;
    }
    Ok(())
}

// The lines of kind start, of the images from this place on.
fn push_starts(lines: &mut Vec<FlowLine>, first: usize, flow: &[u64]) -> Result<(), OutOfMemory>
    requires { first + length flow.now ≤ MAX_KEPT_IMAGES }
    ensures { OnOk result (lines.new.items ≡ lines.old.items ++ carried (map start_maker (range_with_len first (length flow.now))) flow.now) }
{
    for k in 0..flow.len() {
        let amount = flow[k];
        let line = FlowLine::Start {
            image: first + k,
            flow: amount,
        };
        push_line(lines, line, amount)?;
    }
    Ok(())
}

// The line of kind read.
fn read_line(read: PlacedRead, flow: u64) -> FlowLine
    ensures { result ≡ read_maker read flow }
{
    FlowLine::Read {
        reader: read.f,
        source: read.g,
        dx: read.dx,
        dy: read.dy,
        flow,
    }
}

// The line of kind keep.
fn keep_line(read: PlacedRead, flow: u64) -> FlowLine
    ensures { result ≡ keep_maker read flow }
{
    FlowLine::Keep {
        reader: read.f,
        source: read.g,
        dx: read.dx,
        dy: read.dy,
        flow,
    }
}

// The lines of kind read.
fn push_reads(
    lines: &mut Vec<FlowLine>,
    reads: &[PlacedRead],
    flow: &[u64],
) -> Result<(), OutOfMemory>
    requires { length flow.now ≡ length reads.now }
    ensures { OnOk result (lines.new.items ≡ lines.old.items ++ carried (map read_maker reads.now) flow.now) }
{
    for k in 0..reads.len() {
        push_line(lines, read_line(reads[k], flow[k]), flow[k])?;
    }
    Ok(())
}

// The lines of kind keep.
fn push_keeps(
    lines: &mut Vec<FlowLine>,
    reads: &[PlacedRead],
    flow: &[u64],
) -> Result<(), OutOfMemory>
    requires { length flow.now ≡ length reads.now }
    ensures { OnOk result (lines.new.items ≡ lines.old.items ++ carried (map keep_maker reads.now) flow.now) }
{
    for k in 0..reads.len() {
        push_line(lines, keep_line(reads[k], flow[k]), flow[k])?;
    }
    Ok(())
}

// The lines of the flow.
pub fn flow_lines(
    alloc: Global,
    system: &System,
    flow: &[u64],
) -> Result<Vec<FlowLine>, OutOfMemory>
    requires { length flow.now ≡ length (constraints_in system.now) }
    ensures { IfOk result (λ lines. lines.items ≡ carried (makers system.now) flow.now) }
{
    system.law();
    let images = system.images().len();
    let reads = system.placed_reads();
    let (holds, rest) = flow.split_at(images);
    let (starts, rest) = rest.split_at(images - system.inputs());
    let (of_reads, of_keeps) = rest.split_at(reads.len());
    let mut lines = Vec::new(alloc);
    push_holds(&mut lines, holds)?;
    push_starts(&mut lines, system.inputs(), starts)?;
    push_reads(&mut lines, reads, of_reads)?;
    push_keeps(&mut lines, reads, of_keeps)?;
    Ok(lines)
}
