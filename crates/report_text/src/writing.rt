// The text of a report.

ghost use Rattle.std.specs.Prelude.{◌≡◌, ◌++◌, [], ◌∷◌, IfOk, OnOk, map, decimal, codes};
ghost use Rattle.std.specs.Fmt.{signed_decimal};
ghost use Rattle.report_text.specs.Reports.{parts_of};
ghost use Rattle.report_text.specs.Layout.{name_at, number_line, pair_line, image_flow, image_line, latency_line, flow_line, size_line, clocks_line, bits_line, reads_line, end_line, head_lines, unless_first, joined, layout};

use crate::report::{FlowLine, ImageLine, Report};
use dk_base::OutOfMemory;
use itoa::Buffer;
use std::alloc::Global;

// The bytes that are kept ready for a line.
const LINE_BYTES: usize = 40;

fn push_number(out: &mut Vec<u8>, number: u64) -> Result<(), OutOfMemory>
    ensures { OnOk result (out.new.items ≡ out.old.items ++ decimal number) }
{
    let mut digits = Buffer::new();
    out.extend_from_slice(digits.format(number).as_bytes())?;
    Ok(())
}

fn push_signed(out: &mut Vec<u8>, number: i32) -> Result<(), OutOfMemory>
    ensures { OnOk result (out.new.items ≡ out.old.items ++ signed_decimal number) }
{
    let mut digits = Buffer::new();
    out.extend_from_slice(digits.format(number).as_bytes())?;
    Ok(())
}

// A word with a blank after it, and a number.
fn push_number_line(out: &mut Vec<u8>, word: &[u8], number: u64) -> Result<(), OutOfMemory>
    ensures { OnOk result (out.new.items ≡ out.old.items ++ number_line word.now number) }
{
    out.extend_from_slice(word)?;
    push_number(out, number)?;
    out.extend_from_slice(b"\n")?;
    Ok(())
}

// A word with a blank after it, and two numbers.
fn push_pair_line(
    out: &mut Vec<u8>,
    word: &[u8],
    first: u64,
    second: u64,
) -> Result<(), OutOfMemory>
    ensures { OnOk result (out.new.items ≡ out.old.items ++ pair_line word.now first second) }
{
    out.extend_from_slice(word)?;
    push_number(out, first)?;
    out.extend_from_slice(b" ")?;
    push_number(out, second)?;
    out.extend_from_slice(b"\n")?;
    Ok(())
}

fn push_image(out: &mut Vec<u8>, image: &ImageLine) -> Result<(), OutOfMemory>
    ensures { OnOk result (out.new.items ≡ out.old.items ++ image_line image.now) }
{
    out.extend_from_slice(b"image ")?;
    out.extend_from_slice(image.name.as_bytes())?;
    out.extend_from_slice(b" ")?;
    push_number(out, u64::from(image.width))?;
    push_pair_line(out, b" ", image.delay, image.depth)?;
    Ok(())
}

fn push_images(out: &mut Vec<u8>, images: &[ImageLine]) -> Result<(), OutOfMemory>
    ensures { OnOk result (out.new.items ≡ out.old.items ++ joined (map image_line images.now)) }
{
    for image in images {
        push_image(out, image)?;
    }
    Ok(())
}

fn push_latencies(out: &mut Vec<u8>, latencies: &[u64]) -> Result<(), OutOfMemory>
    ensures { OnOk result (out.new.items ≡ out.old.items ++ joined (map latency_line latencies.now)) }
{
    for latency in latencies {
        push_number_line(out, b"latency ", *latency)?;
    }
    Ok(())
}

// The name of the image at a place, where there is one.
fn push_name(out: &mut Vec<u8>, images: &[ImageLine], place: usize) -> Result<(), OutOfMemory>
    ensures { OnOk result (out.new.items ≡ out.old.items ++ name_at images.now place) }
{
    match images.get(place) {
        None => Ok(()),
        Some(image) => {
            out.extend_from_slice(image.name.as_bytes())?;
            Ok(())
        }
    }
}

fn push_image_flow(
    out: &mut Vec<u8>,
    word: &[u8],
    images: &[ImageLine],
    image: usize,
    flow: u64,
) -> Result<(), OutOfMemory>
    ensures { OnOk result (out.new.items ≡ out.old.items ++ image_flow word.now images.now image flow) }
{
    out.extend_from_slice(word)?;
    push_name(out, images, image)?;
    push_number_line(out, b" ", flow)?;
    Ok(())
}

// The offset of a read with a blank before each number, and a flow.
fn push_offset(out: &mut Vec<u8>, dx: i32, dy: i32, flow: u64) -> Result<(), OutOfMemory>
    ensures { OnOk result (out.new.items
        ≡ out.old.items ++ (codes " " ++ (signed_decimal dx ++ (codes " " ++ (signed_decimal dy ++ number_line (codes " ") flow))))) }
{
    out.extend_from_slice(b" ")?;
    push_signed(out, dx)?;
    out.extend_from_slice(b" ")?;
    push_signed(out, dy)?;
    push_number_line(out, b" ", flow)?;
    Ok(())
}

// The names of the images of a read.
fn push_names(
    out: &mut Vec<u8>,
    word: &[u8],
    images: &[ImageLine],
    reader: usize,
    source: usize,
) -> Result<(), OutOfMemory>
    ensures { OnOk result (out.new.items ≡ out.old.items ++ (word.now ++ (name_at images.now reader ++ (codes " " ++ name_at images.now source)))) }
{
    out.extend_from_slice(word)?;
    push_name(out, images, reader)?;
    out.extend_from_slice(b" ")?;
    push_name(out, images, source)?;
    Ok(())
}

fn push_flow(out: &mut Vec<u8>, images: &[ImageLine], line: FlowLine) -> Result<(), OutOfMemory>
    ensures { OnOk result (out.new.items ≡ out.old.items ++ flow_line images.now line) }
{
    match line {
        FlowLine::Hold { image, flow } => push_image_flow(out, b"flow hold ", images, image, flow),
        FlowLine::Start { image, flow } => push_image_flow(
            out,
            b"flow start ",
            images,
            image,
            flow,
        ),
        FlowLine::Read {
            reader,
            source,
            dx,
            dy,
            flow,
        } => {
            push_names(out, b"flow read ", images, reader, source)?;
            push_offset(out, dx, dy, flow)?;
            Ok(())
        }
        FlowLine::Keep {
            reader,
            source,
            dx,
            dy,
            flow,
        } => {
            push_names(out, b"flow keep ", images, reader, source)?;
            push_offset(out, dx, dy, flow)?;
            Ok(())
        }
    }
}

fn push_flows(out: &mut Vec<u8>, images: &[ImageLine], flow: &[FlowLine]) -> Result<(), OutOfMemory>
    ensures { OnOk result (out.new.items ≡ out.old.items ++ joined (map (flow_line images.now) flow.now)) }
{
    for line in flow {
        push_flow(out, images, *line)?;
    }
    Ok(())
}

// The lines before the size, which version 1 lacks.
fn push_head(out: &mut Vec<u8>, report: &Report) -> Result<(), OutOfMemory>
    ensures { OnOk result (out.new.items ≡ out.old.items ++ joined (head_lines (parts_of report.now))) }
{
    if report.version == 1 {
        return Ok(());
    }
    push_number_line(out, b"plan ", u64::from(report.version))?;
    push_pair_line(out, b"limits ", report.limits.bits, report.limits.latency)?;
    push_number_line(out, b"age ", u64::from(report.age))?;
    Ok(())
}

// The line that gives the number of reads, which version 1 lacks.
fn push_reads(out: &mut Vec<u8>, version: u8, reads: u64) -> Result<(), OutOfMemory>
    ensures { OnOk result (out.new.items ≡ out.old.items ++ joined (unless_first version (reads_line reads ∷ []))) }
{
    if version == 1 {
        return Ok(());
    }
    push_number_line(out, b"reads ", reads)?;
    Ok(())
}

// The last line, which version 1 lacks.
fn push_end(out: &mut Vec<u8>, version: u8) -> Result<(), OutOfMemory>
    ensures { OnOk result (out.new.items ≡ out.old.items ++ joined (unless_first version (end_line ∷ []))) }
{
    if version == 1 {
        return Ok(());
    }
    out.extend_from_slice(b"end\n")?;
    Ok(())
}

// The lines of the frame and the images.
fn push_first(out: &mut Vec<u8>, report: &Report) -> Result<(), OutOfMemory>
    ensures { OnOk result (out.new.items
        ≡ out.old.items ++ (joined (head_lines (parts_of report.now)) ++ (size_line report.now.width report.now.height
        ++ (joined (map image_line report.now.images.items) ++ joined (map latency_line report.now.latencies.items))))) }
{
    push_head(out, report)?;
    push_pair_line(
        out,
        b"size ",
        u64::from(report.width),
        u64::from(report.height),
    )?;
    push_images(out, &report.images)?;
    push_latencies(out, &report.latencies)?;
    Ok(())
}

// The lines of the sums and the flow.
fn push_last(out: &mut Vec<u8>, report: &Report) -> Result<(), OutOfMemory>
    ensures { OnOk result (out.new.items
        ≡ out.old.items ++ (clocks_line report.now.clocks ++ (bits_line report.now.bits
        ++ (joined (unless_first report.now.version (reads_line report.now.reads ∷ []))
        ++ (joined (map (flow_line report.now.images.items) report.now.flow.items) ++ joined (unless_first report.now.version (end_line ∷ []))))))) }
{
    push_number_line(out, b"clocks ", report.clocks)?;
    push_number_line(out, b"bits ", report.bits)?;
    push_reads(out, report.version, report.reads)?;
    push_flows(out, &report.images, &report.flow)?;
    push_end(out, report.version)?;
    Ok(())
}

/// The text of a report, by the layout of its version. Where the report's values are those of its version, the text denotes it and no other.
pub fn write(alloc: Global, report: &Report) -> Result<Vec<u8>, OutOfMemory>
    ensures { IfOk result (λ text. text.items ≡ layout (parts_of report.now)) }
{
    let lines = report
        .images
        .len()
        .saturating_add(report.flow.len())
        .min(1 << 20);
    let mut text = Vec::with_capacity(alloc, LINE_BYTES * lines)?;
    push_first(&mut text, report)?;
    push_last(&mut text, report)?;
    Ok(text)
}
