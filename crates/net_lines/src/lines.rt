// The lines.

ghost use Rattle.std.specs.Prelude.{◌≡◌, ◌<◌, ◌++◌, length, pos, IfOk, OnOk, decimal, codes};
ghost use Rattle.std.specs.Fmt.{signed_decimal};
ghost use Rattle.verilog_layout.specs.Layout.{net_name};
ghost use Rattle.buffer_plan.specs.Plans.{delay_of, read_age};
ghost use Rattle.net_lines.specs.Lines.{name_of, net_at, image_at, read_at, field, lines_to, image_line, read_place, read_line, output_line, digest_line, net_lines as all_lines};

use buffer_plan::Plan;
use dk_base::{LiveRead, OutOfMemory};
use hex::encode;
use itoa::Buffer;
use netlist::{Module, Net};
use pointwise_ir::Program;
use sha2::{Digest, Sha256};
use std::alloc::Global;
use verilog_print::push_net;

// The bytes that are kept ready for a line.
const LINE_BYTES: usize = 40;

/// A program with its plan and the module of this plan: its Verilog text, and the nets of its kept images and of its live reads, in order.
#[derive(Clone, Copy)]
pub struct NamedNets<'a> {
    pub ir: &'a Program,
    pub plan: &'a Plan,
    pub module: &'a Module,
    pub text: &'a [u8],
    pub images: &'a [Net],
    pub reads: &'a [Net],
}

// The name of the image of this number.
fn name(ir: &Program, number: usize) -> &[u8]
    ensures { result.now ≡ name_of ir.now number }
{
    let inputs = ir.inputs();
    if number < inputs.len() {
        return inputs[number].name.as_bytes();
    }
    match ir.images().get(number - inputs.len()) {
        Some(image) => image.name.as_bytes(),
        None => &[],
    }
}

// The net at a place.
fn net(nets: &[Net], place: usize) -> Net
    ensures { result ≡ net_at nets.now place }
{
    match nets.get(place) {
        Some(net) => *net,
        None => Net::Input(0),
    }
}

fn push_field(out: &mut Vec<u8>, text: &[u8]) -> Result<(), OutOfMemory>
    ensures { OnOk result (out.new.items ≡ out.old.items ++ field text.now) }
{
    out.extend_from_slice(b" ")?;
    out.extend_from_slice(text)?;
    Ok(())
}

fn push_name(out: &mut Vec<u8>, ir: &Program, number: u32) -> Result<(), OutOfMemory>
    ensures { OnOk result (out.new.items ≡ out.old.items ++ field (name_of ir.now number)) }
{
    push_field(out, name(ir, number as usize))?;
    Ok(())
}

fn push_number(out: &mut Vec<u8>, number: u64) -> Result<(), OutOfMemory>
    ensures { OnOk result (out.new.items ≡ out.old.items ++ field (decimal number)) }
{
    let mut digits = Buffer::new();
    push_field(out, digits.format(number).as_bytes())?;
    Ok(())
}

fn push_signed(out: &mut Vec<u8>, number: i32) -> Result<(), OutOfMemory>
    ensures { OnOk result (out.new.items ≡ out.old.items ++ field (signed_decimal number)) }
{
    let mut digits = Buffer::new();
    push_field(out, digits.format(number).as_bytes())?;
    Ok(())
}

fn push_net_field(out: &mut Vec<u8>, module: &Module, net: Net) -> Result<(), OutOfMemory>
    ensures { OnOk result (out.new.items ≡ out.old.items ++ field (net_name «module».now net)) }
{
    out.extend_from_slice(b" ")?;
    push_net(out, module, net)?;
    Ok(())
}

// The delay of the kept image at place k.
fn delay_at(plan: &Plan, k: usize) -> u64
    requires { k < length plan.now.system.stencils.images }
    ensures { result ≡ delay_of plan.now (image_at plan.now k).number }
{
    let image = plan.images()[k];
    let delay = plan.delay(image.number);
    delay
}

// The live read at place k.
fn read_of(plan: &Plan, k: usize) -> LiveRead
    requires { k < length plan.now.system.stencils.reads }
    ensures { result ≡ read_at plan.now k }
{
    plan.live_reads()[k]
}

// The age of the live read at place k.
fn age_at(plan: &Plan, k: usize) -> u64
    requires { k < length plan.now.system.stencils.reads }
    ensures { pos result ≡ read_age plan.now (read_at plan.now k) }
{
    let read = plan.live_reads()[k];
    let age = plan.age(read);
    age
}

// The line of the kept image at place k.
fn push_image(out: &mut Vec<u8>, nets: &NamedNets, k: usize) -> Result<(), OutOfMemory>
    requires within { k < length nets.now.plan.now.system.stencils.images }
    ensures { OnOk result (out.new.items
        ≡ out.old.items ++ image_line nets.now.ir.now nets.now.plan.now nets.now.«module».now nets.now.images.now k) }
{
    let image = nets.plan.images()[k];
    out.extend_from_slice(b"image")?;
    push_name(out, nets.ir, image.number)?;
    push_net_field(out, nets.module, net(nets.images, k))?;
    push_number(out, u64::from(image.width))?;
    push_number(out, delay_at(nets.plan, k))?;
    out.extend_from_slice(b"\n")?;
    Ok(())
}

// Who reads, what is read, and where.
fn push_place(out: &mut Vec<u8>, ir: &Program, read: LiveRead) -> Result<(), OutOfMemory>
    ensures { OnOk result (out.new.items
        ≡ out.old.items ++ read_place ir.now read) }
{
    out.extend_from_slice(b"read")?;
    push_name(out, ir, read.f)?;
    push_name(out, ir, read.g)?;
    push_signed(out, read.dx)?;
    push_signed(out, read.dy)?;
    Ok(())
}

// The net of a live read and its age, and the end of its line.
fn push_age(out: &mut Vec<u8>, module: &Module, net: Net, age: u64) -> Result<(), OutOfMemory>
    ensures { OnOk result (out.new.items
        ≡ out.old.items ++ (field (net_name «module».now net) ++ (field (decimal age) ++ codes "\n"))) }
{
    push_net_field(out, module, net)?;
    push_number(out, age)?;
    out.extend_from_slice(b"\n")?;
    Ok(())
}

// The line of the live read at place k.
fn push_read(out: &mut Vec<u8>, nets: &NamedNets, k: usize) -> Result<(), OutOfMemory>
    requires within { k < length nets.now.plan.now.system.stencils.reads }
    ensures { OnOk result (out.new.items
        ≡ out.old.items ++ read_line nets.now.ir.now nets.now.plan.now nets.now.«module».now nets.now.reads.now k) }
{
    let read = read_of(nets.plan, k);
    let age = age_at(nets.plan, k);
    push_place(out, nets.ir, read)?;
    push_age(out, nets.module, net(nets.reads, k), age)?;
    Ok(())
}

// The line of the output at place k.
fn push_output(out: &mut Vec<u8>, nets: &NamedNets, k: usize) -> Result<(), OutOfMemory>
    requires within { k < length nets.now.plan.now.system.stencils.outputs }
    ensures { OnOk result (out.new.items
        ≡ out.old.items ++ output_line nets.now.ir.now nets.now.plan.now nets.now.«module».now k) }
{
    nets.plan.law();
    let image = nets.plan.outputs()[k];
    out.extend_from_slice(b"output")?;
    push_name(out, nets.ir, image)?;
    push_net_field(out, nets.module, Net::Output(2 * k))?;
    push_net_field(out, nets.module, Net::Output(2 * k + 1))?;
    out.extend_from_slice(b"\n")?;
    Ok(())
}

// The line of the module's text.
fn push_digest(out: &mut Vec<u8>, alloc: Global, text: &[u8]) -> Result<(), OutOfMemory>
    ensures { OnOk result (out.new.items ≡ out.old.items ++ digest_line text.now) }
{
    let digest = Sha256::digest(text);
    let digits = encode(alloc, digest)?;
    out.extend_from_slice(b"text sha256")?;
    push_field(out, digits.as_bytes())?;
    out.extend_from_slice(b"\n")?;
    Ok(())
}

fn push_images(out: &mut Vec<u8>, nets: &NamedNets) -> Result<(), OutOfMemory>
    ensures { OnOk result (out.new.items
        ≡ out.old.items ++ lines_to (image_line nets.now.ir.now nets.now.plan.now nets.now.«module».now nets.now.images.now) (length nets.now.plan.now.system.stencils.images)) }
{
    for k in 0..nets.plan.images().len() {
        push_image(out, nets, k)?;
    }
    Ok(())
}

fn push_reads(out: &mut Vec<u8>, nets: &NamedNets) -> Result<(), OutOfMemory>
    ensures { OnOk result (out.new.items
        ≡ out.old.items ++ lines_to (read_line nets.now.ir.now nets.now.plan.now nets.now.«module».now nets.now.reads.now) (length nets.now.plan.now.system.stencils.reads)) }
{
    for k in 0..nets.plan.live_reads().len() {
        push_read(out, nets, k)?;
    }
    Ok(())
}

fn push_outputs(out: &mut Vec<u8>, nets: &NamedNets) -> Result<(), OutOfMemory>
    ensures { OnOk result (out.new.items
        ≡ out.old.items ++ lines_to (output_line nets.now.ir.now nets.now.plan.now nets.now.«module».now) (length nets.now.plan.now.system.stencils.outputs)) }
{
    for k in 0..nets.plan.outputs().len() {
        push_output(out, nets, k)?;
    }
    Ok(())
}

/// A line with the SHA-256 of the module's text (FIPS 180-4) in lowercase hex; a line for each kept image with its net, its width in bits and its delay in clocks; one for each live read with its net and its age in clocks; and one for each output with its ports `valid` and `dout`. Nets have their names in the module's text.
pub fn net_lines(alloc: Global, nets: &NamedNets) -> Result<Vec<u8>, OutOfMemory>
    ensures { IfOk result (λ text. text.items ≡ all_lines nets.now.ir.now nets.now.plan.now nets.now.«module».now nets.now.images.now nets.now.reads.now nets.now.text.now) }
{
    let lines = nets
        .images
        .len()
        .saturating_add(nets.reads.len())
        .min(1 << 20);
    let mut text = Vec::with_capacity(alloc, LINE_BYTES * lines)?;
    push_digest(&mut text, alloc, nets.text)?;
    push_images(&mut text, nets)?;
    push_reads(&mut text, nets)?;
    push_outputs(&mut text, nets)?;
    Ok(text)
}
