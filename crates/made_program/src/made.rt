// The program and the image of a number.

ghost use Rattle.std.specs.Prelude.{◌≡◌, ◌<◌, ◌++◌, ◌*◌, OnOk, IfOk};
ghost use Rattle.pgm_codec.specs.Images.{header_of};
ghost use Rattle.made_program.specs.Draws.{after};
ghost use Rattle.made_program.specs.Programs.{width_of, height_of, count_of, seed_of, head_lines, output_line, program_of};
ghost use Rattle.made_program.specs.Images.{samples_from, image_of};

use crate::definition::push_definitions;
use crate::draws::draw;
use crate::number::{definition_count, frame_height, frame_width, seed};
use crate::pieces::{push_name, push_number};
use dk_base::OutOfMemory;
use pgm_codec::write_header;
use std::alloc::Global;

/// What is made of a number.
#[derive(Debug, Drop)]
pub struct Made {
    /// The program's text, with one input of type `u8` and one output.
    pub program: Vec<u8>,
    /// A PGM file of one image of the program's size, for its input: one byte a sample.
    pub image: Vec<u8>,
}

fn push_head_lines(to: &mut Vec<u8>, width: u32, height: u32) -> Result<(), OutOfMemory>
    ensures { OnOk result (to.new.items ≡ to.old.items ++ head_lines width height) }
{
    to.extend_from_slice(b"size ")?;
    push_number(to, u64::from(width))?;
    to.extend_from_slice(b" ")?;
    push_number(to, u64::from(height))?;
    to.extend_from_slice(b"\ninput a : u8\n")?;
    Ok(())
}

fn push_output_line(to: &mut Vec<u8>, last: u32) -> Result<(), OutOfMemory>
    ensures { OnOk result (to.new.items ≡ to.old.items ++ output_line last) }
{
    to.extend_from_slice(b"output ")?;
    push_name(to, last)?;
    to.extend_from_slice(b"\n")?;
    Ok(())
}

// The program, and the state after its draws.
fn make_program(alloc: Global, n: u32, state: &mut u16) -> Result<Vec<u8>, OutOfMemory>
    requires { state.old ≡ seed_of n }
    ensures program { IfOk result (λ program. program.items ≡ program_of n) }
    ensures state { OnOk result (state.new ≡ after (7 * count_of n) (seed_of n)) }
{
    let count = definition_count(n);
    let mut program = Vec::new(alloc);
    push_head_lines(&mut program, frame_width(n), frame_height(n))?;
    push_definitions(alloc, &mut program, count, state)?;
    push_output_line(&mut program, count)?;
    Ok(program)
}

// Adds this many samples.
fn push_samples(to: &mut Vec<u8>, count: u32, state: &mut u16) -> Result<(), OutOfMemory>
    ensures { OnOk result (to.new.items ≡ to.old.items ++ samples_from count state.old) }
{
    for _ in 0..count {
        let sample = draw(state, 256);
        to.push(sample as u8)?;
    }
    Ok(())
}

// Adds the header of an image of one byte a sample.
fn push_header(to: &mut Vec<u8>, n: u32) -> Result<(), OutOfMemory>
    ensures { OnOk result (to.new.items ≡ to.old.items ++ header_of (width_of n) (height_of n) 255) }
{
    let mut header = [0; 19];
    let length = write_header(frame_width(n), frame_height(n), 255, &mut header);
    to.extend_from_slice(&header[..length])?;
    Ok(())
}

// The image file, drawn from this state on.
fn make_image(alloc: Global, n: u32, state: &mut u16) -> Result<Vec<u8>, OutOfMemory>
    requires { state.old ≡ after (7 * count_of n) (seed_of n) }
    ensures { IfOk result (λ image. image.items ≡ image_of n) }
{
    let mut image = Vec::new(alloc);
    push_header(&mut image, n)?;
    push_samples(&mut image, frame_width(n) * frame_height(n), state)?;
    Ok(image)
}

/// Makes the program and the image file of number n. Every number has one program and one image; the only error is out of memory.
pub fn make(alloc: Global, n: u32) -> Result<Made, OutOfMemory>
    ensures program { IfOk result (λ made. made.program.items ≡ program_of n) }
    ensures image { IfOk result (λ made. made.image.items ≡ image_of n) }
{
    let mut state = seed(n);
    let program = make_program(alloc, n, &mut state)?;
    let image = make_image(alloc, n, &mut state)?;
    Ok(Made { program, image })
}
