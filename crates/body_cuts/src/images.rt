// The images that are read.

use body_terms::PixelRead;
use dk_types::{TypedDefinition, TypedProgram};

// The number of the definition of this image. None if it is an input.
pub(crate) fn definition_number(program: &TypedProgram, image: u32) -> Option<usize> {
    (image as usize).checked_sub(program.inputs().len())
}

fn definition(program: &TypedProgram, image: u32) -> Option<&TypedDefinition> {
    let number = definition_number(program, image)?;
    program.definitions().get(number)
}

// Whether the image is inline.
pub(crate) fn is_inline(program: &TypedProgram, image: u32) -> bool {
    match definition(program, image) {
        Some(definition) => definition.inline,
        None => false,
    }
}

pub(crate) fn is_output(program: &TypedProgram, image: u32) -> bool {
    program.outputs().contains(&image)
}

// The name of an image.
pub(crate) fn image_name(program: &TypedProgram, image: u32) -> &[u8] {
    if let Some(input) = program.inputs().get(image as usize) {
        return input.name.text.as_bytes();
    }
    match definition(program, image) {
        Some(definition) => definition.name.text.as_bytes(),
        None => b"",
    }
}

// The levels of an image where it is read, with the levels of the bodies before.
fn image_levels(program: &TypedProgram, levels: &[u32], image: u32) -> u32 {
    let Some(number) = definition_number(program, image) else {
        return 0;
    };
    match (program.definitions().get(number), levels.get(number)) {
        (Some(definition), Some(depth)) if definition.inline => *depth,
        _ => 0,
    }
}

// The levels of a read. A clamped read at an offset chooses among taps.
pub(crate) fn read_levels(program: &TypedProgram, levels: &[u32], read: PixelRead) -> u32 {
    let depth = image_levels(program, levels, read.image);
    if read.clamped && (read.dx != 0 || read.dy != 0) {
        depth.saturating_add(1)
    } else {
        depth
    }
}
