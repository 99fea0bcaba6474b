// NamedProgram that a program has, and names that it does not have.

use body_terms::numbered;
use dk_base::OutOfMemory;
use dk_types::TypedProgram;
use std::alloc::Global;

// One more than the greatest number behind a name. A program has fewer names and pieces than this.
pub(crate) const END_OF_NUMBERS: u32 = 1_000;

// A program, and the name of the inline image that is 1, whose reads test whether a point is in the frame.
#[derive(Drop)]
pub(crate) struct NamedProgram<'a> {
    pub(crate) program: &'a TypedProgram,
    pub(crate) frame: Vec<u8>,
}

fn is_name_of_input(program: &TypedProgram, name: &[u8]) -> bool {
    for input in program.inputs() {
        if input.name.text.as_bytes() == name {
            return true;
        }
    }
    false
}

fn is_name_of_definition(program: &TypedProgram, name: &[u8]) -> bool {
    for definition in program.definitions() {
        if definition.name.text.as_bytes() == name {
            return true;
        }
    }
    false
}

// Whether an image of the program has this name.
fn is_name(program: &TypedProgram, name: &[u8]) -> bool {
    is_name_of_input(program, name) || is_name_of_definition(program, name)
}

// Whether an image has this name.
pub(crate) fn is_taken(names: &NamedProgram<'_>, name: &[u8]) -> bool {
    names.frame.as_slice() == name || is_name(names.program, name)
}

// The program with a name for the image that is 1: one that no image has.
pub(crate) fn names_of<'a>(
    alloc: Global,
    program: &'a TypedProgram,
) -> Result<NamedProgram<'a>, OutOfMemory> {
    let mut frame = Vec::from_slice(alloc, b"frame")?;
    for number in 1..END_OF_NUMBERS {
        if !is_name(program, &frame) {
            break;
        }
        frame = numbered(alloc, b"frame", number)?;
    }
    Ok(NamedProgram { program, frame })
}
