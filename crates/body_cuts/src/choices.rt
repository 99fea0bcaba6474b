// Which bodies are cut.

ghost use Rattle.std.specs.Prelude.{◌<◌, IfSome, length};

use crate::images::definition_number;
use dk_base::OutOfMemory;
use dk_types::TypedProgram;
use std::alloc::Global;

// What is known of a definition, and whether its body is cut.
#[derive(Clone, Copy)]
pub(crate) struct CutChoice {
    // Whether its body is never cut: it is inline and no output, or must stay whole.
    stays_whole: bool,
    // The levels of its body, not cut.
    depth: u32,
    pub(crate) is_cut: bool,
}

// What is known of the definition of an image, if it has one.
fn choice_of<'a>(
    program: &TypedProgram,
    image: u32,
    choices: &'a mut [CutChoice],
) -> Option<&'a mut CutChoice> {
    let number = definition_number(program, image)?;
    choices.get_mut(number)
}

// Notes that the images that are outputs may be cut.
fn free_outputs(program: &TypedProgram, choices: &mut [CutChoice]) {
    for output in program.outputs() {
        if let Some(choice) = choice_of(program, *output, choices) {
            choice.stays_whole = false;
        }
    }
}

// Notes that these images must not be cut.
fn keep_whole(program: &TypedProgram, whole: &[u32], choices: &mut [CutChoice]) {
    for image in whole {
        if let Some(choice) = choice_of(program, *image, choices) {
            choice.stays_whole = true;
        }
    }
}

// A choice for each definition: no body is cut. The images of `whole` never are.
pub(crate) fn no_cuts(
    alloc: Global,
    program: &TypedProgram,
    whole: &[u32],
) -> Result<Vec<CutChoice>, OutOfMemory> {
    let mut choices = Vec::new(alloc);
    for definition in program.definitions() {
        choices.push(CutChoice {
            stays_whole: definition.inline,
            depth: 0,
            is_cut: false,
        })?;
    }
    free_outputs(program, &mut choices);
    keep_whole(program, whole, &mut choices);
    Ok(choices)
}

// Cuts all bodies that may be cut, or none.
pub(crate) fn cut_each(choices: &mut [CutChoice], is_cut: bool) {
    for choice in choices.iter_mut() {
        choice.is_cut = is_cut && !choice.stays_whole;
    }
}

// Notes the levels of the bodies, not cut.
pub(crate) fn note_depths(choices: &mut [CutChoice], levels: &[u32]) {
    for (choice, depth) in choices.iter_mut().zip(levels) {
        choice.depth = *depth;
    }
}

// The deepest body that may be cut, is not, and has at least this many levels.
pub(crate) fn deepest(choices: &[CutChoice], least: u32) -> Option<usize>
    ensures { IfSome result (λ number. number < length choices.now) }
{
    let mut found = None;
    let mut floor = least;
    for (number, choice) in choices.iter().enumerate() {
        if !choice.is_cut && !choice.stays_whole && floor <= choice.depth {
            found = Some(number);
            floor = choice.depth.saturating_add(1);
        }
    }
    found
}
