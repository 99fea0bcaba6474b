// A whole program as text.

use crate::body::{NO_LIMIT, cut_body};
use crate::choices::CutChoice;
use crate::expanded::Expanded;
use crate::images::image_name;
use crate::names::NamedProgram;
use crate::pieces::BodyPiece;
use crate::text::GrowingText;
use dk_base::{FrameSize, MAX_DEFINITIONS, OutOfMemory};
use dk_types::{TypedDefinition, TypedProgram};
use std::alloc::Global;

// The definitions of a program's text.
#[derive(Drop)]
pub(crate) struct CutDraft {
    text: GrowingText,
    // The number of definitions, with that of the image that is 1.
    pub(crate) definitions: usize,
    // The levels of each body that the source has.
    pub(crate) levels: Vec<u32>,
    // The most levels that were asked.
    most: u32,
    // Whether a body tests if a point is in the frame.
    tests_frame: bool,
}

// The most levels of a body.
fn limit(choice: CutChoice, most: u32) -> u32 {
    if choice.is_cut { most } else { NO_LIMIT }
}

fn push_size(to: &mut GrowingText, size: FrameSize) {
    to.push(b"size ");
    to.push_number(size.width);
    to.push(b" ");
    to.push_number(size.height);
    to.push(b"\n");
}

fn push_inputs(to: &mut GrowingText, program: &TypedProgram) {
    for input in program.inputs() {
        to.push(b"input ");
        to.push(input.name.text.as_bytes());
        to.push_typing(input.ty);
        to.push(b"\n");
    }
}

fn push_outputs(to: &mut GrowingText, program: &TypedProgram) {
    for output in program.outputs() {
        to.push(b"output ");
        to.push(image_name(program, *output));
        to.push(b"\n");
    }
}

fn push_body(to: &mut GrowingText, text: &[u8]) {
    to.push(b" = im(x,y) ");
    to.push(text);
    to.push(b" end\n");
}

fn push_pieces(to: &mut GrowingText, pieces: &[BodyPiece]) {
    for piece in pieces {
        to.push(b"let ");
        to.push(&piece.name);
        push_body(to, &piece.text);
    }
}

// Adds what a definition has before its body.
fn push_opening(to: &mut GrowingText, definition: &TypedDefinition) {
    if definition.inline {
        to.push(b"inline ");
    }
    to.push(b"let ");
    to.push(definition.name.text.as_bytes());
    if let Some(ty) = definition.declared {
        to.push_typing(ty);
    }
}

// Counts the definitions of a body, and that of the image that is 1 where it is the first that reads it.
fn count_definitions(draft: &mut CutDraft, pieces: usize, tests_frame: bool) {
    let mut added = pieces.saturating_add(1);
    if tests_frame && !draft.tests_frame {
        draft.tests_frame = true;
        added = added.saturating_add(1);
    }
    draft.definitions = draft.definitions.saturating_add(added);
}

// Adds a definition after its pieces.
fn push_definition(
    alloc: Global,
    names: &NamedProgram<'_>,
    draft: &mut CutDraft,
    definition: &TypedDefinition,
    expanded: &Expanded,
    choice: CutChoice,
) -> Result<(), OutOfMemory> {
    let stem = definition.name.text.as_bytes();
    let limit = limit(choice, draft.most);
    let body = cut_body(alloc, names, &draft.levels, stem, expanded, limit)?;
    push_pieces(&mut draft.text, &body.pieces);
    push_opening(&mut draft.text, definition);
    push_body(&mut draft.text, &body.text);
    count_definitions(draft, body.pieces.len(), body.tests_frame);
    draft.levels.push(body.levels)?;
    Ok(())
}

// The definitions with these bodies cut at `most` levels. If there are too many, the last ones may lack, since such a draft is not used.
pub(crate) fn make_draft(
    alloc: Global,
    names: &NamedProgram<'_>,
    expanded: &[Expanded],
    choices: &[CutChoice],
    most: u32,
) -> Result<CutDraft, OutOfMemory> {
    let mut draft = CutDraft {
        text: GrowingText::new(alloc),
        definitions: 0,
        levels: Vec::new(alloc),
        most,
        tests_frame: false,
    };
    let bodies = names.program.definitions().iter().zip(expanded);
    for ((definition, expanded), choice) in bodies.zip(choices) {
        if MAX_DEFINITIONS < draft.definitions {
            break;
        }
        push_definition(alloc, names, &mut draft, definition, expanded, *choice)?;
    }
    Ok(draft)
}

// The text of the program with the definitions of a draft, after `head`.
pub(crate) fn program_text(
    alloc: Global,
    head: &[u8],
    names: &NamedProgram<'_>,
    draft: &CutDraft,
) -> Result<Vec<u8>, OutOfMemory> {
    let mut text = GrowingText::new(alloc);
    text.push(head);
    push_size(&mut text, names.program.size());
    push_inputs(&mut text, names.program);
    if draft.tests_frame {
        text.push(b"inline let ");
        text.push(&names.frame);
        push_body(&mut text, b"1");
    }
    text.append(&draft.text);
    push_outputs(&mut text, names.program);
    text.finished()
}
