// Which bodies are expanded.

use crate::images::definition_number;
use dk_base::OutOfMemory;
use dk_types::{TypedExpr, TypedNode, TypedProgram};
use std::alloc::Global;

// Notes that the image is read.
fn mark(program: &TypedProgram, marks: &mut [bool], image: u32) {
    if let Some(number) = definition_number(program, image) {
        if number < marks.len() {
            marks[number] = true;
        }
    }
}

// Notes the images that the expression reads.
fn mark_reads(program: &TypedProgram, marks: &mut [bool], e: &TypedExpr) {
    match &e.node {
        TypedNode::Number(_) => {}
        TypedNode::Read(read) => mark(program, marks, read.image),
        TypedNode::Unary(_, a) => mark_reads(program, marks, a),
        TypedNode::Binary(_, a, b) => {
            mark_reads(program, marks, a);
            mark_reads(program, marks, b);
        }
        TypedNode::Scale(_, a, _) => mark_reads(program, marks, a),
        TypedNode::Convert(_, a) => mark_reads(program, marks, a),
        TypedNode::Select(c, a, b) => {
            mark_reads(program, marks, c);
            mark_reads(program, marks, a);
            mark_reads(program, marks, b);
        }
    }
}

fn mark_outputs(program: &TypedProgram, marks: &mut [bool]) {
    for output in program.outputs() {
        mark(program, marks, *output);
    }
}

// The images that are not inline, and the outputs.
fn kept(alloc: Global, program: &TypedProgram) -> Result<Vec<bool>, OutOfMemory> {
    let mut marks = Vec::new(alloc);
    for definition in program.definitions() {
        marks.push(!definition.inline)?;
    }
    mark_outputs(program, &mut marks);
    Ok(marks)
}

// Notes the images that this definition reads, if it is marked.
fn mark_read_by(program: &TypedProgram, marks: &mut [bool], number: usize) {
    if let Some(definition) = program.definitions().get(number) {
        if marks.get(number) == Some(&true) {
            mark_reads(program, marks, &definition.body);
        }
    }
}

// For each definition, whether it is an image that is not inline, an output, or read by such a one, also by way of others. Inline images that nothing reads can be deeper than any limit.
pub(crate) fn reached(alloc: Global, program: &TypedProgram) -> Result<Vec<bool>, OutOfMemory> {
    let mut marks = kept(alloc, program)?;
    let mut number = marks.len();
    while number > 0 {
        number -= 1;
        mark_read_by(program, &mut marks, number);
    }
    Ok(marks)
}
