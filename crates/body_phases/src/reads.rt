// The reads of a body, in the order of the text.

use dk_base::OutOfMemory;
use dk_types::{TypedExpr, TypedNode, TypedRead};
use std::alloc::Global;

fn add_reads(to: &mut Vec<TypedRead>, e: &TypedExpr) -> Result<(), OutOfMemory> {
    match &e.node {
        TypedNode::Number(_) => Ok(()),
        TypedNode::Read(read) => {
            to.push(*read)?;
            Ok(())
        }
        TypedNode::Unary(_, a) => add_reads(to, a),
        TypedNode::Binary(_, a, b) => {
            add_reads(to, a)?;
            add_reads(to, b)
        }
        TypedNode::Scale(_, a, _) => add_reads(to, a),
        TypedNode::Convert(_, a) => add_reads(to, a),
        TypedNode::Select(c, a, b) => {
            add_reads(to, c)?;
            add_reads(to, a)?;
            add_reads(to, b)
        }
    }
}

pub(crate) fn reads_of(alloc: Global, e: &TypedExpr) -> Result<Vec<TypedRead>, OutOfMemory> {
    let mut reads = Vec::new(alloc);
    add_reads(&mut reads, e)?;
    Ok(reads)
}
