// The levels of operators of an expression.

use crate::images::read_levels;
use body_terms::{Part, Term, TermNode, most_levels, own_levels};
use dk_types::TypedProgram;

// The levels with these more.
fn deeper(levels: Option<u32>, more: u32) -> Option<u32> {
    match levels {
        Some(levels) => Some(levels.saturating_add(more)),
        None => None,
    }
}

// The part with these more levels of operators.
pub(crate) fn raised(part: Part, more: u32) -> Part {
    Part {
        text: part.text,
        binding: part.binding,
        levels: deeper(part.levels, more),
    }
}

// The levels of an expression, with those of the bodies before. None if it has no read.
pub(crate) fn levels_of(program: &TypedProgram, before: &[u32], e: &Term) -> Option<u32> {
    let inner = match &e.node {
        TermNode::Number(_) => None,
        TermNode::Read(read) => Some(read_levels(program, before, *read)),
        TermNode::InFrame(_, _) => Some(0),
        TermNode::Unary(_, a) => levels_of(program, before, a),
        TermNode::Binary(_, a, b) => {
            most_levels(levels_of(program, before, a), levels_of(program, before, b))
        }
        TermNode::Scale(_, a, _) => levels_of(program, before, a),
        TermNode::Convert(_, a) => levels_of(program, before, a),
        TermNode::Select(c, a, b) => {
            let arms = most_levels(levels_of(program, before, a), levels_of(program, before, b));
            most_levels(levels_of(program, before, c), arms)
        }
    };
    deeper(inner, own_levels(e))
}
