// Parts of a body that are equal but for a move along the line: one definition serves all of them.

use crate::images::is_inline;
use body_terms::{PixelRead, Term, TermNode, own_levels};
use dk_base::{Binary, OutOfMemory, Scaling, Ty};
use dk_types::TypedProgram;
use indexmap::IndexMap;
use std::alloc::Global;

// How the reads of a part are moved, all by the same columns.
#[derive(Clone, Copy, PartialEq, Eq)]
pub(crate) struct Shift {
    pub(crate) dx: i32,
    pub(crate) clamped: bool,
}

impl Shift {
    pub(crate) const NONE: Shift = Shift {
        dx: 0,
        clamped: false,
    };
}

// A part of a body with the columns of its reads, whether an equal part has reads at other columns, and the part before it with the same mark.
#[derive(Clone, Copy)]
pub(crate) struct Class<'a> {
    pub(crate) part: &'a Term,
    dx: i32,
    pub(crate) is_repeated: bool,
    before: Option<usize>,
}

// Different parts of a body in order, and the last one of each mark.
#[derive(Drop)]
struct Classes<'a> {
    parts: Vec<Class<'a>>,
    last: IndexMap<u64, usize>,
}

// How a read is moved, if it is along the line.
fn shift_of(program: &TypedProgram, read: PixelRead) -> Option<Shift> {
    let is_held = read.clamped && read.dx == 0;
    if read.dy != 0 || is_held || is_inline(program, read.image) {
        return None;
    }
    Some(Shift {
        dx: read.dx,
        clamped: read.clamped,
    })
}

// The move of two parts, if it is the same.
fn common(one: Option<Shift>, other: Option<Shift>) -> Option<Shift> {
    if one == other { one } else { None }
}

// How all reads of an operand of a product are moved, if it is by the same columns. Only forms that are 0 where a read outside the frame is 0 count.
fn common_shift(program: &TypedProgram, e: &Term) -> Option<Shift> {
    match &e.node {
        TermNode::Read(read) => shift_of(program, *read),
        TermNode::Binary(Binary::Multiply, a, b) => {
            common(common_shift(program, a), common_shift(program, b))
        }
        TermNode::Scale(_, a, _) => common_shift(program, a),
        TermNode::Convert(_, a) => common_shift(program, a),
        TermNode::Number(_) | TermNode::InFrame(_, _) => None,
        TermNode::Unary(_, _) | TermNode::Binary(_, _, _) => None,
        TermNode::Select(_, _, _) => None,
    }
}

// Whether the outermost form is an operator that is worth a definition: a product, or a division that is no shift.
fn is_costly(e: &Term) -> bool {
    match &e.node {
        TermNode::Binary(Binary::Multiply, _, _) => 0 < own_levels(e),
        TermNode::Scale(Scaling::Divide, _, _) => 0 < own_levels(e),
        TermNode::Scale(_, _, _) => false,
        TermNode::Number(_) | TermNode::Read(_) | TermNode::InFrame(_, _) => false,
        TermNode::Unary(_, _) | TermNode::Binary(_, _, _) => false,
        TermNode::Convert(_, _) | TermNode::Select(_, _, _) => false,
    }
}

// The move of a part that may be shared.
pub(crate) fn shared_shift(program: &TypedProgram, e: &Term) -> Option<Shift> {
    if is_costly(e) {
        common_shift(program, e)
    } else {
        None
    }
}

// Whether two parts are equal but for the moves of their reads.
pub(crate) fn are_equal(a: &Term, b: &Term) -> bool {
    if a.ty != b.ty {
        return false;
    }
    match (&a.node, &b.node) {
        (TermNode::Read(read), TermNode::Read(other)) => read.image == other.image,
        (TermNode::Binary(op, a, b), TermNode::Binary(other, c, d)) => {
            op == other && are_equal(a, c) && are_equal(b, d)
        }
        (TermNode::Scale(op, a, by), TermNode::Scale(other, b, number)) => {
            op == other && by == number && are_equal(a, b)
        }
        (TermNode::Convert(how, a), TermNode::Convert(other, b)) => {
            how == other && are_equal(a, b)
        }
        _ => false,
    }
}

// A mark with one more number.
fn mixed(mark: u64, number: u64) -> u64 {
    (mark.rotate_left(5) ^ number).wrapping_mul(0x517c_c1b7_2722_0a95)
}

// A mark of a part, the same for all parts that are equal but for the moves of their reads.
fn mark_of(e: &Term) -> u64 {
    let bits = match e.ty {
        Ty::Unsigned(bits) => u64::from(bits),
        Ty::Signed(bits) => u64::from(bits) << 8,
    };
    match &e.node {
        TermNode::Read(read) => mixed(bits, u64::from(read.image)),
        TermNode::Binary(_, a, b) => mixed(mixed(bits, mark_of(a)), mark_of(b)),
        TermNode::Scale(_, a, by) => mixed(mixed(bits, mark_of(a)), *by),
        TermNode::Convert(_, a) => mixed(bits, mark_of(a)),
        TermNode::Number(_) | TermNode::InFrame(_, _) => bits,
        TermNode::Unary(_, _) | TermNode::Select(_, _, _) => bits,
    }
}

impl<'a> Classes<'a> {
    // The number of a part that is equal to this one of the same mark.
    fn find(&self, mark: u64, part: &Term) -> Option<usize> {
        let mut at = self.last.get(&mark).copied();
        for _ in 0..self.parts.len() {
            let place = at?;
            let class = self.parts.get(place)?;
            if are_equal(class.part, part) {
                return Some(place);
            }
            at = class.before;
        }
        None
    }

    // Adds the first part with this mark and form.
    fn begin(&mut self, mark: u64, part: &'a Term, dx: i32) -> Result<(), OutOfMemory> {
        let before = self.last.insert(mark, self.parts.len())?;
        self.parts.push(Class {
            part,
            dx,
            is_repeated: false,
            before,
        })?;
        Ok(())
    }

    // Adds a part whose reads are moved by these columns.
    fn add(&mut self, part: &'a Term, dx: i32) -> Result<(), OutOfMemory> {
        let mark = mark_of(part);
        let Some(place) = self.find(mark, part) else {
            return self.begin(mark, part, dx);
        };
        if let Some(class) = self.parts.get_mut(place) {
            class.is_repeated = class.is_repeated || class.dx != dx;
        }
        Ok(())
    }
}

// Adds the parts of an expression that may be shared.
fn note<'a>(
    program: &TypedProgram,
    e: &'a Term,
    classes: &mut Classes<'a>,
) -> Result<(), OutOfMemory> {
    if let Some(shift) = shared_shift(program, e) {
        return classes.add(e, shift.dx);
    }
    match &e.node {
        TermNode::Number(_) | TermNode::Read(_) | TermNode::InFrame(_, _) => Ok(()),
        TermNode::Unary(_, a) => note(program, a, classes),
        TermNode::Scale(_, a, _) => note(program, a, classes),
        TermNode::Convert(_, a) => note(program, a, classes),
        TermNode::Binary(_, a, b) => {
            note(program, a, classes)?;
            note(program, b, classes)
        }
        TermNode::Select(c, a, b) => {
            note(program, c, classes)?;
            note(program, a, classes)?;
            note(program, b, classes)
        }
    }
}

// The different parts of a body that may be shared, in order.
pub(crate) fn classes_of<'a>(
    alloc: Global,
    program: &TypedProgram,
    e: &'a Term,
) -> Result<Vec<Class<'a>>, OutOfMemory> {
    let mut classes = Classes {
        parts: Vec::new(alloc),
        last: IndexMap::new(alloc),
    };
    note(program, e, &mut classes)?;
    Ok(classes.parts)
}
