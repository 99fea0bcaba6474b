// Whether an expression of the new program has the value of one of the old program.

ghost use Rattle.std.specs.Prelude.{◌≡◌, ℕ, List, Some, slice_get, IsTrue, IfSome};
ghost use Rattle.pointwise_ir.specs.Trees.{tree_of, read, binary};
ghost use Rattle.pointwise_ir.specs.Programs.{IsBody};
ghost use Rattle.value_ranges.specs.Images.{AreRangesOf};
ghost use Rattle.same_pictures.specs.Matching.{IsReadHere, HaveSameValue, HaveSameMoved, StandsFor, CanCompare, IsFrameTest, IsFramed, ShowsShifted};

use crate::behind::reads_behind;
use crate::moves::{HERE, Step, is_here, pushed, pushed_shift};
use crate::operands::{
    binary_operands, constant_type, converted_operand, read_image, scaled_operand, select_operands,
    shifted_body, unary_operand,
};
use crate::products::{Factors, divided_factors};
use crate::unneeded::{Ranged, aligned, is_unneeded, unneeded};
use dk_base::{Binary, MAX_INLINED_DEPTH};
use pointwise_ir::{Edge, Expr, Program, meaning_law};

// The body of an image, by its number; none if it is an input.
pub fn body_of(program: &Program, image: u32) -> Option<&Expr>
    ensures { IfSome result (λ b. IsBody program.now image (tree_of b.now)) }
{
    let inputs = program.inputs().len();
    let place = image as usize;
    if place < inputs {
        return None;
    }
    let images = program.images();
    if place - inputs < images.len() {
        Some(&images[place - inputs].body)
    } else {
        None
    }
}

// The image that the expression reads at the point itself.
fn read_here(e: &Expr) -> Option<u32>
    ensures { IfSome result (λ g. IsReadHere (tree_of e.now) g) }
{
    match e {
        Expr::Read(edge, _, _, _) => {
            let image = read_image(e, *edge, 0, 0)?;
            Some(image)
        }
        _ => None,
    }
}

// The body of the image that is read at the point itself, unless it is an input.
fn defining<'a>(program: &'a Program, e: &Expr) -> Option<&'a Expr>
    ensures { IfSome result (λ b. StandsFor program.now (tree_of e.now) (tree_of b.now)) }
{
    let image = read_here(e)?;
    meaning_law(program);
    let body = body_of(program, image)?;
    Some(body)
}

// The expression without reads of definitions at the point itself.
pub fn unfolded<'a>(program: &'a Program, e: &'a Expr) -> &'a Expr
    ensures { StandsFor program.now (tree_of e.now) (tree_of result.now) }
{
    let mut now = e;
    for _ in 0..program.images().len() {
        match defining(program, now) {
            Some(body) => now = body,
            None => return now,
        }
    }
    now
}

// Whether this is the image of the new program that is the counterpart of an image of the old one.
pub fn is_pair(pairs: &[Option<u32>], image: u32, other: u32) -> bool
    ensures { IsTrue result → slice_get pairs.now image ≡ Some (Some other) }
{
    match pairs.get(image as usize) {
        Some(found) => *found == Some(other),
        None => false,
    }
}

// The body of the definition that the expression reads at the point itself, or the operand of a conversion that changes nothing.
fn simplified<'a>(on: &Ranged<'a>, e: &'a Expr) -> Option<&'a Expr>
    requires ranges { AreRangesOf on.now.program.now on.now.ranges.now }
    ensures { IfSome result (λ a. StandsFor on.now.program.now (tree_of e.now) (tree_of a.now)) }
{
    match defining(on.program, e) {
        Some(body) => Some(body),
        None => unneeded(on, e),
    }
}

// Whether an expression of the new program is a read by this step of the counterpart of an image of the old program, without conversions that change nothing, and with bodies in place of what is read at the point itself.
fn reads_pair(on: &Compared<'_>, image: u32, step: Step, b: &Expr) -> bool
    requires { CanCompare on.now.old.program.now on.now.new.program.now on.now.old.ranges.now on.now.new.ranges.now on.now.pairs.now }
    ensures { IsTrue result → HaveSameValue on.now.old.program.now on.now.new.program.now (read step.edge image step.dx step.dy) (tree_of b.now) }
{
    let mut now = b;
    for _ in 0..MAX_INLINED_DEPTH {
        match read_image(now, step.edge, step.dx, step.dy) {
            Some(other) if is_pair(on.pairs, image, other) => return true,
            _ => {}
        }
        match simplified(&on.new, now) {
            Some(other) => now = other,
            None => return false,
        }
    }
    false
}

// Whether the expression is 1 at the points whose move is in the frame, and 0 at the others.
fn is_frame_test(new: &Program, e: &Expr, dx: i32, dy: i32) -> bool
    ensures { IsTrue result → IsFrameTest new.now dx dy (tree_of e.now) }
{
    match shifted_body(unfolded(new, e), Edge::Zero, dx, dy) {
        Some(body) => match constant_type(body, 1) {
            Some(_) => true,
            None => false,
        },
        None => false,
    }
}

// The arm of a choice that is taken where the moved point is in the frame, if the other arm is 0.
fn framed_arm<'a>(new: &Program, e: &'a Expr, dx: i32, dy: i32) -> Option<&'a Expr>
    ensures { IfSome result (λ arm. IsFramed new.now dx dy (tree_of e.now) (tree_of arm.now)) }
{
    let (condition, arm, other) = select_operands(e)?;
    let _zero = constant_type(other, 0)?;
    if is_frame_test(new, condition, dx, dy) {
        Some(arm)
    } else {
        None
    }
}

// A part of the new program, and where it is compared.
#[derive(Clone, Copy)]
struct Part<'a> {
    to: Step,
    body: &'a Expr,
}

// Where a read of an inline body that is 0 outside the frame is a choice by the frame test: the arm with the body.
fn framed_part<'a>(new: &'a Program, at: Step, by: Step, b: &'a Expr) -> Option<Part<'a>>
    ensures { IfSome result (λ p. ShowsShifted new.now at by.edge by.dx by.dy p.to (tree_of p.body.now) (tree_of b.now)) }
{
    let to = pushed(at, by)?;
    match to.edge {
        Edge::Clamp => None,
        Edge::Zero => {
            let body = framed_arm(new, unfolded(new, b), to.dx, to.dy)?;
            Some(Part { to, body })
        }
    }
}

// The part that is compared with an inline body which is read by this step from a moved point.
fn part_of<'a>(new: &'a Program, at: Step, by: Step, b: &'a Expr) -> Option<Part<'a>>
    ensures { IfSome result (λ p. ShowsShifted new.now at by.edge by.dx by.dy p.to (tree_of p.body.now) (tree_of b.now)) }
{
    match pushed_shift(at, by) {
        Some(to) => Some(Part { to, body: b }),
        None => {
            let part = framed_part(new, at, by, b)?;
            Some(part)
        }
    }
}

// Two programs that are compared, with the intervals of their images: for images of the old one, by number, an image of the new one with the same picture, or none.
#[derive(Clone, Copy)]
pub struct Compared<'a> {
    pub old: Ranged<'a>,
    pub new: Ranged<'a>,
    pub pairs: &'a [Option<u32>],
}

// The factors of a product that is written otherwise than as a product.
fn product_factors<'a>(on: &Ranged<'a>, op: Binary, e: &'a Expr) -> Option<Factors<'a>>
    requires ranges { AreRangesOf on.now.program.now on.now.ranges.now }
    ensures { IfSome result (λ f. StandsFor on.now.program.now (tree_of e.now) (binary op (tree_of f.left.now) (tree_of f.right.now))) }
{
    match op {
        Binary::Multiply => {
            let found = divided_factors(on, e)?;
            Some(found)
        }
        Binary::Add | Binary::Subtract | Binary::And | Binary::Or | Binary::Xor => None,
        Binary::Min | Binary::Max | Binary::Less | Binary::LessOrEqual => None,
        Binary::Greater | Binary::GreaterOrEqual | Binary::Equal | Binary::NotEqual => None,
    }
}

// Whether an expression of the new program has, at each point, the value that one of the old program has at the moved point, where that is seen.
fn has_same_moved(on: &Compared<'_>, at: Step, a: &Expr, b: &Expr) -> bool
    requires { CanCompare on.now.old.program.now on.now.new.program.now on.now.old.ranges.now on.now.new.ranges.now on.now.pairs.now }
    ensures { IsTrue result → HaveSameMoved on.now.old.program.now on.now.new.program.now at.edge at.dx at.dy (tree_of a.now) (tree_of b.now) }
{
    on.old.program.law();
    if is_here(at) && reads_behind(on, a, b) {
        return true;
    }
    let e = aligned(&on.new, a, b);
    match a {
        Expr::Constant(value, _) => match constant_type(e, *value) {
            Some(_) => true,
            None => false,
        },
        Expr::Read(edge, image, dx, dy) => match pushed(at, Step::new(*edge, *dx, *dy)) {
            Some(step) => reads_pair(on, *image, step, b),
            None => false,
        },
        Expr::Shifted(edge, dx, dy, body) => match pushed(at, Step::new(*edge, *dx, *dy)) {
            Some(step) => match shifted_body(e, step.edge, step.dx, step.dy) {
                Some(other) => has_same_moved(on, HERE, body, other),
                None => match part_of(on.new.program, at, Step::new(*edge, *dx, *dy), b) {
                    Some(part) => has_same_moved(on, part.to, body, part.body),
                    None => false,
                },
            },
            None => false,
        },
        Expr::Unary(op, operand) => match unary_operand(e, *op) {
            Some(other) => has_same_moved(on, at, operand, other),
            None => false,
        },
        Expr::Binary(op, left, right) => match binary_operands(e, *op) {
            Some((l, r)) => has_same_moved(on, at, left, l) && has_same_moved(on, at, right, r),
            None => match product_factors(&on.new, *op, e) {
                Some(factors) => {
                    has_same_moved(on, at, left, factors.left)
                        && has_same_moved(on, at, right, factors.right)
                }
                None => false,
            },
        },
        Expr::Select(condition, left, right) => match select_operands(e) {
            Some((c, l, r)) => {
                has_same_moved(on, at, condition, c)
                    && has_same_moved(on, at, left, l)
                    && has_same_moved(on, at, right, r)
            }
            None => false,
        },
        Expr::Convert(how, operand, ty) => match converted_operand(e, *how, *ty) {
            Some(other) => has_same_moved(on, at, operand, other),
            None => {
                if !is_unneeded(&on.old, *how, operand, *ty) {
                    return false;
                }
                has_same_moved(on, at, operand, b)
            }
        },
        Expr::Scale(op, operand, by) => match scaled_operand(e, *op, *by) {
            Some(other) => has_same_moved(on, at, operand, other),
            None => false,
        },
    }
}

// Whether an expression of the new program has the value of one of the old program.
pub fn has_same_value(on: &Compared<'_>, a: &Expr, b: &Expr) -> bool
    requires { CanCompare on.now.old.program.now on.now.new.program.now on.now.old.ranges.now on.now.new.ranges.now on.now.pairs.now }
    ensures { IsTrue result → HaveSameValue on.now.old.program.now on.now.new.program.now (tree_of a.now) (tree_of b.now) }
{
    has_same_moved(on, HERE, a, b)
}
