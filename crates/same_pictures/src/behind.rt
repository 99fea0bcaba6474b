// Parts of the old program that the new one reads at an offset: definitions that are equal to a part but for a move.

ghost use Rattle.std.specs.Prelude.{IsTrue};
ghost use Rattle.pointwise_ir.specs.Trees.{tree_of, read};
ghost use Rattle.same_pictures.specs.Matching.{HaveSameValue, HaveSameBehind, VanishesOutside, CanCompare};

use crate::matching::{Compared, body_of, is_pair, unfolded};
use crate::moves::{Step, is_same_step, pushed};
use crate::operands::{
    binary_operands, converted_operand, is_constant, read_parts, scaled_operand, select_operands,
    unary_operand,
};
use dk_base::Binary;
use pointwise_ir::{Edge, Expr, meaning_law};

// Whether the expression is 0 at each point whose move is outside the frame: a read there, or a product with one.
#[tactic(auto, using(crate::proofs::Numbers::scaling_zero))]
fn vanishes(e: &Expr, dx: i32, dy: i32) -> bool
    ensures { IsTrue result → VanishesOutside dx dy (tree_of e.now) }
{
    match e {
        Expr::Read(Edge::Zero, _, across, down) => *across == dx && *down == dy,
        Expr::Read(Edge::Clamp, _, _, _) => false,
        Expr::Constant(_, _) | Expr::Shifted(_, _, _, _) => false,
        Expr::Unary(_, _) | Expr::Select(_, _, _) => false,
        Expr::Binary(Binary::Multiply, left, right) => {
            vanishes(left, dx, dy) || vanishes(right, dx, dy)
        }
        Expr::Binary(_, _, _) => false,
        Expr::Convert(_, operand, _) => vanishes(operand, dx, dy),
        Expr::Scale(_, operand, _) => vanishes(operand, dx, dy),
    }
}

// Whether an expression of the new program reads, from the point that is seen by `step`, what the counterpart's read in the old one reads here.
fn reads_same_behind(on: &Compared<'_>, step: Step, image: u32, by: Step, e: &Expr) -> bool
    requires { CanCompare on.now.old.program.now on.now.new.program.now on.now.old.ranges.now on.now.new.ranges.now on.now.pairs.now }
    ensures { IsTrue result → HaveSameBehind on.now.old.program.now on.now.new.program.now step.edge step.dx step.dy (read by.edge image by.dx by.dy) (tree_of e.now) }
{
    on.old.program.law();
    let Some(other) = read_parts(e) else {
        return false;
    };
    if !is_pair(on.pairs, image, other.image) {
        return false;
    }
    match pushed(step, other.step) {
        Some(to) => is_same_step(to, by),
        None => false,
    }
}

// Whether an expression of the new program has, at the point that is seen by the step, the value that one of the old program has here.
fn has_same_behind(on: &Compared<'_>, step: Step, a: &Expr, b: &Expr) -> bool
    requires { CanCompare on.now.old.program.now on.now.new.program.now on.now.old.ranges.now on.now.new.ranges.now on.now.pairs.now }
    ensures { IsTrue result → HaveSameBehind on.now.old.program.now on.now.new.program.now step.edge step.dx step.dy (tree_of a.now) (tree_of b.now) }
{
    on.old.program.law();
    let e = unfolded(on.new.program, b);
    match a {
        Expr::Constant(value, ty) => is_constant(e, *value, *ty),
        Expr::Read(edge, image, dx, dy) => {
            reads_same_behind(on, step, *image, Step::new(*edge, *dx, *dy), e)
        }
        Expr::Shifted(_, _, _, _) => false,
        Expr::Unary(op, operand) => match unary_operand(e, *op) {
            Some(other) => has_same_behind(on, step, operand, other),
            None => false,
        },
        Expr::Binary(op, left, right) => match binary_operands(e, *op) {
            Some((l, r)) => has_same_behind(on, step, left, l)
                && has_same_behind(on, step, right, r),
            None => false,
        },
        Expr::Select(condition, left, right) => match select_operands(e) {
            Some((c, l, r)) => {
                has_same_behind(on, step, condition, c)
                    && has_same_behind(on, step, left, l)
                    && has_same_behind(on, step, right, r)
            }
            None => false,
        },
        Expr::Convert(how, operand, ty) => match converted_operand(e, *how, *ty) {
            Some(other) => has_same_behind(on, step, operand, other),
            None => false,
        },
        Expr::Scale(op, operand, by) => match scaled_operand(e, *op, *by) {
            Some(other) => has_same_behind(on, step, operand, other),
            None => false,
        },
    }
}

// Whether an expression of the new program is a read of a definition that has, at the point that is read, the value that one of the old program has here; and where that point is outside the frame, the one of the old program is 0 too.
pub fn reads_behind(on: &Compared<'_>, a: &Expr, b: &Expr) -> bool
    requires { CanCompare on.now.old.program.now on.now.new.program.now on.now.old.ranges.now on.now.new.ranges.now on.now.pairs.now }
    ensures { IsTrue result → HaveSameValue on.now.old.program.now on.now.new.program.now (tree_of a.now) (tree_of b.now) }
{
    on.old.program.law();
    meaning_law(on.new.program);
    let e = unfolded(on.new.program, b);
    let Some(read) = read_parts(e) else {
        return false;
    };
    let Some(body) = body_of(on.new.program, read.image) else {
        return false;
    };
    if !has_same_behind(on, read.step, a, body) {
        return false;
    }
    match read.step.edge {
        Edge::Clamp => true,
        Edge::Zero => vanishes(a, read.step.dx, read.step.dy),
    }
}
