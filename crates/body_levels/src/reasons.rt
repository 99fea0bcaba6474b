// Why bodies have more levels than was asked.

ghost use Rattle.std.specs.Prelude.{◌≡◌, ◌<◌, ◌≤◌, ◌*◌, ◌++◌, [], ◌∷◌, IfOk, IfSome, OnOk, length, filter, map, slice_get, unwrap_or, Some};
ghost use Rattle.dk_base.specs.declared.TheConstants.{MAX_INLINED_DEPTH};
ghost use Rattle.pointwise_ir.specs.declared.program.Definition.{Definition};
ghost use Rattle.pointwise_ir.specs.Trees.{tree_of, depth_of};
ghost use Rattle.body_levels.specs.Levels as levels;
ghost use Rattle.body_levels.specs.Deep.{is_deep as is_deep_body};
ghost use Rattle.body_levels.specs.Reasons as reasons;

use crate::deep::is_deep;
use crate::level::{choice, deeper, greater, has_power, level, level_at};
use crate::operators::{
    binary_levels, conversion_levels, scaling_levels, select_levels, unary_levels,
};
use crate::room::lacks_room;
use dk_base::{MAX_NAME_BYTES, OutOfMemory, Text};
use pointwise_ir::{Expr, Program};
use std::alloc::Global;

/// Why a body has more levels than was asked: the first of these that holds.
#[derive(Debug, Clone, Copy, PartialEq, Eq)]
pub enum Reason {
    /// One operator of it, as `min`, has all of its levels.
    Operator,
    /// The name of a piece would be too long.
    Name,
    /// A program has no room for the pieces of its bodies.
    Limit,
    /// An inline image that it reads has more levels than was asked.
    Moved,
    /// The text with this body cut was not confirmed.
    Unconfirmed,
}

/// A definition by its name, and why its body has more levels than was asked.
#[derive(Drop)]
pub struct DeepBody {
    pub name: Text,
    pub reason: Reason,
}

// At least this many levels, unless there is no read.
fn at_least(least: u32, below: Option<u32>) -> Option<u32>
    ensures { result ≡ reasons.at_least least below }
{
    let below = below?;
    Some(greater(least, below))
}

// The most levels that one operator adds by itself; None if there is no read.
fn greatest_own(e: &Expr) -> Option<u32>
    ensures { result ≡ reasons.greatest_own (tree_of e.now) }
{
    match e {
        Expr::Constant(_, _) => None,
        Expr::Read(edge, _, dx, dy) => Some(choice(*edge, *dx, *dy)),
        Expr::Shifted(edge, dx, dy, body) => Some(greater(
            choice(*edge, *dx, *dy),
            greatest_own(body).unwrap_or(0),
        )),
        Expr::Unary(op, operand) => at_least(unary_levels(*op), greatest_own(operand)),
        Expr::Binary(op, left, right) => at_least(
            binary_levels(*op, has_power(left, right)),
            deeper(greatest_own(left), greatest_own(right)),
        ),
        Expr::Select(condition, left, right) => {
            let branches = deeper(greatest_own(left), greatest_own(right));
            at_least(select_levels(), deeper(greatest_own(condition), branches))
        }
        Expr::Convert(how, operand, _) => at_least(conversion_levels(*how), greatest_own(operand)),
        Expr::Scale(op, operand, by) => at_least(scaling_levels(*op, *by), greatest_own(operand)),
    }
}

// Whether all levels of the expression are those of one operator.
fn is_one_operator(e: &Expr) -> bool
    requires shallow { depth_of (tree_of e.now) ≤ MAX_INLINED_DEPTH }
    ensures { result ≡ reasons.is_one_operator (tree_of e.now) }
{
    let own = greatest_own(e).unwrap_or(0);
    let levels = level(e).unwrap_or(0);
    !(own < levels)
}

// Whether the body of an inline image in the expression has more than `most` levels.
fn has_deep_move(e: &Expr, most: u32) -> bool
    requires shallow { depth_of (tree_of e.now) ≤ MAX_INLINED_DEPTH }
    ensures { result ≡ reasons.has_deep_move most (tree_of e.now) }
{
    match e {
        Expr::Constant(_, _) | Expr::Read(_, _, _, _) => false,
        Expr::Shifted(_, _, _, _) => most < level(e).unwrap_or(0),
        Expr::Unary(_, operand) => has_deep_move(operand, most),
        Expr::Binary(_, left, right) => has_deep_move(left, most) || has_deep_move(right, most),
        Expr::Select(condition, left, right) => {
            let branches = has_deep_move(left, most) || has_deep_move(right, most);
            has_deep_move(condition, most) || branches
        }
        Expr::Convert(_, operand, _) => has_deep_move(operand, most),
        Expr::Scale(_, operand, _) => has_deep_move(operand, most),
    }
}

// Whether the name of a piece would be too long.
fn is_long_name(name: &[u8]) -> bool
    ensures { result ≡ reasons.is_long_name name.now }
{
    MAX_NAME_BYTES < name.len() + 2
}

// The first reason that holds.
fn first_reason(is_operator: bool, is_name: bool, is_limit: bool, is_moved: bool) -> Reason
    ensures { result ≡ reasons.first_reason is_operator is_name is_limit is_moved }
{
    if is_operator {
        Reason::Operator
    } else if is_name {
        Reason::Name
    } else if is_limit {
        Reason::Limit
    } else if is_moved {
        Reason::Moved
    } else {
        Reason::Unconfirmed
    }
}

// Why the body of the k-th image has more than `most` levels.
fn reason_at(program: &Program, k: usize, most: u32, is_limit: bool) -> Reason
    requires there { k < length program.now.images }
    ensures { (d : Definition) → slice_get program.now.images k ≡ Some d
        → result ≡ reasons.first_reason (reasons.is_one_operator (tree_of d.body)) (reasons.is_long_name d.name) is_limit (reasons.has_deep_move most (tree_of d.body)) }
{
    program.law();
    let image = &program.images()[k];
    let is_operator = is_one_operator(&image.body);
    let is_name = is_long_name(image.name.as_bytes());
    let is_moved = has_deep_move(&image.body, most);
    first_reason(is_operator, is_name, is_limit, is_moved)
}

// Adds the k-th image if its body has more than `most` levels.
fn note_deep(
    alloc: Global,
    program: &Program,
    k: usize,
    most: u32,
    is_limit: bool,
    deep: &mut Vec<DeepBody>,
) -> Result<(), OutOfMemory>
    requires there { k < length program.now.images }
    requires limit { is_limit ≡ reasons.lacks_room most program.now }
    ensures { OnOk result ((d : Definition) → slice_get program.now.images k ≡ Some d
        → deep.new.items ≡ deep.old.items ++ map (reasons.deep_body most program.now) (filter (is_deep_body most) (d ∷ []))) }
{
    if !is_deep(program, k, most) {
        return Ok(());
    }
    let name = Text::new(Vec::from_slice(alloc, program.images()[k].name.as_bytes())?);
    let reason = reason_at(program, k, most, is_limit);
    deep.push(DeepBody { name, reason })?;
    Ok(())
}

/// The definitions whose bodies have more than `most` levels, in order, each with the reason.
pub fn deep_bodies(
    alloc: Global,
    program: &Program,
    most: u32,
) -> Result<Vec<DeepBody>, OutOfMemory>
    requires most { most ≤ 255 }
    ensures { IfOk result (λ deep. deep.items ≡ reasons.deep_bodies most program.now) }
{
    let is_limit = lacks_room(program, most);
    let mut deep = Vec::new(alloc);
    for k in 0..program.images().len() {
        note_deep(alloc, program, k, most, is_limit, &mut deep)?;
    }
    Ok(deep)
}
