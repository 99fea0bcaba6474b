// The levels of expressions.

ghost use Rattle.std.specs.Prelude.{◌≡◌, ◌+◌, ◌*◌, ◌<◌, ◌≤◌, length, max, slice_get, slice_index_or, Some, IfSome, unwrap_or};
ghost use Rattle.pointwise_ir.specs.Trees.{Tree, tree_of, depth_of};
ghost use Rattle.pointwise_ir.specs.Programs.{bodies_of};
ghost use Rattle.dk_base.specs.declared.TheConstants.{MAX_INLINED_DEPTH};
ghost use Rattle.pointwise_ir.specs.declared.program.Definition.{Definition};
ghost use Rattle.body_levels.specs.Levels as levels;
ghost use Rattle.body_levels.specs.Deep.{image_levels};

use crate::operators::{
    binary_levels, conversion_levels, scaling_levels, select_levels, unary_levels,
};
use pointwise_ir::{Edge, Expr, Program};

// A clamped read with an offset chooses among the taps of its image.
pub(crate) fn choice(edge: Edge, dx: i32, dy: i32) -> u32
    ensures is { result ≡ levels.choice edge dx dy }
    ensures most { result ≤ 1 }
{
    match edge {
        Edge::Zero => 0,
        Edge::Clamp => { if dx == 0 && dy == 0 { 0 } else { 1 } }
    }
}

// Whether the number is a power of two.
fn is_power(value: i128) -> bool
    ensures { result ≡ levels.is_power value }
{
    if value < 0 {
        return false;
    }
    (value as u128).is_power_of_two()
}

// Whether the expression is a power of two that the program writes.
fn is_constant_power(e: &Expr) -> bool
    ensures { result ≡ levels.is_constant_power (tree_of e.now) }
{
    match e {
        Expr::Constant(value, _) => is_power(*value),
        _ => false,
    }
}

// Whether an operand is a power of two that the program writes.
pub(crate) fn has_power(left: &Expr, right: &Expr) -> bool
    ensures { result ≡ levels.has_power (tree_of left.now) (tree_of right.now) }
{
    is_constant_power(left) || is_constant_power(right)
}

// This many levels more, unless there is no read.
fn above(more: u32, below: Option<u32>) -> Option<u32>
    requires more { more ≤ 2 }
    requires below { IfSome below (λ n. n ≤ 2 * MAX_INLINED_DEPTH) }
    ensures { result ≡ levels.above more below }
{
    let below = below?;
    Some(more + below)
}

pub(crate) fn greater(a: u32, b: u32) -> u32
    ensures { result ≡ max a b }
{
    a.max(b)
}

// The more levels of two parts.
pub(crate) fn deeper(a: Option<u32>, b: Option<u32>) -> Option<u32>
    ensures { result ≡ levels.deeper a b }
{
    match a {
        None => b,
        Some(one) => match b {
            None => Some(one),
            Some(other) => Some(greater(one, other)),
        },
    }
}

// The levels of a read, or of the shift of an inline body.
fn moved(edge: Edge, dx: i32, dy: i32, body: Option<u32>) -> Option<u32>
    requires body { IfSome body (λ n. n ≤ 2 * MAX_INLINED_DEPTH) }
    ensures is { result ≡ Some (levels.choice edge dx dy + unwrap_or body 0) }
{
    Some(choice(edge, dx, dy) + body.unwrap_or(0))
}

// The levels of an expression; None if it has no read.
pub(crate) fn level(e: &Expr) -> Option<u32>
    requires shallow { depth_of (tree_of e.now) ≤ MAX_INLINED_DEPTH }
    ensures is { result ≡ levels.level (tree_of e.now) }
    ensures most { IfSome result (λ n. n ≤ 2 * depth_of (tree_of e.now)) }
{
    match e {
        Expr::Constant(_, _) => None,
        Expr::Read(edge, _, dx, dy) => Some(choice(*edge, *dx, *dy)),
        Expr::Shifted(edge, dx, dy, body) => moved(*edge, *dx, *dy, level(body)),
        Expr::Unary(op, operand) => above(unary_levels(*op), level(operand)),
        Expr::Binary(op, left, right) => above(
            binary_levels(*op, has_power(left, right)),
            deeper(level(left), level(right)),
        ),
        Expr::Select(condition, left, right) => above(
            select_levels(),
            deeper(level(condition), deeper(level(left), level(right))),
        ),
        Expr::Convert(how, operand, _) => above(conversion_levels(*how), level(operand)),
        Expr::Scale(op, operand, by) => above(scaling_levels(*op, *by), level(operand)),
    }
}

// The levels of the body of the k-th image that is no input.
pub fn level_at(program: &Program, k: usize) -> u32
    requires there { k < length program.now.images }
    ensures body { (d : Tree) → result ≡ levels.level_of (slice_index_or (bodies_of program.now) k d) }
    ensures image { (d : Definition) → slice_get program.now.images k ≡ Some d → result ≡ image_levels d }
{
    program.law();
    let image = &program.images()[k];
    level(&image.body).unwrap_or(0)
}

/// The most levels of operators of a body of the program; 0 where each body is a constant or a read at the point itself.
pub fn greatest_level(program: &Program) -> u32
    ensures { result ≡ levels.greatest_level (bodies_of program.now) }
{
    let mut most = 0;
    for k in 0..program.images().len() {
        most = greater(most, level_at(program, k));
    }
    most
}
