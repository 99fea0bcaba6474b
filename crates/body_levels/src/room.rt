// The pieces that the bodies of a program need.

ghost use Rattle.std.specs.Prelude.{◌≡◌, ◌+◌, ◌<◌, ◌≤◌, ℕ, IfSome, Some, length, min, slice_index_or};
ghost use Rattle.pointwise_ir.specs.Trees.{Tree, tree_of};
ghost use Rattle.pointwise_ir.specs.Programs.{bodies_of};
ghost use Rattle.body_levels.specs.Levels.{above as levels_above};
ghost use Rattle.body_levels.specs.Reasons as reasons;
ghost use Rattle.body_levels.specs.Counted.{IsCount};

use crate::level::{choice, deeper, has_power};
use crate::operators::{
    binary_levels, conversion_levels, scaling_levels, select_levels, unary_levels,
};
use dk_base::MAX_DEFINITIONS;
use pointwise_ir::{Expr, Program};

// An expression that was cut: its levels, None if it has no read, and its pieces, at most 2^32 - 1.
#[derive(Clone, Copy)]
struct CutCount {
    levels: Option<u32>,
    pieces: u32,
}

// Whether an operand passes below an operator.
fn passes(most: u32, own: u32, levels: Option<u32>) -> bool
    requires own { own ≤ 2 }
    requires small { IfSome levels (λ n. n ≤ 257) }
    ensures { result ≡ reasons.passes most own levels }
{
    match levels {
        None => false,
        Some(levels) => 0 < own && (0 < levels && most < own + levels),
    }
}

// This many levels more, unless there is no read.
fn raised(own: u32, levels: Option<u32>) -> Option<u32>
    requires own { own ≤ 2 }
    requires small { IfSome levels (λ n. n ≤ 257) }
    ensures { result ≡ levels_above own levels }
{
    let levels = levels?;
    Some(own + levels)
}

// An operand with the operator above it.
fn under(most: u32, own: u32, operand: CutCount) -> CutCount
    requires most { most ≤ 255 }
    requires own { own ≤ 2 }
    requires small { IfSome operand.levels (λ n. n ≤ 257) }
    ensures { (c : reasons.Cutting) → IsCount operand c → IsCount result (reasons.under most own c) }
{
    if passes(most, own, operand.levels) {
        CutCount {
            levels: Some(own),
            pieces: operand.pieces.saturating_add(1),
        }
    } else {
        CutCount {
            levels: raised(own, operand.levels),
            pieces: operand.pieces,
        }
    }
}

// Two operands.
fn beside(a: CutCount, b: CutCount) -> CutCount
    ensures { (c d : reasons.Cutting) → IsCount a c → IsCount b d → IsCount result (reasons.beside c d) }
{
    CutCount {
        levels: deeper(a.levels, b.levels),
        pieces: a.pieces.saturating_add(b.pieces),
    }
}

// Not cut.
fn uncut(levels: Option<u32>) -> CutCount
    requires small { IfSome levels (λ n. n ≤ 257) }
    ensures { IsCount result (reasons.uncut levels) }
{
    CutCount { levels, pieces: 0 }
}

// An inline body with the choice of its read above it.
fn moved(most: u32, own: u32, body: CutCount) -> CutCount
    requires most { most ≤ 255 }
    requires own { own ≤ 2 }
    requires small { IfSome body.levels (λ n. n ≤ 257) }
    ensures { (c : reasons.Cutting) → IsCount body c → IsCount result (reasons.beside (reasons.uncut (Some own)) (reasons.under most own c)) }
{
    beside(uncut(Some(own)), under(most, own, body))
}

// Two operands with their operator above them.
fn double(most: u32, own: u32, a: CutCount, b: CutCount) -> CutCount
    requires most { most ≤ 255 }
    requires own { own ≤ 2 }
    requires small { IfSome a.levels (λ n. n ≤ 257) }
    requires small_other { IfSome b.levels (λ n. n ≤ 257) }
    ensures { (c d : reasons.Cutting) → IsCount a c → IsCount b d → IsCount result (reasons.beside (reasons.under most own c) (reasons.under most own d)) }
{
    beside(under(most, own, a), under(most, own, b))
}

// The condition of a choice with the choice above it, beside its two values.
fn triple(most: u32, own: u32, condition: CutCount, values: CutCount) -> CutCount
    requires most { most ≤ 255 }
    requires own { own ≤ 2 }
    requires small { IfSome condition.levels (λ n. n ≤ 257) }
    ensures { (c d : reasons.Cutting) → IsCount condition c → IsCount values d → IsCount result (reasons.beside (reasons.under most own c) d) }
{
    beside(under(most, own, condition), values)
}

// The expression with each operand that passes cut off.
fn cutting(e: &Expr, most: u32) -> CutCount
    requires most { most ≤ 255 }
    ensures { IsCount result (reasons.cutting most (tree_of e.now)) }
{
    match e {
        Expr::Constant(_, _) => uncut(None),
        Expr::Read(edge, _, dx, dy) => uncut(Some(choice(*edge, *dx, *dy))),
        Expr::Shifted(edge, dx, dy, body) => {
            moved(most, choice(*edge, *dx, *dy), cutting(body, most))
        }
        Expr::Unary(op, operand) => under(most, unary_levels(*op), cutting(operand, most)),
        Expr::Binary(op, left, right) => double(
            most,
            binary_levels(*op, has_power(left, right)),
            cutting(left, most),
            cutting(right, most),
        ),
        Expr::Select(condition, left, right) => {
            let own = select_levels();
            let values = double(most, own, cutting(left, most), cutting(right, most));
            triple(most, own, cutting(condition, most), values)
        }
        Expr::Convert(how, operand, _) => {
            under(most, conversion_levels(*how), cutting(operand, most))
        }
        Expr::Scale(op, operand, by) => {
            under(most, scaling_levels(*op, *by), cutting(operand, most))
        }
    }
}

// The pieces of the k-th body, at most 2^32 - 1.
fn pieces_at(program: &Program, k: usize, most: u32) -> u32
    requires there { k < length program.now.images }
    requires most { most ≤ 255 }
    ensures { (d : Tree) → result ≡ min (reasons.cutting most (slice_index_or (bodies_of program.now) k d)).pieces 4294967295 }
{
    cutting(&program.images()[k].body, most).pieces
}

// One more sum, at most 2^32 - 1.
fn sum(a: u32, b: u32) -> u32
    ensures { (m n : ℕ) → a ≡ min m 4294967295 → b ≡ min n 4294967295 → result ≡ min (m + n) 4294967295 }
{
    a.saturating_add(b)
}

// The pieces of all bodies, at most 2^32 - 1.
fn all_pieces(program: &Program, most: u32) -> u32
    requires most { most ≤ 255 }
    ensures { result ≡ min (reasons.pieces_of most (bodies_of program.now)) 4294967295 }
{
    let mut pieces = 0;
    for k in 0..program.images().len() {
        pieces = sum(pieces, pieces_at(program, k, most));
    }
    pieces
}

// Whether the program's definitions and the pieces of its bodies are more than a program may have.
pub(crate) fn lacks_room(program: &Program, most: u32) -> bool
    requires most { most ≤ 255 }
    ensures { result ≡ reasons.lacks_room most program.now }
{
    program.law();
    let definitions = program.images().len() as u64;
    let pieces = u64::from(all_pieces(program, most));
    let most_definitions = MAX_DEFINITIONS as u64;
    most_definitions < definitions + pieces
}
