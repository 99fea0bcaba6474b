// Constants in place of what has no read.

ghost use Rattle.std.specs.Prelude.{◌≡◌, ℕ, ◌<◌, All, IsOk, IfOk, length, slice_index_or};
ghost use Rattle.pointwise_ir.specs.Trees.{constant, unary, binary, select, convert, scale, tree_of};
ghost use Rattle.pointwise_ir.specs.Programs.{IsProgram, program_of};
ghost use Rattle.pointwise_ir.specs.Passes.{KeepsMeaning};
ghost use Rattle.dk_inline.specs.Folded.{HasFoldedParts, IsConstant, IsFolded, IsFolding};
ghost use Rattle.dk_inline.specs.Standing.{FindsConstant, Folds, FoldsOperands, FoldsProgram, IsConstantIn, IsFoldable, IsFoldedImage, IsTyped};
ghost use Rattle.pointwise_ir.specs.declared.program.Definition.{Definition};

use dk_base::{Binary, Conversion, OutOfMemory, Scaling, Ty, Unary, select_type};
use pointwise_ir::{
    Definition, Expr, Parts, Program, Rewrite, binary_value, conversion_value, rewriting_law,
    scaling_value, select_value, unary_value,
};
use std::alloc::Global;

/// Replaces each part without a read and without a shift by its one constant, of the same type. It takes no memory.
#[derive(Drop)]
pub struct Fold;

impl Rewrite for Fold {
    ghost gives = { λ _ p. IsFolded p };

    fn apply(&self, _alloc: Global, ir: Program) -> Result<Program, OutOfMemory>
        ensures made { IsOk result }
        ensures meaning { IfOk result (λ new. KeepsMeaning ir new) }
        ensures gives { IfOk result (λ new. IsFolded new) }
        ensures folding { IfOk result (λ new. IsFolding ir new) }
    {
        ir.law();
        let mut parts = ir.into_parts();
        fold_parts(&mut parts);
        rewriting_law();
        Ok(Program::new(parts))
    }
}

// A constant: its value, and its type.
#[derive(Clone, Copy)]
struct Constant {
    value: i128,
    ty: Ty,
}

// The constant that the expression is, where it is one.
fn constant_in(e: &Expr) -> Option<Constant>
    ensures { IsConstantIn (tree_of e.now) result }
{
    match e {
        Expr::Constant(value, ty) => Some(Constant {
            value: *value,
            ty: *ty,
        }),
        _ => None,
    }
}

// The constant that an operator of one operand gives, where the operand is one.
fn unary_constant(op: Unary, operand: &Expr) -> Option<Constant>
    requires { IsTyped (unary op (tree_of operand.now)) }
    ensures { FindsConstant (unary op (tree_of operand.now))
        (IsConstant (tree_of operand.now) → ⊥) result }
{
    let operand = constant_in(operand)?;
    let ty = op.result_type(operand.ty)?;
    let value = unary_value(op, operand.value);
    Some(Constant { value, ty })
}

// The constant that an operator of two operands gives, where both are one.
fn binary_constant(op: Binary, left: &Expr, right: &Expr) -> Option<Constant>
    requires { IsTyped (binary op (tree_of left.now) (tree_of right.now)) }
    ensures { FindsConstant (binary op (tree_of left.now) (tree_of right.now))
        (IsConstant (tree_of left.now) → IsConstant (tree_of right.now) → ⊥) result }
{
    let left = constant_in(left)?;
    let right = constant_in(right)?;
    let ty = op.result_type(left.ty, right.ty)?;
    let value = binary_value(op, left.value, right.value);
    Some(Constant { value, ty })
}

// The constant that a choice gives, where the condition and both arms are one.
fn select_constant(condition: &Expr, left: &Expr, right: &Expr) -> Option<Constant>
    requires { IsTyped (select (tree_of condition.now) (tree_of left.now) (tree_of right.now)) }
    ensures { FindsConstant (select (tree_of condition.now) (tree_of left.now) (tree_of right.now))
        (IsConstant (tree_of condition.now) → IsConstant (tree_of left.now)
        → IsConstant (tree_of right.now) → ⊥) result }
{
    let condition = constant_in(condition)?;
    let left = constant_in(left)?;
    let right = constant_in(right)?;
    let ty = select_type(condition.ty, left.ty, right.ty)?;
    let value = select_value(condition.value, left.value, right.value);
    Some(Constant { value, ty })
}

// The constant that a conversion gives, where the operand is one.
fn converted_constant(how: Conversion, operand: &Expr, ty: Ty) -> Option<Constant>
    requires { IsTyped (convert how (tree_of operand.now) ty) }
    ensures { FindsConstant (convert how (tree_of operand.now) ty)
        (IsConstant (tree_of operand.now) → ⊥) result }
{
    let operand = constant_in(operand)?;
    let value = conversion_value(how, ty, operand.value);
    Some(Constant { value, ty })
}

// The constant that a division or a shift of bits gives, where the operand is one.
fn scaled_constant(op: Scaling, operand: &Expr, by: u64) -> Option<Constant>
    requires { IsTyped (scale op (tree_of operand.now) by) }
    ensures { FindsConstant (scale op (tree_of operand.now) by)
        (IsConstant (tree_of operand.now) → ⊥) result }
{
    let operand = constant_in(operand)?;
    let ty = op.result_type(operand.ty, by)?;
    let value = scaling_value(op, operand.value, by);
    Some(Constant { value, ty })
}

// The constant that the expression gives, where its operands are constants.
fn constant_of(e: &Expr) -> Option<Constant>
    requires { IsFoldable (tree_of e.now) }
    ensures { FindsConstant (tree_of e.now) (HasFoldedParts (tree_of e.now)) result }
{
    match e {
        Expr::Constant(..) | Expr::Read(..) | Expr::Shifted(..) => None,
        Expr::Unary(op, operand) => unary_constant(*op, operand),
        Expr::Binary(op, left, right) => binary_constant(*op, left, right),
        Expr::Select(condition, left, right) => select_constant(condition, left, right),
        Expr::Convert(how, operand, ty) => converted_constant(*how, operand, *ty),
        Expr::Scale(op, operand, by) => scaled_constant(*op, operand, *by),
    }
}

// Puts the constant in place of the expression.
fn put(e: &mut Expr, by: Constant)
    ensures { tree_of e.new ≡ constant by.value by.ty }
{
    *e = Expr::Constant(by.value, by.ty);
}

// Folds each operand.
#[cycle(fold)]
fn fold_operands(e: &mut Expr)
    requires { IsTyped (tree_of e.old) }
    ensures { FoldsOperands (tree_of e.old) (tree_of e.new) }
{
    match e {
        Expr::Constant(..) | Expr::Read(..) => {}
        Expr::Shifted(_, _, _, body) => fold_expression(body),
        Expr::Unary(_, operand) => fold_expression(operand),
        Expr::Binary(_, left, right) => {
            fold_expression(left);
            fold_expression(right);
        }
        Expr::Select(condition, left, right) => {
            fold_expression(condition);
            fold_expression(left);
            fold_expression(right);
        }
        Expr::Convert(_, operand, _) => fold_expression(operand),
        Expr::Scale(_, operand, _) => fold_expression(operand),
    }
}

// Makes each part without a read and without a shift a constant, from the innermost on.
#[cycle(fold)]
fn fold_expression(e: &mut Expr)
    requires { IsTyped (tree_of e.old) }
    ensures { Folds (tree_of e.old) (tree_of e.new) }
{
    fold_operands(e);
    if let Some(constant) = constant_of(e) {
        put(e, constant);
    }
}

// Folds the body.
fn fold_image(image: &mut Definition)
    requires { IsTyped (tree_of image.old.body) }
    ensures { IsFoldedImage image.old image.new }
{
    fold_expression(&mut image.body);
}

// Folds each body.
fn fold_images(images: &mut [Definition])
    requires { All (λ d. IsTyped (tree_of d.body)) images.old }
    ensures { (k : ℕ) (d : Definition) → k < length images.old
        → IsFoldedImage (slice_index_or images.old k d) (slice_index_or images.new k d) }
{
    for image in images.iter_mut() {
        fold_image(image);
    }
}

// Folds each body of a program.
fn fold_parts(parts: &mut Parts)
    requires { IsProgram (program_of parts.old) }
    ensures { FoldsProgram (program_of parts.old) (program_of parts.new) }
{
    fold_images(parts.images.as_mut_slice());
}
