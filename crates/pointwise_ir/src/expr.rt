// Expressions over the pixels of images.

ghost use Rattle.std.specs.Prelude.{◌≡◌, IfOk};
ghost use Rattle.pointwise_ir.specs.Trees.{tree_of};

use dk_base::{Binary, Conversion, OutOfMemory, Scaling, Ty, Unary};
use std::alloc::Global;

/// What takes the place of a picture outside the frame: 0, or the pixel at the nearest point of the frame, each coordinate by itself.
#[derive(Clone, Copy, Debug, PartialEq, Eq)]
pub enum Edge {
    Zero,
    Clamp,
}

/// An expression, which has a value at each point of the frame.
///
/// `Read` is the pixel of an image at `dx` columns to the right and `dy` rows down, and `Shifted` the value of its body there: an inline image that is read. A constant has its type beside it. `Convert` brings a value into the range of its type.
#[derive(Drop)]
pub enum Expr {
    Constant(i128, Ty),
    Read(Edge, u32, i32, i32),
    Shifted(Edge, i32, i32, Box<Expr>),
    Unary(Unary, Box<Expr>),
    Binary(Binary, Box<Expr>, Box<Expr>),
    Select(Box<Expr>, Box<Expr>, Box<Expr>),
    Convert(Conversion, Box<Expr>, Ty),
    Scale(Scaling, Box<Expr>, u64),
}

impl Expr {
    // An equal expression in a box.
    #[cycle(copy)]
    fn boxed_copy(&self, alloc: Global) -> Result<Box<Expr>, OutOfMemory>
        ensures { IfOk result (λ e. tree_of e.value ≡ tree_of self.now) }
    {
        let copied = self.copy(alloc)?;
        Ok(Box::new(alloc, copied)?)
    }

    /// An equal expression.
    #[cycle(copy)]
    pub fn copy(&self, alloc: Global) -> Result<Expr, OutOfMemory>
        ensures { IfOk result (λ e. tree_of e ≡ tree_of self.now) }
    {
        Ok(match self {
            Expr::Constant(value, ty) => Expr::Constant(*value, *ty),
            Expr::Read(edge, image, dx, dy) => Expr::Read(*edge, *image, *dx, *dy),
            Expr::Shifted(edge, dx, dy, body) => {
                Expr::Shifted(*edge, *dx, *dy, body.boxed_copy(alloc)?)
            }
            Expr::Unary(op, body) => Expr::Unary(*op, body.boxed_copy(alloc)?),
            Expr::Binary(op, left, right) => {
                Expr::Binary(*op, left.boxed_copy(alloc)?, right.boxed_copy(alloc)?)
            }
            Expr::Select(condition, left, right) => Expr::Select(
                condition.boxed_copy(alloc)?,
                left.boxed_copy(alloc)?,
                right.boxed_copy(alloc)?,
            ),
            Expr::Convert(how, body, ty) => Expr::Convert(*how, body.boxed_copy(alloc)?, *ty),
            Expr::Scale(op, body, by) => Expr::Scale(*op, body.boxed_copy(alloc)?, *by),
        })
    }
}
