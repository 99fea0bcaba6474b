// The value of an expression at a pixel.

ghost use Rattle.std.specs.Prelude.{◌≡◌, ◌<◌, pos, IfOk, length, map, slice_index_or};
ghost use Rattle.dk_base.specs.FrameSizes.{size_of};
ghost use Rattle.pointwise_ir.specs.Trees.{tree_of};
ghost use Rattle.dk_base.specs.Frames.{picture_at};
ghost use Rattle.pointwise_ir.specs.Meaning.{value};
ghost use Rattle.pointwise_eval.specs.Planes.{values_of, all_shown, IsPixel, IsWhole, CanEvaluate, ArePixelsOf};

use crate::plane::Plane;
use crate::point::{Point, step};
use dk_base::{FrameSize, OutOfMemory};
use pointwise_ir::{Expr, binary_value, conversion_value, scaling_value, unary_value};
use std::alloc::Global;
use value_rows::Element;

// An element as a value.
fn element_at<T: Element>(elements: &[T], place: usize) -> i128
    requires { place < length (map T.worth elements.now) }
    ensures { result ≡ slice_index_or (map T.worth elements.now) place (pos 0) }
{
    i128::from(elements[place].widen())
}

// A value of a plane.
fn value_of(plane: &Plane<'_>, place: usize) -> i128
    requires { place < length (values_of plane.now) }
    ensures { result ≡ slice_index_or (values_of plane.now) place (pos 0) }
{
    match plane {
        Plane::Input8(samples) => element_at(*samples, place),
        Plane::Input16(samples) => element_at(*samples, place),
        Plane::Unsigned8(elements) => element_at(elements, place),
        Plane::Unsigned16(elements) => element_at(elements, place),
        Plane::Unsigned32(elements) => element_at(elements, place),
        Plane::Signed8(elements) => element_at(elements, place),
        Plane::Signed16(elements) => element_at(elements, place),
        Plane::Signed32(elements) => element_at(elements, place),
        Plane::Signed64(elements) => element_at(elements, place),
        Plane::Wide(values) => values[place],
        Plane::Gone => 0,
    }
}

// The value of an image at a pixel.
fn sample(size: FrameSize, planes: &[Plane<'_>], image: u32, at: Point) -> i128
    requires whole { IsWhole (size_of size) planes.now image }
    requires pixel { IsPixel (size_of size) at.x at.y }
    ensures { result
        ≡ picture_at (all_shown (size_of size) planes.now) image (pos at.x) (pos at.y) }
{
    let place = at.y as usize * size.width as usize + at.x as usize;
    value_of(&planes[image as usize], place)
}

// The value of an expression at a pixel.
pub fn value_at(size: FrameSize, planes: &[Plane<'_>], e: &Expr, at: Point) -> i128
    requires can { CanEvaluate (size_of size) planes.now (tree_of e.now) }
    requires pixel { IsPixel (size_of size) at.x at.y }
    ensures { result ≡ value (size_of size) (all_shown (size_of size) planes.now)
        (tree_of e.now) (pos at.x) (pos at.y) }
{
    match e {
        Expr::Constant(value, _) => *value,
        Expr::Read(edge, image, dx, dy) => match step(size, *edge, at, *dx, *dy) {
            Some(there) => sample(size, planes, *image, there),
            None => 0,
        },
        Expr::Shifted(edge, dx, dy, body) => match step(size, *edge, at, *dx, *dy) {
            Some(there) => value_at(size, planes, body, there),
            None => 0,
        },
        Expr::Unary(op, body) => unary_value(*op, value_at(size, planes, body, at)),
        Expr::Binary(op, left, right) => {
            let left = value_at(size, planes, left, at);
            let right = value_at(size, planes, right, at);
            binary_value(*op, left, right)
        }
        Expr::Select(condition, left, right) => {
            if value_at(size, planes, condition, at) > 0 {
                value_at(size, planes, left, at)
            } else {
                value_at(size, planes, right, at)
            }
        }
        Expr::Convert(how, body, ty) => {
            conversion_value(*how, *ty, value_at(size, planes, body, at))
        }
        Expr::Scale(op, body, by) => scaling_value(*op, value_at(size, planes, body, at), *by),
    }
}

// The values of an expression at all pixels, each by itself.
pub fn render_points<'a>(
    alloc: Global,
    size: FrameSize,
    planes: &[Plane<'_>],
    e: &Expr,
) -> Result<Plane<'a>, OutOfMemory>
    requires can { CanEvaluate (size_of size) planes.now (tree_of e.now) }
    ensures { IfOk result
        (λ p. ArePixelsOf (size_of size) planes.now (tree_of e.now) (values_of p)) }
{
    let mut values = Vec::new(alloc);
    for y in 0..size.height {
        for x in 0..size.width {
            values.push(value_at(size, planes, e, Point { x, y }))?;
        }
    }
    Ok(Plane::Wide(values))
}
