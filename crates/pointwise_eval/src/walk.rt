// The values of an expression along a row of the frame.

ghost use Rattle.std.specs.Prelude.{◌≡◌, ℕ, map, ◌+◌, ◌*◌, ◌<◌, ◌≤◌, pos, ◌+ℤ◌, length, Some, slice_get, MatchOption};
ghost use Rattle.dk_base.specs.FrameSizes.{size_of};
ghost use Rattle.pointwise_ir.specs.Trees.{tree_of};
ghost use Rattle.pointwise_ir.specs.Meaning.{value};
ghost use Rattle.value_rows.specs.Rows.{entry, IsRow, IsNarrow};
ghost use Rattle.pointwise_eval.specs.Planes.{values_of, shown, all_shown, IsByRows, HasRows};
ghost use Rattle.pointwise_eval.specs.Steps.{LeadsNowhere, LeadsToRow, ReadsRow};
ghost use Rattle.dk_base.specs.Types.{IsIn};
ghost use Rattle.pointwise_eval.specs.Lanes.{FitsLane, HasRowMemory, IsReadable};

use crate::plane::Plane;
use crate::point::{brought, moved};
use dk_base::FrameSize;
use pointwise_ir::{Edge, Expr};
use value_rows::{
    Element, binary_row, convert_row, fill_part, scale_row, select_row, shift_row, unary_row,
};

// The row to which a step leads, or None where it leads out of the frame.
fn row_at(edge: Edge, y: u32, dy: i32, height: u32) -> Option<u32>
    requires { 0 < height }
    ensures { MatchOption result (LeadsNowhere edge (pos y +ℤ dy) height)
        (LeadsToRow edge (pos y +ℤ dy) height) }
{
    match edge {
        Edge::Zero => {
            let there = moved(y, dy, height)?;
            Some(there)
        }
        Edge::Clamp => {
            let there = brought(y, dy, height);
            Some(there)
        }
    }
}

// The value in 64 bits.
fn narrow(value: i128) -> i64
    requires { IsNarrow value }
    ensures { result ≡ value }
{
    value as i64
}

// This many elements from a place on.
#[tactic(auto, using(crate::proofs::Pixels::part_length, crate::proofs::Pixels::part_entry, crate::proofs::Pixels::all_within))]
fn elements_part<T: Element>(elements: &[T], start: usize, count: usize) -> &[T]
    requires { start + count ≤ length (map T.worth elements.now) }
    ensures whole { length (map T.worth result.now) ≡ count }
    ensures values { (k : ℕ) → k < count
        → entry (map T.worth result.now) k ≡ entry (map T.worth elements.now) (start + k) }
{
    elements.split_at(start).1.split_at(count).0
}

// Row y of elements in raster order, read `by` columns to the right.
fn read_elements<T: Element, L: Element>(
    size: FrameSize,
    edge: Edge,
    by: i32,
    elements: &[T],
    y: u32,
    to: &mut [L],
)
    requires read { IsReadable L.ty (size_of size) (map T.worth elements.now) y }
    requires row { length to.old ≡ size.width }
    ensures { ReadsRow (size_of size) edge (shown (size_of size) (map T.worth elements.now))
        y by (map L.worth to.new) }
{
    let width = size.width as usize;
    let row = elements_part(elements, y as usize * width, width);
    shift_row(edge, by, row, to);
}

// Row y of a plane that can be read by rows, read `by` columns to the right.
fn read_plane<L: Element>(
    size: FrameSize,
    edge: Edge,
    by: i32,
    plane: &Plane<'_>,
    y: u32,
    to: &mut [L],
)
    requires read { IsReadable L.ty (size_of size) (values_of plane.now) y }
    requires rows { IsByRows plane.now }
    requires row { length to.old ≡ size.width }
    ensures { ReadsRow (size_of size) edge (shown (size_of size) (values_of plane.now))
        y by (map L.worth to.new) }
{
    match plane {
        Plane::Input8(samples) => read_elements(size, edge, by, *samples, y, to),
        Plane::Input16(samples) => read_elements(size, edge, by, *samples, y, to),
        Plane::Unsigned8(elements) => read_elements(size, edge, by, elements, y, to),
        Plane::Unsigned16(elements) => read_elements(size, edge, by, elements, y, to),
        Plane::Unsigned32(elements) => read_elements(size, edge, by, elements, y, to),
        Plane::Signed8(elements) => read_elements(size, edge, by, elements, y, to),
        Plane::Signed16(elements) => read_elements(size, edge, by, elements, y, to),
        Plane::Signed32(elements) => read_elements(size, edge, by, elements, y, to),
        Plane::Signed64(elements) => read_elements(size, edge, by, elements, y, to),
        Plane::Wide(_) => {}
        Plane::Gone => {}
    }
}

// The plane of an image.
fn plane_of<'a, 'b>(planes: &'a [Plane<'b>], image: u32) -> &'a Plane<'b>
    requires { HasRows planes.now image }
    ensures { slice_get planes.now image ≡ Some result.now }
{
    &planes[image as usize]
}

// Writes a value at all places.
fn constant_row<L: Element>(value: i128, to: &mut [L])
    requires { IsIn L.ty value }
    ensures { (x : ℕ) → x < length to.old → entry (map L.worth to.new) x ≡ value }
{
    let _type = L::element_type();
    fill_part(to, 0, to.len(), narrow(value));
}

// Writes 0 at all places.
#[tactic(auto, using(pointwise_ir::proofs::Typed::zero_in))]
fn zero_row<L: Element>(to: &mut [L])
    ensures { (x : ℕ) → x < length to.old → entry (map L.worth to.new) x ≡ pos 0 }
{
    fill_part(to, 0, to.len(), 0);
}

// Writes the values of an expression along row y. `scratch` has two rows for each level of the expression.
pub fn value_row<L: Element>(
    size: FrameSize,
    planes: &[Plane<'_>],
    e: &Expr,
    y: u32,
    to: &mut [L],
    scratch: &mut [L],
)
    requires lane { FitsLane L.ty (size_of size) planes.now (tree_of e.now) }
    requires memory { HasRowMemory (size_of size) (tree_of e.now) y
        (length to.old) (length scratch.old) }
    ensures { IsRow (size_of size)
        (value (size_of size) (all_shown (size_of size) planes.now) (tree_of e.now))
        (pos y) (map L.worth to.new) }
{
    let width = to.len();
    match e {
        Expr::Constant(value, _) => constant_row(*value, to),
        Expr::Read(edge, image, dx, dy) => match row_at(*edge, y, *dy, size.height) {
            Some(there) => read_plane(size, *edge, *dx, plane_of(planes, *image), there, to),
            None => zero_row(to),
        },
        Expr::Shifted(edge, dx, dy, body) => match row_at(*edge, y, *dy, size.height) {
            Some(there) => {
                let (row, rest) = scratch.split_at_mut(width);
                value_row(size, planes, body, there, row, rest);
                shift_row(*edge, *dx, row, to);
            }
            None => zero_row(to),
        },
        Expr::Unary(op, body) => {
            value_row(size, planes, body, y, to, scratch);
            unary_row(*op, to);
        }
        Expr::Binary(op, left, right) => {
            value_row(size, planes, left, y, to, scratch);
            let (row, rest) = scratch.split_at_mut(width);
            value_row(size, planes, right, y, row, rest);
            binary_row(*op, to, row);
        }
        Expr::Select(condition, left, right) => {
            value_row(size, planes, condition, y, to, scratch);
            let (pair, rest) = scratch.split_at_mut(width + width);
            let (first, second) = pair.split_at_mut(width);
            value_row(size, planes, left, y, first, rest);
            value_row(size, planes, right, y, second, rest);
            select_row(to, first, second);
        }
        Expr::Convert(how, body, ty) => {
            value_row(size, planes, body, y, to, scratch);
            convert_row(*how, to, *ty);
        }
        Expr::Scale(op, body, by) => {
            value_row(size, planes, body, y, to, scratch);
            scale_row(*op, to, *by);
        }
    }
}
