// The values of an expression at all pixels, a row at a time.

ghost use Rattle.std.specs.Prelude.{◌≡◌, ◌+◌, ◌*◌, ◌<◌, ◌≤◌, IfOk, length, map, pos};
ghost use Rattle.dk_base.specs.declared.TheConstants.{MAX_INLINED_DEPTH};
ghost use Rattle.value_rows.specs.Rows.{IsRow};
ghost use Rattle.dk_base.specs.FrameSizes.{size_of};
ghost use Rattle.pointwise_ir.specs.Trees.{tree_of, depth_of};
ghost use Rattle.pointwise_ir.specs.Programs.{all_types};
ghost use Rattle.pointwise_ir.specs.Meaning.{value};
ghost use Rattle.pointwise_eval.specs.Planes.{values_of, all_shown, ArePixelsOf, AreSources, CanEvaluate};
ghost use Rattle.pointwise_eval.specs.ElementKinds.{HoldsAll};
ghost use Rattle.pointwise_eval.specs.Lanes.{FitsRows, lane_type};

use crate::lane::{Lane, lane_of};
use crate::narrow::{narrow_type, reads_rows};
use crate::plane::Plane;
use crate::value::render_points;
use crate::walk::value_row;
use dk_base::{FrameSize, OutOfMemory, Ty};
use pointwise_ir::{Definition, Expr, Input};
use std::alloc::Global;
use std::cmp::max;
use value_ranges::Interval;
use value_rows::{Element, copy_row};

// The depth of an expression.
fn depth(e: &Expr) -> usize
    requires { depth_of (tree_of e.now) ≤ MAX_INLINED_DEPTH }
    ensures { result ≡ depth_of (tree_of e.now) }
{
    match e {
        Expr::Constant(..) | Expr::Read(..) => 1,
        Expr::Shifted(_, _, _, body) => depth(body) + 1,
        Expr::Unary(_, body) => depth(body) + 1,
        Expr::Binary(_, left, right) => max(depth(left), depth(right)) + 1,
        Expr::Select(condition, left, right) => {
            max(depth(condition), max(depth(left), depth(right))) + 1
        }
        Expr::Convert(_, body, _) => depth(body) + 1,
        Expr::Scale(_, body, _) => depth(body) + 1,
    }
}

// Row y as elements. `scratch` has a row, and two rows for each level of the expression.
fn element_row<L: Element, T: Element>(
    size: FrameSize,
    planes: &[Plane<'_>],
    e: &Expr,
    y: u32,
    to: &mut [T],
    scratch: &mut [L],
)
    requires fit { FitsRows L.ty T.ty (size_of size) planes.now (tree_of e.now) }
    requires down { y < size.height }
    requires elements { length to.old ≡ size.width }
    requires room { size.width + depth_of (tree_of e.now) * (size.width + size.width)
        ≤ length scratch.old }
    ensures { IsRow (size_of size)
        (value (size_of size) (all_shown (size_of size) planes.now) (tree_of e.now))
        (pos y) (map T.worth to.new) }
{
    let (row, rest) = scratch.split_at_mut(to.len());
    value_row(size, planes, e, y, row, rest);
    copy_row(row, to);
}

// The elements, by a row of them and the rows that it needs.
fn elements_of_rows<L: Element, T: Element>(
    alloc: Global,
    size: FrameSize,
    planes: &[Plane<'_>],
    e: &Expr,
    part: &mut [T],
    scratch: &mut [L],
) -> Result<Vec<T>, OutOfMemory>
    requires fit { FitsRows L.ty T.ty (size_of size) planes.now (tree_of e.now) }
    requires part { length part.old ≡ size.width }
    requires room { size.width + depth_of (tree_of e.now) * (size.width + size.width)
        ≤ length scratch.old }
    ensures { IfOk result
        (λ v. ArePixelsOf (size_of size) planes.now (tree_of e.now) (map T.worth v.items)) }
{
    let mut elements = Vec::with_capacity(alloc, size.width as usize * size.height as usize)?;
    for y in 0..size.height {
        element_row(size, planes, e, y, part, scratch);
        elements.extend_from_slice(part)?;
    }
    Ok(elements)
}

// The values as elements, by rows.
fn render_elements<L: Element, T: Element>(
    alloc: Global,
    size: FrameSize,
    planes: &[Plane<'_>],
    e: &Expr,
) -> Result<Vec<T>, OutOfMemory>
    requires { FitsRows L.ty T.ty (size_of size) planes.now (tree_of e.now) }
    ensures { IfOk result
        (λ v. ArePixelsOf (size_of size) planes.now (tree_of e.now) (map T.worth v.items)) }
{
    let width = size.width as usize;
    let mut part = vec![in alloc; T::default(); width]?;
    let mut scratch = vec![in alloc; L::default(); width + depth(e) * (width + width)]?;
    let elements = elements_of_rows(alloc, size, planes, e, &mut part, &mut scratch)?;
    Ok(elements)
}

// The kind of the elements that an image is stored as.
#[derive(Clone, Copy)]
enum ElementKind {
    Unsigned8,
    Unsigned16,
    Unsigned32,
    Signed8,
    Signed16,
    Signed32,
    Signed64,
}

// The elements of fewest bytes that hold the type's numbers.
#[tactic(auto, using(crate::proofs::Pixels::unsigned_within, crate::proofs::Pixels::signed_within))]
fn kind_of(ty: Ty) -> ElementKind
    ensures { HoldsAll result ty }
{
    match ty {
        Ty::Unsigned(width) => match width {
            0..=8 => ElementKind::Unsigned8,
            9..=16 => ElementKind::Unsigned16,
            17..=32 => ElementKind::Unsigned32,
            _ => ElementKind::Signed64,
        },
        Ty::Signed(width) => match width {
            0..=8 => ElementKind::Signed8,
            9..=16 => ElementKind::Signed16,
            17..=32 => ElementKind::Signed32,
            _ => ElementKind::Signed64,
        },
    }
}

// The plane of an image of this type, by rows.
fn render_rows<'a, L: Element>(
    alloc: Global,
    size: FrameSize,
    planes: &[Plane<'_>],
    e: &Expr,
    ty: Ty,
) -> Result<Plane<'a>, OutOfMemory>
    requires { FitsRows L.ty ty (size_of size) planes.now (tree_of e.now) }
    ensures { IfOk result
        (λ p. ArePixelsOf (size_of size) planes.now (tree_of e.now) (values_of p)) }
{
    let _type = L::element_type();
    match kind_of(ty) {
        ElementKind::Unsigned8 => Ok(Plane::Unsigned8(render_elements::<L, _>(
            alloc, size, planes, e,
        )?)),
        ElementKind::Unsigned16 => Ok(Plane::Unsigned16(render_elements::<L, _>(
            alloc, size, planes, e,
        )?)),
        ElementKind::Unsigned32 => Ok(Plane::Unsigned32(render_elements::<L, _>(
            alloc, size, planes, e,
        )?)),
        ElementKind::Signed8 => Ok(Plane::Signed8(render_elements::<L, _>(
            alloc, size, planes, e,
        )?)),
        ElementKind::Signed16 => Ok(Plane::Signed16(render_elements::<L, _>(
            alloc, size, planes, e,
        )?)),
        ElementKind::Signed32 => Ok(Plane::Signed32(render_elements::<L, _>(
            alloc, size, planes, e,
        )?)),
        ElementKind::Signed64 => Ok(Plane::Signed64(render_elements::<L, _>(
            alloc, size, planes, e,
        )?)),
    }
}

// The plane of an image of this type, by rows of a lane.
fn render_lane<'a>(
    alloc: Global,
    size: FrameSize,
    planes: &[Plane<'_>],
    e: &Expr,
    ty: Ty,
    lane: Lane,
) -> Result<Plane<'a>, OutOfMemory>
    requires { FitsRows (lane_type lane) ty (size_of size) planes.now (tree_of e.now) }
    ensures { IfOk result
        (λ p. ArePixelsOf (size_of size) planes.now (tree_of e.now) (values_of p)) }
{
    match lane {
        Lane::Bits16 => render_rows::<i16>(alloc, size, planes, e, ty),
        Lane::Bits32 => render_rows::<i32>(alloc, size, planes, e, ty),
        Lane::Bits64 => render_rows::<i64>(alloc, size, planes, e, ty),
    }
}

// The images that a body may read: the size of the frame, their planes, the intervals of their values, and the inputs and definitions that they are.
#[derive(Clone, Copy)]
pub struct Sources<'a> {
    pub size: FrameSize,
    pub planes: &'a [Plane<'a>],
    pub ranges: &'a [Interval],
    pub inputs: &'a [Input],
    pub images: &'a [Definition],
}

// The values of an expression over these images at all pixels: by rows where all its parts have values of 64 bits and it reads such planes, in the lane of fewest bits that holds them; else each by itself.
pub fn render<'a>(alloc: Global, sources: &Sources<'_>, e: &Expr) -> Result<Plane<'a>, OutOfMemory>
    requires can { CanEvaluate (size_of sources.now.size) sources.now.planes.now (tree_of e.now) }
    requires sources { AreSources (size_of sources.now.size) sources.now.planes.now
        sources.now.ranges.now (all_types sources.now.inputs.now sources.now.images.now) }
    requires depth { depth_of (tree_of e.now) ≤ MAX_INLINED_DEPTH }
    ensures { IfOk result (λ p. ArePixelsOf (size_of sources.now.size) sources.now.planes.now
        (tree_of e.now) (values_of p)) }
{
    let size = sources.size;
    let planes = sources.planes;
    let inputs = sources.inputs;
    let images = sources.images;
    if !reads_rows(planes, e) {
        return render_points(alloc, size, planes, e);
    }
    let Some(ty) = narrow_type(e, inputs, images) else {
        return render_points(alloc, size, planes, e);
    };
    let lane = lane_of(e, sources.ranges);
    render_lane(alloc, size, planes, e, ty, lane)
}
