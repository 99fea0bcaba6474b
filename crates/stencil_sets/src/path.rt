// The rectangles of offsets that are read at the ends of paths through an expression.

ghost use Rattle.dk_base.specs.FrameSizes.{size_of};
ghost use Rattle.pointwise_ir.specs.Trees.{read, tree_of};
ghost use Rattle.frame_paths.specs.Paths.{IsPath};
ghost use Rattle.stencil_sets.specs.Paths.{AddsRects, IsRectOf};

use dk_base::{FrameSize, OutOfMemory};
use frame_paths::{Offsets, Path};
use pointwise_ir::{Edge, Expr};

// The offsets at which some pixels read an image: all columns with all rows.
#[derive(Clone, Copy, Default)]
pub struct Rect {
    pub image: u32,
    pub across: Offsets,
    pub down: Offsets,
}

// The offsets from where the path begins to where it ends, as reads of the image.
fn rect_of(path: Path, size: FrameSize, image: u32) -> Rect
    requires { IsPath (size_of size) path }
    ensures { IsRectOf path image result }
{
    let across = path.across.offsets(size.width);
    let down = path.down.offsets(size.height);
    Rect {
        image,
        across,
        down,
    }
}

// A read of an image at an offset.
#[derive(Clone, Copy)]
struct ImageRead {
    edge: Edge,
    image: u32,
    dx: i32,
    dy: i32,
}

// Adds what a read at the end of the path reads.
fn add_read(
    all: &mut Vec<Rect>,
    size: FrameSize,
    path: Path,
    image_read: ImageRead,
) -> Result<(), OutOfMemory>
    requires { IsPath (size_of size) path }
    ensures { AddsRects (size_of size)
        (read image_read.edge image_read.image image_read.dx image_read.dy)
        path all.old.items all.new.items result }
{
    match path.step(size, image_read.edge, image_read.dx, image_read.dy) {
        Some(end) => {
            let rect = rect_of(end, size, image_read.image);
            all.push(rect)?;
            Ok(())
        }
        None => Ok(()),
    }
}

// Adds what the expression reads where the path ends, by how far it lies from where the path begins.
pub fn add_reads(
    all: &mut Vec<Rect>,
    size: FrameSize,
    body: &Expr,
    path: Path,
) -> Result<(), OutOfMemory>
    requires { IsPath (size_of size) path }
    ensures { AddsRects (size_of size) (tree_of body.now) path all.old.items all.new.items result }
{
    match body {
        Expr::Constant(_, _) => Ok(()),
        Expr::Read(edge, image, dx, dy) => {
            let image_read = ImageRead {
                edge: *edge,
                image: *image,
                dx: *dx,
                dy: *dy,
            };
            add_read(all, size, path, image_read)
        }
        Expr::Shifted(edge, dx, dy, inner) => match path.step(size, *edge, *dx, *dy) {
            Some(end) => add_reads(all, size, inner, end),
            None => Ok(()),
        },
        Expr::Unary(_, operand) => add_reads(all, size, operand, path),
        Expr::Binary(_, left, right) => {
            add_reads(all, size, left, path)?;
            add_reads(all, size, right, path)
        }
        Expr::Select(condition, left, right) => {
            add_reads(all, size, condition, path)?;
            add_reads(all, size, left, path)?;
            add_reads(all, size, right, path)
        }
        Expr::Convert(_, operand, _) => add_reads(all, size, operand, path),
        Expr::Scale(_, operand, _) => add_reads(all, size, operand, path),
    }
}
