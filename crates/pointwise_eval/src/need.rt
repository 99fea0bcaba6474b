// Until when the outputs need each image.

ghost use Rattle.std.specs.Prelude.{◌≡◌, ℕ, ◌+◌, ◌^◌, ◌<◌, ◌↔◌, IfOk, IsTrue, Some, length, map, slice_get};
ghost use Rattle.std.specs.List.{All};
ghost use Rattle.pointwise_ir.specs.Trees.{Tree, tree_of, EachImage};
ghost use Rattle.pointwise_eval.specs.Needs.{AreNeeds, IsNeeded, IsNote, Notes, NotesBodies, NotesReads, image_count};

use dk_base::OutOfMemory;
use pointwise_ir::{Definition, Expr, Program};
use std::alloc::Global;

// Notes that an image is needed after this many images.
fn need(until: &mut [usize], image: usize, behind: usize)
    requires { IsNote (length until.old) image behind }
    ensures { Notes until.old until.new behind image }
{
    if until[image] <= behind {
        until[image] = behind + 1;
    }
}

// Notes that the images that an expression reads are needed after this many images.
fn mark(e: &Expr, until: &mut [usize], behind: usize)
    requires there { EachImage (λ g. g < length until.old) (tree_of e.now) }
    requires few { behind < 2 ^ 62 }
    ensures { NotesReads until.old until.new behind (tree_of e.now) }
{
    match e {
        Expr::Constant(..) => {}
        Expr::Read(_, image, _, _) => need(until, *image as usize, behind),
        Expr::Shifted(_, _, _, body) => mark(body, until, behind),
        Expr::Unary(_, body) => mark(body, until, behind),
        Expr::Binary(_, left, right) => {
            mark(left, until, behind);
            mark(right, until, behind);
        }
        Expr::Select(condition, left, right) => {
            mark(condition, until, behind);
            mark(left, until, behind);
            mark(right, until, behind);
        }
        Expr::Convert(_, body, _) => mark(body, until, behind),
        Expr::Scale(_, body, _) => mark(body, until, behind),
    }
}

// Notes that the outputs are needed after this many images.
fn mark_outputs(outputs: &[u32], until: &mut [usize], behind: usize)
    requires there { All (λ g. g < length until.old) outputs.now }
    requires few { behind < 2 ^ 62 }
    ensures { All (IsNeeded until.new behind) outputs.now }
{
    for output in outputs {
        need(until, *output as usize, behind);
    }
}

// Whether the image of this number is needed after itself.
pub fn is_needed(until: &[usize], number: usize) -> bool
    requires { IsNote (length until.now) number number }
    ensures { IsTrue result ↔ IsNeeded until.now (number + 1) number }
{
    until[number] > number + 1
}

// Notes what the images read that are needed after themselves, the last first.
fn mark_reads(inputs: usize, images: &[Definition], until: &mut [usize])
    requires long { length until.old ≡ inputs + length images.now }
    requires few { inputs + length images.now < 2 ^ 62 }
    requires earlier { (k : ℕ) (e : Tree)
        → slice_get (map (λ d. tree_of d.body) images.now) k ≡ Some e
        → EachImage (λ g. g < inputs + k) e }
    ensures { NotesBodies until.old until.new inputs (map (λ d. tree_of d.body) images.now) }
{
    let mut k = images.len();
    while k > 0 {
        k -= 1;
        if is_needed(until, inputs + k) {
            mark(&images[k].body, until, inputs + k);
        }
    }
}

// Notes until when the outputs need each image.
fn mark_all(ir: &Program, until: &mut [usize])
    requires { length until.old ≡ image_count ir.now }
    ensures { AreNeeds ir.now until.new }
{
    ir.law();
    let inputs = ir.inputs().len();
    let images = ir.images();
    mark_outputs(ir.outputs(), until, inputs + images.len());
    mark_reads(inputs, images, until);
}

// For each image how many images there are before the outputs do not need it any more.
pub fn needs(alloc: Global, ir: &Program) -> Result<Vec<usize>, OutOfMemory>
    ensures { IfOk result (λ until. AreNeeds ir.now until.items) }
{
    ir.law();
    let count = ir.inputs().len() + ir.images().len();
    let mut until = vec![in alloc; 0usize; count]?;
    mark_all(ir, &mut until);
    Ok(until)
}
