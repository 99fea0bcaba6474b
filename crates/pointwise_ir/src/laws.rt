// The laws of the meaning.

ghost use Rattle.std.specs.Prelude.{◌≡◌, ℕ, ℤ, ◌<◌, List, Some, length, slice_get};
ghost use Rattle.dk_base.specs.declared.ty.Ty.{Ty};
ghost use Rattle.dk_base.specs.Frames.{Picture};
ghost use Rattle.pointwise_ir.specs.Trees.{Tree};
ghost use Rattle.pointwise_ir.specs.Programs.{Program as TheProgram, IsProgram, IsBody, types_of};
ghost use Rattle.pointwise_ir.specs.Rewritings.{IsSameBut};
ghost use Rattle.pointwise_ir.specs.Passes.{KeepsMeaning};
ghost use Rattle.dk_base.specs.Frames.{framed, picture_at};
ghost use Rattle.pointwise_ir.specs.Meaning.{value, pictures, IsRound, IsPicture, AgreeInside};

use crate::program::Program;

/// A law: the picture of an input is the one that is given, and that of any other image is its body's value over the pictures of all images, in the frame. The values of an image lie in its type, and are 0 outside the frame. The pictures depend on the pixels of the inputs alone.
pub fn meaning_law(ir: &Program)
    ensures inputs { (round : List Picture) → length round ≡ length ir.now.inputs → (g : ℕ) → g < length round
        → picture_at (pictures ir.now round) g ≡ picture_at round g }
    ensures images { (round : List Picture) → length round ≡ length ir.now.inputs → (f : ℕ) (e : Tree) → IsBody ir.now f e → (x y : ℤ)
        → picture_at (pictures ir.now round) f x y ≡ framed ir.now.size (value ir.now.size (pictures ir.now round) e) x y }
    ensures values { (round : List Picture) → IsRound ir.now round → (g : ℕ) (t : Ty) → slice_get (types_of ir.now) g ≡ Some t
        → IsPicture ir.now.size t (picture_at (pictures ir.now round) g) }
    ensures pixels { (one other : List Picture) → IsRound ir.now one → IsRound ir.now other → AgreeInside ir.now.size one other → (g : ℕ) (x y : ℤ)
        → picture_at (pictures ir.now one) g x y ≡ picture_at (pictures ir.now other) g x y }
{
    ir.law();
}

/// A law: what is a program but for bodies that may replace its own is a program, and keeps its meaning.
pub fn rewriting_law()
    ensures program { (old new : TheProgram) → IsProgram old → IsSameBut old new → IsProgram new }
    ensures meaning { (old new : TheProgram) → IsProgram old → IsSameBut old new → KeepsMeaning old new }
{}
