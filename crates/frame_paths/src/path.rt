// What a chain of steps makes of pixels.

ghost use Rattle.std.specs.Prelude.{◌≡◌, ◌↔◌, ℤ, IfSome, Some, IsTrue};
ghost use Rattle.dk_base.specs.Frames.{in_frame};
ghost use Rattle.dk_base.specs.FrameSizes.{size_of};
ghost use Rattle.frame_paths.specs.Moves.{LeadsOn};
ghost use Rattle.frame_paths.specs.Paths.{LeadsTo, LeadsToOn, StepsTo, IsPath};

use crate::moves::Moves;
use dk_base::FrameSize;
use pointwise_ir::Edge;

/// A chain of steps from pixel to pixel of a frame, columns and rows apart.
#[derive(Clone, Copy)]
pub struct Path {
    pub across: Moves,
    pub down: Moves,
}

// Both, or None where either is None.
fn joined(across: Option<Moves>, down: Option<Moves>) -> Option<Path>
    ensures found { IfSome result (λ p. (across ≡ Some p.across) × (down ≡ Some p.down)) }
    ensures leads { (x y u v : ℤ) → LeadsToOn result x y u v ↔ LeadsOn across x u × LeadsOn down y v }
{
    match across {
        None => None,
        Some(across) => match down {
            None => None,
            Some(down) => Some(Path { across, down }),
        },
    }
}

impl Path {
    /// The path without a step.
    pub fn none(size: FrameSize) -> Path
        ensures path { IsPath (size_of size) result }
        ensures leads { (x y u v : ℤ) → LeadsTo result x y u v ↔ (u ≡ x) × (v ≡ y) × IsTrue (in_frame (size_of size) x y) }
    {
        let across = Moves::none(size.width);
        let down = Moves::none(size.height);
        Path { across, down }
    }

    /// The path with a further step, or None where no pixel goes on.
    pub fn step(self, size: FrameSize, edge: Edge, dx: i32, dy: i32) -> Option<Path>
        requires { IsPath (size_of size) self }
        ensures path { IfSome result (λ p. IsPath (size_of size) p) }
        ensures leads { (x y u v : ℤ) → LeadsToOn result x y u v ↔ StepsTo (size_of size) self edge dx dy x y u v }
    {
        let across = self.across.step(size.width, edge, dx);
        let down = self.down.step(size.height, edge, dy);
        joined(across, down)
    }
}
