// The size of a frame.

ghost use Rattle.std.specs.Prelude.{◌≡◌, IsSome, IfSome, ◌↔◌};
ghost use Rattle.dk_base.specs.Frames.{IsFrame, area};

use crate::MAX_SIDE;

/// The size of a frame in pixels, each side 1 to `MAX_SIDE`.
#[derive(Clone, Copy, Debug, PartialEq, Eq)]
pub struct FrameSize {
    pub width: u32,
    pub height: u32,
    pub ghost sides: { IsFrame width height },
}

impl FrameSize {
    ghost use Rattle.dk_base.specs.FrameSizes.{size_of};

    /// The size with these sides in pixels, or None where there is none.
    pub fn checked(width: u32, height: u32) -> Option<FrameSize>
        ensures made { IsSome result ↔ IsFrame width height }
        ensures size { IfSome result (λ f. size_of f ≡ record { width = width; height = height }) }
    {
        if 1 <= width && width <= MAX_SIDE && 1 <= height && height <= MAX_SIDE {
            Some(FrameSize { width, height })
        } else {
            None
        }
    }

    /// The number of pixels.
    pub fn area(self) -> u64
        ensures { result ≡ area (size_of self) }
    {
        self.width as u64 * self.height as u64
    }
}
