// Pixels of a frame, as nets.

ghost use Rattle.std.specs.Prelude.{◌≡◌, ◌-◌, ◌≤◌};
ghost use Rattle.dk_base.specs.declared.TheConstants.{MAX_SIDE};
ghost use Rattle.edge_select.specs.Logic.{IsWidthFor};

use dk_base::{FrameSize, bits_for};
use wiring::Net;

/// A pixel of a frame of this size, by the nets of its column and its row, each counted from 0.
#[derive(Clone, Copy, Debug)]
pub struct Pixel {
    pub size: FrameSize,
    pub column: Net,
    pub row: Net,
}

// The last of this many columns or rows.
pub fn last_of(side: u32) -> u64
    requires { 1 ≤ side }
    ensures { result ≡ side - 1 }
{
    u64::from(side) - 1
}

// The width in bits of a net of this many columns or rows.
pub fn width_for(side: u32) -> u8
    requires some { 1 ≤ side }
    requires most { side ≤ MAX_SIDE }
    ensures { IsWidthFor side result }
{
    bits_for(last_of(side))
}
