// The taps of an image.

ghost use Rattle.std.specs.Prelude.{◌≡◌};

use std::marker::Model;
use wiring::Net;

/// One net for each distinct age of an image, ascending: in a counted clock it has the pixel of this many clocks before.
#[derive(Debug, Drop)]
pub struct Taps {
    nets: Vec<Net>,
}

impl Model for Taps {
    ghost use Rattle.std.specs.Prelude.{List};
    ghost use Rattle.wiring.specs.declared.netlist.Net.{Net};

    ghost Value = { List Net };

    ghost view = { λ t. t.nets.items };
}

impl Taps {
    /// These nets. It takes no memory.
    pub fn new(nets: Vec<Net>) -> Taps
        ensures { result ≡ nets.items }
    {
        Taps { nets }
    }

    /// The nets in order.
    pub fn nets(&self) -> &[Net]
        ensures { result.now ≡ self.now }
    {
        &self.nets
    }
}
