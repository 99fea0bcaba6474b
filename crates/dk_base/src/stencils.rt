// The kept images of a program, and which of them read which.

use crate::stencil_rules::is_stencils;
use std::marker::Model;

/// A kept image: its number in the program, and the width of its type in bits.
#[derive(Clone, Copy, Debug, PartialEq, Eq)]
pub struct Image {
    pub number: u32,
    pub width: u8,
}

/// Image `f` reads image `g` at `dx` columns to the right and `dy` rows down, in some pixel of the frame.
#[derive(Clone, Copy, Debug, PartialEq, Eq)]
pub struct LiveRead {
    pub f: u32,
    pub g: u32,
    pub dx: i32,
    pub dy: i32,
}

/// The kept images in order, which of them are inputs and outputs, and their live reads: by the image that reads, then by the one that is read, then by row, then by column.
#[derive(Debug, Drop)]
pub struct Stencils {
    width: u32,
    height: u32,
    inputs: u32,
    outputs: Vec<u32>,
    images: Vec<Image>,
    reads: Vec<LiveRead>,
}

impl Model for Stencils {
    ghost use Rattle.dk_base.specs.Stencils.{Stencils as TheStencils, IsStencils};

    ghost Value = { TheStencils };

    ghost view = { λ s. record { width = s.width; height = s.height; inputs = s.inputs; outputs = s.outputs.items; images = s.images.items; reads = s.reads.items } };

    ghost invariant = { λ s. IsStencils (record { width = s.width; height = s.height; inputs = s.inputs; outputs = s.outputs.items; images = s.images.items; reads = s.reads.items }) };
}

impl Stencils {
    ghost use Rattle.std.specs.Prelude.{◌≡◌, IsSome, IfSome, ◌↔◌};
    ghost use Rattle.dk_base.specs.Stencils.{IsStencils};

    /// The stencils of these parts, or None where they are none. It takes no memory.
    pub fn checked(
        width: u32,
        height: u32,
        inputs: u32,
        outputs: Vec<u32>,
        images: Vec<Image>,
        reads: Vec<LiveRead>,
    ) -> Option<Stencils>
        ensures made { IsSome result
            ↔ IsStencils (record { width = width; height = height; inputs = inputs; outputs = outputs.items; images = images.items; reads = reads.items }) }
        ensures parts { IfSome result (λ s. s
            ≡ record { width = width; height = height; inputs = inputs; outputs = outputs.items; images = images.items; reads = reads.items }) }
    {
        if is_stencils(width, height, inputs, &outputs, &images, &reads) {
            Some(Stencils {
                width,
                height,
                inputs,
                outputs,
                images,
                reads,
            })
        } else {
            None
        }
    }

    /// A law: what the type keeps.
    pub fn law(&self)
        ensures { IsStencils self.now }
    {
        let _images = &self.images;
    }

    /// The columns of the frame.
    pub fn width(&self) -> u32
        ensures { result ≡ self.now.width }
    {
        self.width
    }

    /// The rows of the frame.
    pub fn height(&self) -> u32
        ensures { result ≡ self.now.height }
    {
        self.height
    }

    /// The number of inputs, which are the images 0, 1 and so on.
    pub fn inputs(&self) -> u32
        ensures { result ≡ self.now.inputs }
    {
        self.inputs
    }

    /// The numbers of the images that are outputs.
    pub fn outputs(&self) -> &[u32]
        ensures { result.now ≡ self.now.outputs }
    {
        &self.outputs
    }

    /// The kept images in order.
    pub fn images(&self) -> &[Image]
        ensures { result.now ≡ self.now.images }
    {
        &self.images
    }

    /// The live reads in order.
    pub fn reads(&self) -> &[LiveRead]
        ensures { result.now ≡ self.now.reads }
    {
        &self.reads
    }
}
