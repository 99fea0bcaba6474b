// A program as images.

use crate::expr::Expr;
use crate::typing::is_program;
use dk_base::{FrameSize, Text, Ty};
use std::marker::Model;

/// An input: its name, and the type of its pixels.
#[derive(Drop)]
pub struct Input {
    pub name: Text,
    pub ty: Ty,
}

/// An image that is no input: its name, the type of its pixels, and the expression that gives them.
#[derive(Drop)]
pub struct Definition {
    pub name: Text,
    pub ty: Ty,
    pub body: Expr,
}

/// The parts of a `Program`. The images are the inputs, numbered from 0, and then the definitions, numbered on; `outputs` has the numbers of those that are outputs.
#[derive(Drop)]
pub struct Parts {
    pub size: FrameSize,
    pub inputs: Vec<Input>,
    pub images: Vec<Definition>,
    pub outputs: Vec<u32>,
}

/// A program whose inline images are substituted: images over a frame, each an expression of earlier ones.
#[derive(Drop)]
pub struct Program {
    parts: Parts,
}

impl Model for Program {
    ghost use Rattle.std.specs.Coded.{codes};
    ghost use Rattle.pointwise_ir.specs.contracts.expr.Expr as e;
    ghost use Rattle.pointwise_ir.specs.Programs.{Program as TheProgram, program_of, IsProgram};

    ghost Value = { TheProgram };

    ghost coded = { Prim.hlevel (codes, e.the_row.coded) };

    ghost view = { λ a. program_of a.parts };

    ghost invariant = { λ a. IsProgram (program_of a.parts) };
}

impl Program {
    ghost use Rattle.std.specs.Prelude.{◌≡◌, ◌<◌, Some, IsSome, IfSome, ◌↔◌, length, slice_get};
    ghost use Rattle.dk_base.specs.FrameSizes.{size_of};
    ghost use Rattle.pointwise_ir.specs.Programs.{program_of, types_of, IsProgram};

    /// The program of these parts. It takes no memory.
    pub fn new(parts: Parts) -> Program
        requires { IsProgram (program_of parts) }
        ensures { result ≡ program_of parts }
    {
        Program { parts }
    }

    /// The program of these parts, or None if they are not those of a program. It takes no memory.
    pub fn checked(parts: Parts) -> Option<Program>
        ensures made { IsSome result ↔ IsProgram (program_of parts) }
        ensures parts { IfSome result (λ ir. ir ≡ program_of parts) }
    {
        if is_program(&parts) {
            Some(Program { parts })
        } else {
            None
        }
    }

    /// A law: what the type keeps.
    pub fn law(&self)
        ensures { IsProgram self.now }
    {
        let _parts = &self.parts;
    }

    /// The parts, given back in the memory that they came in.
    pub fn into_parts(self) -> Parts
        ensures parts { program_of result ≡ self }
    {
        self.parts
    }

    /// The frame's size.
    pub fn size(&self) -> FrameSize
        ensures { size_of result ≡ self.now.size }
    {
        self.parts.size
    }

    /// The inputs, which are the images 0, 1 and so on.
    pub fn inputs(&self) -> &[Input]
        ensures { result.now ≡ self.now.inputs }
    {
        &self.parts.inputs
    }

    /// The images that are no inputs, in order: their numbers go on from those of the inputs.
    pub fn images(&self) -> &[Definition]
        ensures { result.now ≡ self.now.images }
    {
        &self.parts.images
    }

    /// The numbers of the images that are outputs, in order.
    pub fn outputs(&self) -> &[u32]
        ensures { result.now ≡ self.now.outputs }
    {
        &self.parts.outputs
    }

    /// The type of an image, by its number: of an input, or of one of the further images.
    pub fn type_of(&self, image: u32) -> Ty
        requires there { image < length (types_of self.now) }
        ensures { slice_get (types_of self.now) image ≡ Some result }
    {
        let inputs = self.inputs();
        let place = image as usize;
        if place < inputs.len() {
            inputs[place].ty
        } else {
            self.images()[place - inputs.len()].ty
        }
    }
}
