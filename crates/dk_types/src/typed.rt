// Programs whose expressions have their types.

use dk_base::{Binary, Conversion, FrameSize, Scaling, Ty, Unary};
use dk_parser::Name;
use std::marker::Model;

/// A read of an image: an input or an earlier definition, moved by at most 64 along each axis.
#[derive(Clone, Copy)]
pub struct TypedRead {
    /// The image's number: inputs first, then definitions, in the order of the text.
    pub image: u32,
    /// Columns to the right.
    pub dx: i32,
    /// Rows down.
    pub dy: i32,
    /// Whether a point outside the frame is brought to its edge.
    pub clamped: bool,
}

/// An expression and its type.
#[derive(Drop)]
#[cycle(typed)]
pub struct TypedExpr {
    pub ty: Ty,
    pub node: TypedNode,
}

#[derive(Drop)]
#[cycle(typed)]
pub enum TypedNode {
    Number(u64),
    Read(TypedRead),
    Unary(Unary, Box<TypedExpr>),
    Binary(Binary, Box<TypedExpr>, Box<TypedExpr>),
    Scale(Scaling, Box<TypedExpr>, u64),
    /// Brought into the range of the type of the whole.
    Convert(Conversion, Box<TypedExpr>),
    /// A condition, and the values where it is 1 and where it is 0.
    Select(Box<TypedExpr>, Box<TypedExpr>, Box<TypedExpr>),
}

#[derive(Drop)]
pub struct TypedInput {
    pub name: Name,
    pub ty: Ty,
}

#[derive(Drop)]
pub struct TypedDefinition {
    pub inline: bool,
    pub name: Name,
    /// The declared type, which is then the image's.
    pub declared: Option<Ty>,
    pub body: TypedExpr,
}

/// A program in which every rule of the language on types and names is kept.
#[derive(Drop)]
pub struct TypedProgram {
    size: FrameSize,
    inputs: Vec<TypedInput>,
    definitions: Vec<TypedDefinition>,
    outputs: Vec<u32>,
}

impl Model for TypedProgram {
    ghost use Rattle.std.specs.Coded.{codes};
    ghost use Rattle.dk_types.specs.contracts.typed.TypedInput as input;
    ghost use Rattle.dk_types.specs.contracts.typed.TypedDefinition as definition;
    ghost use Rattle.dk_types.specs.Typed.{TypedProgram as TheTypedProgram, parts_of, typing_of};
    ghost use Rattle.dk_types.specs.Kept.{IsTyped};

    ghost Value = { TheTypedProgram };

    ghost coded = { Prim.hlevel (codes, input.the_row.coded, definition.the_row.coded) };

    ghost view = { λ p. parts_of p.size p.inputs.items p.definitions.items p.outputs.items };

    ghost invariant = { λ p. IsTyped (typing_of (parts_of p.size p.inputs.items p.definitions.items p.outputs.items)) };
}

impl TypedProgram {
    ghost use Rattle.std.specs.Prelude.{◌≡◌};
    ghost use Rattle.dk_base.specs.FrameSizes.{size_of};
    ghost use Rattle.dk_types.specs.Typed.{parts_of, typing_of};
    ghost use Rattle.dk_types.specs.Kept.{IsTyped};

    pub(crate) fn new(
        size: FrameSize,
        inputs: Vec<TypedInput>,
        definitions: Vec<TypedDefinition>,
        outputs: Vec<u32>,
    ) -> TypedProgram
        requires { IsTyped
            (typing_of (parts_of size inputs.items definitions.items outputs.items)) }
        ensures { result ≡ parts_of size inputs.items definitions.items outputs.items }
    {
        TypedProgram {
            size,
            inputs,
            definitions,
            outputs,
        }
    }

    /// A law: what the type keeps.
    pub fn law(&self)
        ensures { IsTyped (typing_of self.now) }
    {
        let _outputs = &self.outputs;
    }

    /// The frame's size.
    pub fn size(&self) -> FrameSize
        ensures { size_of result ≡ self.now.size }
    {
        self.size
    }

    /// The inputs, in the order of the text: the first images.
    pub fn inputs(&self) -> &[TypedInput]
        ensures { result.now ≡ self.now.inputs }
    {
        &self.inputs
    }

    /// The definitions, in the order of the text: the images after the inputs.
    pub fn definitions(&self) -> &[TypedDefinition]
        ensures { result.now ≡ self.now.definitions }
    {
        &self.definitions
    }

    /// The numbers of the images that are outputs, in the order of the text.
    pub fn outputs(&self) -> &[u32]
        ensures { result.now ≡ self.now.outputs }
    {
        &self.outputs
    }
}
