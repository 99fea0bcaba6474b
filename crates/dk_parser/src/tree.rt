// Syntax trees.

use dk_base::{Binary, Scaling, Span, Text, Ty, Unary};

#[derive(Clone, Copy, Debug)]
pub struct Literal {
    pub span: Span,
    pub value: u64,
}

#[derive(Debug, Drop)]
pub struct Name {
    pub span: Span,
    pub text: Text,
}

#[derive(Clone, Copy, Debug)]
pub struct TypeWord {
    pub span: Span,
    pub ty: Ty,
}

/// A signed number: how far a read is moved along one axis.
#[derive(Clone, Copy, Debug)]
pub struct Offset {
    pub negative: bool,
    pub amount: Literal,
}

/// A read of an image, moved along both axes.
#[derive(Debug, Drop)]
pub struct ImageRead {
    pub name: Name,
    pub x: Option<Offset>,
    pub y: Option<Offset>,
    /// Whether a point outside the frame is brought to its edge.
    pub clamped: bool,
}

#[derive(Debug, Drop)]
#[cycle(tree)]
pub struct Expr {
    pub span: Span,
    pub node: Node,
}

#[derive(Debug, Drop)]
#[cycle(tree)]
pub enum Node {
    Number(u64),
    Read(ImageRead),
    Unary(Unary, Box<Expr>),
    Binary(Binary, Box<Expr>, Box<Expr>),
    Scale(Scaling, Box<Expr>, Literal),
    Cast(Box<Expr>, TypeWord),
    Sat(Box<Expr>, TypeWord),
    Select(Box<Expr>, Box<Expr>, Box<Expr>),
}

/// What follows an operator: another operand, a number or a type.
#[derive(Clone, Copy)]
pub enum Step {
    Operand(Binary),
    Number(Scaling),
    Type,
}

// How a token goes on with an expression before it.
#[derive(Clone, Copy)]
pub(crate) enum Binding {
    // By an operator of this level of precedence, from 1, which binds most tightly, to 8.
    Operator(u8, Step),
    // By the word after a read that brings points to the frame's edge.
    Clamps,
    Stops,
}

/// What an expression that begins with a token is.
#[derive(Clone, Copy)]
pub enum Start {
    Prefix(Unary),
    Constant(u64),
    Image,
    Bracket,
    /// A function of two operands.
    Pair(Binary),
    Absolute,
    Saturate,
    Choice,
    Nothing,
}

#[derive(Debug, Drop)]
pub struct Input {
    pub name: Name,
    pub ty: TypeWord,
}

#[derive(Debug, Drop)]
pub struct Def {
    pub inline: bool,
    pub name: Name,
    pub declared: Option<TypeWord>,
    pub body: Expr,
}

/// A program as it is written. There are one or more inputs, and one or more outputs.
#[derive(Debug, Drop)]
pub struct Program {
    pub width: Literal,
    pub height: Literal,
    pub inputs: Vec<Input>,
    pub definitions: Vec<Def>,
    pub outputs: Vec<Name>,
}
