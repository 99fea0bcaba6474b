// Why a text denotes no module.

use crate::token::LexFault;
use dk_base::Span;
use netlist::NetFault;

/// A limit that a text passes.
#[derive(Clone, Copy, Debug, PartialEq, Eq)]
pub enum LimitKind {
    /// A range is not `[w-1:0]` with w from 1 to 64.
    Width,
    /// The words of an array are not `[0:n-1]` with n from 1 to 67,108,864.
    Words,
    /// All arrays so far have more than 67,108,864 bits.
    ArrayBits,
    /// A count of `{n{a}}` is not 1 to 64.
    Repeat,
}

/// A limit that a text passes, and where: the number, or the array's name.
#[derive(Clone, Copy, Debug, PartialEq, Eq, thiserror::Error)]
#[error("{}-{}: {kind:?}", .span.start, .span.stop)]
pub struct LimitFault {
    pub span: Span,
    pub kind: LimitKind,
}

/// Why a text denotes no module, in the order of the passes.
#[derive(Clone, Copy, Debug, PartialEq, Eq, thiserror::Error)]
pub enum TextFault {
    /// It has no tokens.
    #[error("{0}")]
    Lex(LexFault),
    /// This token continues no module.
    #[error("{}-{}: Syntax", .0.start, .0.stop)]
    Syntax(Span),
    /// This word continues no module, and the subset refuses it.
    #[error("{}-{}: NotInSubset", .0.start, .0.stop)]
    NotInSubset(Span),
    /// It passes a limit.
    #[error("{0}")]
    Limit(LimitFault),
    /// Its parts break a net rule; the span is the name of what is meant.
    #[error("{}-{}: {fault}", .span.start, .span.stop)]
    Net { span: Span, fault: NetFault },
}

/// Why a text was not read: its first fault, or out of memory.
#[derive(Clone, Copy, Debug, PartialEq, Eq, thiserror::Error)]
pub enum TextError {
    #[error("{0}")]
    Fault(TextFault),
    #[error("out of memory")]
    OutOfMemory,
}
