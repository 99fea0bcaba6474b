// Why a program has no types.

ghost use Rattle.std.specs.Prelude.{◌≡◌, ◌≤◌, length};
ghost use Rattle.dk_types.specs.declared.fault.TypeError.TheVariants.{OutOfMemory};
ghost use Rattle.dk_types.specs.Words.{word_of};

use dk_base::Span;
use std::alloc::{AllocError, AllocFailed};

/// What is wrong with a program.
#[derive(Clone, Copy, Debug, PartialEq, Eq)]
pub enum TypeFaultKind {
    /// A side of the frame that is not 1 to 4,096.
    SizeRange,
    /// An input of another type than `u1` to `u16`.
    InputType,
    /// The ninth input.
    TooManyInputs,
    /// The ninth output.
    TooManyOutputs,
    /// The 257th definition.
    TooManyImages,
    /// A name that denotes an image already, or that is an output already.
    DuplicateName,
    /// A name that denotes no image, or for one that comes later.
    UnknownImage,
    /// An offset above 64.
    OffsetRange,
    /// A result, or the common type of two operands, of more than 64 bits.
    WidthTooGreat,
    /// An operand of `!` or a condition that is not of one bit.
    NotOneBit,
    /// A signed operand of an operator that works bit by bit.
    SignedBits,
    /// A division by 0.
    ZeroDivisor,
    /// A shift by more than 63 bits.
    ShiftRange,
    /// A body that the declared type does not take.
    NotConvertible,
    /// An output of another type than `u1` to `u16`.
    OutputType,
}

impl TypeFaultKind {
    /// Its word, in the line of the fault and in messages.
    pub fn word(self) -> &'static str
        ensures is { result.now ≡ word_of self }
        ensures short { length result.now ≤ 20 }
    {
        match self {
            TypeFaultKind::SizeRange => "SizeRange",
            TypeFaultKind::InputType => "InputType",
            TypeFaultKind::TooManyInputs => "TooManyInputs",
            TypeFaultKind::TooManyOutputs => "TooManyOutputs",
            TypeFaultKind::TooManyImages => "TooManyImages",
            TypeFaultKind::DuplicateName => "DuplicateName",
            TypeFaultKind::UnknownImage => "UnknownImage",
            TypeFaultKind::OffsetRange => "OffsetRange",
            TypeFaultKind::WidthTooGreat => "WidthTooGreat",
            TypeFaultKind::NotOneBit => "NotOneBit",
            TypeFaultKind::SignedBits => "SignedBits",
            TypeFaultKind::ZeroDivisor => "ZeroDivisor",
            TypeFaultKind::ShiftRange => "ShiftRange",
            TypeFaultKind::NotConvertible => "NotConvertible",
            TypeFaultKind::OutputType => "OutputType",
        }
    }
}

/// What is wrong with a program, and where.
#[derive(Clone, Copy, Debug, PartialEq, Eq, thiserror::Error)]
#[error("{}-{}: {kind:?}", .span.start, .span.stop)]
pub struct TypeFault {
    pub span: Span,
    pub kind: TypeFaultKind,
}

/// Why a program has no types: its first fault, or out of memory.
#[derive(Debug, Drop, thiserror::Error)]
pub enum TypeError {
    #[error("{0}")]
    Fault(TypeFault),
    #[error("out of memory")]
    OutOfMemory,
}

impl From<AllocError> for TypeError {
    ghost from_gives = { λ _ e. e ≡ OutOfMemory };

    fn from(_e: AllocError) -> TypeError {
        TypeError::OutOfMemory
    }
}

impl<T: Drop> From<AllocFailed<T>> for TypeError {
    ghost from_gives = { λ _ e. e ≡ OutOfMemory };

    fn from(_e: AllocFailed<T>) -> TypeError {
        TypeError::OutOfMemory
    }
}

// A fault of this kind.
pub(crate) fn fault(span: Span, kind: TypeFaultKind) -> TypeError
    ensures { result ≡ TypeError.Fault (record { span = span; kind = kind }) }
{
    TypeError::Fault(TypeFault { span, kind })
}
