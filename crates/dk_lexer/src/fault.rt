// Why a text has no tokens.

ghost use Rattle.std.specs.Prelude.{◌≡◌, ◌≤◌, length};
ghost use Rattle.dk_lexer.specs.Words.{word_of};

use dk_base::Span;
use std::alloc::{AllocError, AllocFailed};

/// What is wrong with a text.
#[derive(Clone, Copy, Debug, PartialEq, Eq)]
pub enum LexKind {
    /// A byte that begins no token.
    BadByte,
    /// A number above 2^64 - 1.
    NumberTooGreat,
    /// A word of more than 64 bytes.
    NameTooLong,
}

impl LexKind {
    /// Its word, in the line of the fault and in messages.
    pub fn word(self) -> &'static str
        ensures is { result.now ≡ word_of self }
        ensures short { length result.now ≤ 20 }
    {
        match self {
            LexKind::BadByte => "BadByte",
            LexKind::NumberTooGreat => "NumberTooGreat",
            LexKind::NameTooLong => "NameTooLong",
        }
    }
}

/// What is wrong with a text, and where.
#[derive(Clone, Copy, Debug, PartialEq, Eq, thiserror::Error)]
#[error("{}-{}: {kind:?}", .span.start, .span.stop)]
pub struct LexFault {
    pub span: Span,
    pub kind: LexKind,
}

// Why there is no token at the front of a text: a fault of this many bytes, or out of memory.
#[derive(Debug, Drop)]
pub(crate) enum NoToken {
    Fault(LexKind, usize),
    OutOfMemory,
}

/// Why a text has no tokens: its first fault, or out of memory.
#[derive(Debug, Drop, thiserror::Error)]
pub enum LexError {
    #[error("{0}")]
    Fault(LexFault),
    #[error("out of memory")]
    OutOfMemory,
}

impl From<AllocError> for NoToken {
    ghost use Rattle.std.specs.Prelude.{◌≡◌};
    ghost use Rattle.dk_lexer.specs.declared.fault.NoToken.TheVariants.{OutOfMemory};

    ghost from_gives = { λ _ e. e ≡ OutOfMemory };

    fn from(_e: AllocError) -> NoToken {
        NoToken::OutOfMemory
    }
}

impl<T: Drop> From<AllocFailed<T>> for LexError {
    ghost use Rattle.std.specs.Prelude.{◌≡◌};
    ghost use Rattle.dk_lexer.specs.declared.fault.LexError.TheVariants.{OutOfMemory};

    ghost from_gives = { λ _ e. e ≡ OutOfMemory };

    fn from(_e: AllocFailed<T>) -> LexError {
        LexError::OutOfMemory
    }
}
