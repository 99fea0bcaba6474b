// Why a parser stops early.

ghost use Rattle.std.specs.Prelude.{◌≡◌};
ghost use Rattle.dk_parser.specs.declared.halt.Halt.TheVariants.{OutOfMemory};

use dk_lexer::Token;
use std::alloc::{AllocError, AllocFailed};

// Why no tree was made.
#[derive(Drop)]
pub(crate) enum Halt<'a> {
    // The tokens from the faulty one on.
    Faulty(&'a [Token]),
    OutOfMemory,
}

impl<'a> From<AllocError> for Halt<'a> {
    ghost from_gives = { λ _ e. e ≡ OutOfMemory };

    fn from(_e: AllocError) -> Halt<'a> {
        Halt::OutOfMemory
    }
}

impl<'a, T: Drop> From<AllocFailed<T>> for Halt<'a> {
    ghost from_gives = { λ _ e. e ≡ OutOfMemory };

    fn from(_e: AllocFailed<T>) -> Halt<'a> {
        Halt::OutOfMemory
    }
}
