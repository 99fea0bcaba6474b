// Why a text was not read as a program.

ghost use Rattle.std.specs.Prelude.{◌≡◌};
ghost use Rattle.dk_lexer.specs.declared.fault.LexError.{LexError as LexStop};
ghost use Rattle.dk_compile.specs.Faults.{of_lexer, of_parser, of_types, of_inlining, of_stencils, of_plan};

use buffer_plan::PlanFault;
use dk_base::OutOfMemory;
use dk_inline::InlineFault;
use dk_lexer::LexError;
use dk_parser::ParseError;
use dk_types::TypeError;
use source_fault::SourceFault;
use stencil_sets::StencilFault;

/// Why a text was not read as a program: its first fault, or out of memory.
#[derive(Clone, Copy, Debug, PartialEq, Eq, thiserror::Error)]
pub enum SourceError {
    #[error("{0}")]
    Fault(SourceFault),
    #[error("out of memory")]
    OutOfMemory,
}

impl From<LexError> for SourceError {
    ghost use Rattle.std.specs.Prelude.{◌≡◌};
    ghost use Rattle.dk_compile.specs.Faults.{of_lexer};

    ghost from_gives = { λ e f. f ≡ of_lexer e };

    fn from(error: LexError) -> Self {
        match error {
            LexError::Fault(fault) => SourceError::Fault(SourceFault::Lex(fault)),
            LexError::OutOfMemory => SourceError::OutOfMemory,
        }
    }
}

impl From<ParseError> for SourceError {
    ghost use Rattle.std.specs.Prelude.{◌≡◌};
    ghost use Rattle.dk_compile.specs.Faults.{of_parser};

    ghost from_gives = { λ e f. f ≡ of_parser e };

    fn from(error: ParseError) -> Self {
        match error {
            ParseError::Nest { span } => SourceError::Fault(SourceFault::Nest { span }),
            ParseError::Syntax { span } => SourceError::Fault(SourceFault::Syntax { span }),
            ParseError::Depth { span } => SourceError::Fault(SourceFault::Depth { span }),
            ParseError::OutOfMemory => SourceError::OutOfMemory,
        }
    }
}

impl From<TypeError> for SourceError {
    ghost use Rattle.std.specs.Prelude.{◌≡◌};
    ghost use Rattle.dk_compile.specs.Faults.{of_types};

    ghost from_gives = { λ e f. f ≡ of_types e };

    fn from(error: TypeError) -> Self {
        match error {
            TypeError::Fault(fault) => SourceError::Fault(SourceFault::Types(fault)),
            TypeError::OutOfMemory => SourceError::OutOfMemory,
        }
    }
}

impl From<InlineFault> for SourceError {
    ghost use Rattle.std.specs.Prelude.{◌≡◌};
    ghost use Rattle.dk_compile.specs.Faults.{of_inlining};

    ghost from_gives = { λ e f. f ≡ of_inlining e };

    fn from(fault: InlineFault) -> Self {
        match fault {
            InlineFault::Nodes { count } => SourceError::Fault(SourceFault::Nodes { count }),
            InlineFault::InlineDepth { span } => SourceError::Fault(SourceFault::InlineDepth {
                span,
            }),
            InlineFault::OutOfMemory => SourceError::OutOfMemory,
        }
    }
}

impl From<StencilFault> for SourceError {
    ghost use Rattle.std.specs.Prelude.{◌≡◌};
    ghost use Rattle.dk_compile.specs.Faults.{of_stencils};

    ghost from_gives = { λ e f. f ≡ of_stencils e };

    fn from(fault: StencilFault) -> Self {
        match fault {
            StencilFault::Reads { count } => SourceError::Fault(SourceFault::Reads { count }),
            StencilFault::OutOfMemory => SourceError::OutOfMemory,
        }
    }
}

impl From<PlanFault> for SourceError {
    ghost use Rattle.std.specs.Prelude.{◌≡◌};
    ghost use Rattle.dk_compile.specs.Faults.{of_plan};

    ghost from_gives = { λ e f. f ≡ of_plan e };

    fn from(fault: PlanFault) -> Self {
        match fault {
            PlanFault::Bits { least } => SourceError::Fault(SourceFault::Bits { least }),
            PlanFault::Latency { clocks } => SourceError::Fault(SourceFault::Latency { clocks }),
            PlanFault::OutOfMemory => SourceError::OutOfMemory,
        }
    }
}

impl From<OutOfMemory> for SourceError {
    ghost use Rattle.std.specs.Prelude.{◌≡◌};
    ghost use Rattle.dk_compile.specs.declared.fault.SourceError.TheVariants as error;

    ghost from_gives = { λ e f. f ≡ error.OutOfMemory };

    fn from(_error: OutOfMemory) -> Self {
        SourceError::OutOfMemory
    }
}
