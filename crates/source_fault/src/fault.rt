// Why a text is refused.

ghost use Rattle.std.specs.Prelude.{◌≡◌, ◌≤◌, length};
ghost use Rattle.source_fault.specs.Faults.{word_of, subject_of};

use dk_base::{MAX_SOURCE_BYTES, Span};
use dk_lexer::LexFault;
use dk_types::TypeFault;

/// Why a text is not a program within the limits, in the order in which the text is judged. Spans are in bytes of the text.
#[derive(Clone, Copy, Debug, PartialEq, Eq, thiserror::Error)]
pub enum SourceFault {
    /// The text has more than 1,048,576 bytes.
    #[error("TooLong")]
    TooLong,
    /// The text has no tokens.
    #[error("{0}")]
    Lex(LexFault),
    /// The first bracket that leaves too many unclosed.
    #[error("{}-{}: Nest", .span.start, .span.stop)]
    Nest { span: Span },
    /// The faulty token.
    #[error("{}-{}: Syntax", .span.start, .span.stop)]
    Syntax { span: Span },
    /// The first subtree that is too deep.
    #[error("{}-{}: Depth", .span.start, .span.stop)]
    Depth { span: Span },
    /// The program has no types.
    #[error("{0}")]
    Types(TypeFault),
    /// More than 65,536 nodes after inlining. The count saturates.
    #[error("Nodes {count}")]
    Nodes { count: u64 },
    /// The name of the first definition that is deeper than 1,024 after inlining.
    #[error("{}-{}: InlineDepth", .span.start, .span.stop)]
    InlineDepth { span: Span },
    /// More than 4,096 live reads. The count is 65,537 if there are more than 65,536.
    #[error("Reads {count}")]
    Reads { count: u32 },
    /// The least buffer bits at the requested age, if they are above 67,108,864.
    #[error("Bits {least}")]
    Bits { least: u64 },
    /// The greatest latency of an output in clocks at the requested age, if it is above 67,108,864.
    #[error("Latency {clocks}")]
    Latency { clocks: u64 },
}

/// What a fault is about.
#[derive(Clone, Copy)]
pub enum Subject {
    /// The bytes of the text that are at fault.
    Bytes(Span),
    /// A number of the whole program, which is over a limit. Of a text that is too long it is the limit.
    Number(u64),
}

impl SourceFault {
    /// Its word, in its line and in messages.
    pub fn word(self) -> &'static str
        ensures is { result.now ≡ word_of self }
        ensures short { length result.now ≤ 20 }
    {
        match self {
            SourceFault::TooLong => "TooLong",
            SourceFault::Lex(fault) => fault.kind.word(),
            SourceFault::Nest { span: _ } => "Nest",
            SourceFault::Syntax { span: _ } => "Syntax",
            SourceFault::Depth { span: _ } => "Depth",
            SourceFault::Types(fault) => fault.kind.word(),
            SourceFault::Nodes { count: _ } => "Nodes",
            SourceFault::InlineDepth { span: _ } => "InlineDepth",
            SourceFault::Reads { count: _ } => "Reads",
            SourceFault::Bits { least: _ } => "Bits",
            SourceFault::Latency { clocks: _ } => "Latency",
        }
    }

    /// What it is about.
    pub fn subject(self) -> Subject
        ensures { result ≡ subject_of self }
    {
        match self {
            SourceFault::TooLong => Subject::Number(MAX_SOURCE_BYTES as u64),
            SourceFault::Lex(fault) => Subject::Bytes(fault.span),
            SourceFault::Nest { span } => Subject::Bytes(span),
            SourceFault::Syntax { span } => Subject::Bytes(span),
            SourceFault::Depth { span } => Subject::Bytes(span),
            SourceFault::Types(fault) => Subject::Bytes(fault.span),
            SourceFault::Nodes { count } => Subject::Number(count),
            SourceFault::InlineDepth { span } => Subject::Bytes(span),
            SourceFault::Reads { count } => Subject::Number(u64::from(count)),
            SourceFault::Bits { least } => Subject::Number(least),
            SourceFault::Latency { clocks } => Subject::Number(clocks),
        }
    }
}
