// What a message has after its head: a sentence, an excerpt and help.

use crate::lexical::{push_lexical, push_lexical_help};
use crate::limits::{push_limit, push_limit_help};
use crate::type_help::push_type_help;
use crate::types::{Typed, push_typed};
use dk_base::OutOfMemory;
use dk_types::TypeFault;
use source_fault::{SourceFault, Subject};
use source_places::PlainText;
use std::alloc::Global;
use syntax_messages::{Detail, Source, push_excerpt, push_syntax};
use type_faults::FoundTypes;

// On a fault of types, with the types at it.
fn push_typed_detail(
    to: &mut Detail,
    alloc: Global,
    source: &Source<'_>,
    fault: TypeFault,
    types: FoundTypes,
) {
    let of = Typed {
        source,
        fault,
        types,
    };
    push_typed(to, &of);
    push_excerpt(to, alloc, source, fault.span);
    push_type_help(to, &of);
}

// On a program over a limit.
fn push_limit_detail(to: &mut Detail, alloc: Global, source: &Source<'_>, fault: SourceFault) {
    push_limit(to, fault);
    if let Subject::Bytes(span) = fault.subject() {
        push_excerpt(to, alloc, source, span);
    }
    push_limit_help(to, fault);
}

/// The sentence on a fault, the excerpt of its span, and the lines of help. `types` are those at a fault of types.
pub(crate) fn detail(
    alloc: Global,
    source: &Source<'_>,
    fault: SourceFault,
    types: FoundTypes,
) -> Result<PlainText, OutOfMemory> {
    let mut to = Detail::new(alloc);
    match fault {
        SourceFault::Lex(fault) => {
            push_lexical(&mut to, source.text, fault);
            push_excerpt(&mut to, alloc, source, fault.span);
            push_lexical_help(&mut to, source.text, fault);
        }
        SourceFault::Syntax { span } => push_syntax(&mut to, alloc, source, span),
        SourceFault::Types(fault) => push_typed_detail(&mut to, alloc, source, fault, types),
        SourceFault::TooLong
        | SourceFault::Nest { span: _ }
        | SourceFault::Depth { span: _ }
        | SourceFault::InlineDepth { span: _ }
        | SourceFault::Nodes { count: _ }
        | SourceFault::Reads { count: _ }
        | SourceFault::Bits { least: _ }
        | SourceFault::Latency { clocks: _ } => push_limit_detail(&mut to, alloc, source, fault),
    }
    to.finished()
}
