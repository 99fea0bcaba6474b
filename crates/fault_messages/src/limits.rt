// Programs over a limit.

use dk_base::{
    MAX_BUFFER_BITS, MAX_COUNTED_READS, MAX_INLINED_DEPTH, MAX_LATENCY, MAX_LIVE_READS, MAX_NODES,
    MAX_OPEN_BRACKETS, MAX_SOURCE_BYTES, MAX_SOURCE_DEPTH,
};
use source_fault::SourceFault;
use syntax_messages::{Detail, push_help, push_numbered};

// Adds a count and its limit.
fn push_over(to: &mut Detail, before: &str, count: u64, between: &str, limit: u64) {
    push_numbered(to, before, count, between);
    push_numbered(to, ", and ", limit, " are allowed");
}

// Adds how many live reads there are. More than are counted are one more than these.
fn push_reads(to: &mut Detail, count: u32) {
    let between = if u64::from(count) <= MAX_COUNTED_READS as u64 {
        " live reads"
    } else {
        " live reads or more"
    };
    push_over(
        to,
        "the program has ",
        u64::from(count),
        between,
        MAX_LIVE_READS as u64,
    );
}

/// Adds the sentence on a program over a limit.
pub(crate) fn push_limit(to: &mut Detail, fault: SourceFault) {
    match fault {
        SourceFault::TooLong => {
            push_numbered(
                to,
                "the text has more than ",
                MAX_SOURCE_BYTES as u64,
                " bytes",
            )
        }
        SourceFault::Nest { span: _ } => push_numbered(
            to,
            "more than ",
            MAX_OPEN_BRACKETS as u64,
            " brackets are open at once",
        ),
        SourceFault::Depth { span: _ } => push_numbered(
            to,
            "the expression has more than ",
            MAX_SOURCE_DEPTH as u64,
            " levels of operators",
        ),
        SourceFault::InlineDepth { span: _ } => push_numbered(
            to,
            "with inline images substituted, the body has more than ",
            MAX_INLINED_DEPTH as u64,
            " levels of operators",
        ),
        SourceFault::Nodes { count } => push_over(
            to,
            "with inline images substituted, the program has ",
            count,
            " nodes",
            MAX_NODES,
        ),
        SourceFault::Reads { count } => push_reads(to, count),
        SourceFault::Bits { least } => push_over(
            to,
            "the line buffers need at least ",
            least,
            " bits",
            MAX_BUFFER_BITS,
        ),
        SourceFault::Latency { clocks } => push_over(
            to,
            "the last output has a latency of ",
            clocks,
            " clocks",
            MAX_LATENCY,
        ),
        SourceFault::Lex(_) | SourceFault::Syntax { span: _ } | SourceFault::Types(_) => {}
    }
}

// What helps with a program over a limit.
fn limit_help(fault: SourceFault) -> &'static str {
    match fault {
        SourceFault::TooLong => "divide the program into several",
        SourceFault::Nest { span: _ } => {
            "define a part of the expression as an image of its own: `inline let p = im(x,y) .. end`"
        }
        SourceFault::Depth { span: _ } => {
            "bracket a long sum as a tree, `(p+q)+(r+s)`, or define an image for a part of it"
        }
        SourceFault::InlineDepth { span: _ } => "remove `inline` from an image that the body reads",
        SourceFault::Nodes { count: _ } => "remove `inline` from an image that is read often",
        SourceFault::Reads { count: _ } => "remove `inline` from an image that is read often",
        SourceFault::Bits { least: _ } => {
            "read fewer rows, convert images to narrower types, or use a smaller width or age"
        }
        SourceFault::Latency { clocks: _ } => {
            "read fewer rows ahead (`y+k`), or use a smaller width"
        }
        SourceFault::Lex(_) | SourceFault::Syntax { span: _ } | SourceFault::Types(_) => "",
    }
}

/// Adds the help on a program over a limit.
pub(crate) fn push_limit_help(to: &mut Detail, fault: SourceFault) {
    let help = limit_help(fault);
    if !help.is_empty() {
        push_help(to, help);
    }
}
