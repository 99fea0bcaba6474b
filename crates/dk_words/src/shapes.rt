//! The program's commands, as a table.

/// How an argument is given.
#[derive(Clone, Copy)]
pub(crate) enum Kind {
    /// A word that must be given.
    Word,
    /// An option, which takes a value.
    Valued,
    /// An option without a value.
    Flag,
}

/// A command: its name, its words, its options with a value, and those without.
#[derive(Clone, Copy)]
pub(crate) struct Shape<'a> {
    pub(crate) name: &'a str,
    pub(crate) words: &'a [&'a str],
    pub(crate) options: &'a [&'a str],
    pub(crate) flags: &'a [&'a str],
}

/// The program's commands, in their order.
pub(crate) const COMMANDS: [Shape; 13] = [
    Shape {
        name: "run",
        words: &["PROG", "IN", "OUT"],
        options: &["age"],
        flags: &[],
    },
    Shape {
        name: "eval",
        words: &["PROG", "IN", "OUT"],
        options: &[],
        flags: &[],
    },
    Shape {
        name: "compile",
        words: &["PROG", "OUT"],
        options: &["age", "block"],
        flags: &["enable"],
    },
    Shape {
        name: "sim",
        words: &["VERILOG", "CLOCKS", "IN", "OUT"],
        options: &["fill", "hold"],
        flags: &[],
    },
    Shape {
        name: "trace",
        words: &["VERILOG", "CLOCKS", "IN", "VCD"],
        options: &[],
        flags: &[],
    },
    Shape {
        name: "plan",
        words: &["PROG"],
        options: &["age"],
        flags: &[],
    },
    Shape {
        name: "check",
        words: &["PROG", "REPORT"],
        options: &[],
        flags: &[],
    },
    Shape {
        name: "make",
        words: &["N"],
        options: &[],
        flags: &[],
    },
    Shape {
        name: "cut",
        words: &["N", "PROG", "OUT"],
        options: &[],
        flags: &[],
    },
    Shape {
        name: "narrow",
        words: &["PROG", "OUT"],
        options: &[],
        flags: &[],
    },
    Shape {
        name: "widen",
        words: &["P", "PROG", "OUT"],
        options: &[],
        flags: &[],
    },
    Shape {
        name: "explain",
        words: &["PROG"],
        options: &[],
        flags: &[],
    },
    Shape {
        name: "nets",
        words: &["PROG"],
        options: &["age", "block"],
        flags: &["enable"],
    },
];
