//! What is wrong with a Verilog text.

ghost use Rattle.std.specs.Prelude.{◌≡◌};
ghost use Rattle.dk_endings.specs.Verilog.{fault_told, net_kind as kind_of_net};

use dk_base::Span;
use netlist::NetFault;
use verilog_text::{LexKind, LimitKind, TextFault};

/// What is wrong with a Verilog text.
#[derive(Clone, Copy, Debug, PartialEq, Eq)]
pub enum VerilogKind {
    /// It has no tokens.
    Token(LexKind),
    /// A token that continues no module.
    Syntax,
    /// A word that continues no module, and the subset refuses it.
    NotInSubset,
    /// It passes a limit.
    Limit(LimitKind),
    /// A name is declared a second time.
    Duplicate,
    /// The ports are not the profile's, or there is no port `en` for clocks that are to be held.
    Ports,
    /// A name is not declared.
    Unknown,
    /// A name denotes something of another sort.
    WrongSort,
    /// The divisor is no constant, or 0.
    Divisor,
    /// Widths that do not agree.
    Width,
    /// A second driver.
    DrivenTwice,
    /// Nothing drives it.
    Undriven,
    /// An assign depends on itself.
    Cycle,
}

/// Why a Verilog text is refused.
#[derive(Clone, Copy, Debug, PartialEq, Eq)]
pub enum VerilogFault {
    /// The text is longer than `MAX_VERILOG_BYTES`.
    TooLong,
    /// The first fault of the text, and the bytes that it is of.
    At { span: Span, kind: VerilogKind },
}

fn net_kind(fault: NetFault) -> VerilogKind
    ensures { result ≡ kind_of_net fault }
{
    match fault {
        NetFault::Duplicate(_) => VerilogKind::Duplicate,
        NetFault::Ports => VerilogKind::Ports,
        NetFault::Unknown(_) => VerilogKind::Unknown,
        NetFault::WrongSort(_) => VerilogKind::WrongSort,
        NetFault::Divisor(_) => VerilogKind::Divisor,
        NetFault::Width(_) => VerilogKind::Width,
        NetFault::DrivenTwice(_) => VerilogKind::DrivenTwice,
        NetFault::Undriven(_) => VerilogKind::Undriven,
        NetFault::Cycle(_) => VerilogKind::Cycle,
    }
}

impl VerilogFault {
    /// What is reported of a text's fault.
    pub fn of(fault: TextFault) -> VerilogFault
        ensures { result ≡ fault_told fault }
    {
        match fault {
            TextFault::Lex(fault) => VerilogFault::At {
                span: fault.span,
                kind: VerilogKind::Token(fault.kind),
            },
            TextFault::Syntax(span) => VerilogFault::At {
                span,
                kind: VerilogKind::Syntax,
            },
            TextFault::NotInSubset(span) => VerilogFault::At {
                span,
                kind: VerilogKind::NotInSubset,
            },
            TextFault::Limit(fault) => VerilogFault::At {
                span: fault.span,
                kind: VerilogKind::Limit(fault.kind),
            },
            TextFault::Net { span, fault } => VerilogFault::At {
                span,
                kind: net_kind(fault),
            },
        }
    }
}
