// Whole texts.

ghost use Rattle.std.specs.Prelude.{◌≡◌, ℕ, List, Some, None, IsSome, IfOk, IfErr, IsErrAnd, MatchResult};
ghost use Rattle.dk_base.specs.declared.span.Span.{Span as OneSpan};
ghost use Rattle.netlist.specs.Names.{NamedNetlist};
ghost use Rattle.verilog_text.specs.declared.fault.TextFault.{TextFault as OneFault};
ghost use Rattle.verilog_text.specs.declared.fault.TextFault.TheVariants.{Net};
ghost use Rattle.verilog_text.specs.declared.fault.TextError.TheVariants.{OutOfMemory};
ghost use Rattle.verilog_text.specs.Grammar.{source_of};
ghost use Rattle.verilog_text.specs.Limits.{limit_fault};
ghost use Rattle.verilog_text.specs.Stands.{IsWritten, ArePartsOf, StandsFor};
ghost use Rattle.verilog_parse.specs.Named.{IsNamedSource};
ghost use Rattle.verilog_text.specs.Faults.{declared_span as span_declared, driven_span as span_driven, fault_span as span_of_fault, IsFault, IsErrorBy, Agrees};

use crate::limits::check_limits;
use crate::parts::parts_of;
use dk_base::Span;
use netlist::{Declared, Module, NetError, NetFault, Statement};
use std::alloc::Global;
use verilog_text::{TextError, TextFault, Written, WrittenUpdate};

// The span of a name that is declared.
fn declared_span(written: &Written, declared: Declared) -> Option<Span>
    ensures { result ≡ span_declared (source_of written.now) declared }
{
    match declared {
        Declared::Port(k) => match written.ports.get(k) {
            Some(port) => Some(port.name),
            None => None,
        },
        Declared::Declaration(k) => match written.declarations.get(k) {
            Some(declaration) => Some(declaration.name),
            None => None,
        },
    }
}

// The span of the name of what is driven.
fn driven_span(written: &Written, statement: Statement) -> Option<Span>
    ensures { result ≡ span_driven (source_of written.now) statement }
{
    match statement {
        Statement::Assign(k) => match written.assigns.get(k) {
            Some(assign) => Some(assign.target),
            None => None,
        },
        Statement::Update(k) => match written.updates.get(k) {
            Some(WrittenUpdate::Set(target, _)) => Some(*target),
            Some(WrittenUpdate::Put(target, _, _)) => Some(*target),
            None => None,
        },
    }
}

// The span of a net fault.
fn fault_span(written: &Written, fault: NetFault) -> Option<Span>
    ensures { result ≡ span_of_fault (source_of written.now) fault }
{
    match fault {
        NetFault::Duplicate(declared) => declared_span(written, declared),
        NetFault::Undriven(declared) => declared_span(written, declared),
        NetFault::Ports => Some(written.name),
        NetFault::Unknown(statement) => driven_span(written, statement),
        NetFault::WrongSort(statement) => driven_span(written, statement),
        NetFault::Divisor(statement) => driven_span(written, statement),
        NetFault::Width(statement) => driven_span(written, statement),
        NetFault::DrivenTwice(statement) => driven_span(written, statement),
        NetFault::Cycle(k) => driven_span(written, Statement::Assign(k)),
    }
}

// The fault of a text whose parts have a net fault.
fn net_fault(written: &Written, fault: NetFault) -> TextFault
    requires { IsSome (span_of_fault (source_of written.now) fault) }
    ensures { (span : OneSpan) → span_of_fault (source_of written.now) fault ≡ Some span → result ≡ Net span fault }
{
    match fault_span(written, fault) {
        Some(span) => TextFault::Net { span, fault },
        None => unreachable!(),
    }
}

// What is written within the limits, judged by the net rules.
fn module_of(alloc: Global, text: &[u8], written: &Written) -> Result<Module, TextError>
    requires written { IsWritten text.now (source_of written.now) }
    requires named { IsNamedSource text.now (source_of written.now) }
    requires limits { limit_fault (source_of written.now) ≡ None }
    ensures { MatchResult result (StandsFor text.now) (IsErrorBy (IsFault text.now)) }
{
    let parts = match parts_of(alloc, text, written) {
        Ok(parts) => parts,
        Err(_) => return Err(TextError::OutOfMemory),
    };
    match Module::checked(alloc, parts) {
        Ok(module) => Ok(module),
        Err(NetError::Fault(fault)) => Err(TextError::Fault(net_fault(written, fault))),
        Err(NetError::OutOfMemory) => Err(TextError::OutOfMemory),
    }
}

// What is written, judged by the limits and then by the net rules.
fn within(alloc: Global, text: &[u8], written: &Written) -> Result<Module, TextError>
    requires written { IsWritten text.now (source_of written.now) }
    requires named { IsNamedSource text.now (source_of written.now) }
    ensures { MatchResult result (StandsFor text.now) (IsErrorBy (IsFault text.now)) }
{
    match check_limits(written) {
        Ok(()) => module_of(alloc, text, written),
        Err(fault) => Err(TextError::Fault(TextFault::Limit(fault))),
    }
}

fn judged(alloc: Global, text: &[u8]) -> Result<Module, TextError>
    ensures { MatchResult result (StandsFor text.now) (IsErrorBy (IsFault text.now)) }
{
    match verilog_parse::parse(alloc, text) {
        Ok(written) => within(alloc, text, &written),
        Err(error) => Err(error),
    }
}

/// The module that a text of the Verilog subset denotes, or its first fault. The passes are tokens, grammar, limits and net rules, each over the whole text. The subset is that of docs/VERILOG.md, which narrows IEEE Std 1364-2005.
pub fn read(alloc: Global, text: &[u8]) -> Result<Module, TextError>
    // What is answered is so.
    ensures stands { IfOk result (StandsFor text.now) }
    ensures fault { IfErr result (IsErrorBy (IsFault text.now)) }

    // What is so is answered, except if out of memory.
    ensures accepts { (m : NamedNetlist) → StandsFor text.now m → MatchResult result (λ n. n ≡ m) (λ e. e ≡ OutOfMemory) }
    ensures refuses { (f : OneFault) → IsFault text.now f → IsErrAnd result (IsErrorBy (λ g. Agrees g f)) }
{
    verilog_text::one_module_law();
    judged(alloc, text)
}
