// Texts whose module is to have the port `en`.

ghost use Rattle.std.specs.Prelude.{◌≡◌, IsTrue, true, IfOk, IfErr, IfSome, IfNone};
ghost use Rattle.verilog_text.specs.Stands.{StandsFor};
ghost use Rattle.verilog_read.specs.Enables.{HasNoEnable, IsModuleErrorBy};

use dk_base::Span;
use netlist::Module;
use std::alloc::Global;
use verilog_parse::name_span;
use verilog_text::{TextError, TextFault};

/// Why a text has no module for a caller that may need the port `en`.
#[derive(Clone, Copy, Debug, PartialEq, Eq, thiserror::Error)]
pub enum ModuleError {
    /// The text denotes no module.
    #[error("{0}")]
    Fault(TextFault),
    /// Its module, whose name is here, has no port `en`.
    #[error("{}-{}: no port en", .0.start, .0.stop)]
    NoEnable(Span),
    #[error("out of memory")]
    OutOfMemory,
}

// The name of the module, if it has no port `en`.
fn lacking_enable(module: &Module, text: &[u8]) -> Option<Span>
    requires { StandsFor text.now «module».now }
    ensures lacks { IfSome result (HasNoEnable text.now) }
    ensures has { IfNone result («module».now.netlist.enable ≡ true) }
{
    if module.wiring().enable {
        None
    } else {
        Some(name_span(text))
    }
}

/// The module of a text, as `read` finds it, with the port `en` if that is needed.
pub fn read_for(alloc: Global, text: &[u8], needs_enable: bool) -> Result<Module, ModuleError>
    ensures stands { IfOk result (StandsFor text.now) }
    ensures enable { IfOk result (λ m. IsTrue needs_enable → m.netlist.enable ≡ true) }
    ensures fault { IfErr result (IsModuleErrorBy needs_enable text.now) }
{
    let module = match crate::read(alloc, text) {
        Ok(module) => module,
        Err(TextError::Fault(fault)) => return Err(ModuleError::Fault(fault)),
        Err(TextError::OutOfMemory) => return Err(ModuleError::OutOfMemory),
    };
    if !needs_enable {
        return Ok(module);
    }
    match lacking_enable(&module, text) {
        None => Ok(module),
        Some(name) => Err(ModuleError::NoEnable(name)),
    }
}
