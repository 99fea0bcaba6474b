// Net faults.

ghost use Rattle.std.specs.Prelude.{◌≡◌};
ghost use Rattle.netlist.specs.declared.fault.NetError.TheVariants.{Fault as AFault, OutOfMemory};

use std::alloc::{AllocError, AllocFailed};

/// What is declared: a port or a declaration, by its number in its list.
#[derive(Clone, Copy, Debug, PartialEq, Eq)]
pub enum Declared {
    Port(usize),
    Declaration(usize),
}

/// What drives: an assign or an update, by its number in its list.
#[derive(Clone, Copy, Debug, PartialEq, Eq)]
pub enum Statement {
    Assign(usize),
    Update(usize),
}

/// Why parts make no module. The passes come in this order but for Width, which follows Divisor.
#[derive(Clone, Copy, Debug, PartialEq, Eq, thiserror::Error)]
pub enum NetFault {
    /// A name is declared a second time here.
    #[error("Duplicate {0:?}")]
    Duplicate(Declared),
    /// The ports are not the profile's.
    #[error("Ports")]
    Ports,
    /// A name is not declared.
    #[error("Unknown {0:?}")]
    Unknown(Statement),
    /// A name denotes something of another sort.
    #[error("WrongSort {0:?}")]
    WrongSort(Statement),
    /// The divisor is no constant, or 0.
    #[error("Divisor {0:?}")]
    Divisor(Statement),
    /// Widths do not agree.
    #[error("Width {0:?}")]
    Width(Statement),
    /// The second driver of a wire, output, register or array.
    #[error("DrivenTwice {0:?}")]
    DrivenTwice(Statement),
    /// Nothing drives it.
    #[error("Undriven {0:?}")]
    Undriven(Declared),
    /// The assign of this number depends on itself.
    #[error("Cycle at assign {0}")]
    Cycle(usize),
}

/// Why no module was made of parts: their first fault, or out of memory.
#[derive(Clone, Copy, Debug, PartialEq, Eq, thiserror::Error)]
pub enum NetError {
    #[error("{0}")]
    Fault(NetFault),
    #[error("out of memory")]
    OutOfMemory,
}

impl From<NetFault> for NetError {
    ghost from_gives = { λ f e. e ≡ AFault f };

    fn from(fault: NetFault) -> Self {
        NetError::Fault(fault)
    }
}

impl From<AllocError> for NetError {
    ghost from_gives = { λ _ e. e ≡ OutOfMemory };

    fn from(_: AllocError) -> Self {
        NetError::OutOfMemory
    }
}

impl<T: Drop> From<AllocFailed<T>> for NetError {
    ghost from_gives = { λ _ e. e ≡ OutOfMemory };

    fn from(_: AllocFailed<T>) -> Self {
        NetError::OutOfMemory
    }
}
