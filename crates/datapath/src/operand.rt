// Operands of whole numbers.

use dk_base::Ty;
use wiring::Net;

/// A net, or a constant of a width in bits and a value.
#[derive(Clone, Copy, Debug, PartialEq, Eq)]
pub enum Signal {
    Net(Net),
    Constant(u8, u64),
}

/// A net or a constant, and the type in which its bits are read.
#[derive(Clone, Copy, Debug)]
pub struct Operand {
    pub bits: Signal,
    pub ty: Ty,
}
