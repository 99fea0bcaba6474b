// Faults, with the types at them.

use dk_base::Ty;
use dk_types::TypeFault;

/// The types at a fault, where they are known.
#[derive(Clone, Copy, Debug)]
pub enum FoundTypes {
    None,
    /// The type of a definition's body, and the declared one, which does not take it.
    Body { body: Ty, declared: Ty },
    /// The type of the one operand, of the declared input, or of the image that is an output.
    Operand(Ty),
    /// The types of both operands, or of both choices of a `select`.
    Operands(Ty, Ty),
}

/// A fault of types, and the types there.
#[derive(Clone, Copy, Debug)]
pub struct FoundFault {
    pub fault: TypeFault,
    pub types: FoundTypes,
}
