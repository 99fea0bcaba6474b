// Why a program gets no phases.

/// Why a program gets no phases, in the order in which it is judged.
#[derive(Clone, Copy, Debug, PartialEq, Eq, thiserror::Error)]
pub enum WidenFault {
    /// The number of phases does not divide the width of the frame.
    #[error("Width {width}")]
    Width { width: u32 },
    /// The phases of the inputs would be more than 8 inputs.
    #[error("Inputs {count}")]
    Inputs { count: u32 },
    /// The phases of the outputs would be more than 8 outputs.
    #[error("Outputs {count}")]
    Outputs { count: u32 },
    /// The program of the phases is over a limit, or the check does not confirm it.
    #[error("Limits")]
    Limits,
}
