// The values at the ports in the clocks of a batch.

/// The port en of each clock, and the dins of all: those of a clock after those of the clock before.
#[derive(Clone, Copy)]
pub struct Inputs<'a> {
    pub enables: &'a [bool],
    pub dins: &'a [u64],
}

/// Clocks of a batch, from the first one on.
#[derive(Clone, Copy)]
pub struct Piece<'a> {
    pub inputs: Inputs<'a>,
    pub first: usize,
    pub count: usize,
}
