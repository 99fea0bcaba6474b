// The contents of registers and arrays.

/// What registers and arrays store.
#[derive(Drop)]
pub struct Stored {
    pub regs: Vec<u64>,
    pub arrays: Vec<Vec<u64>>,
}

impl Stored {
    // The contents of a register, 0 where there is none.
    pub(crate) fn reg(&self, register: usize) -> u64 {
        if register < self.regs.len() {
            self.regs[register]
        } else {
            0
        }
    }
}
