// What `compile` is asked.

/// Whether there is the port `en`; the age that is asked of each live read, in clocks; and the fewest words of an array that is read one clock ahead, into a register, if any is.
#[derive(Clone, Copy, Debug, PartialEq, Eq)]
pub struct Options {
    pub enable: bool,
    pub age: u8,
    pub block: Option<u32>,
}
