// Why there is no plan.

use dk_base::OutOfMemory;

/// A plan passes a limit, or there is no memory for it.
#[derive(Clone, Copy, Debug, PartialEq, Eq, thiserror::Error)]
pub enum PlanFault {
    /// The least bits, where they are above 67,108,864.
    #[error("Bits {least}")]
    Bits { least: u64 },
    /// The greatest delay of an output in clocks, where it is above 67,108,864.
    #[error("Latency {clocks}")]
    Latency { clocks: u64 },
    #[error("out of memory")]
    OutOfMemory,
}

impl From<OutOfMemory> for PlanFault {
    ghost use Rattle.std.specs.Prelude.{◌≡◌};
    ghost use Rattle.buffer_plan.specs.declared.fault.PlanFault.TheVariants as fault;

    ghost from_gives = { λ e f. f ≡ fault.OutOfMemory };

    fn from(_error: OutOfMemory) -> Self {
        PlanFault::OutOfMemory
    }
}
