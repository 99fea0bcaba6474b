// Why a module's pictures are not written.

ghost use Rattle.std.specs.Prelude.{◌≡◌};
ghost use Rattle.stimulus.specs.declared.stop.BenchFault.TheVariants.{OutOfMemory as NoMemory};

use std::alloc::{AllocError, AllocFailed};

/// Why a run gives no pictures.
#[derive(Clone, Copy, Debug, PartialEq, Eq, thiserror::Error)]
pub enum Stop {
    /// At this clock an index is not below the depth of this array, the number of which is that among the arrays of the text. The reset clock is -1, and held clocks are counted.
    #[error("clock {clock} array {array} index {index}")]
    Index {
        clock: i64,
        array: usize,
        index: u64,
    },
    /// The first output that has not shown what is asked has shown this many samples.
    #[error("count {shown} of {wanted}")]
    Count {
        shown: u64,
        wanted: u64,
    },
}

/// Why there is no file of pictures.
#[derive(Clone, Copy, Debug, PartialEq, Eq, thiserror::Error)]
pub enum BenchFault {
    #[error("{0}")]
    Stopped(Stop),
    #[error("out of memory")]
    OutOfMemory,
}

impl From<AllocError> for BenchFault {
    ghost from_gives = { λ _ e. e ≡ NoMemory };

    fn from(_e: AllocError) -> BenchFault {
        BenchFault::OutOfMemory
    }
}

impl<T: Drop> From<AllocFailed<T>> for BenchFault {
    ghost from_gives = { λ _ e. e ≡ NoMemory };

    fn from(_e: AllocFailed<T>) -> BenchFault {
        BenchFault::OutOfMemory
    }
}
