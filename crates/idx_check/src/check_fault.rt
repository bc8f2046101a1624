ghost use Rattle.std.specs.Prelude.{◌≡◌};
ghost use Rattle.idx_check.specs.declared.check_fault.CheckFault.TheVariants.{NoMemory};

use idx_outside::NoMemory;
use std::alloc::{AllocError, AllocFailed};
use thiserror::Error;

/// Why it is not known whether the files of a step are the writer's.
#[derive(Clone, Copy, Debug, PartialEq, Eq, Error)]
pub enum CheckFault {
    /// The bay or the reader counted a fault; this is its count afterwards.
    #[error("a file of the step is not read")]
    StoreFault {
        /// The count of the object whose call failed.
        faults: u64,
    },
    /// There was no memory.
    #[error("not enough memory")]
    NoMemory,
}

impl From<NoMemory> for CheckFault {
    ghost from_gives = { λ _ fault. fault ≡ NoMemory };

    fn from(_: NoMemory) -> CheckFault {
        CheckFault::NoMemory
    }
}

impl From<AllocError> for CheckFault {
    ghost from_gives = { λ _ fault. fault ≡ NoMemory };

    fn from(_: AllocError) -> CheckFault {
        CheckFault::NoMemory
    }
}
