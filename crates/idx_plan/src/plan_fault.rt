ghost use Rattle.std.specs.Prelude.{◌≡◌};
ghost use Rattle.idx_plan.specs.declared.plan_fault.PlanFault.TheVariants as faults;

use idx_outside::NoMemory;
use thiserror::Error;

/// Why a question has no plan. The first in this order that applies is answered; want of memory may come at any point.
#[derive(Clone, Copy, Debug, PartialEq, Eq, Error)]
pub enum PlanFault {
    /// The region leaves the dataset's box.
    #[error("the region leaves the dataset's box")]
    OutsideVolume {
        /// The least axis on which it does.
        axis: u32,
    },
    /// `lo` passes `hi`, or `hi` passes the finest level.
    #[error("the levels are not in order, or pass the finest one")]
    BadLevels {
        /// The coarsest level that was asked for.
        lo: u32,
        /// The finest level that was asked for.
        hi: u32,
        /// The finest level of the dataset.
        max: u32,
    },
    /// The answer would pass `MAX_ANSWER` bytes.
    #[error("the answer is too large")]
    TooLarge {
        /// How many bytes it would have.
        bytes: u64,
    },
    /// There was no memory.
    #[error("not enough memory")]
    NoMemory,
}

impl From<NoMemory> for PlanFault {
    ghost from_gives = { λ _ fault. fault ≡ faults.NoMemory };

    fn from(_: NoMemory) -> PlanFault {
        PlanFault::NoMemory
    }
}
