ghost use Rattle.std.specs.Prelude.{◌≡◌};
ghost use Rattle.idx_query.specs.Fault.{fault_of_plan};
ghost use Rattle.idx_query.specs.declared.query_fault.QueryFault.TheVariants as faults;

use idx_outside::NoMemory;
use idx_plan::PlanFault;
use std::alloc::AllocError;
use thiserror::Error;

/// Why a question has no answer.
#[derive(Clone, Copy, Debug, PartialEq, Eq, Error)]
pub enum QueryFault {
    /// The question has no plan. It is not for want of memory.
    #[error("the question has no plan")]
    Plan(PlanFault),
    /// No step of the time was published in the hall that was taken.
    #[error("the step is not published")]
    NotPublished {
        /// How many steps were published in it.
        board: u64,
    },
    /// A read of a block failed. The reader's count of faults is now this.
    #[error("a call on the store failed")]
    StoreFault {
        /// How many faults the reader has counted.
        faults: u64,
    },
    /// There was no memory.
    #[error("not enough memory")]
    NoMemory,
}

impl From<PlanFault> for QueryFault {
    ghost from_gives = { λ fault result. result ≡ fault_of_plan fault };

    fn from(fault: PlanFault) -> QueryFault {
        match fault {
            PlanFault::NoMemory => QueryFault::NoMemory,
            fault => QueryFault::Plan(fault),
        }
    }
}

impl From<NoMemory> for QueryFault {
    ghost from_gives = { λ _ result. result ≡ faults.NoMemory };

    fn from(_: NoMemory) -> QueryFault {
        QueryFault::NoMemory
    }
}

impl From<AllocError> for QueryFault {
    ghost from_gives = { λ _ result. result ≡ faults.NoMemory };

    fn from(_: AllocError) -> QueryFault {
        QueryFault::NoMemory
    }
}
