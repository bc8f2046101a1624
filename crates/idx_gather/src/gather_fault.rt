ghost use Rattle.std.specs.Prelude.{◌≡◌};
ghost use Rattle.idx_gather.specs.Causes.{fault_of_bay, fault_of_ranks};
ghost use Rattle.idx_gather.specs.declared.gather_fault.GatherFault.TheVariants.{NoMemory as no_memory};

use idx_outside::{Bay, BayFault, NoMemory};
use idx_ranks::RanksFault;
use thiserror::Error;

/// Why no step was written.
#[derive(Clone, Copy, Debug, PartialEq, Eq, Error)]
pub enum GatherFault {
    /// The raw volume has another length than the samples of the box take, in bytes.
    #[error("the raw volume has another length")]
    RawWrongSize { want: u64, found: u64 },
    /// A call on the raw volume of a rank failed. Its count of faults is now this.
    #[error("a call on a raw volume failed")]
    RawFault { rank: u32, faults: u64 },
    /// A call on the bay, or on a draft of it, failed. The bay's count of faults is now this.
    #[error("a call on the store failed")]
    StoreFault { faults: u64 },
    /// There was no memory.
    #[error("not enough memory")]
    NoMemory,
}

impl GatherFault {
    /// The fault of gathering where a call on the bay, or on a draft of it, answered this one.
    pub(crate) fn of_bay<B: Bay>(fault: BayFault, bay: &B) -> GatherFault
        ensures { result ≡ fault_of_bay (B.faults bay.now) fault }
    {
        match fault {
            BayFault::Outage => GatherFault::StoreFault {
                faults: bay.faults(),
            },
            BayFault::NoMemory => GatherFault::NoMemory,
        }
    }
}

/// The fault of gathering where there is no memory.
impl From<NoMemory> for GatherFault {
    ghost from_gives = { λ _ fault. fault ≡ no_memory };

    fn from(_: NoMemory) -> GatherFault {
        GatherFault::NoMemory
    }
}

/// The fault of gathering where the ranks did not read their parts.
impl From<RanksFault> for GatherFault {
    ghost from_gives = { λ refusal fault. fault ≡ fault_of_ranks refusal };

    fn from(refusal: RanksFault) -> GatherFault {
        match refusal {
            RanksFault::RawFault { rank, faults } => GatherFault::RawFault { rank, faults },
            RanksFault::NoMemory => GatherFault::NoMemory,
        }
    }
}
