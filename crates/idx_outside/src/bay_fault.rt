ghost use Rattle.std.specs.Prelude.{◌≡◌};
ghost use Rattle.idx_outside.specs.declared.bay_fault.BayFault.TheVariants.{Outage, NoMemory};

use crate::{NoMemory, Outage};
use std::alloc::{AllocError, AllocFailed};
use thiserror::Error;

/// Why a call of a bay was refused.
#[derive(Clone, Copy, Debug, PartialEq, Eq, Error)]
pub enum BayFault {
    /// The call failed. The bay has counted a fault.
    #[error("a call on the outside failed")]
    Outage,
    /// The call found no memory. No fault was counted.
    #[error("not enough memory")]
    NoMemory,
}

impl From<Outage> for BayFault {
    ghost from_gives = { λ _ fault. fault ≡ Outage };

    fn from(_: Outage) -> BayFault {
        BayFault::Outage
    }
}

impl From<NoMemory> for BayFault {
    ghost from_gives = { λ _ fault. fault ≡ NoMemory };

    fn from(_: NoMemory) -> BayFault {
        BayFault::NoMemory
    }
}

impl From<AllocError> for BayFault {
    ghost from_gives = { λ _ fault. fault ≡ NoMemory };

    fn from(_: AllocError) -> BayFault {
        BayFault::NoMemory
    }
}

impl<T: Drop> From<AllocFailed<T>> for BayFault {
    ghost from_gives = { λ _ fault. fault ≡ NoMemory };

    fn from(_: AllocFailed<T>) -> BayFault {
        BayFault::NoMemory
    }
}
