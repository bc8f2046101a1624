ghost use Rattle.std.specs.Prelude.{◌≡◌};
ghost use Rattle.idx_core.specs.declared.world_refusal.WorldRefusal.TheVariants as refusals;

use idx_outside::NoMemory;
use std::alloc::AllocFailed;
use thiserror::Error;

/// Why no world is made.
#[derive(Clone, Copy, Debug, Error, PartialEq, Eq)]
pub enum WorldRefusal {
    /// A volume has a wrong length, or is of a timestep that the dataset lacks, or 256 of its timestep stand before it.
    #[error("volume {at} has a wrong length, or a timestep that is not there, or is one too many of it")]
    WrongVolume {
        /// The place of the first such volume, from 0.
        at: u64,
    },
    /// A question names no field of the dataset, or has other axes, or has no plan.
    #[error("question {at} cannot be asked")]
    WrongAsk {
        /// The place of the first such question, from 0.
        at: u64,
    },
    /// There was not enough memory.
    #[error("not enough memory")]
    NoMemory,
}

impl From<NoMemory> for WorldRefusal {
    ghost from_gives = { λ _ refusal. refusal ≡ refusals.NoMemory };

    fn from(_: NoMemory) -> WorldRefusal {
        WorldRefusal::NoMemory
    }
}

impl<T: Drop> From<AllocFailed<T>> for WorldRefusal {
    ghost from_gives = { λ _ refusal. refusal ≡ refusals.NoMemory };

    fn from(_: AllocFailed<T>) -> WorldRefusal {
        WorldRefusal::NoMemory
    }
}
