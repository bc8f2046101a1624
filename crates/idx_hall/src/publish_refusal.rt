ghost use Rattle.idx_hall.specs.declared.publish_refusal.PublishRefusal.TheVariants as refusals;

use idx_outside::NoMemory;
use std::alloc::AllocError;
use thiserror::Error;

/// Why a step is not published.
#[derive(Clone, Copy, Debug, PartialEq, Eq, Error)]
pub enum PublishRefusal {
    /// The step of this number is the newest of the time, and the refused step was not to follow it.
    #[error("a step of this time was published before")]
    AlreadyPublished {
        /// The number of that newest step.
        post: u64,
    },
    /// There was no memory.
    #[error("not enough memory")]
    NoMemory,
}
