use thiserror::Error;

/// Why reading ended early.
#[derive(Clone, Copy, Debug, PartialEq, Eq, Error)]
pub enum RanksFault {
    /// A call on a raw volume failed: this is the least of the ranks with such a failure. Its count of faults is now
    /// this.
    #[error("a call on the raw volume of rank {rank} failed")]
    RawFault { rank: u32, faults: u64 },
    /// There was no memory.
    #[error("not enough memory")]
    NoMemory,
}
