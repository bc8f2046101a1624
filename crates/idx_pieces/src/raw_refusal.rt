use thiserror::Error;

/// Why a rank's samples were not read.
#[derive(Clone, Copy, Debug, PartialEq, Eq, Error)]
pub enum RawRefusal {
    /// A call on the raw volume failed. Its count of faults is now this.
    #[error("a call on the raw volume failed")]
    RawFault { faults: u64 },
    /// There was no memory.
    #[error("not enough memory")]
    NoMemory,
}
