use thiserror::Error;

/// Why nothing was cut.
#[derive(Clone, Copy, Debug, PartialEq, Eq, Error)]
pub enum CutFault {
    /// The raw volume has `found` bytes and not the `want` that are asked for. Nothing was read of it.
    #[error("the raw volume has another length")]
    RawWrongSize { want: u64, found: u64 },
    /// The raw volume could not be read.
    #[error("a call on the raw volume failed")]
    RawFault,
    /// There was no memory.
    #[error("not enough memory")]
    NoMemory,
}
