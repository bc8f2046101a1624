use thiserror::Error;

/// Why samples were not read.
#[derive(Clone, Copy, Debug, PartialEq, Eq, Error)]
pub(crate) enum ReadFault {
    /// A call on the source failed, and the source has counted it.
    #[error("a read of the raw volume failed")]
    Outage,
    /// There was no memory.
    #[error("not enough memory")]
    NoMemory,
}
