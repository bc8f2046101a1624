use crate::HeaderKind;
use thiserror::Error;

/// Why a bay gives no header.
#[derive(Clone, Copy, Debug, PartialEq, Eq, Error)]
pub enum HeaderRefusal {
    /// The text is refused: what is wrong on which line, as in `HeaderFault`. It is not want of memory.
    #[error("the header is refused")]
    Fault {
        /// The number of the line.
        line: u64,
        /// What is wrong.
        kind: HeaderKind,
    },
    /// The bay counted a fault.
    #[error("the header cannot be read")]
    Outage,
    /// There was not enough memory.
    #[error("not enough memory")]
    NoMemory,
}
