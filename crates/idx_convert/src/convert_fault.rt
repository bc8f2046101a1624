use idx_header::HeaderKind;
use thiserror::Error;

/// Why a raw volume was not converted.
#[derive(Clone, Copy, Debug, PartialEq, Eq, Error)]
pub enum ConvertFault {
    /// The header that is asked for, or the one that stands, is refused: on this line, counted from 1, or 0 where the
    /// text is too long, stands this fault.
    #[error("a header is refused")]
    Header { line: u64, kind: HeaderKind },
    /// The header that is asked for lacks the step.
    #[error("the header lacks the step")]
    NoStep,
    /// The samples of the header that is asked for take so many bytes, or a file of its step does, which are too many to
    /// write.
    #[error("the volume or a file is too large")]
    TooLarge { bytes: u64 },
    /// A header stands, and does not agree with the one that is asked for.
    #[error("another header stands")]
    OtherHeader,
    /// 256 revisions of the step stand already, and no step has more.
    #[error("256 revisions of the step stand already")]
    AlreadyPublished,
    /// The raw volume has another length than the samples of the header take, in bytes.
    #[error("the raw volume has another length")]
    RawWrongSize { want: u64, found: u64 },
    /// A raw volume could not be read.
    #[error("a call on a raw volume failed")]
    RawFault,
    /// The dataset could not be read or written.
    #[error("a call on the store failed")]
    StoreFault,
    /// There was no memory.
    #[error("not enough memory")]
    NoMemory,
}
