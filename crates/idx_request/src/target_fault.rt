use thiserror::Error;

/// Why a target cannot be read. The first in this order that applies is answered; want of memory may come at any point.
#[derive(Clone, Copy, Debug, PartialEq, Eq, Error)]
pub enum TargetFault {
    /// The part before the first `?` is not `/mod_visus`.
    #[error("OtherPath")]
    OtherPath,
    /// A name or a value has the character U+FFFD, or is no UTF-8.
    #[error("BadText")]
    BadText,
    /// A known parameter stands twice.
    #[error("DoubleParameter")]
    DoubleParameter,
    /// `action` is missing.
    #[error("NoAction")]
    NoAction,
    /// `action` is not `boxquery`.
    #[error("UnknownAction")]
    UnknownAction,
    /// `dataset` is missing.
    #[error("NoDataset")]
    NoDataset,
    /// `dataset` is another name.
    #[error("OtherDataset")]
    OtherDataset,
    /// `compression` is neither empty nor `raw`.
    #[error("NotRaw")]
    NotRaw,
    /// `field` names no field.
    #[error("UnknownField")]
    UnknownField,
    /// `time` is no number.
    #[error("BadTime")]
    BadTime,
    /// `box` is missing, or is no region with the dataset's axes.
    #[error("BadBox")]
    BadBox,
    /// `fromh`, `toh` or `maxh` is no number, is too large, or `maxh` is not the finest level.
    #[error("BadLevels")]
    BadLevels,
    /// There was no memory.
    #[error("NoMemory")]
    NoMemory,
}
