use thiserror::Error;

/// Why a text is no mask. The first in this order that applies is answered.
#[derive(Clone, Copy, Debug, PartialEq, Eq, Error)]
pub enum MaskFault {
    /// The first byte is not `V`, or there is none.
    #[error("a mask begins with V")]
    NoV,
    /// Nothing follows the `V`.
    #[error("a mask has at least one digit")]
    Empty,
    /// The byte at place `at`, counted from 0 in the text, is the first behind the `V` that is not `0` to `4`.
    #[error("a mask has no digits but 0 to 4")]
    BadDigit { at: u64 },
    /// More than forty digits follow the `V`.
    #[error("a mask has at most 40 digits")]
    TooLong,
}
