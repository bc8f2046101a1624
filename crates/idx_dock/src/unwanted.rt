use thiserror::Error;

/// Why a shipment was not taken.
#[derive(Clone, Copy, Debug, PartialEq, Eq, Error)]
pub enum Unwanted {
    /// It is for another file, or of a piece that is not awaited.
    #[error("the shipment is for another file or of a piece without a point in the file")]
    Stranger,
    /// Its piece was delivered before.
    #[error("the piece was delivered before")]
    Double,
}
