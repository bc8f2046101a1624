use crate::Piece;
use idx_outside::Bytes;

/// A piece with all of its samples.
#[derive(Debug, Drop)]
pub struct Filled {
    /// The piece.
    pub piece: Piece,
    /// The samples, field after field, each in row-major order, axis 0 fastest.
    pub bytes: Bytes,
}
