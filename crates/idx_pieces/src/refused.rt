use crate::{Parcels, Piece, Why};

/// A piece and parcels that do not make it, both as they were.
#[derive(Debug, Drop)]
pub struct Refused {
    /// Why they do not.
    pub why: Why,
    /// The piece.
    pub piece: Piece,
    /// The parcels.
    pub parcels: Parcels,
}
