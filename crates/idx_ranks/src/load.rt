use idx_pieces::{Parcels, Piece};

/// A piece with what its ranks read of it.
#[derive(Debug, Drop)]
pub struct Load {
    /// The piece.
    pub piece: Piece,
    /// Its parcels: one of each rank that has a part of it, by rising rank.
    pub parcels: Parcels,
}
