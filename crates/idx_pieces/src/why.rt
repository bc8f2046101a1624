use thiserror::Error;

/// Why parcels do not make a piece. Of several reasons the first in this order is answered.
#[derive(Clone, Copy, Debug, PartialEq, Eq, Error)]
pub enum Why {
    /// The first parcel, counted from 0, that is not of the piece: it has another piece's id, a rank that has no part
    /// of the piece, or another region than that rank's part.
    #[error("parcel {at} is not of this piece")]
    Stranger { at: u64 },
    /// The first parcel, counted from 0, whose rank came before.
    #[error("parcel {at} is of a rank that came before")]
    Double { at: u64 },
    /// The lowest rank that has a part of the piece and no parcel.
    #[error("rank {rank} has no parcel")]
    Missing { rank: u32 },
    /// There was not enough memory.
    #[error("not enough memory")]
    NoMemory,
}
