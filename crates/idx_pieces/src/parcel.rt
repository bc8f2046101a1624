use idx_geom::Region;
use idx_outside::Bytes;

/// What a rank has of a piece.
#[derive(Debug, Drop)]
pub struct Parcel {
    /// The number of the rank, from 0.
    pub rank: u32,
    /// The id of the piece.
    pub piece: u64,
    /// The points: those of the piece that are the rank's.
    pub region: Region,
    /// Their samples, field after field, each in row-major order, axis 0 fastest.
    pub bytes: Bytes,
}
