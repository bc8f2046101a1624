use crate::Runs;

/// The samples of a piece that stand in one file.
#[derive(Debug, Drop)]
pub struct Shipment {
    /// The id of the piece.
    pub piece: u64,
    /// The number of the file: that of its first block.
    pub file: u64,
    /// The samples: runs that rise by field and then by address, none of them without a sample.
    pub runs: Runs,
}
