use crate::Bytes;

/// What is noted of a head that was answered on a link.
#[derive(Debug, Drop)]
pub struct Served {
    /// The target that was asked for; empty where the head had none that could be read.
    pub target: Bytes,
    /// The status of the reply.
    pub status: u16,
    /// The length of the board that the reply was made from: the last known one where none was taken.
    pub seen: u64,
    /// The reader's count of faults after the reply was made.
    pub faults: u64,
}
