use crate::Bytes;

/// A file of a step, in memory.
#[derive(Debug, Drop)]
pub struct MemFile {
    /// The name of the step's folder; empty where the header has no time.
    pub folder: Bytes,
    /// The path from the header's folder on.
    pub path: Bytes,
    pub bytes: Bytes,
}
