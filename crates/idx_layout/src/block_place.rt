/// Where a block stands.
#[derive(Clone, Copy, Debug, PartialEq, Eq)]
pub struct Place {
    /// The number of its file.
    pub file: u64,
    /// The byte of the file at which it begins.
    pub offset: u64,
    /// How many bytes it has.
    pub len: u64,
}
