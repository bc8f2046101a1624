use idx_outside::Bytes;

/// A key of a header with its value.
#[derive(Debug, Drop)]
pub struct Section {
    /// The number of the key's line, from 1.
    pub line: u64,
    /// What stands between the parentheses of the key's line.
    pub key: Bytes,
    /// The lines up to the next key, blank lines left out, joined by one space.
    pub value: Bytes,
}
