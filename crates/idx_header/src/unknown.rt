use idx_outside::Bytes;

/// A key that has no effect, with its value.
#[derive(Debug, Drop)]
pub struct Unknown {
    /// What stands between the parentheses of the key's line.
    pub key: Bytes,
    /// The value.
    pub value: Bytes,
}
