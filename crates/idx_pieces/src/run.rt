use idx_outside::Bytes;

/// Samples of a field at consecutive hierarchical addresses, one sample at least.
#[derive(Debug, Drop)]
pub struct Run {
    /// The number of the field, from 0.
    pub field: u32,
    /// The address of the first sample.
    pub first: u64,
    /// The samples, one behind the other, in the order of their addresses.
    pub bytes: Bytes,
}
