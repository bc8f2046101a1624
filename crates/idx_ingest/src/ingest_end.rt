use idx_gather::GatherFault;

/// How gathering and publishing a step ended.
#[derive(Clone, Copy, Debug, PartialEq, Eq)]
pub enum IngestEnd {
    /// The step was published, as the post of this number.
    Published { post: u64 },
    /// The step was not gathered.
    Refused { why: GatherFault },
    /// There was no memory. The step may stand in the bay, whole; it was not published.
    NoMemory,
}
