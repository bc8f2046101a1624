use idx_geom::Region;

/// A question: the samples of a field of a step at the points of a region, both ends inclusive, whose level is `lo` to
/// `hi`.
#[derive(Clone, Copy, Debug)]
pub struct Ask {
    /// The step's number.
    pub time: u64,
    /// The field's number, from 0.
    pub field: u32,
    /// The region, of as many axes as the dataset has.
    pub region: Region,
    /// The coarsest level that is asked for.
    pub lo: u32,
    /// The finest level that is asked for.
    pub hi: u32,
}
