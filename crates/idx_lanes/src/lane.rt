/// One axis of a walk over the samples that go into a block: `count` coordinates, each `step` bytes behind the one
/// before in the raw samples. The first one gives `first` to its place in the block, and each other one the next number
/// whose bits are all among `bits`.
#[derive(Clone, Copy, Debug)]
pub struct Lane {
    /// The bytes from one coordinate to the next.
    pub step: usize,
    /// How many coordinates there are.
    pub count: usize,
    /// The bits of the place that the axis gives.
    pub bits: usize,
    /// What the first coordinate gives to the place.
    pub first: usize,
}
