use crate::Key;

/// Names a cached block: by the number of its post, and its key.
#[derive(Clone, Copy, Debug, PartialEq, Eq, PartialOrd, Ord)]
pub struct BlockName {
    /// The number of the published step.
    pub post: u64,
    /// The block's key, which has the step's time.
    pub key: Key,
}
