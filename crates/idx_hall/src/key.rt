/// Names a block: by its step, its field and its number.
#[derive(Clone, Copy, Debug, PartialEq, Eq, PartialOrd, Ord)]
pub struct Key {
    /// The step's time.
    pub time: u64,
    /// The field's number, from 0.
    pub field: u32,
    /// The block's number, from 0.
    pub block: u64,
}
