use crate::ReplyText;

/// A reply that was made and is still to be written.
#[derive(Drop)]
pub struct Answered {
    /// Its status.
    pub status: u16,
    /// Its bytes.
    pub text: ReplyText,
    /// It is the last reply of its link.
    pub closes: bool,
    /// The length of the board that it was made from: the last known one where none was taken.
    pub seen: u64,
    /// The reader's count of faults after it was made.
    pub faults: u64,
}
