use crate::wrong_file::WrongFile;
use idx_real::Fault;

/// What is known of how a run ended besides its cause, for the lines that help.
#[derive(Drop)]
pub struct Hints<'o> {
    /// The text of the header that stands; empty where it is not known.
    pub header: &'o [u8],
    /// The file that ended a check, where it could be looked at again.
    pub wrong: Option<&'o WrongFile>,
    /// Why the call failed that ended the run, and where.
    pub fault: Option<Fault<'o>>,
}

impl<'o> Hints<'o> {
    /// Nothing is known but why a call failed, if one did.
    pub fn of_fault(fault: Option<Fault<'o>>) -> Hints<'o> {
        Hints {
            header: b"",
            wrong: None,
            fault,
        }
    }
}
