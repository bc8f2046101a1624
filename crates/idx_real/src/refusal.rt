//! Why a call of a bay was refused.
use crate::Reason;
use idx_outside::NoMemory;

/// Why a call was refused, and at which path; at the header file's where there is none.
#[derive(Drop)]
pub(crate) struct Refusal {
    pub(crate) place: Option<String>,
    pub(crate) reason: Reason,
}

impl Refusal {
    /// At this path.
    pub(crate) fn at(place: String, reason: Reason) -> Refusal {
        Refusal {
            place: Some(place),
            reason,
        }
    }
}

impl From<Reason> for Refusal {
    fn from(reason: Reason) -> Refusal {
        Refusal {
            place: None,
            reason,
        }
    }
}

impl From<NoMemory> for Refusal {
    fn from(_: NoMemory) -> Refusal {
        Refusal::from(Reason::no_memory())
    }
}
