ghost use Rattle.std.specs.Prelude.{◌≡◌};
ghost use Rattle.idx_check.specs.Refused.{refused_of_check, refused_of_header};

use crate::CheckFault;
use idx_header::{HeaderKind, HeaderRefusal};
use thiserror::Error;

/// Why nothing is said of a step of a dataset.
#[derive(Clone, Copy, Debug, PartialEq, Eq, Error)]
pub enum RefusedCheck {
    /// The header is refused: on this line, counted from 1, or 0 where the text is too long, stands this fault.
    #[error("the header is refused")]
    Header {
        /// The number of the line.
        line: u64,
        /// What is wrong.
        kind: HeaderKind,
    },
    /// The header has no time, or lacks the step, or no revision of it stands.
    #[error("the step does not stand")]
    NotPublished,
    /// The dataset could not be read.
    #[error("a call on the store failed")]
    StoreFault,
    /// There was no memory.
    #[error("not enough memory")]
    NoMemory,
}

impl From<HeaderRefusal> for RefusedCheck {
    ghost from_gives = { λ refusal refused. refused ≡ refused_of_header refusal };

    fn from(refusal: HeaderRefusal) -> RefusedCheck {
        match refusal {
            HeaderRefusal::Fault { line, kind } => RefusedCheck::Header { line, kind },
            HeaderRefusal::Outage => RefusedCheck::StoreFault,
            HeaderRefusal::NoMemory => RefusedCheck::NoMemory,
        }
    }
}

impl From<CheckFault> for RefusedCheck {
    ghost from_gives = { λ fault refused. refused ≡ refused_of_check fault };

    fn from(fault: CheckFault) -> RefusedCheck {
        match fault {
            CheckFault::StoreFault { .. } => RefusedCheck::StoreFault,
            CheckFault::NoMemory => RefusedCheck::NoMemory,
        }
    }
}
