ghost use Rattle.std.specs.Prelude.{◌≡◌};
ghost use Rattle.idx_live.specs.Stages.{fault_of_bay, fault_of_header, fault_of_load};
ghost use Rattle.idx_live.specs.declared.live_fault.LiveFault.TheVariants as faults;

use idx_edition::LoadFault;
use idx_header::{HeaderKind, HeaderRefusal};
use idx_outside::{BayFault, NoMemory};
use idx_table::TableKind;
use thiserror::Error;

/// Why a dataset is not served while a step of it is gathered.
#[derive(Clone, Copy, Debug, PartialEq, Eq, Error)]
pub enum LiveFault {
    /// The header is refused: on this line, counted from 1, or 0 where the text is too long, stands this fault.
    #[error("the header is refused")]
    Header {
        line: u64,
        kind: HeaderKind,
    },
    /// The header has no time, or lacks the step.
    #[error("the header lacks the step")]
    NoStep,
    /// The samples of a step take so many bytes, or a file of one does, which are too many to write.
    #[error("the volume or a file is too large")]
    TooLarge {
        bytes: u64,
    },
    /// 256 revisions of the step stand already, and no step has more.
    #[error("256 revisions of the step stand already")]
    AlreadyPublished,
    /// The raw volume has another length than the samples of the header take, in bytes.
    #[error("the raw volume has another length")]
    RawWrongSize {
        want: u64,
        found: u64,
    },
    /// The first raw volume could not be asked for its length.
    #[error("a call on a raw volume failed")]
    RawFault,
    /// A row of the table of a file is faulty: the first one, in the order of steps, files and rows.
    #[error("the table of a file's blocks is faulty")]
    BadTable {
        /// The file's number, which is that of its first block.
        file: u64,
        /// The row, counted from 0.
        row: u64,
        /// What is wrong with it.
        kind: TableKind,
    },
    /// The dataset could not be read, or the step could not be begun.
    #[error("a call on the store failed")]
    StoreFault,
    /// There was no memory.
    #[error("not enough memory")]
    NoMemory,
}

/// The fault that is answered where the bay gives no header.
impl From<HeaderRefusal> for LiveFault {
    ghost from_gives = { λ refusal fault. fault ≡ fault_of_header refusal };

    fn from(refusal: HeaderRefusal) -> LiveFault {
        match refusal {
            HeaderRefusal::Fault { line, kind } => LiveFault::Header { line, kind },
            HeaderRefusal::Outage => LiveFault::StoreFault,
            HeaderRefusal::NoMemory => LiveFault::NoMemory,
        }
    }
}

/// The fault that is answered where the bay does not say which revisions of a step stand.
impl From<BayFault> for LiveFault {
    ghost from_gives = { λ refusal fault. fault ≡ fault_of_bay refusal };

    fn from(refusal: BayFault) -> LiveFault {
        match refusal {
            BayFault::Outage => LiveFault::StoreFault,
            BayFault::NoMemory => LiveFault::NoMemory,
        }
    }
}

/// The fault that is answered where the steps that stand are not loaded.
impl From<LoadFault> for LiveFault {
    ghost from_gives = { λ load fault. fault ≡ fault_of_load load };

    fn from(load: LoadFault) -> LiveFault {
        match load {
            LoadFault::BadTable { file, row, kind } => LiveFault::BadTable { file, row, kind },
            LoadFault::StoreFault { .. } => LiveFault::StoreFault,
            LoadFault::NoMemory => LiveFault::NoMemory,
        }
    }
}

/// The fault that is answered where there is no memory.
impl From<NoMemory> for LiveFault {
    ghost from_gives = { λ _ fault. fault ≡ faults.NoMemory };

    fn from(_: NoMemory) -> LiveFault {
        LiveFault::NoMemory
    }
}
