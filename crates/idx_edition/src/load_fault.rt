ghost use Rattle.std.specs.Prelude.{◌≡◌, ◌≢◌};
ghost use Rattle.idx_edition.specs.declared.load_fault.LoadFault.TheVariants.{NoMemory};

use idx_outside::NoMemory;
use idx_table::{TableFault, TableKind};
use std::alloc::{AllocError, AllocFailed};
use thiserror::Error;

/// Why a step's files are not opened.
#[derive(Clone, Copy, Debug, PartialEq, Eq, Error)]
pub enum LoadFault {
    /// A row of the table of a file is faulty: the first one, in the order of files and then of rows.
    #[error("the table of a file's blocks is faulty")]
    BadTable {
        /// The file's number, which is that of its first block.
        file: u64,
        /// The row, counted from 0.
        row: u64,
        /// What is wrong with it.
        kind: TableKind,
    },
    /// The bay or the reader counted a fault; this is its count afterwards.
    #[error("a file of the step is not read")]
    StoreFault {
        /// The count of the object whose call failed.
        faults: u64,
    },
    /// There was no memory.
    #[error("not enough memory")]
    NoMemory,
}

impl LoadFault {
    /// The fault of the table of a file.
    pub(crate) fn of_table(file: u64, fault: TableFault) -> LoadFault
        ensures memory { fault.kind ≡ TableKind.NoMemory → result ≡ LoadFault.NoMemory }
        ensures table { fault.kind ≢ TableKind.NoMemory → result ≡ LoadFault.BadTable file fault.row fault.kind }
    {
        match fault.kind {
            TableKind::NoMemory => LoadFault::NoMemory,
            kind => LoadFault::BadTable {
                file,
                row: fault.row,
                kind,
            },
        }
    }
}

impl From<NoMemory> for LoadFault {
    ghost from_gives = { λ _ fault. fault ≡ NoMemory };

    fn from(_: NoMemory) -> LoadFault {
        LoadFault::NoMemory
    }
}

impl From<AllocError> for LoadFault {
    ghost from_gives = { λ _ fault. fault ≡ NoMemory };

    fn from(_: AllocError) -> LoadFault {
        LoadFault::NoMemory
    }
}

impl<T: Drop> From<AllocFailed<T>> for LoadFault {
    ghost from_gives = { λ _ fault. fault ≡ NoMemory };

    fn from(_: AllocFailed<T>) -> LoadFault {
        LoadFault::NoMemory
    }
}
