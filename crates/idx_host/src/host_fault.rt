ghost use Rattle.std.specs.Prelude.{◌≡◌};
ghost use Rattle.idx_host.specs.Stages.{fault_of_header, fault_of_load};

use idx_edition::LoadFault;
use idx_header::{HeaderKind, HeaderRefusal};
use idx_table::TableKind;
use thiserror::Error;

/// Why a dataset is not served.
#[derive(Clone, Copy, Debug, PartialEq, Eq, Error)]
pub enum HostFault {
    /// The header is refused: on this line, counted from 1, or 0 where the text is too long, stands this fault.
    #[error("the header is refused")]
    Header {
        line: u64,
        kind: HeaderKind,
    },
    /// A row of the table of a file is faulty: the first one, in the order of steps, files and rows.
    #[error("the table of a file's blocks is faulty")]
    BadTable {
        /// The file's number, which is that of its first block.
        file: u64,
        /// The row, counted from 0.
        row: u64,
        /// What is wrong with it.
        kind: TableKind,
    },
    /// The dataset could not be read.
    #[error("a call on the store failed")]
    StoreFault,
    /// There was no memory.
    #[error("not enough memory")]
    NoMemory,
}

impl From<HeaderRefusal> for HostFault {
    ghost from_gives = { λ refusal fault. fault ≡ fault_of_header refusal };

    fn from(refusal: HeaderRefusal) -> HostFault {
        match refusal {
            HeaderRefusal::Fault { line, kind } => HostFault::Header { line, kind },
            HeaderRefusal::Outage => HostFault::StoreFault,
            HeaderRefusal::NoMemory => HostFault::NoMemory,
        }
    }
}

impl From<LoadFault> for HostFault {
    ghost from_gives = { λ load fault. fault ≡ fault_of_load load };

    fn from(load: LoadFault) -> HostFault {
        match load {
            LoadFault::BadTable { file, row, kind } => HostFault::BadTable { file, row, kind },
            LoadFault::StoreFault { .. } => HostFault::StoreFault,
            LoadFault::NoMemory => HostFault::NoMemory,
        }
    }
}
