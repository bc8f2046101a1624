ghost use Rattle.std.specs.Prelude.{◌≡◌};
ghost use Rattle.idx_extract.specs.Stages.{fault_of_header, fault_of_load, fault_of_plan, fault_of_query};

use idx_edition::LoadFault;
use idx_header::{HeaderKind, HeaderRefusal};
use idx_plan::PlanFault;
use idx_query::QueryFault;
use idx_table::TableKind;
use thiserror::Error;

/// Why a question has no answer.
#[derive(Clone, Copy, Debug, PartialEq, Eq, Error)]
pub enum ExtractFault {
    /// The header is refused: on this line, counted from 1, or 0 where the text is too long, stands this fault.
    #[error("the header is refused")]
    Header {
        line: u64,
        kind: HeaderKind,
    },
    /// The region has another number of axes than the dataset.
    #[error("the region has another number of axes")]
    OtherAxes,
    /// No field has the name.
    #[error("no field has the name")]
    UnknownField,
    /// The question has no plan. It is not for want of memory.
    #[error("the question has no plan")]
    Plan(PlanFault),
    /// The header lacks the step, or no revision of it stands.
    #[error("the step does not stand")]
    NotPublished,
    /// A row of the table of a file is faulty: the first one, in the order of files and then of rows.
    #[error("the table of a file's blocks is faulty")]
    BadTable {
        /// The file's number, which is that of its first block.
        file: u64,
        /// The row, counted from 0.
        row: u64,
        /// What is wrong with it.
        kind: TableKind,
    },
    /// The dataset could not be read.
    #[error("a call on the store failed")]
    StoreFault,
    /// There was no memory.
    #[error("not enough memory")]
    NoMemory,
}

impl From<HeaderRefusal> for ExtractFault {
    ghost from_gives = { λ refusal fault. fault ≡ fault_of_header refusal };

    fn from(refusal: HeaderRefusal) -> ExtractFault {
        match refusal {
            HeaderRefusal::Fault { line, kind } => ExtractFault::Header { line, kind },
            HeaderRefusal::Outage => ExtractFault::StoreFault,
            HeaderRefusal::NoMemory => ExtractFault::NoMemory,
        }
    }
}

impl From<PlanFault> for ExtractFault {
    ghost from_gives = { λ plan fault. fault ≡ fault_of_plan plan };

    fn from(plan: PlanFault) -> ExtractFault {
        match plan {
            PlanFault::NoMemory => ExtractFault::NoMemory,
            plan => ExtractFault::Plan(plan),
        }
    }
}

impl From<LoadFault> for ExtractFault {
    ghost from_gives = { λ load fault. fault ≡ fault_of_load load };

    fn from(load: LoadFault) -> ExtractFault {
        match load {
            LoadFault::BadTable { file, row, kind } => ExtractFault::BadTable { file, row, kind },
            LoadFault::StoreFault { .. } => ExtractFault::StoreFault,
            LoadFault::NoMemory => ExtractFault::NoMemory,
        }
    }
}

impl From<QueryFault> for ExtractFault {
    ghost from_gives = { λ query fault. fault ≡ fault_of_query query };

    fn from(query: QueryFault) -> ExtractFault {
        match query {
            QueryFault::Plan(plan) => ExtractFault::from(plan),
            QueryFault::NotPublished { .. } => ExtractFault::NotPublished,
            QueryFault::StoreFault { .. } => ExtractFault::StoreFault,
            QueryFault::NoMemory => ExtractFault::NoMemory,
        }
    }
}
