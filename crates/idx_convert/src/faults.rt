ghost use Rattle.std.specs.Prelude.{◌≡◌, ◌≢◌, ◌⊎◌};
ghost use Rattle.idx_header.specs.declared.header_kind.HeaderKind.TheVariants as kinds;
ghost use Rattle.idx_convert.specs.Stages.{cause_of_bay, cause_of_gather, cause_of_refusal};
ghost use Rattle.idx_convert.specs.declared.convert_fault.ConvertFault.TheVariants as faults;

use crate::ConvertFault;
use idx_gather::GatherFault;
use idx_header::{HeaderFault, HeaderKind, HeaderRefusal};
use idx_outside::{BayFault, NoMemory};

/// The fault that is answered where the header that is asked for is refused.
impl From<HeaderFault> for ConvertFault {
    ghost from_gives = { λ fault cause. ((fault.kind ≡ kinds.NoMemory) × (cause ≡ faults.NoMemory))
        ⊎ ((fault.kind ≢ kinds.NoMemory) × (cause ≡ faults.Header fault.line fault.kind)) };

    fn from(fault: HeaderFault) -> ConvertFault {
        match fault.kind {
            HeaderKind::NoMemory => ConvertFault::NoMemory,
            kind => ConvertFault::Header {
                line: fault.line,
                kind,
            },
        }
    }
}

/// The fault that is answered where the bay gives no header.
impl From<HeaderRefusal> for ConvertFault {
    ghost from_gives = { λ refusal cause. cause ≡ cause_of_refusal refusal };

    fn from(refusal: HeaderRefusal) -> ConvertFault {
        match refusal {
            HeaderRefusal::Fault { line, kind } => ConvertFault::Header { line, kind },
            HeaderRefusal::Outage => ConvertFault::StoreFault,
            HeaderRefusal::NoMemory => ConvertFault::NoMemory,
        }
    }
}

/// The fault that is answered where the bay does not say which revisions of a step stand.
impl From<BayFault> for ConvertFault {
    ghost from_gives = { λ fault cause. cause ≡ cause_of_bay fault };

    fn from(fault: BayFault) -> ConvertFault {
        match fault {
            BayFault::Outage => ConvertFault::StoreFault,
            BayFault::NoMemory => ConvertFault::NoMemory,
        }
    }
}

/// The fault that is answered where there is no memory.
impl From<NoMemory> for ConvertFault {
    ghost from_gives = { λ none cause. cause ≡ faults.NoMemory };

    fn from(_none: NoMemory) -> ConvertFault {
        ConvertFault::NoMemory
    }
}

/// The fault that is answered where gathering is refused.
impl From<GatherFault> for ConvertFault {
    ghost from_gives = { λ fault cause. cause ≡ cause_of_gather fault };

    fn from(fault: GatherFault) -> ConvertFault {
        match fault {
            GatherFault::RawWrongSize { want, found } => ConvertFault::RawWrongSize { want, found },
            GatherFault::RawFault { .. } => ConvertFault::RawFault,
            GatherFault::StoreFault { .. } => ConvertFault::StoreFault,
            GatherFault::NoMemory => ConvertFault::NoMemory,
        }
    }
}
