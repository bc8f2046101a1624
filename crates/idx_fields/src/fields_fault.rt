use idx_outside::NoMemory;
use std::alloc::AllocFailed;
use thiserror::Error;

/// Why a text lists no fields. The first in this order that applies is answered, over all fields; `NoMemory` apart.
#[derive(Clone, Copy, Debug, PartialEq, Eq, Error)]
pub enum FieldsFault {
    /// A field without a name or a type, a name of more than 255 bytes, a name twice, or a type that is none.
    #[error("each field has a name of its own and a type")]
    BadField,
    /// More than 64 fields, or a sample of more than 64 bytes.
    #[error("there are at most 64 fields, and a sample has at most 64 bytes")]
    OverLimit,
    /// There was no memory.
    #[error("not enough memory")]
    NoMemory,
}

impl From<NoMemory> for FieldsFault {
    ghost use Rattle.std.specs.Prelude.{◌≡◌};
    ghost use Rattle.idx_fields.specs.declared.fields_fault.FieldsFault.TheVariants as faults;

    ghost from_gives = { λ _ fault. fault ≡ faults.NoMemory };

    fn from(_: NoMemory) -> FieldsFault {
        FieldsFault::NoMemory
    }
}

impl<T: Drop> From<AllocFailed<T>> for FieldsFault {
    ghost use Rattle.std.specs.Prelude.{◌≡◌};
    ghost use Rattle.idx_fields.specs.declared.fields_fault.FieldsFault.TheVariants as faults;

    ghost from_gives = { λ _ fault. fault ≡ faults.NoMemory };

    fn from(_: AllocFailed<T>) -> FieldsFault {
        FieldsFault::NoMemory
    }
}
