ghost use Rattle.std.specs.Prelude.{◌≡◌};

use crate::HeaderKind;
use idx_outside::NoMemory;
use thiserror::Error;

/// Why a header is refused: the line, counted from 1, and what is wrong there. The line is 0 where the text is too long or
/// there was not enough memory.
#[derive(Clone, Copy, Debug, PartialEq, Eq, Error)]
#[error("the header is refused")]
pub struct HeaderFault {
    /// The number of the line.
    pub line: u64,
    /// What is wrong.
    pub kind: HeaderKind,
}

impl HeaderFault {
    /// This fault on this line.
    pub(crate) fn on(line: u64, kind: HeaderKind) -> HeaderFault
        ensures { result ≡ record { line = line; kind = kind } }
    {
        HeaderFault { line, kind }
    }

    /// There was not enough memory.
    pub(crate) fn no_memory() -> HeaderFault
        ensures { result ≡ record { line = 0; kind = HeaderKind.NoMemory } }
    {
        HeaderFault::on(0, HeaderKind::NoMemory)
    }
}

impl From<NoMemory> for HeaderFault {
    ghost use Rattle.std.specs.Prelude.{◌≡◌};
    ghost use Rattle.idx_header.specs.declared.header_kind.HeaderKind.TheVariants as kinds;

    ghost from_gives = { λ _ fault. fault ≡ record { line = 0; kind = kinds.NoMemory } };

    fn from(_: NoMemory) -> HeaderFault {
        HeaderFault::no_memory()
    }
}
