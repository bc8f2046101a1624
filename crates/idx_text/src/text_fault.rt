use idx_outside::NoMemory;
use thiserror::Error;

/// Why the lines of a text cannot be read.
#[derive(Clone, Copy, Debug, PartialEq, Eq, Error)]
pub enum TextFault {
    /// The line of this number, counted from 1, is the first with a byte that may not stand in a text: one below the
    /// space other than a tab, or 7f.
    #[error("a byte that is no text")]
    NotText { line: u64 },
    /// There was not enough memory.
    #[error("not enough memory")]
    NoMemory,
}

impl From<NoMemory> for TextFault {
    ghost use Rattle.std.specs.Prelude.{◌≡◌};
    ghost use Rattle.idx_text.specs.declared.text_fault.TextFault.TheVariants as faults;

    ghost from_gives = { λ _ fault. fault ≡ faults.NoMemory };

    fn from(_: NoMemory) -> TextFault {
        TextFault::NoMemory
    }
}
