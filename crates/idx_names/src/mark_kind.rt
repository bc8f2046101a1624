ghost use Rattle.std.specs.Prelude.{◌≡◌};

/// What a mark stands for: a file's number in hexadecimal, or a step's number in decimal.
#[derive(Clone, Copy)]
pub(crate) enum MarkKind {
    File,
    Step,
}

impl MarkKind {
    ghost use Rattle.idx_names.specs.Pieces.{mark_base, mark_letter, most_digits};

    /// The letter that ends a mark.
    pub(crate) fn letter(self) -> u8
        ensures { result ≡ mark_letter self }
    {
        match self {
            MarkKind::File => b'x',
            MarkKind::Step => b'd',
        }
    }

    /// The most digits that a mark may ask for.
    pub(crate) fn most_digits(self) -> u8
        ensures { result ≡ most_digits self }
    {
        match self {
            MarkKind::File => 8,
            MarkKind::Step => 9,
        }
    }

    /// The base in which the number is written.
    pub(crate) fn base(self) -> u64
        ensures { result ≡ mark_base self }
    {
        match self {
            MarkKind::File => 16,
            MarkKind::Step => 10,
        }
    }
}
