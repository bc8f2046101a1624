ghost use Rattle.std.specs.Prelude.{◌≡◌};
ghost use Rattle.idx_words.specs.CutWord.{place_of};

/// The words behind the command `cut` in their order, and the end behind them.
#[derive(Clone, Copy, Debug, PartialEq, Eq)]
pub enum CutWord {
    Raw,
    Size,
    Extent,
    Mask,
    Region,
    Lo,
    Hi,
    End,
}

impl CutWord {
    /// The place of the word behind the command, counted from 0.
    pub fn place(self) -> usize
        ensures { result ≡ place_of self }
    {
        self as usize
    }

    /// What is expected at its place, for people.
    pub fn expected(self) -> &'static str {
        match self {
            CutWord::Raw =>
                "RAW, the path of the raw volume: 1 to 4096 printable characters, not beginning with -",
            CutWord::Size => "SIZE, the bytes of a sample: a number from 1 to 64",
            CutWord::Extent => {
                "BOX, the box that the raw volume fills, one quoted word as \"0 63 0 63 0 63\": \
                 two to five pairs `lo hi`, at most 2^30 bytes in all, \
                 whose upper ends have at most 40 binary digits in all"
            }
            CutWord::Mask => {
                "MASK, as V012012: V and 1 to 40 digits, each an axis of BOX, \
                 so many of each axis that its upper end has no more binary digits"
            }
            CutWord::Region =>
                "REGION, one quoted word as \"0 63 0 63 10 10\": a box with BOX's axes, inside BOX",
            CutWord::Lo => "LO, the coarsest level: a number, at most the number of digits in MASK",
            CutWord::Hi => "HI, the finest level: a number from LO to the number of digits in MASK",
            CutWord::End => "the end of the words: cut RAW SIZE BOX MASK REGION LO HI",
        }
    }
}
