ghost use Rattle.std.specs.Prelude.{◌≡◌, ◌↔◌, IsTrue};
ghost use Rattle.idx_words.specs.QueryWord.{place_of, IsRightAt};

use crate::level::read_level;
use crate::path::is_path;
use idx_text::{read_box, read_number};

/// The words behind the command `query` in their order.
#[derive(Clone, Copy, Debug, PartialEq, Eq)]
pub enum QueryWord {
    Dataset,
    Time,
    Field,
    Region,
    Lo,
    Hi,
}

impl QueryWord {
    /// The place of the word behind the command, counted from 0.
    pub fn place(self) -> usize
        ensures { result ≡ place_of self }
    {
        self as usize
    }

    /// Whether a word is right at its place.
    pub fn accepts(self, word: &[u8]) -> bool
        ensures { IsTrue result ↔ IsRightAt self word.now }
    {
        match self {
            QueryWord::Dataset | QueryWord::Field => is_path(word),
            QueryWord::Time => read_number(word).is_some(),
            QueryWord::Region => read_box(word).is_some(),
            QueryWord::Lo | QueryWord::Hi => read_level(word).is_some(),
        }
    }

    /// What is expected at its place, for people.
    pub fn expected(self) -> &'static str {
        match self {
            QueryWord::Dataset =>
                "DATASET, the path of the header file: 1 to 4096 printable characters, not beginning with -",
            QueryWord::Time => "TIME, the number of a step: a number of 1 to 19 digits",
            QueryWord::Field =>
                "FIELD, the name of a field: 1 to 4096 printable characters, not beginning with -",
            QueryWord::Region => {
                "REGION, a box of 2 to 5 axes, one quoted word as \"0 63 0 63 10 10\": \
                 pairs `lo hi`, axis 0 first, no lo above its hi"
            }
            QueryWord::Lo => "LO, the coarsest level: a number up to 4294967295",
            QueryWord::Hi => "HI, the finest level: a number up to 4294967295",
        }
    }
}
