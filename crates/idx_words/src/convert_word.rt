ghost use Rattle.std.specs.Prelude.{◌≡◌};
ghost use Rattle.idx_words.specs.ConvertWord.{place_of, is_right_at};

use crate::path::is_path;
use crate::text::is_text;
use idx_text::read_number;

/// The words behind the command `convert` in their order.
#[derive(Clone, Copy, Debug, PartialEq, Eq)]
pub enum ConvertWord {
    Dataset,
    Raw,
    Extent,
    Fields,
    Mask,
    Bits,
    PerFile,
    Template,
    Time,
    Step,
}

impl ConvertWord {
    /// The place of the word behind the command, counted from 0.
    pub fn place(self) -> usize
        ensures { result ≡ place_of self }
    {
        self as usize
    }

    /// Whether a word is right at its place.
    pub fn accepts(self, word: &[u8]) -> bool
        ensures { result ≡ is_right_at self word.now }
    {
        match self {
            ConvertWord::Dataset | ConvertWord::Raw => is_path(word),
            ConvertWord::Step => read_number(word).is_some(),
            _ => is_text(word),
        }
    }

    /// What is expected at its place, for people.
    pub fn expected(self) -> &'static str {
        match self {
            ConvertWord::Dataset =>
                "DATASET, the path of the header file: 1 to 4096 printable characters, not beginning with -",
            ConvertWord::Raw =>
                "RAW, the path of the raw volume: 1 to 4096 printable characters, not beginning with -",
            ConvertWord::Extent => {
                "BOX, the value of (box), one quoted word as \"0 63 0 63 0 63\": \
                 1 to 4096 printable characters, not beginning with - or ("
            }
            ConvertWord::Fields => {
                "FIELDS, the value of (fields), one quoted word as \"a uint8 + b float32\": \
                 1 to 4096 printable characters, not beginning with - or ("
            }
            ConvertWord::Mask => {
                "MASK, the value of (bits), as V012012, or auto for the one that is guessed of BOX: \
                 1 to 4096 printable characters, not beginning with - or ("
            }
            ConvertWord::Bits =>
                "BITS, the value of (bitsperblock), as 16: 1 to 4096 printable characters, not beginning with - or (",
            ConvertWord::PerFile => {
                "PERFILE, the value of (blocksperfile), as 256: \
                 1 to 4096 printable characters, not beginning with - or ("
            }
            ConvertWord::Template => {
                "TEMPLATE, the value of (filename_template), as ./%04x.bin: \
                 1 to 4096 printable characters, not beginning with - or ("
            }
            ConvertWord::Time => {
                "TIME, the value of (time), one quoted word as \"0 9 time%04d/\": \
                 1 to 4096 printable characters, not beginning with - or ("
            }
            ConvertWord::Step =>
                "STEP, the step that the raw volume becomes: a number of 1 to 19 digits",
        }
    }
}
