ghost use Rattle.std.specs.Prelude.{◌≡◌};
ghost use Rattle.idx_text.specs.Number.{number_of};
ghost use Rattle.idx_words.specs.Options.{is_in, is_name, is_value, name_of};

use crate::layout_word::read_layout;
use crate::path::is_path;
use idx_text::read_number;

/// The greatest number of 19 digits.
const GREATEST_NUMBER: u64 = 9_999_999_999_999_999_999;

/// An option: a pair `--name value` behind the fixed words of a command.
#[derive(Clone, Copy, Debug, PartialEq, Eq)]
pub enum Setting {
    Ranks,
    Layout,
    Cache,
    Workers,
    Links,
    Ingest,
    Raw,
}

impl Setting {
    fn name(self) -> &'static [u8]
        ensures { result.now ≡ name_of self }
    {
        match self {
            Setting::Ranks => b"--ranks",
            Setting::Layout => b"--layout",
            Setting::Cache => b"--cache",
            Setting::Workers => b"--workers",
            Setting::Links => b"--links",
            Setting::Ingest => b"--ingest",
            Setting::Raw => b"--raw",
        }
    }

    /// Whether a word is its name.
    pub fn has_name(self, word: &[u8]) -> bool
        ensures { result ≡ is_name word.now self }
    {
        word == self.name()
    }

    /// Whether a word is a value of it.
    pub fn accepts(self, word: &[u8]) -> bool
        ensures { result ≡ is_value self word.now }
    {
        match self {
            Setting::Ranks => is_number_in(1, 256, word),
            Setting::Layout => read_layout(word).is_some(),
            Setting::Cache => is_number_in(1, 65_536, word),
            Setting::Workers => is_number_in(1, 64, word),
            Setting::Links => is_number_in(1, GREATEST_NUMBER, word),
            Setting::Ingest => read_number(word).is_some(),
            Setting::Raw => is_path(word),
        }
    }

    /// What is expected behind its name, for people.
    pub fn expected(self) -> &'static str {
        match self {
            Setting::Ranks => "the value of --ranks: a number from 1 to 256",
            Setting::Layout =>
                "the value of --layout, the order of the samples of a block: rows or hz",
            Setting::Cache => "the value of --cache, in blocks: a number from 1 to 65536",
            Setting::Workers => "the value of --workers: a number from 1 to 64",
            Setting::Links => "the value of --links: a number of 1 to 19 digits, from 1",
            Setting::Ingest => "the value of --ingest: a number of 1 to 19 digits",
            Setting::Raw =>
                "the value of --raw, a path: 1 to 4096 printable characters, not beginning with -",
        }
    }
}

/// Whether a word is a number from the least to the greatest.
fn is_number_in(least: u64, most: u64, word: &[u8]) -> bool
    ensures { result ≡ is_in least most (number_of word.now) }
{
    match read_number(word) {
        Some(number) => least <= number && number <= most,
        None => false,
    }
}
