ghost use Rattle.std.specs.Prelude.{◌≡◌, ◌≤◌, map, string_bytes};
ghost use Rattle.std.specs.Option.{is_some, option_copied};
ghost use Rattle.idx_words.specs.Options.{cache_of, given, layout_of, named, number_given, ranks_of, workers_of};
ghost use Rattle.idx_words.specs.ServeGrammar.{ingest_of};
ghost use Rattle.idx_words.specs.Settings.{AreWithin, open_among};

use crate::ingest_words::IngestWords;
use crate::layout_word::read_layout;
use crate::setting::Setting;
use idx_rowmajor::Layout;
use idx_text::read_number;
use std::marker::Model;

/// The options of a command: the words behind its fixed ones, pairs of a name and a value.
#[derive(Debug, Drop)]
pub struct Settings<'w> {
    pub words: &'w [String],
}

impl<'w> Model for Settings<'w> {
    ghost use Rattle.std.specs.Prelude.{ℕ, List, map, string_bytes};

    ghost Value = { List (List ℕ) };

    ghost view = { λ s. map string_bytes s.words.now };
}

impl<'w> Settings<'w> {
    /// How many ranks convert; 1 where no number is given.
    pub fn ranks(&self) -> u32
        requires { AreWithin self.now }
        ensures value { result ≡ ranks_of self.now }
        ensures some { 1 ≤ result }
        ensures few { result ≤ 256 }
    {
        match self.number(Setting::Ranks) {
            Some(ranks) => ranks as u32,
            None => 1,
        }
    }

    /// The order of the samples of a block; that of hierarchical addresses where no word gives it.
    pub fn layout(&self) -> Layout
        ensures { result ≡ layout_of self.now }
    {
        self.given(Setting::Layout)
            .and_then(read_layout)
            .unwrap_or(Layout::Hz)
    }

    /// How many blocks a cache keeps at most; 64 where no number is given.
    pub fn cache(&self) -> u32
        requires { AreWithin self.now }
        ensures value { result ≡ cache_of self.now }
        ensures some { 1 ≤ result }
        ensures few { result ≤ 65536 }
    {
        match self.number(Setting::Cache) {
            Some(blocks) => blocks as u32,
            None => 64,
        }
    }

    /// How many workers serve; 1 where no number is given.
    pub fn workers(&self) -> u32
        requires { AreWithin self.now }
        ensures value { result ≡ workers_of self.now }
        ensures some { 1 ≤ result }
        ensures few { result ≤ 64 }
    {
        match self.number(Setting::Workers) {
            Some(workers) => workers as u32,
            None => 1,
        }
    }

    /// The step that is published and its raw volume, where both are given.
    pub fn ingest(&self) -> Option<IngestWords<'w>>
        ensures { result ≡ ingest_of self.now }
    {
        let step = self.number(Setting::Ingest)?;
        let raw = self.given(Setting::Raw)?;
        Some(IngestWords { step, raw })
    }

    /// The number that is given an option, if one is.
    pub fn number(&self, option: Setting) -> Option<u64>
        ensures { result ≡ number_given self.now option }
    {
        read_number(self.given(option)?)
    }

    /// Whether an option is given.
    pub fn gives(&self, option: Setting) -> bool
        ensures { result ≡ is_some (given self.now option) }
    {
        self.given(option).is_some()
    }

    /// The option that a word names, among those of these that are not given.
    pub fn open_option(&self, options: &[Setting], word: &[u8]) -> Option<Setting>
        ensures { result ≡ named word.now (open_among self.now options.now) }
    {
        options
            .iter()
            .copied()
            .filter(|option| !self.gives(*option))
            .find(|option| option.has_name(word))
    }

    /// The word that is given an option, if one is.
    fn given(&self, option: Setting) -> Option<&'w [u8]>
        ensures { option_copied result ≡ given self.now option }
    {
        given(self.words, option)
    }
}

/// The word that words give an option, if they do.
fn given(words: &[String], option: Setting) -> Option<&[u8]>
    ensures { option_copied result ≡ given (map string_bytes words.now) option }
{
    let [name, value, behind @ ..] = words else {
        return None;
    };
    if option.has_name(name.as_bytes()) {
        return Some(value.as_bytes());
    }
    given(behind, option)
}
