ghost use Rattle.std.specs.Prelude.{◌≡◌, ◌≢◌, ◌↔◌, ℕ, drop, map, IfErr, IfOk, Ok, OnErr, OnOk, string_bytes};
ghost use Rattle.idx_words.specs.declared.command.Command.{Command};
ghost use Rattle.idx_words.specs.declared.cut_words.CutWords.{CutWords};
ghost use Rattle.idx_words.specs.ConvertGrammar.{AreConvertWords};
ghost use Rattle.idx_words.specs.ConvertValue.{ConvertValue};
ghost use Rattle.idx_words.specs.Place.{IsPlaceBehind};
ghost use Rattle.idx_words.specs.QueryValue.{QueryValue};
ghost use Rattle.idx_words.specs.Settings.{AreWithin};
ghost use Rattle.idx_words.specs.ServeValue.{ServeValue};
ghost use Rattle.idx_words.specs.Words.{AreSomeConvertWords, IsSoundCommand};

use crate::command::Command;
use crate::convert_word::ConvertWord;
use crate::convert_words::ConvertWords;
use crate::given::{word_at, words_from};
use crate::misread::Misread;
use crate::options::read_options;
use crate::setting::Setting;
use crate::settings::Settings;
use idx_text::read_number;

/// The words behind the command.
const ORDER: [ConvertWord; 10] = [
    ConvertWord::Dataset,
    ConvertWord::Raw,
    ConvertWord::Extent,
    ConvertWord::Fields,
    ConvertWord::Mask,
    ConvertWord::Bits,
    ConvertWord::PerFile,
    ConvertWord::Template,
    ConvertWord::Time,
    ConvertWord::Step,
];

/// The options behind them.
const OPTIONS: [Setting; 2] = [Setting::Ranks, Setting::Layout];

/// What is expected where no option stands that may stand there.
const END: &str = "--ranks or --layout, each at most once, or the end of the words: \
     convert DATASET RAW BOX FIELDS MASK BITS PERFILE TEMPLATE TIME STEP [--ranks RANKS] [--layout rows|hz]";

/// The command `convert` with the values of the words behind it. The place of a word that is wrong or missing counts
/// the command too.
pub fn convert_command(words: &[String]) -> Result<Command<'_>, Misread>
    ensures read { (c : ConvertValue) →
        (result ≡ Ok (Command.Convert c)) ↔ AreConvertWords (map string_bytes words.now) c }
    ensures no_info { result ≢ Ok Command.Info }
    ensures no_cut { (c : CutWords) → result ≢ Ok (Command.Cut c) }
    ensures no_query { (c : QueryValue) → result ≢ Ok (Command.Query c) }
    ensures no_check { (time : ℕ) → result ≢ Ok (Command.Check time) }
    ensures no_serve { (c : ServeValue) → result ≢ Ok (Command.Serve c) }
    ensures no_drill { (number : ℕ) → result ≢ Ok (Command.Drill number) }
    ensures sound { IfOk result IsSoundCommand }
    ensures place { IfErr result (λ misread.
        IsPlaceBehind AreSomeConvertWords (map string_bytes words.now) misread.at) }
{
    match check_words(words) {
        Ok(settings) => Ok(Command::Convert(values(words, &settings))),
        Err(misread) => Err(misread),
    }
}

/// The values of the options where the words behind the command are right. Otherwise the first that is wrong or
/// missing, whose place counts the command too.
fn check_words(words: &[String]) -> Result<Settings<'_>, Misread>
    ensures right { OnOk result (AreSomeConvertWords (map string_bytes words.now)) }
    ensures given { IfOk result (λ settings. settings ≡ drop 10 (map string_bytes words.now)) }
    ensures within { IfOk result AreWithin }
    ensures wrong { OnErr result (¬ AreSomeConvertWords (map string_bytes words.now)) }
    ensures place { IfErr result (λ misread.
        IsPlaceBehind AreSomeConvertWords (map string_bytes words.now) misread.at) }
{
    for word in ORDER {
        let place = word.place();
        if !word.accepts(word_at(words, place)) {
            return Err(Misread {
                at: place as u64 + 1,
                expected: word.expected(),
            });
        }
    }
    match read_options(&OPTIONS, words_from(words, ORDER.len()), END) {
        Ok(settings) => Ok(settings),
        Err(misread) => Err(misread.behind(ORDER.len() as u64 + 1)),
    }
}

/// The values that right words stand for.
fn values<'w>(words: &'w [String], settings: &Settings<'_>) -> ConvertWords<'w>
    requires right { AreSomeConvertWords (map string_bytes words.now) }
    requires given { settings.now ≡ drop 10 (map string_bytes words.now) }
    requires within { AreWithin settings.now }
    ensures { (c : ConvertValue) → (result ≡ c) ↔ AreConvertWords (map string_bytes words.now) c }
{
    ConvertWords {
        extent: word_at(words, ConvertWord::Extent.place()),
        fields: word_at(words, ConvertWord::Fields.place()),
        mask: word_at(words, ConvertWord::Mask.place()),
        bits: word_at(words, ConvertWord::Bits.place()),
        per_file: word_at(words, ConvertWord::PerFile.place()),
        template: word_at(words, ConvertWord::Template.place()),
        time: word_at(words, ConvertWord::Time.place()),
        step: read_number(word_at(words, ConvertWord::Step.place())).unwrap_or(0),
        ranks: settings.ranks(),
        layout: settings.layout(),
    }
}
