ghost use Rattle.std.specs.Prelude.{◌≡◌, ◌≢◌, ◌↔◌, ◌≤◌, ℕ, map, string_bytes, IfErr, IfOk, IfSome, Ok, Some};
ghost use Rattle.idx_words.specs.declared.command.Command.{Command};
ghost use Rattle.idx_words.specs.declared.cut_words.CutWords.{CutWords};
ghost use Rattle.idx_words.specs.ConvertValue.{ConvertValue};
ghost use Rattle.idx_words.specs.Place.{IsPlaceBehind};
ghost use Rattle.idx_words.specs.QueryGrammar.{AreQueryWords, SpellsCache};
ghost use Rattle.idx_words.specs.QueryValue.{QueryValue};
ghost use Rattle.idx_words.specs.ServeValue.{ServeValue};
ghost use Rattle.idx_words.specs.Words.{AreSomeQueryWords, IsSoundCommand};

use crate::command::Command;
use crate::given::{word_at, words_from};
use crate::level::read_level;
use crate::misread::Misread;
use crate::options::read_options;
use crate::path::is_path;
use crate::query_word::QueryWord;
use crate::query_words::QueryWords;
use crate::setting::Setting;
use idx_text::{read_box, read_number};

/// The words behind the command.
const ORDER: [QueryWord; 6] = [
    QueryWord::Dataset,
    QueryWord::Time,
    QueryWord::Field,
    QueryWord::Region,
    QueryWord::Lo,
    QueryWord::Hi,
];

/// The options behind them.
const OPTIONS: [Setting; 1] = [Setting::Cache];

/// What is expected where no option stands that may stand there.
const END: &str =
    "--cache, at most once, or the end of the words: query DATASET TIME FIELD REGION LO HI [--cache BLOCKS]";

/// The command `query` with the values of the words behind it. The place of a word that is wrong or missing counts the
/// command too.
pub fn query_command(words: &[String]) -> Result<Command<'_>, Misread>
    ensures read { (c : QueryValue) →
        (result ≡ Ok (Command.Query c)) ↔ AreQueryWords (map string_bytes words.now) c }
    ensures no_cut { (c : CutWords) → result ≢ Ok (Command.Cut c) }
    ensures no_info { result ≢ Ok Command.Info }
    ensures no_convert { (c : ConvertValue) → result ≢ Ok (Command.Convert c) }
    ensures no_check { (time : ℕ) → result ≢ Ok (Command.Check time) }
    ensures no_serve { (c : ServeValue) → result ≢ Ok (Command.Serve c) }
    ensures no_drill { (number : ℕ) → result ≢ Ok (Command.Drill number) }
    ensures sound { IfOk result IsSoundCommand }
    ensures place { IfErr result (λ misread.
        IsPlaceBehind AreSomeQueryWords (map string_bytes words.now) misread.at) }
{
    match read_query(words) {
        Some(query) => Ok(Command::Query(query)),
        None => Err(first_fault(words)),
    }
}

/// The values that the words behind the command stand for. `None` exactly where they are no words of `query`.
fn read_query(words: &[String]) -> Option<QueryWords<'_>>
    ensures values { (c : QueryValue) → (result ≡ Some c) ↔ AreQueryWords (map string_bytes words.now) c }
    ensures some { IfSome result (λ query. 1 ≤ query.cache) }
    ensures few { IfSome result (λ query. query.cache ≤ 65536) }
{
    let [dataset, time, field, region, lo, hi, options @ ..] = words else {
        return None;
    };
    if !is_path(dataset.as_bytes()) || !is_path(field.as_bytes()) {
        return None;
    }
    Some(QueryWords {
        time: read_number(time.as_bytes())?,
        field: field.as_bytes(),
        region: read_box(region.as_bytes())?,
        lo: read_level(lo.as_bytes())?,
        hi: read_level(hi.as_bytes())?,
        cache: read_cache(options)?,
    })
}

/// How many blocks the cache keeps at most by the options of `query`.
fn read_cache(words: &[String]) -> Option<u32>
    ensures value { (blocks : ℕ) → (result ≡ Some blocks) ↔ SpellsCache (map string_bytes words.now) blocks }
    ensures some { IfSome result (λ blocks. 1 ≤ blocks) }
    ensures few { IfSome result (λ blocks. blocks ≤ 65536) }
{
    match read_options(&OPTIONS, words, END) {
        Ok(settings) => Some(settings.cache()),
        Err(_) => None,
    }
}

/// The first word that is wrong or missing. Its place counts the command too.
fn first_fault(words: &[String]) -> Misread
    requires { ¬ AreSomeQueryWords (map string_bytes words.now) }
    ensures { IsPlaceBehind AreSomeQueryWords (map string_bytes words.now) result.at }
{
    for word in ORDER {
        let place = word.place();
        if !word.accepts(word_at(words, place)) {
            return Misread {
                at: place as u64 + 1,
                expected: word.expected(),
            };
        }
    }
    match read_options(&OPTIONS, words_from(words, ORDER.len()), END) {
        Ok(_) => unreachable!(),
        Err(misread) => misread.behind(ORDER.len() as u64 + 1),
    }
}
