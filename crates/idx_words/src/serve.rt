ghost use Rattle.std.specs.Prelude.{◌≡◌, ◌≢◌, ◌↔◌, ℕ, drop, map, string_bytes, IfErr, IfOk, Ok, OnErr, OnOk};
ghost use Rattle.idx_words.specs.declared.command.Command.{Command};
ghost use Rattle.idx_words.specs.declared.cut_words.CutWords.{CutWords};
ghost use Rattle.idx_words.specs.ConvertValue.{ConvertValue};
ghost use Rattle.idx_words.specs.Place.{IsPlaceBehind};
ghost use Rattle.idx_words.specs.QueryValue.{QueryValue};
ghost use Rattle.idx_words.specs.ServeGrammar.{AreServeWords, AreSomeServeWords, IsSoundServe};
ghost use Rattle.idx_words.specs.ServeValue.{ServeValue};
ghost use Rattle.idx_words.specs.Settings.{AreWithin};
ghost use Rattle.idx_words.specs.Words.{IsSoundCommand};

use crate::command::Command;
use crate::given::{word_at, words_from};
use crate::misread::Misread;
use crate::path::is_path;
use crate::serve_options::read_serve_options;
use crate::serve_words::ServeWords;
use crate::setting::Setting;
use crate::settings::Settings;

const NO_DATASET: Misread = Misread {
    at: 1,
    expected: "DATASET, the path of the header file: 1 to 4096 printable characters, not beginning with -",
};

const NO_ADDRESS: Misread = Misread {
    at: 2,
    expected: "ADDRESS, as 127.0.0.1:8080: 1 to 4096 printable characters, not beginning with -",
};

/// The command `serve` with the values of the words behind it. The place of a word that is wrong or missing counts the
/// command too.
pub fn serve_command(words: &[String]) -> Result<Command<'_>, Misread>
    ensures read { (c : ServeValue) →
        (result ≡ Ok (Command.Serve c)) ↔ AreServeWords (map string_bytes words.now) c }
    ensures no_cut { (c : CutWords) → result ≢ Ok (Command.Cut c) }
    ensures no_info { result ≢ Ok Command.Info }
    ensures no_convert { (c : ConvertValue) → result ≢ Ok (Command.Convert c) }
    ensures no_query { (c : QueryValue) → result ≢ Ok (Command.Query c) }
    ensures no_check { (time : ℕ) → result ≢ Ok (Command.Check time) }
    ensures no_drill { (number : ℕ) → result ≢ Ok (Command.Drill number) }
    ensures sound { IfOk result IsSoundCommand }
    ensures place { IfErr result (λ misread.
        IsPlaceBehind AreSomeServeWords (map string_bytes words.now) misread.at) }
{
    let serve = read_serve(words)?;
    Ok(Command::Serve(serve))
}

/// The values that the words behind the command stand for. Otherwise the first that is wrong or missing, whose place
/// counts the command too.
fn read_serve(words: &[String]) -> Result<ServeWords<'_>, Misread>
    ensures read { (c : ServeValue) → (result ≡ Ok c) ↔ AreServeWords (map string_bytes words.now) c }
    ensures sound { IfOk result IsSoundServe }
    ensures place { IfErr result (λ misread.
        IsPlaceBehind AreSomeServeWords (map string_bytes words.now) misread.at) }
{
    match check_words(words) {
        Ok(settings) => Ok(values(words, &settings)),
        Err(misread) => Err(misread),
    }
}

/// The values of the options where the words behind the command are right. Otherwise the first that is wrong or
/// missing, whose place counts the command too.
fn check_words(words: &[String]) -> Result<Settings<'_>, Misread>
    ensures right { OnOk result (AreSomeServeWords (map string_bytes words.now)) }
    ensures given { IfOk result (λ settings. settings ≡ drop 2 (map string_bytes words.now)) }
    ensures within { IfOk result AreWithin }
    ensures wrong { OnErr result (¬ AreSomeServeWords (map string_bytes words.now)) }
    ensures place { IfErr result (λ misread.
        IsPlaceBehind AreSomeServeWords (map string_bytes words.now) misread.at) }
{
    if !is_path(word_at(words, 0)) {
        return Err(NO_DATASET);
    }
    if !is_path(word_at(words, 1)) {
        return Err(NO_ADDRESS);
    }
    match read_serve_options(words_from(words, 2)) {
        Ok(settings) => Ok(settings),
        Err(misread) => Err(misread.behind(3)),
    }
}

/// The values that right words stand for.
fn values<'w>(words: &'w [String], settings: &Settings<'w>) -> ServeWords<'w>
    requires right { AreSomeServeWords (map string_bytes words.now) }
    requires given { settings.now ≡ drop 2 (map string_bytes words.now) }
    requires within { AreWithin settings.now }
    ensures read { (c : ServeValue) → (result ≡ c) ↔ AreServeWords (map string_bytes words.now) c }
    ensures sound { IsSoundServe result }
{
    ServeWords {
        dataset: word_at(words, 0),
        address: word_at(words, 1),
        cache: settings.cache(),
        workers: settings.workers(),
        links: settings.number(Setting::Links),
        ingest: settings.ingest(),
    }
}
