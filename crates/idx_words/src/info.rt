ghost use Rattle.std.specs.Prelude.{◌≡◌, ◌≢◌, ◌↔◌, ℕ, map, string_bytes, IfErr, IfOk, Ok};
ghost use Rattle.idx_words.specs.declared.command.Command.{Command};
ghost use Rattle.idx_words.specs.declared.cut_words.CutWords.{CutWords};
ghost use Rattle.idx_words.specs.ConvertValue.{ConvertValue};
ghost use Rattle.idx_words.specs.Place.{IsPlaceBehind};
ghost use Rattle.idx_words.specs.QueryValue.{QueryValue};
ghost use Rattle.idx_words.specs.ServeValue.{ServeValue};
ghost use Rattle.idx_words.specs.Words.{AreInfoWords, IsSoundCommand};

use crate::command::Command;
use crate::given::word_at;
use crate::misread::Misread;
use crate::path::is_path;

const NO_DATASET: Misread = Misread {
    at: 1,
    expected: "DATASET, the path of the header file: 1 to 4096 printable characters, not beginning with -",
};

const MORE_WORDS: Misread = Misread {
    at: 2,
    expected: "the end of the words: info DATASET",
};

/// The command `info` with the word behind it. The place of a word that is wrong or missing counts the command too.
pub fn info_command(words: &[String]) -> Result<Command<'_>, Misread>
    ensures read { (result ≡ Ok Command.Info) ↔ AreInfoWords (map string_bytes words.now) }
    ensures no_cut { (c : CutWords) → result ≢ Ok (Command.Cut c) }
    ensures no_convert { (c : ConvertValue) → result ≢ Ok (Command.Convert c) }
    ensures no_query { (c : QueryValue) → result ≢ Ok (Command.Query c) }
    ensures no_check { (time : ℕ) → result ≢ Ok (Command.Check time) }
    ensures no_serve { (c : ServeValue) → result ≢ Ok (Command.Serve c) }
    ensures no_drill { (number : ℕ) → result ≢ Ok (Command.Drill number) }
    ensures place { IfErr result (λ misread. IsPlaceBehind AreInfoWords (map string_bytes words.now) misread.at) }
{
    if !is_path(word_at(words, 0)) {
        return Err(NO_DATASET);
    }
    if words.len() > 1 {
        return Err(MORE_WORDS);
    }
    Ok(Command::Info)
}
