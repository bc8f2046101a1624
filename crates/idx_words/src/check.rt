ghost use Rattle.std.specs.Prelude.{◌≡◌, ◌≢◌, ◌↔◌, ℕ, map, string_bytes, IfErr, Ok};
ghost use Rattle.idx_words.specs.declared.command.Command.{Command};
ghost use Rattle.idx_words.specs.declared.cut_words.CutWords.{CutWords};
ghost use Rattle.idx_words.specs.CheckGrammar.{AreCheckWords, AreSomeCheckWords};
ghost use Rattle.idx_words.specs.ConvertValue.{ConvertValue};
ghost use Rattle.idx_words.specs.Place.{IsPlaceBehind};
ghost use Rattle.idx_words.specs.QueryValue.{QueryValue};
ghost use Rattle.idx_words.specs.ServeValue.{ServeValue};

use crate::command::Command;
use crate::given::word_at;
use crate::misread::Misread;
use crate::path::is_path;
use idx_text::read_number;

const NO_DATASET: Misread = Misread {
    at: 1,
    expected: "DATASET, the path of the header file: 1 to 4096 printable characters, not beginning with -",
};

const NO_TIME: Misread = Misread {
    at: 2,
    expected: "TIME, the number of a step: a number of 1 to 19 digits",
};

const MORE_WORDS: Misread = Misread {
    at: 3,
    expected: "the end of the words: check DATASET TIME",
};

/// The command `check` with the number of the step. The place of a word that is wrong or missing counts the command
/// too.
pub fn check_command(words: &[String]) -> Result<Command<'_>, Misread>
    ensures read { (time : ℕ) →
        (result ≡ Ok (Command.Check time)) ↔ AreCheckWords (map string_bytes words.now) time }
    ensures no_cut { (c : CutWords) → result ≢ Ok (Command.Cut c) }
    ensures no_info { result ≢ Ok Command.Info }
    ensures no_convert { (c : ConvertValue) → result ≢ Ok (Command.Convert c) }
    ensures no_query { (c : QueryValue) → result ≢ Ok (Command.Query c) }
    ensures no_serve { (c : ServeValue) → result ≢ Ok (Command.Serve c) }
    ensures no_drill { (number : ℕ) → result ≢ Ok (Command.Drill number) }
    ensures place { IfErr result (λ misread.
        IsPlaceBehind AreSomeCheckWords (map string_bytes words.now) misread.at) }
{
    if !is_path(word_at(words, 0)) {
        return Err(NO_DATASET);
    }
    let Some(time) = read_number(word_at(words, 1)) else {
        return Err(NO_TIME);
    };
    if words.len() > 2 {
        return Err(MORE_WORDS);
    }
    Ok(Command::Check { time })
}
