ghost use Rattle.std.specs.Prelude.{◌≡◌, ◌≢◌, ◌↔◌, ℕ, map, string_bytes, IfErr, IfOk, Ok, Some};
ghost use Rattle.idx_words.specs.declared.command.Command.{Command};
ghost use Rattle.idx_words.specs.declared.cut_words.CutWords.{CutWords};
ghost use Rattle.idx_words.specs.ConvertValue.{ConvertValue};
ghost use Rattle.idx_words.specs.DrillGrammar.{AreDrillWords, AreSomeDrillWords, SpellsDrill};
ghost use Rattle.idx_words.specs.Place.{IsPlaceBehind};
ghost use Rattle.idx_words.specs.QueryValue.{QueryValue};
ghost use Rattle.idx_words.specs.ServeValue.{ServeValue};
ghost use Rattle.idx_words.specs.Words.{IsSoundCommand};

use crate::command::Command;
use crate::given::word_at;
use crate::misread::Misread;
use idx_text::read_number;

const GREATEST_DRILL: u64 = 8;

const NO_NUMBER: Misread = Misread {
    at: 1,
    expected: "NUMBER, the drill's number: a number from 1 to 8",
};

const MORE_WORDS: Misread = Misread {
    at: 2,
    expected: "the end of the words: drill NUMBER",
};

/// The command `drill` with the number behind it. The place of a word that is wrong or missing counts the command too.
pub fn drill_command(words: &[String]) -> Result<Command<'_>, Misread>
    ensures read { (number : ℕ) →
        (result ≡ Ok (Command.Drill number)) ↔ AreDrillWords (map string_bytes words.now) number }
    ensures no_cut { (c : CutWords) → result ≢ Ok (Command.Cut c) }
    ensures no_info { result ≢ Ok Command.Info }
    ensures no_convert { (c : ConvertValue) → result ≢ Ok (Command.Convert c) }
    ensures no_query { (c : QueryValue) → result ≢ Ok (Command.Query c) }
    ensures no_check { (time : ℕ) → result ≢ Ok (Command.Check time) }
    ensures no_serve { (c : ServeValue) → result ≢ Ok (Command.Serve c) }
    ensures sound { IfOk result IsSoundCommand }
    ensures place { IfErr result (λ misread.
        IsPlaceBehind AreSomeDrillWords (map string_bytes words.now) misread.at) }
{
    let Some(number) = read_drill(word_at(words, 0)) else {
        return Err(NO_NUMBER);
    };
    if words.len() > 1 {
        return Err(MORE_WORDS);
    }
    Ok(Command::Drill { number })
}

/// The number of a drill that a word spells. `None` exactly where it spells none.
fn read_drill(word: &[u8]) -> Option<u32>
    ensures { (number : ℕ) → (result ≡ Some number) ↔ SpellsDrill word.now number }
{
    match read_number(word) {
        Some(number) if 1 <= number && number <= GREATEST_DRILL => Some(number as u32),
        _ => None,
    }
}
