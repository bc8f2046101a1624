ghost use Rattle.std.specs.Prelude.{◌≡◌, map, string_bytes};
ghost use Rattle.idx_words.specs.declared.command.Command.{Command};
ghost use Rattle.idx_words.specs.ServeValue.{ServeValue};
ghost use Rattle.idx_words.specs.Words.{Give};

use idx_words::{given_path, third_word};

/// The path of the dataset that the words name, or none.
pub fn dataset_path(words: &[String]) -> &str
    ensures serve { (v : ServeValue) → Give (map string_bytes words.now) (Command.Serve v) → result.now ≡ v.dataset }
{
    given_path(words)
}

/// The path of the raw volume that the words name, or none.
pub fn raw_path(words: &[String]) -> &str {
    match words.first() {
        Some(name) if name.as_str() == "convert" => third_word(words),
        Some(name) if name.as_str() == "serve" => word_behind(words, "--raw"),
        _ => given_path(words),
    }
}

/// The word behind the first one that is this option, or none.
fn word_behind<'w>(words: &'w [String], option: &str) -> &'w str {
    let mut behind = words
        .iter()
        .skip_while(|word| word.as_str() != option)
        .skip(1);
    match behind.next() {
        Some(word) => word.as_str(),
        None => "",
    }
}

/// The address that the words name, or none.
pub fn door_address(words: &[String]) -> &str
    ensures serve { (v : ServeValue) → Give (map string_bytes words.now) (Command.Serve v) → result.now ≡ v.address }
{
    match words.first() {
        Some(name) if name.as_str() == "serve" => third_word(words),
        _ => "",
    }
}
