ghost use Rattle.std.specs.Prelude.{◌≡◌, ◌↔◌, map, string_bytes, IfErr, IfOk, IsTrue, Ok, codes};
ghost use Rattle.idx_words.specs.declared.command.Command.{Command};
ghost use Rattle.idx_words.specs.Words.{Give, IsSoundCommand, IsUsagePlace};

use crate::check::check_command;
use crate::command::Command;
use crate::convert::convert_command;
use crate::cut::cut_command;
use crate::drill::drill_command;
use crate::info::info_command;
use crate::misread::Misread;
use crate::query::query_command;
use crate::serve::serve_command;

const NO_COMMAND: Misread = Misread {
    at: 0,
    expected: "a command: cut, info, convert, query, check, serve or drill",
};

/// The command that the words give. Where they are not in the grammar, the first word that is wrong or missing: no list
/// of the grammar begins with it and the words before it, and it is missing where some list begins with all words.
pub fn read_words(words: &[String]) -> Result<Command<'_>, Misread>
    ensures read { (command : Command) → (result ≡ Ok command) ↔ Give (map string_bytes words.now) command }
    ensures sound { IfOk result IsSoundCommand }
    ensures place { IfErr result (λ misread. IsUsagePlace (map string_bytes words.now) misread.at) }
{
    let Some((name, words)) = words.split_first() else {
        return Err(NO_COMMAND);
    };
    if is_cut(name.as_bytes()) {
        return cut_command(words);
    }
    if is_info(name.as_bytes()) {
        return info_command(words);
    }
    if is_convert(name.as_bytes()) {
        return convert_command(words);
    }
    if is_query(name.as_bytes()) {
        return query_command(words);
    }
    if is_check(name.as_bytes()) {
        return check_command(words);
    }
    if is_serve(name.as_bytes()) {
        return serve_command(words);
    }
    if is_drill(name.as_bytes()) {
        return drill_command(words);
    }
    Err(NO_COMMAND)
}

fn is_cut(word: &[u8]) -> bool
    ensures { IsTrue result ↔ (word.now ≡ codes "cut") }
{
    word == b"cut".as_slice()
}

fn is_info(word: &[u8]) -> bool
    ensures { IsTrue result ↔ (word.now ≡ codes "info") }
{
    word == b"info".as_slice()
}

fn is_convert(word: &[u8]) -> bool
    ensures { IsTrue result ↔ (word.now ≡ codes "convert") }
{
    word == b"convert".as_slice()
}

fn is_query(word: &[u8]) -> bool
    ensures { IsTrue result ↔ (word.now ≡ codes "query") }
{
    word == b"query".as_slice()
}

fn is_check(word: &[u8]) -> bool
    ensures { IsTrue result ↔ (word.now ≡ codes "check") }
{
    word == b"check".as_slice()
}

fn is_serve(word: &[u8]) -> bool
    ensures { IsTrue result ↔ (word.now ≡ codes "serve") }
{
    word == b"serve".as_slice()
}

fn is_drill(word: &[u8]) -> bool
    ensures { IsTrue result ↔ (word.now ≡ codes "drill") }
{
    word == b"drill".as_slice()
}
