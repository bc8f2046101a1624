//! The numbers that the words say.
ghost use Rattle.std.specs.Prelude.{◌≡◌, ◌+◌, ◌/◌, ◌%◌, ◌<◌, ◌≤◌, if◌then◌else◌, map, nat_lt, option_map, string_bytes};
ghost use Rattle.idx_words.specs.declared.command.Command.{Command};
ghost use Rattle.idx_words.specs.ConvertValue.{ConvertValue};
ghost use Rattle.idx_words.specs.ServeValue.{ServeValue};
ghost use Rattle.idx_words.specs.Words.{Give};

use idx_words::{Command, read_words};

/// How many ranks convert by the words; 1 where they do not say.
pub fn ranks_of(words: &[String]) -> u32
    ensures some { 1 ≤ result }
    ensures convert { (c : ConvertValue) → Give (map string_bytes words.now) (Command.Convert c) → result ≡ c.ranks }
{
    match read_words(words) {
        Ok(Command::Convert(convert)) => convert.ranks,
        _ => 1,
    }
}

/// How many links the door of this worker hands out, of so many in all: as many as each other door, and one more at the
/// first doors where they cannot be shared out evenly.
pub fn share_of(links: Option<u64>, workers: u32, worker: u32) -> Option<u64>
    requires { worker < workers }
    ensures { result ≡ option_map (λ links. links / workers + (if nat_lt worker (links % workers) then 1 else 0)) links }
{
    let links = links?;
    let workers = u64::from(workers);
    let more = u64::from(u64::from(worker) < links % workers);
    Some(links / workers + more)
}

/// How many workers serve by the words; 1 where they do not say.
pub fn workers_of(words: &[String]) -> u32
    ensures some { 1 ≤ result }
    ensures serve { (v : ServeValue) → Give (map string_bytes words.now) (Command.Serve v) → result ≡ v.workers }
{
    match read_words(words) {
        Ok(Command::Serve(serve)) => serve.workers,
        _ => 1,
    }
}

/// How many links the words let the doors hand out; `None` for as many as come.
pub fn links_of(words: &[String]) -> Option<u64>
    ensures serve { (v : ServeValue) → Give (map string_bytes words.now) (Command.Serve v) → result ≡ v.links }
{
    match read_words(words) {
        Ok(Command::Serve(serve)) => serve.links,
        _ => None,
    }
}
