//! What a server says on standard error while it runs.
use idx_progress::Notes;
use idx_words::{Command, read_words};
use std::io::Stderr;

/// Notes on standard error.
pub type StdNotes = Notes<Stderr>;

/// The notes of a server. `None` where the words ask for none, and where there is no memory.
pub fn server_notes(rt: &HostRuntime, words: &[String]) -> Option<StdNotes> {
    match read_words(words) {
        Ok(Command::Serve(_)) => Notes::begin(rt.alloc(), rt.stderr()),
        _ => None,
    }
}

/// The same notes, for another one that writes them.
pub fn shared_notes(notes: &Option<StdNotes>) -> Option<StdNotes> {
    match notes {
        Some(notes) => notes.share(),
        None => None,
    }
}
