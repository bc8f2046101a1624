use idx_report::room_keeper;
use idx_words::{Command, read_words};

/// A buffer to be kept while the words' work is done. Where this is a conversion, its large vectors use the same pages
/// one after another meanwhile.
pub fn kept_room(rt: &HostRuntime, words: &[String]) -> Vec<u8> {
    match read_words(words) {
        Ok(Command::Convert(_)) => room_keeper(rt.alloc()),
        _ => Vec::new(rt.alloc()),
    }
}
