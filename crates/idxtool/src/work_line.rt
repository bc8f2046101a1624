//! A line on standard error that says on a terminal what is being done, and how far it is.
use idx_progress::Line;
use idx_report::{dataset_path, long_buffer, raw_path, write_check, write_work};
use idx_words::{Command, read_words};
use std::io::{IsTerminal, Stderr, Write};

/// A line on standard error.
pub type StdLine = Line<HostRuntime, Stderr>;

/// Says that a volume is being converted or a step checked, where one is and where this is a terminal, and gives the line
/// that says from then on how far that is. `None` where it said nothing.
pub fn show_work(rt: &HostRuntime, words: &[String]) -> Option<StdLine> {
    // It is made and freed also where nothing is shown: what is freed later serves again then.
    let text = work_text(rt, words)?;
    let mut err = rt.stderr();
    if !err.is_terminal() {
        return None;
    }
    let line = Line::begin(rt.alloc(), *rt, err)?;
    err.write_all(text.as_slice()).ok()?;
    Some(line)
}

/// What is done by the words, where that may take long.
fn work_text(rt: &HostRuntime, words: &[String]) -> Option<Vec<u8>> {
    match read_words(words) {
        Ok(Command::Convert(convert)) => {
            let mut text = long_buffer(rt.alloc());
            let _ = write_work(
                &mut text,
                raw_path(words),
                dataset_path(words),
                convert.ranks,
            );
            Some(text)
        }
        Ok(Command::Check { time }) => {
            let mut text = long_buffer(rt.alloc());
            let _ = write_check(&mut text, dataset_path(words), time);
            Some(text)
        }
        _ => None,
    }
}
