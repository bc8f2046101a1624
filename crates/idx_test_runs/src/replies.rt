//! What is printed of the links that came back.
use crate::bytes_text::push_escaped;
use idx_memory::MemLink;
use idx_outside::Served;
use std::alloc::AllocError;

/// How a reply begins.
const START: &[u8] = b"HTTP/1.1 ";

/// The fewest equal replies, one behind the other, that are printed as one and how many they are.
const LONG_RUN: u64 = 4;

/// Appends what was written to a link.
pub fn push_written(text: &mut String, link: &MemLink) -> Result<(), AllocError> {
    text.push_str("link ")?;
    push_replies(text, link.written().as_slice())?;
    text.push('\n')?;
    Ok(())
}

/// Appends the replies that were written, one behind the other.
fn push_replies(text: &mut String, written: &[u8]) -> Result<(), AllocError> {
    let (mut last, mut count) = (written, 0u64);
    let mut rest = written;
    for _ in 0..written.len() {
        let (reply, behind) = split_reply(rest);
        if reply != last {
            push_run(text, last, count)?;
            last = reply;
            count = 0;
        }
        count = count.wrapping_add(1);
        rest = behind;
        if rest.is_empty() {
            break;
        }
    }
    push_run(text, last, count)
}

/// The first reply, up to where the next one begins, and what stands behind it.
fn split_reply(written: &[u8]) -> (&[u8], &[u8]) {
    for at in 1..written.len() {
        let (reply, behind) = written.split_at(at);
        if behind.starts_with(START) {
            return (reply, behind);
        }
    }
    written.split_at(written.len())
}

/// Appends so many replies that are the same.
fn push_run(text: &mut String, reply: &[u8], count: u64) -> Result<(), AllocError> {
    if count >= LONG_RUN {
        write!(text, "{count} times ")?;
        return push_escaped(text, reply);
    }
    for _ in 0..count {
        push_escaped(text, reply)?;
    }
    Ok(())
}

/// Appends the entries of a link: of each the status, how long the board was, how many reads had failed, and the target.
pub fn push_entries(text: &mut String, entries: &[Served]) -> Result<(), AllocError> {
    for entry in entries {
        write!(
            text,
            "entry {} {} {} ",
            entry.status, entry.seen, entry.faults
        )?;
        push_escaped(text, entry.target.as_slice())?;
        text.push('\n')?;
    }
    Ok(())
}
