//! How bytes are written in a table: in hexadecimal digits, each run of four zeros or more as a dot and how many they are.
use anyhow::{Context, Result};
use std::alloc::{AllocError, Global};

/// The fewest zeros that are written as a dot and how many they are.
const LONG_RUN: u64 = 4;

/// The bytes that the words of a text stand for.
pub fn bytes_of(alloc: Global, text: &str) -> Result<Vec<u8>> {
    let mut bytes = Vec::new(alloc);
    for word in text.split_whitespace() {
        match word.strip_prefix('.') {
            Some(count) => push_zeros(&mut bytes, count)?,
            None => bytes.extend_from_slice(&hex::decode(alloc, word)?)?,
        }
    }
    Ok(bytes)
}

fn push_zeros(bytes: &mut Vec<u8>, count: &str) -> Result<()> {
    let count = count.parse::<u32>().context("a count of zeros")?;
    for _ in 0..count {
        bytes.push(0)?;
    }
    Ok(())
}

/// Appends the words of bytes, each behind a blank.
pub fn push_words(text: &mut String, bytes: &[u8]) -> Result<(), AllocError> {
    let mut zeros = 0u64;
    let mut begins_word = true;
    for byte in bytes {
        if *byte == 0 {
            zeros = zeros.wrapping_add(1);
        } else {
            begins_word = push_run(text, zeros, begins_word)?;
            zeros = 0;
            if begins_word {
                text.push(' ')?;
            }
            begins_word = false;
            write!(text, "{byte:02x}")?;
        }
    }
    push_run(text, zeros, begins_word)?;
    Ok(())
}

/// Appends a run of so many zeros, which begins a word or goes on with one, and gives whether what follows begins a word.
fn push_run(text: &mut String, zeros: u64, begins_word: bool) -> Result<bool, AllocError> {
    if zeros >= LONG_RUN {
        write!(text, " .{zeros}")?;
        return Ok(true);
    }
    if zeros > 0 && begins_word {
        text.push(' ')?;
    }
    for _ in 0..zeros {
        text.push_str("00")?;
    }
    Ok(begins_word && zeros == 0)
}

/// Appends bytes as a text, in which what is no printable ASCII is escaped.
pub fn push_escaped(text: &mut String, bytes: &[u8]) -> Result<(), AllocError> {
    for byte in bytes {
        write!(text, "{}", byte.escape_ascii())?;
    }
    Ok(())
}
