//! The rows of the doors and of the links that come to them.
use crate::bytes_text::bytes_of;
use crate::object::number_of;
use crate::setting::{Coming, Setting};
use anyhow::{Context, Result, bail};
use std::alloc::Global;

/// Changes the doors and the links as a row says.
pub fn change_links(alloc: Global, setting: &mut Setting, word: &str, rest: &str) -> Result<()> {
    match word {
        "door" => {
            setting.doors.push(Vec::new(alloc))?;
            Ok(())
        }
        "link" => add_link(alloc, setting, rest),
        "pieces" => set_piece(setting, rest),
        "head" => add_input(setting, &head_of(alloc, rest)?, 1),
        "heads" => {
            let (count, text) = counted(rest)?;
            add_input(setting, &head_of(alloc, text)?, count)
        }
        "part" => {
            let (count, text) = counted(rest)?;
            add_input(setting, &text_of(alloc, text)?, count)
        }
        "bytes" => add_input(setting, &bytes_of(alloc, rest)?, 1),
        _ => bail!("no such row"),
    }
}

/// A count and a text.
fn counted(rest: &str) -> Result<(u64, &str)> {
    let (count, text) = rest.split_once(' ').context("a count and a text")?;
    Ok((number_of(count)?, text))
}

/// The bytes of a text of which `|` ends a line.
fn text_of(alloc: Global, text: &str) -> Result<Vec<u8>> {
    Ok(text.replace(alloc, "|", "\r\n")?.into_bytes())
}

/// The same with the end of its last line and an empty line.
fn head_of(alloc: Global, text: &str) -> Result<Vec<u8>> {
    let mut head = text_of(alloc, text)?;
    head.extend_from_slice(b"\r\n\r\n")?;
    Ok(head)
}

/// A link to the last door is given by the number of its call that fails, or 0.
fn add_link(alloc: Global, setting: &mut Setting, rest: &str) -> Result<()> {
    let fail = number_of(rest)?;
    let input = Vec::new(alloc);
    let door = setting.doors.last_mut().context("no door")?;
    door.push(Coming {
        input,
        piece: 0,
        fail,
    })?;
    Ok(())
}

/// The last link.
fn last_link(setting: &mut Setting) -> Result<&mut Coming> {
    let door = setting.doors.last_mut().context("no door")?;
    door.last_mut().context("no link")
}

/// The input of the last link comes in pieces of this length.
fn set_piece(setting: &mut Setting, rest: &str) -> Result<()> {
    let piece = number_of(rest)?;
    last_link(setting)?.piece = piece;
    Ok(())
}

/// So many times these bytes come on the last link.
fn add_input(setting: &mut Setting, bytes: &[u8], count: u64) -> Result<()> {
    let link = last_link(setting)?;
    for _ in 0..count {
        link.input.extend_from_slice(bytes)?;
    }
    Ok(())
}
