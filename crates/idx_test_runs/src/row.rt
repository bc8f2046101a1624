//! The rows of a table.
use crate::bytes_text::bytes_of;
use crate::link_rows::change_links;
use crate::object::{Fail, number_of, object_of};
use crate::outcome::push_field;
use crate::running::{run_alike, run_each, run_once};
use crate::setting::{Setting, copy};
use anyhow::{Context, Result};
use idx_outside::{Bytes, MemFile};
use std::alloc::Global;
use std::sync::Wait;
use std::thread::Threads;

/// Does what a row says, and gives what is to be printed. A row that is empty or begins with `#` says nothing.
pub fn follow<T: Threads + Wait + Sync>(
    rt: &T,
    alloc: Global,
    setting: &mut Setting,
    row: &str,
) -> Result<String> {
    let (word, rest) = row.split_once(' ').unwrap_or((row, ""));
    match word {
        "run" => run_once(rt, alloc, setting),
        "quiet" => {
            run_once(rt, alloc, setting)?;
            Ok(String::new(alloc))
        }
        "each" => each(rt, alloc, setting, rest),
        "alike" => alike(rt, alloc, setting, rest),
        "show" => shown(alloc, setting),
        _ => {
            change(alloc, setting, word, rest)?;
            Ok(String::new(alloc))
        }
    }
}

/// Each of the first calls of an object fails in turn: the object and how many there are.
fn each<T: Threads + Wait + Sync>(
    rt: &T,
    alloc: Global,
    setting: &mut Setting,
    rest: &str,
) -> Result<String> {
    let (name, count) = rest.split_once(' ').context("an object and a count")?;
    let object = object_of(name)?;
    run_each(rt, alloc, setting, (object, name), number_of(count)?)
}

/// Each call of an object from one to another fails in turn, and all these runs end alike: the object, the first of these calls
/// and the last one.
fn alike<T: Threads + Wait + Sync>(
    rt: &T,
    alloc: Global,
    setting: &mut Setting,
    rest: &str,
) -> Result<String> {
    let (name, rest) = rest.split_once(' ').context("an object and two calls")?;
    let (first, last) = rest.split_once(' ').context("two calls")?;
    let calls = (number_of(first)?, number_of(last)?);
    run_alike(rt, alloc, setting, (object_of(name)?, name), calls)
}

/// The header that stands.
fn shown(alloc: Global, setting: &Setting) -> Result<String> {
    let mut report = String::new(alloc);
    push_field(&mut report, "header ", &setting.header)?;
    Ok(report)
}

/// Changes the setting as a row says.
fn change(alloc: Global, setting: &mut Setting, word: &str, rest: &str) -> Result<()> {
    match word {
        "" | "#" => Ok(()),
        "case" => begin(alloc, setting, rest),
        "words" => set_words(alloc, setting, rest),
        "raw" => set_raw(alloc, setting, rest),
        "samples" => {
            setting.raw = bytes_of(alloc, rest)?;
            Ok(())
        }
        "header" => set_header(alloc, setting, rest),
        "file" => add_file(alloc, setting, rest),
        "fails" => add_fail(setting, rest),
        _ => change_sides(alloc, setting, word, rest),
    }
}

/// The same of how many objects there are, and of what is printed.
fn change_sides(alloc: Global, setting: &mut Setting, word: &str, rest: &str) -> Result<()> {
    match word {
        "raws" => setting.raws = number_of(rest)?,
        "readers" => setting.readers = number_of(rest)?,
        "counts" => setting.has_counts = true,
        "entries" => setting.has_entries = true,
        _ => return change_links(alloc, setting, word, rest),
    }
    Ok(())
}

/// A new case of this name begins.
fn begin(alloc: Global, setting: &mut Setting, name: &str) -> Result<()> {
    *setting = Setting::new(alloc);
    setting.name = String::from_str(alloc, name)?;
    Ok(())
}

/// The words stand between bars.
fn set_words(alloc: Global, setting: &mut Setting, rest: &str) -> Result<()> {
    let mut words = Vec::new(alloc);
    for word in rest.split('|') {
        words.push(String::from_str(alloc, word)?)?;
    }
    setting.words = words;
    Ok(())
}

/// A raw volume is given by its first byte, each further one being one more, and how many bytes it has.
fn set_raw(alloc: Global, setting: &mut Setting, rest: &str) -> Result<()> {
    let (first, count) = rest.split_once(' ').context("a first byte and a count")?;
    let (first, count) = (number_of(first)?, number_of(count)?);
    let mut raw = Vec::new(alloc);
    for place in 0..count {
        raw.push((place.wrapping_add(first) % 256) as u8)?;
    }
    setting.raw = raw;
    Ok(())
}

/// The header is given by its text, of which `|` ends a line.
fn set_header(alloc: Global, setting: &mut Setting, rest: &str) -> Result<()> {
    setting.header = rest.replace(alloc, "|", "\n")?.into_bytes();
    Ok(())
}

/// A file that stands is given by its folder, its path and its bytes.
fn add_file(alloc: Global, setting: &mut Setting, rest: &str) -> Result<()> {
    let (folder, rest) = rest.split_once(' ').context("a folder and a path")?;
    let (path, bytes) = rest.split_once(' ').unwrap_or((rest, ""));
    setting.files.push(MemFile {
        folder: copy(alloc, folder.as_bytes())?,
        path: copy(alloc, path.as_bytes())?,
        bytes: Bytes::from_vec(bytes_of(alloc, bytes)?),
    })?;
    Ok(())
}

/// A call that fails is given by its object and its number.
fn add_fail(setting: &mut Setting, rest: &str) -> Result<()> {
    let (name, call) = rest.split_once(' ').context("an object and a call")?;
    let (object, call) = (object_of(name)?, number_of(call)?);
    setting.fails.push(Fail { object, call })?;
    Ok(())
}
