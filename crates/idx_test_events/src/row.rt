//! The rows of a table.
use crate::event_row::event_of;
use crate::outcome::{replayed, stepped};
use crate::setting::Setting;
use anyhow::{Context, Result, bail};
use idx_header::Header;
use idx_outside::Bytes;
use idx_plan::Ask;
use idx_text::read_box;
use std::alloc::Global;

/// Does what a row says, and gives what is to be printed. A row that is empty or begins with `#` says nothing.
pub fn follow(alloc: Global, setting: &mut Setting, row: &str) -> Result<String> {
    let (word, rest) = row.split_once(' ').unwrap_or((row, ""));
    match word {
        "world" => {
            *setting = Setting::new(alloc);
            Ok(format!(in alloc; "== {rest}\n")?)
        }
        "replay" => replayed(alloc, setting),
        "steps" => stepped(alloc, setting),
        _ => {
            change(alloc, setting, word, rest)?;
            Ok(String::new(alloc))
        }
    }
}

/// Changes the setting as a row says.
fn change(alloc: Global, setting: &mut Setting, word: &str, rest: &str) -> Result<()> {
    match word {
        "" | "#" => Ok(()),
        "header" => set_header(alloc, setting, rest),
        "ranks" => {
            setting.ranks = number_of(rest)?;
            Ok(())
        }
        "cache" => {
            setting.cache = number_of(rest)?;
            Ok(())
        }
        "files" => {
            setting.files = true;
            Ok(())
        }
        "volume" => add_volume(alloc, setting, rest),
        "bytes" => add_bytes(alloc, setting, rest),
        "again" => add_again(alloc, setting, rest),
        "ask" => add_ask(alloc, setting, rest),
        _ => add_event(alloc, setting, word, rest),
    }
}

fn number_of(text: &str) -> Result<u32> {
    text.parse::<u32>().context("a number")
}

fn numbers_of(alloc: Global, text: &str) -> Result<Vec<u64>> {
    let mut numbers = Vec::new(alloc);
    for word in text.split_whitespace() {
        numbers.push(word.parse::<u64>().context("a number")?)?;
    }
    Ok(numbers)
}

/// The dataset's header is given by its text, of which `|` ends a line.
fn set_header(alloc: Global, setting: &mut Setting, rest: &str) -> Result<()> {
    let text = rest.replace(alloc, "|", "\n")?;
    setting.header = Some(Header::read(alloc, text.as_bytes())?);
    Ok(())
}

/// A volume is given by its timestep, a factor, its first byte and how many bytes it has: each is the factor more than
/// the one before it.
fn add_volume(alloc: Global, setting: &mut Setting, rest: &str) -> Result<()> {
    let numbers = numbers_of(alloc, rest)?;
    let [time, factor, first, count] = numbers.as_slice() else {
        bail!("a timestep, a factor, a first byte and a count");
    };
    let mut volume = Bytes::new(alloc);
    for place in 0..*count {
        volume.push((place.wrapping_mul(*factor).wrapping_add(*first) % 256) as u8)?;
    }
    setting.volumes.push((*time, volume))?;
    Ok(())
}

/// The same by its bytes, in hexadecimal digits.
fn add_bytes(alloc: Global, setting: &mut Setting, rest: &str) -> Result<()> {
    let (time, digits) = rest.split_once(' ').context("a timestep and bytes")?;
    let time = time.parse::<u64>().context("a timestep")?;
    let volume = Bytes::from_vec(hex::decode(alloc, digits)?);
    setting.volumes.push((time, volume))?;
    Ok(())
}

/// The last volume comes so many times more.
fn add_again(alloc: Global, setting: &mut Setting, rest: &str) -> Result<()> {
    for _ in 0..number_of(rest)? {
        let (time, bytes) = setting.volumes.last().context("no volume")?;
        let volume = (*time, Bytes::from_slice(alloc, bytes.as_slice())?);
        setting.volumes.push(volume)?;
    }
    Ok(())
}

/// A question is given by its timestep, its field, the levels and its region.
fn add_ask(alloc: Global, setting: &mut Setting, rest: &str) -> Result<()> {
    let (numbers, region) = rest.split_once(" in ").context("numbers and a region")?;
    let numbers = numbers_of(alloc, numbers)?;
    let [time, field, lo, hi] = numbers.as_slice() else {
        bail!("a timestep, a field and two levels");
    };
    setting.asks.push(Ask {
        time: *time,
        field: u32::try_from(*field).context("a field")?,
        region: read_box(region.as_bytes()).context("a region")?,
        lo: u32::try_from(*lo).context("a level")?,
        hi: u32::try_from(*hi).context("a level")?,
    })?;
    Ok(())
}

fn add_event(alloc: Global, setting: &mut Setting, word: &str, rest: &str) -> Result<()> {
    let numbers = numbers_of(alloc, rest)?;
    let event = event_of(word, &numbers).context("no such row")?;
    setting.events.push(event)?;
    Ok(())
}
