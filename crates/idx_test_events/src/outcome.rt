//! What comes of the events of a setting.
use crate::setting::Setting;
use anyhow::{Context, Result, ensure};
use idx_core::{World, WorldRefusal, replay, step};
use idx_events::Event;
use std::alloc::{AllocError, Global};

/// The text of a new world of a setting, in which all of its events are replayed up to the first that is refused.
pub fn replayed(alloc: Global, setting: &Setting) -> Result<String> {
    let mut report = String::new(alloc);
    match new_world(alloc, setting)? {
        Ok(world) => {
            let world = replay_all(alloc, world, &setting.events, &mut report)?;
            push_world(alloc, &mut report, &world, setting)?;
        }
        Err(refusal) => writeln!(report, "no world {refusal:?}")?,
    }
    Ok(report)
}

/// The same where each event is tried by itself, also behind those that are refused.
pub fn stepped(alloc: Global, setting: &Setting) -> Result<String> {
    let mut report = String::new(alloc);
    match new_world(alloc, setting)? {
        Ok(mut world) => {
            step_all(alloc, &mut world, &setting.events, &mut report)?;
            push_world(alloc, &mut report, &world, setting)?;
        }
        Err(refusal) => writeln!(report, "no world {refusal:?}")?,
    }
    Ok(report)
}

/// A new world of a setting, or why there is none.
fn new_world(alloc: Global, setting: &Setting) -> Result<Result<World, WorldRefusal>> {
    let header = setting.header.as_ref().context("no header")?;
    ensure!(header.steps().is_some(), "a header without timesteps");
    ensure!(1 <= setting.ranks && setting.ranks <= 256, "1 to 256 ranks");
    ensure!(
        1 <= setting.cache && setting.cache <= 65_536,
        "1 to 65536 blocks"
    );
    Ok(World::new(
        alloc,
        header,
        setting.ranks,
        &setting.volumes,
        &setting.asks,
        setting.cache,
    ))
}

fn replay_all(
    alloc: Global,
    world: World,
    events: &[Event],
    report: &mut String,
) -> Result<World, AllocError> {
    match replay(alloc, world, events) {
        Ok(world) => {
            report.push_str("ok\n")?;
            Ok(world)
        }
        Err((world, place, refusal)) => {
            writeln!(report, "refused {place} {refusal:?}")?;
            Ok(world)
        }
    }
}

fn step_all(
    alloc: Global,
    world: &mut World,
    events: &[Event],
    report: &mut String,
) -> Result<(), AllocError> {
    for (place, event) in events.iter().enumerate() {
        if let Err(refusal) = step(alloc, world, event) {
            writeln!(report, "refused {place} {refusal:?}")?;
        }
    }
    writeln!(report, "stepped {}", events.len())
}

/// Appends how the questions of a world are answered, and, where they are wanted, the files of its volumes.
fn push_world(alloc: Global, report: &mut String, world: &World, setting: &Setting) -> Result<()> {
    push_answers(report, world, setting.asks.len())?;
    if setting.files {
        for volume in 0..setting.volumes.len() {
            push_files(alloc, report, world, volume as u64)?;
        }
    }
    Ok(())
}

/// Appends a line for each written file of the volume of a place.
fn push_files(alloc: Global, report: &mut String, world: &World, volume: u64) -> Result<()> {
    let files = world.files_of(alloc, volume)?;
    for file in &files {
        write!(report, "file {volume} ")?;
        for letter in file.0.as_slice() {
            report.push(char::from(*letter))?;
        }
        report.push(' ')?;
        push_bytes(report, file.1.bytes().as_slice())?;
        report.push('\n')?;
    }
    Ok(())
}

/// Appends a line for each of so many questions.
fn push_answers(report: &mut String, world: &World, questions: usize) -> Result<(), AllocError> {
    for query in 0..questions {
        write!(report, "query {query} ")?;
        match world.answer_of(query as u64) {
            Some(answer) => push_bytes(report, answer.as_slice())?,
            None => report.push_str("none")?,
        }
        report.push('\n')?;
    }
    Ok(())
}

/// Appends bytes in hexadecimal digits.
fn push_bytes(report: &mut String, bytes: &[u8]) -> Result<(), AllocError> {
    if bytes.is_empty() {
        report.push_str("empty")?;
    }
    for byte in bytes {
        write!(report, "{byte:02x}")?;
    }
    Ok(())
}
