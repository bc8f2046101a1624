//! The objects of a run whose calls can fail.
use anyhow::{Context, Result, bail};

/// The bay, the sink, or a raw volume, a draft, a reader, a door or a link of the first door by its number, counted from 0.
#[derive(Clone, Copy, PartialEq, Eq)]
pub enum Object {
    Bay,
    Sink,
    Raw(u64),
    Draft(u64),
    Reader(u64),
    Door(u64),
    Link(u64),
}

/// A call that fails: of which object, and its number, counted from 1.
#[derive(Clone, Copy)]
pub struct Fail {
    pub object: Object,
    pub call: u64,
}

/// The object of this name: a word, and its number behind it, if it has one.
pub fn object_of(name: &str) -> Result<Object> {
    match name {
        "bay" => Ok(Object::Bay),
        "sink" => Ok(Object::Sink),
        "raw" => Ok(Object::Raw(0)),
        _ => numbered(name),
    }
}

fn numbered(name: &str) -> Result<Object> {
    if let Some(number) = name.strip_prefix("raw") {
        Ok(Object::Raw(number_of(number)?))
    } else if let Some(number) = name.strip_prefix("draft") {
        Ok(Object::Draft(number_of(number)?))
    } else if let Some(number) = name.strip_prefix("reader") {
        Ok(Object::Reader(number_of(number)?))
    } else if let Some(number) = name.strip_prefix("door") {
        Ok(Object::Door(number_of(number)?))
    } else if let Some(number) = name.strip_prefix("link") {
        Ok(Object::Link(number_of(number)?))
    } else {
        bail!("no such object")
    }
}

/// The number that a text says.
pub fn number_of(text: &str) -> Result<u64> {
    text.parse::<u64>().context("a number")
}
