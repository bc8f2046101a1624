//! The forms in memory that a run goes over.
use crate::object::Object;
use crate::setting::{Coming, Setting, copies, copy};
use crate::volume::Volume;
use idx_memory::{MemBay, MemDoor, MemLink, MemReader, MemSink};
use std::alloc::{AllocError, Global};

/// Raw volumes, a bay, readers, a sink and doors.
#[derive(Drop)]
pub struct Forms {
    pub raws: Vec<Volume>,
    pub bay: MemBay,
    pub readers: Vec<MemReader>,
    pub out: MemSink,
    pub doors: Vec<MemDoor>,
}

/// The forms of a setting.
pub fn forms_of(alloc: Global, setting: &Setting) -> Result<Forms, AllocError> {
    Ok(Forms {
        raws: raws_of(alloc, setting)?,
        bay: bay_of(alloc, setting)?,
        readers: readers_of(alloc, setting)?,
        out: MemSink::new(setting.calls(alloc, Object::Sink)?),
        doors: doors_of(alloc, setting)?,
    })
}

fn raws_of(alloc: Global, setting: &Setting) -> Result<Vec<Volume>, AllocError> {
    let mut raws = Vec::new(alloc);
    for number in 0..setting.raws {
        let bytes = copy(alloc, &setting.raw)?;
        raws.push(Volume::new(bytes, setting.calls(alloc, Object::Raw(number))?))?;
    }
    Ok(raws)
}

fn bay_of(alloc: Global, setting: &Setting) -> Result<MemBay, AllocError> {
    let header = copy(alloc, &setting.header)?;
    let files = copies(alloc, &setting.files)?;
    let calls = setting.calls(alloc, Object::Bay)?;
    let mut drafts = Vec::new(alloc);
    for number in 0..2u64 {
        drafts.push(setting.calls(alloc, Object::Draft(number))?)?;
    }
    Ok(MemBay::new(header, files, calls, drafts))
}

fn readers_of(alloc: Global, setting: &Setting) -> Result<Vec<MemReader>, AllocError> {
    let mut readers = Vec::new(alloc);
    for number in 0..setting.readers {
        readers.push(MemReader::new(setting.calls(alloc, Object::Reader(number))?))?;
    }
    Ok(readers)
}

/// The doors of a setting; where there is none, one without links whose first call fails.
fn doors_of(alloc: Global, setting: &Setting) -> Result<Vec<MemDoor>, AllocError> {
    let mut doors = Vec::new(alloc);
    for (number, coming) in setting.doors.iter().enumerate() {
        let calls = setting.calls(alloc, Object::Door(number as u64))?;
        let links = if number == 0 {
            first_links(alloc, setting, coming)?
        } else {
            links_of(alloc, coming)?
        };
        doors.push(MemDoor::new(links, calls))?;
    }
    if doors.is_empty() {
        let first = Vec::from_slice(alloc, &[1])?;
        doors.push(MemDoor::new(Vec::new(alloc), first))?;
    }
    Ok(doors)
}

/// The links of the first door, whose calls fail as the setting says too.
fn first_links(
    alloc: Global,
    setting: &Setting,
    coming: &[Coming],
) -> Result<Vec<MemLink>, AllocError> {
    let mut links = Vec::new(alloc);
    for (number, link) in coming.iter().enumerate() {
        let mut calls = setting.calls(alloc, Object::Link(number as u64))?;
        calls.push(link.fail)?;
        links.push(link_of(alloc, link, calls)?)?;
    }
    Ok(links)
}

fn links_of(alloc: Global, coming: &[Coming]) -> Result<Vec<MemLink>, AllocError> {
    let mut links = Vec::new(alloc);
    for link in coming {
        let calls = Vec::from_slice(alloc, &[link.fail])?;
        links.push(link_of(alloc, link, calls)?)?;
    }
    Ok(links)
}

/// A link whose input comes in pieces of the length that it has, the last one less.
fn link_of(alloc: Global, link: &Coming, calls: Vec<u64>) -> Result<MemLink, AllocError> {
    let input = copy(alloc, &link.input)?;
    if link.piece == 0 {
        return Ok(MemLink::new(input, Vec::new(alloc), calls));
    }
    let whole = link.input.len() as u64 / link.piece;
    let pieces = vec![in alloc; link.piece; (whole as usize).saturating_add(1)]?;
    Ok(MemLink::new(input, pieces, calls))
}
