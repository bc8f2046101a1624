//! What a run meets, as the rows of a table say it one after another.
use crate::object::{Fail, Object};
use idx_outside::{Bytes, MemFile};
use std::alloc::{AllocError, Global};

/// A link that is to come: its input, how many bytes of it come at a time, or 0 for as many as fit, and the number of its call
/// that fails, or 0.
#[derive(Drop)]
pub struct Coming {
    pub input: Vec<u8>,
    pub piece: u64,
    pub fail: u64,
}

/// What a run meets: the words, the bytes of the raw volume and how many there are of it, the header and the files that stand,
/// the calls that fail, the links that come to each door, and how many readers there are. And whether counts are printed of it,
/// and the entries of links.
#[derive(Drop)]
pub struct Setting {
    pub name: String,
    pub words: Vec<String>,
    pub raw: Vec<u8>,
    pub raws: u64,
    pub header: Vec<u8>,
    pub files: Vec<MemFile>,
    pub fails: Vec<Fail>,
    pub doors: Vec<Vec<Coming>>,
    pub readers: u64,
    pub has_counts: bool,
    pub has_entries: bool,
}

impl Setting {
    /// No words are given, nothing stands, nothing fails, and there are one raw volume and one reader.
    pub fn new(alloc: Global) -> Setting {
        Setting {
            name: String::new(alloc),
            words: Vec::new(alloc),
            raw: Vec::new(alloc),
            raws: 1,
            header: Vec::new(alloc),
            files: Vec::new(alloc),
            fails: Vec::new(alloc),
            doors: Vec::new(alloc),
            readers: 1,
            has_counts: false,
            has_entries: false,
        }
    }

    /// The numbers of the calls of an object that fail.
    pub fn calls(&self, alloc: Global, object: Object) -> Result<Vec<u64>, AllocError> {
        let mut calls = Vec::new(alloc);
        for fail in self.fails.iter() {
            if fail.object == object {
                calls.push(fail.call)?;
            }
        }
        Ok(calls)
    }
}

/// Copies of files.
pub fn copies(alloc: Global, files: &[MemFile]) -> Result<Vec<MemFile>, AllocError> {
    let mut copies = Vec::new(alloc);
    for file in files {
        copies.push(MemFile {
            folder: copy(alloc, file.folder.as_slice())?,
            path: copy(alloc, file.path.as_slice())?,
            bytes: copy(alloc, file.bytes.as_slice())?,
        })?;
    }
    Ok(copies)
}

/// A copy of bytes.
pub fn copy(alloc: Global, bytes: &[u8]) -> Result<Bytes, AllocError> {
    Ok(Bytes::from_vec(Vec::from_slice(alloc, bytes)?))
}

/// Whether two files have the same folder, path and bytes.
pub fn is_same(found: &MemFile, other: &MemFile) -> bool {
    found.folder.as_slice() == other.folder.as_slice()
        && found.path.as_slice() == other.path.as_slice()
        && found.bytes.as_slice() == other.bytes.as_slice()
}
