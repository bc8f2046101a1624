//! How a header's text is put under its name, where no other stands.
use crate::local_disk::refuses_late;
use crate::lock::hold;
use crate::regular_file::{front, open_regular};
use crate::step_folder::{PART, folder_above};
use crate::{Lockable, Reason};
use std::alloc::Global;
use std::fs;
use std::fs::{File, OpenFile};
use std::io::{ErrorKind, Write};
use std::rt::Files;

/// How many names beside a path are tried. Each is that of a run that is writing now, or of one that died.
const STAGED_NAMES: u64 = 1000;

/// How often an empty file is looked at that another run is writing over.
const MOST_LOOKS: u32 = 1_000;

/// Puts a text under a path where nothing stands, an empty file, or the same text already. It is written beside it first,
/// so that the path has all of it or nothing.
pub(crate) fn put_new<R: Files>(
    rt: &R,
    alloc: Global,
    path: &str,
    text: &[u8],
) -> Result<(), Reason>
where
    R::File: Lockable,
{
    let (staged, file) = stage(rt, alloc, path)?;
    let put = match write_all(file, text, refuses_late(rt, alloc, folder_or_here(path))) {
        Ok(()) => link_new(rt, alloc, staged.as_str(), path, text),
        Err(reason) => Err(reason),
    };
    let put = match put {
        Ok(Put::Moved) => return Ok(()),
        Ok(Put::Linked) => Ok(()),
        Err(reason) => Err(reason),
    };
    let _removed = fs::remove_file(rt, staged.as_str());
    put
}

/// How a text came to stand under a path.
enum Put {
    /// The file beside the path is still there.
    Linked,
    /// It was moved. Its name may be that of another run's file by now.
    Moved,
}

/// Makes an empty file beside a path, under a name that no other run has.
fn stage<R: Files>(rt: &R, alloc: Global, path: &str) -> Result<(String, R::File), Reason> {
    for number in 0..STAGED_NAMES {
        let Ok(staged) = format!(in alloc; "{path}{PART}{number}") else {
            return Err(Reason::no_memory());
        };
        match File::create_new(rt, staged.as_str()) {
            Ok(file) => return Ok((staged, file)),
            Err(error) if error.kind() == ErrorKind::AlreadyExists => {}
            Err(error) => return Err(Reason::from(error)),
        }
    }
    Err(Reason::StandsAlready)
}

/// The folder in which a path stands.
fn folder_or_here(path: &str) -> &str {
    match folder_above(path) {
        "" if path.starts_with('/') => "/",
        "" => ".",
        folder => folder,
    }
}

/// Writes a text, and closes the file. Where the file system may refuse bytes late, they are written first.
fn write_all<F: Write + OpenFile + Drop>(
    file: F,
    text: &[u8],
    is_late: bool,
) -> Result<(), Reason> {
    let mut file = file;
    file.write_all(text)?;
    file.flush()?;
    if is_late {
        file.sync_data()?;
    }
    Ok(())
}

/// Gives a file with this text a second name, where nothing stands under it but an empty file or the same text.
fn link_new<R: Files>(
    rt: &R,
    alloc: Global,
    staged: &str,
    path: &str,
    text: &[u8],
) -> Result<Put, Reason>
where
    R::File: Lockable,
{
    match fs::hard_link(rt, staged, path) {
        Ok(()) => Ok(Put::Linked),
        Err(error) if error.kind() == ErrorKind::AlreadyExists => {
            settle(rt, alloc, staged, path, text)
        }
        Err(error) => Err(Reason::from(error)),
    }
}

/// Puts the file in the place of an empty one. While another run does so, it is looked at again.
fn settle<R: Files>(
    rt: &R,
    alloc: Global,
    staged: &str,
    path: &str,
    text: &[u8],
) -> Result<Put, Reason>
where
    R::File: Lockable,
{
    for _ in 0..MOST_LOOKS {
        match settle_once(rt, alloc, staged, path, text) {
            Err(Reason::AnotherRun) => {}
            settled => return settled,
        }
    }
    Err(Reason::AnotherRun)
}

/// Puts the file in the place of an empty one. The same text is as good as put, and nothing is put over another.
fn settle_once<R: Files>(
    rt: &R,
    alloc: Global,
    staged: &str,
    path: &str,
    text: &[u8],
) -> Result<Put, Reason>
where
    R::File: Lockable,
{
    let standing = fs::symlink_metadata(rt, path)?;
    if !standing.is_file() {
        return Err(Reason::StandsAlready);
    }
    if standing.len() == 0 {
        replace_empty(rt, staged, path)?;
        return Ok(Put::Moved);
    }
    if has_text(rt, alloc, path, text)? {
        return Ok(Put::Linked);
    }
    Err(Reason::StandsAlready)
}

/// Whether a file has this text and no more.
fn has_text<R: Files>(rt: &R, alloc: Global, path: &str, text: &[u8]) -> Result<bool, Reason> {
    let most = (text.len() as u64).saturating_add(1);
    match front(alloc, open_regular(rt, path)?, most) {
        Ok(found) => Ok(found?.as_slice() == text),
        Err(_) => Err(Reason::no_memory()),
    }
}

/// Moves a file over an empty one, which no other run may do at the same time. Where one does, or has done so, that is
/// told.
fn replace_empty<R: Files>(rt: &R, staged: &str, path: &str) -> Result<(), Reason>
where
    R::File: Lockable,
{
    let empty = hold(rt, path)?;
    if empty.metadata()?.len() > 0 {
        return Err(Reason::AnotherRun);
    }
    Ok(fs::rename(rt, staged, path)?)
}
