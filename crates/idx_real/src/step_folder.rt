//! Folders of steps and their files: where they stand beside a header file, and the calls of std that make them.
ghost use Rattle.std.specs.Prelude.{◌≡◌, ◌↔◌, ◌<◌, length, string_bytes, option_map, IsTrue, MatchOption};
ghost use Rattle.idx_outside.specs.Files.{LiesIn};
ghost use Rattle.idx_real.specs.FolderState.{InStep, are_of_their_paths};

use crate::{FileLeaf, Reason};
use idx_outside::{Bytes, NoMemory};
use std::alloc::Global;
use std::fs::File;
use std::io::ErrorKind;
use std::rt::Files;
use std::{fs, io};

/// What stands behind the name of the folder in which a step is staged, and behind a header's that is not yet put.
pub(crate) const PART: &str = ".part";

/// What stands behind a step's name in that of the file that says that a run is writing it.
pub(crate) const LOCK: &str = ".lock";

/// The path in the folder of the header file, with some text behind it.
pub(crate) fn beside(
    alloc: Global,
    header: &str,
    name: &str,
    end: &str,
) -> Result<String, NoMemory> {
    Ok(match header.rsplit_once('/') {
        Some((folder, _)) => format!(in alloc; "{folder}/{name}{end}")?,
        None => format!(in alloc; "{name}{end}")?,
    })
}

/// The folder that was begun, where the path lies in it.
pub(crate) fn folder_of<'b>(begun: &'b Option<String>, path: &[u8]) -> Option<&'b str>
    ensures { MatchOption result (¬ (InStep (option_map string_bytes begun.now) path.now))
        (λ folder. InStep (option_map string_bytes begun.now) path.now × (length folder.now < length path.now)) }
{
    match begun {
        Some(folder) if lies_in(folder.as_bytes(), path) => Some(folder.as_str()),
        _ => None,
    }
}

/// Whether the path goes on behind the folder's name and a slash.
#[tactic(auto, using(crate::proofs::FolderLemmas::lying))]
fn lies_in(folder: &[u8], path: &[u8]) -> bool
    ensures lies { IsTrue result ↔ LiesIn folder.now path.now }
    ensures longer { IsTrue result → length folder.now < length path.now }
{
    let count = folder.len();
    if path.len() <= count {
        return false;
    }
    if &path[..count] == folder {
        path[count] == b'/'
    } else {
        false
    }
}

/// Whether a folder stands there.
pub(crate) fn is_folder<R: Files>(rt: &R, path: &str) -> Result<bool, Reason> {
    match fs::metadata(rt, path) {
        Ok(metadata) => Ok(metadata.is_dir()),
        Err(error) if error.kind() == ErrorKind::NotFound => Ok(false),
        Err(error) => Err(Reason::from(error)),
    }
}

/// The length of a regular file; `None` where there is none of this path.
pub(crate) fn length_if_there<R: Files>(rt: &R, path: &str) -> Result<Option<u64>, Reason> {
    match fs::metadata(rt, path) {
        Ok(metadata) if metadata.is_file() => Ok(Some(metadata.len())),
        Ok(_) => Err(Reason::NotRegularFile),
        Err(error) if error.kind() == ErrorKind::NotFound => Ok(None),
        Err(error) => Err(Reason::from(error)),
    }
}

/// Makes a folder; one that stands already may stay.
pub(crate) fn make_if_missing<R: Files>(rt: &R, path: &str) -> Result<(), Reason> {
    match fs::create_dir(rt, path) {
        Ok(()) => Ok(()),
        Err(error) if error.kind() == ErrorKind::AlreadyExists => stands_as_folder(rt, path),
        Err(error) => Err(Reason::from(error)),
    }
}

/// Fails where what stands there is no folder. One that another run takes away meanwhile is made again where it is needed.
fn stands_as_folder<R: Files>(rt: &R, path: &str) -> Result<(), Reason> {
    match fs::symlink_metadata(rt, path) {
        Ok(metadata) if metadata.is_dir() => Ok(()),
        Ok(_) => Err(Reason::StandsAlready),
        Err(error) if error.kind() == ErrorKind::NotFound => Ok(()),
        Err(error) => Err(Reason::from(error)),
    }
}

/// Whether a folder stands there, and no link to one.
pub(crate) fn is_folder_itself<R: Files>(rt: &R, path: &str) -> Result<bool, Reason> {
    Ok(fs::symlink_metadata(rt, path)?.is_dir())
}

/// Makes an empty file where nothing stands, in a folder of the run's own. The folders between the two are made where they
/// are missing, one by one, and the run's own never.
pub(crate) fn create_file<R: Files>(rt: &R, own: &str, path: &str) -> Result<R::File, Reason> {
    match File::create_new(rt, path) {
        Ok(file) => Ok(file),
        Err(error) if error.kind() == ErrorKind::NotFound => {
            make_between(rt, own, path)?;
            or_taken(File::create_new(rt, path))
        }
        Err(error) => Err(Reason::from(error)),
    }
}

/// What a call answers of what lies in the run's own folder. That the folder is gone says that another run has taken it.
fn or_taken<T: Drop>(answer: io::Result<T>) -> Result<T, Reason> {
    match answer {
        Ok(value) => Ok(value),
        Err(error) if error.kind() == ErrorKind::NotFound => Err(Reason::Taken),
        Err(error) => Err(Reason::from(error)),
    }
}

/// Makes the folders of a path that lie in another one, where they are missing.
fn make_between<R: Files>(rt: &R, own: &str, path: &str) -> Result<(), Reason> {
    for end in own.len()..path.len() {
        match path.split_at_checked(end) {
            Some((folder, rest)) if end > own.len() && rest.starts_with('/') => make_below(
                rt, folder,
            )?,
            _ => {}
        }
    }
    Ok(())
}

/// Makes a folder in one that stands; one that stands already may stay.
fn make_below<R: Files>(rt: &R, folder: &str) -> Result<(), Reason> {
    match fs::create_dir(rt, folder) {
        Err(error) if error.kind() == ErrorKind::AlreadyExists => Ok(()),
        made => or_taken(made),
    }
}

/// Gives a folder its own name. Where something stands under that name already, that is a fault.
pub(crate) fn rename_new<R: Files>(rt: &R, from: &str, to: &str) -> Result<(), Reason> {
    match fs::symlink_metadata(rt, to) {
        Ok(_) => Err(Reason::StandsAlready),
        Err(error) if error.kind() == ErrorKind::NotFound => rename(rt, from, to),
        Err(error) => Err(Reason::from(error)),
    }
}

/// The same, where nothing stood there a moment ago.
fn rename<R: Files>(rt: &R, from: &str, to: &str) -> Result<(), Reason> {
    match fs::rename(rt, from, to) {
        Err(error) if stands(error.kind()) => Err(Reason::StandsAlready),
        renamed => or_taken(renamed),
    }
}

/// Whether a rename says by this that another folder, which is not empty, has the name.
fn stands(kind: ErrorKind) -> bool {
    kind == ErrorKind::AlreadyExists || kind == ErrorKind::DirectoryNotEmpty
}

/// Whether each leaf was written under the path that it is to stand under.
pub(crate) fn are_of_their_paths(leaves: &Vec<(Bytes, FileLeaf)>) -> bool
    ensures { result ≡ are_of_their_paths leaves.now.items }
{
    leaves.iter().all(|(path, leaf)| leaf.path().as_bytes().ends_with(path.as_slice()))
}

/// The folder in which a path stands; an empty text where that is the one in which the program runs, or the root.
pub(crate) fn folder_above(path: &str) -> &str {
    match path.rsplit_once('/') {
        Some((folder, _)) => folder,
        None => "",
    }
}

/// Makes a folder and those above it, where they are missing.
pub(crate) fn make_folders<R: Files>(rt: &R, folder: &str) -> Result<(), Reason> {
    if folder.is_empty() {
        return Ok(());
    }
    Ok(fs::create_dir_all(rt, folder)?)
}

/// The name of a step without the end that a later revision has, as `.r12`, and the number of that revision; `None` of a
/// first one.
pub(crate) fn later_revision(folder: &str) -> Option<(&str, u8)> {
    let (step, number) = folder.rsplit_once(".r")?;
    match number.parse::<u8>() {
        Ok(revision) if revision > 0 => Some((step, revision)),
        _ => None,
    }
}
