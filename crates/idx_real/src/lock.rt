//! Locks between runs: an open file that no other run has, at the path where it was opened.
use crate::Reason;
use crate::refusal::Refusal;
use std::fs::{File, Metadata, OpenFile, OpenOptions, TryLockError};
use std::io::ErrorKind;
use std::os::unix::fs::MetadataExt;
use std::rt::Files;
use std::{fs, io};

/// How often a lock file is opened anew that another run has taken away meanwhile.
const MOST_LOOKS: u32 = 1_000;

/// Linux's numbers of ENOLCK, ENOSYS and EOPNOTSUPP, by which a file system says that it has no locks.
const NO_LOCKS: [i32; 3] = [37, 38, 95];

/// An open file that a run can lock against others. The lock goes with the open file, also where the run dies.
pub trait Lockable {
    /// Takes the lock where no other open file has it, and tells whether it was taken.
    fn take_lock(&self) -> io::Result<bool>;
}

impl Lockable for File {
    fn take_lock(&self) -> io::Result<bool> {
        match self.try_lock() {
            Ok(()) => Ok(true),
            Err(TryLockError::WouldBlock) => Ok(false),
            Err(TryLockError::Error(error)) => Err(error),
        }
    }
}

/// Opens a file and locks it. Where another run has the lock, or has taken away what was opened, that is a fault.
pub(crate) fn hold<R: Files>(rt: &R, path: &str) -> Result<R::File, Reason>
where
    R::File: Lockable,
{
    let file = match OpenOptions::new().write(true).open(rt, path) {
        Ok(file) => file,
        Err(error) if error.kind() == ErrorKind::NotFound => return Err(Reason::AnotherRun),
        Err(error) => return Err(Reason::from(error)),
    };
    if file.take_lock()? && stands_at(rt, &file, path)? {
        return Ok(file);
    }
    Err(Reason::AnotherRun)
}

/// A file that says, while it is locked, that a run is writing a step.
#[derive(Drop)]
pub(crate) struct StepLock<F: Drop> {
    path: String,
    file: F,
}

impl<F: OpenFile + Drop> StepLock<F> {
    /// Removes the file, where it still stands, and lets the lock go.
    pub(crate) fn release<R: Files<File = F>>(self, rt: &R) {
        let StepLock { path, file } = self;
        if let Ok(true) = stands_at(rt, &file, path.as_str()) {
            let _removed = fs::remove_file(rt, path.as_str());
        }
    }
}

/// How an attempt to lock a file went.
enum Locking<F> {
    Locked(F),
    /// Another run has taken the file away before it was locked.
    Gone,
    /// There are no locks here.
    NoLocks,
}

/// Makes a lock file, where none is there, and locks it; `None` where the file system has no locks. Where another run has
/// the lock, that is a fault.
pub(crate) fn lock_step<R: Files>(
    rt: &R,
    path: String,
) -> Result<Option<StepLock<R::File>>, Refusal>
where
    R::File: Lockable,
{
    for _ in 0..MOST_LOOKS {
        match try_lock(rt, path.as_str()) {
            Ok(Locking::Locked(file)) => return Ok(Some(StepLock { path, file })),
            Ok(Locking::NoLocks) => return Ok(None),
            Ok(Locking::Gone) => {}
            Err(reason) => return Err(Refusal::at(path, reason)),
        }
    }
    Err(Refusal::at(path, Reason::AnotherRun))
}

/// Opens a lock file and tries to lock it, once.
fn try_lock<R: Files>(rt: &R, path: &str) -> Result<Locking<R::File>, Reason>
where
    R::File: Lockable,
{
    let file = open_lock(rt, path)?;
    match file.take_lock() {
        Ok(true) => locked(rt, path, file),
        Ok(false) => Err(Reason::AnotherRun),
        Err(error) if has_no_locks(&error) => {
            let _removed = fs::remove_file(rt, path);
            Ok(Locking::NoLocks)
        }
        Err(error) => Err(Reason::from(error)),
    }
}

/// What was locked, where it still stands at its path.
fn locked<R: Files>(rt: &R, path: &str, file: R::File) -> Result<Locking<R::File>, Reason> {
    if stands_at(rt, &file, path)? {
        Ok(Locking::Locked(file))
    } else {
        Ok(Locking::Gone)
    }
}

/// Opens a lock file for writing, without which some systems lock nothing, and makes it where it is missing. The path is
/// looked at first: to open a pipe may wait for a reader.
fn open_lock<R: Files>(rt: &R, path: &str) -> Result<R::File, Reason> {
    match fs::symlink_metadata(rt, path) {
        Ok(standing) if !standing.is_file() => return Err(Reason::StandsAlready),
        Err(error) if error.kind() != ErrorKind::NotFound => return Err(Reason::from(error)),
        _ => {}
    }
    Ok(OpenOptions::new().write(true).create(true).open(rt, path)?)
}

/// Whether the system says by this error that it has no locks there.
fn has_no_locks(error: &io::Error) -> bool {
    match error.raw_os_error() {
        Some(number) => NO_LOCKS.contains(&number),
        None => false,
    }
}

/// Whether the open file is the one that stands at this path.
fn stands_at<R: Files>(rt: &R, file: &R::File, path: &str) -> Result<bool, Reason> {
    match fs::symlink_metadata(rt, path) {
        Ok(there) => Ok(are_same(&there, &file.metadata()?)),
        Err(error) if error.kind() == ErrorKind::NotFound => Ok(false),
        Err(error) => Err(Reason::from(error)),
    }
}

fn are_same(some: &Metadata, other: &Metadata) -> bool {
    some.dev() == other.dev() && some.ino() == other.ino()
}
