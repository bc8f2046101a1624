//! Where a step is staged: in a folder of the run's own, which no other run makes, and which is never made twice. What a
//! run drops it first gives a name of its own, so that no other run can publish what is being emptied.
use crate::fresh_name::fresh_path;
use crate::local_disk::refuses_late;
use crate::lock::{StepLock, lock_step};
use crate::refusal::Refusal;
use crate::step_folder::{is_folder_itself, make_if_missing};
use crate::{Lockable, Reason};
use std::alloc::{AllocGlobal, Global};
use std::fs;
use std::fs::{DirEntry, OpenFile};
use std::io::ErrorKind;
use std::random::RandomSource;
use std::rt::Files;

/// How many names are tried for a run's own folder, also where other runs remove the folder of all.
const MOST_NAMES: u32 = 1_000;

/// A step that a run is writing.
#[derive(Drop)]
pub(crate) struct Stage<F: OpenFile + Drop> {
    /// The folder in which all runs stage the step.
    shared: String,
    /// The run's own folder in it.
    own: String,
    /// Where a second run sees that it comes too late. None where the file system has no locks.
    lock: Option<StepLock<F>>,
    /// Whether the file system may refuse bytes that it has taken.
    is_late: bool,
}

impl<F: OpenFile + Drop> Stage<F> {
    /// Stages a step: makes the folder of all where it is missing, takes the lock, drops what other runs left, and makes a
    /// folder of its own.
    pub(crate) fn begin<R: Files<File = F> + RandomSource>(
        rt: &R,
        alloc: Global,
        shared: String,
        lock: String,
    ) -> Result<Stage<F>, Refusal>
    where
        F: Lockable,
    {
        if let Err(reason) = make_if_missing(rt, shared.as_str()) {
            return Err(Refusal::at(shared, reason));
        }
        match lock_step(rt, lock) {
            Ok(lock) => Stage::begin_locked(rt, alloc, shared, lock),
            Err(refusal) => {
                leave(rt, shared.as_str(), None);
                Err(refusal)
            }
        }
    }

    /// The same, with the lock.
    fn begin_locked<R: Files<File = F> + RandomSource>(
        rt: &R,
        alloc: Global,
        shared: String,
        lock: Option<StepLock<F>>,
    ) -> Result<Stage<F>, Refusal> {
        match make_own(rt, alloc, shared.as_str()) {
            Ok(own) => {
                let is_late = refuses_late(rt, alloc, own.as_str());
                Ok(Stage {
                    shared,
                    own,
                    lock,
                    is_late,
                })
            }
            Err(reason) => {
                leave(rt, shared.as_str(), lock);
                Err(Refusal::at(shared, reason))
            }
        }
    }

    /// Drops what is staged of the step, also by this run, and makes another folder of its own.
    pub(crate) fn begin_again<R: Files<File = F> + RandomSource>(
        &mut self,
        rt: &R,
        alloc: Global,
    ) -> Result<(), Refusal> {
        match make_own(rt, alloc, self.shared.as_str()) {
            Ok(own) => {
                self.own = own;
                Ok(())
            }
            Err(reason) => Err(Refusal {
                place: String::from_str(alloc, self.shared.as_str()).ok(),
                reason,
            }),
        }
    }

    /// The run's own folder.
    pub(crate) fn own(&self) -> &str {
        self.own.as_str()
    }

    /// Whether the file system may refuse bytes that it has taken.
    pub(crate) fn is_late(&self) -> bool {
        self.is_late
    }

    /// Ends once the own folder has got its name. That the folder of all is not empty is no fault.
    pub(crate) fn end<R: Files<File = F>>(self, rt: &R) {
        let Stage { shared, lock, .. } = self;
        leave(rt, shared.as_str(), lock);
    }

    /// Drops the own folder with all that is in it, and ends.
    pub(crate) fn give_up<R: Files<File = F> + RandomSource>(self, rt: &R, alloc: Global) {
        let _dropped = drop_entry(rt, alloc, self.shared.as_str(), self.own.as_str());
        self.end(rt);
    }
}

/// Removes the folder of all where it is empty, and lets the lock go.
fn leave<R: Files>(rt: &R, shared: &str, lock: Option<StepLock<R::File>>) {
    let _removed = fs::remove_dir(rt, shared);
    if let Some(lock) = lock {
        lock.release(rt);
    }
}

/// Drops what other runs left of a step whose name no run stages any more. What cannot be dropped is no fault.
pub(crate) fn drop_left<R: Files + RandomSource>(rt: &R, alloc: Global, shared: &str, lock: &str) {
    if let Ok(true) = is_folder_itself(rt, shared) {
        let _dropped = drop_entries(rt, alloc, shared);
        let _removed = fs::remove_dir(rt, shared);
    }
    let _removed = fs::remove_file(rt, lock);
}

/// Drops what is in a folder, and makes a new folder in it, which no other run makes. Where another run removes the folder
/// meanwhile, it is made again.
fn make_own<R: Files + RandomSource>(
    rt: &R,
    alloc: Global,
    shared: &str,
) -> Result<String, Reason> {
    drop_entries(rt, alloc, shared)?;
    for _ in 0..MOST_NAMES {
        let own = fresh_path(rt, alloc, shared)?;
        match fs::create_dir(rt, own.as_str()) {
            Ok(()) => return Ok(own),
            Err(error) if error.kind() == ErrorKind::AlreadyExists => {}
            Err(error) if error.kind() == ErrorKind::NotFound => make_if_missing(rt, shared)?,
            Err(error) => return Err(Reason::from(error)),
        }
    }
    Err(Reason::AnotherRun)
}

/// Drops all that is in a folder.
fn drop_entries<R: Files + RandomSource>(
    rt: &R,
    alloc: Global,
    shared: &str,
) -> Result<(), Reason> {
    for entry in paths_in(&(rt, alloc), shared)? {
        drop_entry(rt, alloc, shared, entry.as_str())?;
    }
    Ok(())
}

/// The paths of all that is in a folder; none where it is gone. They are listed before the first is renamed: a listing may
/// show a new name too.
fn paths_in<R: Files + AllocGlobal + Clone + Drop>(
    rt: &R,
    folder: &str,
) -> Result<Vec<String>, Reason> {
    let mut paths = Vec::new(rt.alloc());
    let entries = match fs::read_dir(rt, folder) {
        Ok(entries) => entries,
        Err(error) if error.kind() == ErrorKind::NotFound => return Ok(paths),
        Err(error) => return Err(Reason::from(error)),
    };
    for entry in entries {
        let path = path_of(rt.alloc(), entry?)?;
        if paths.push(path).is_err() {
            return Err(Reason::no_memory());
        }
    }
    Ok(paths)
}

fn path_of<R: Files + AllocGlobal + Drop>(
    alloc: Global,
    entry: DirEntry<R>,
) -> Result<String, Reason> {
    match String::from_str(alloc, entry.path().as_str()) {
        Ok(path) => Ok(path),
        Err(_) => Err(Reason::no_memory()),
    }
}

/// Gives an entry of the folder of all a name that no other run has, and removes it with all that is in it. Whoever had it
/// cannot publish it any more. An entry that is gone, or cannot be removed, is no fault.
fn drop_entry<R: Files + RandomSource>(
    rt: &R,
    alloc: Global,
    shared: &str,
    entry: &str,
) -> Result<(), Reason> {
    let away = fresh_path(rt, alloc, shared)?;
    if fs::rename(rt, entry, away.as_str()).is_ok() {
        remove(rt, alloc, away.as_str());
    }
    Ok(())
}

/// Removes a file, or a folder with all that is in it.
fn remove<R: Files>(rt: &R, alloc: Global, path: &str) {
    let _removed = match is_folder_itself(rt, path) {
        Ok(true) => rt.remove_dir_all(alloc, path),
        _ => fs::remove_file(rt, path),
    };
}
