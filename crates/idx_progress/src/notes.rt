use crate::noted_paths::{Naming, NotedPaths};
use crate::shown::Shown;
use idx_real::Fault;
use std::alloc::Global;
use std::io::Write;
use std::sync::Arc;
use std::{fmt, str};

/// One thing that a server says while it runs, as a line that begins with two spaces.
#[derive(Clone, Copy, Debug)]
pub enum Note<'a> {
    /// A file could not be read, for the first time.
    CannotRead(Fault<'a>),
    /// More files could not be read than are named.
    More,
    /// A worker thread ended, since no connection could be accepted any more.
    WorkerEnded(Fault<'a>),
    /// The files of a step stand in this folder, and it is published.
    Published(&'a str),
}

impl fmt::Display for Note<'_> {
    fn fmt<W: fmt::Write>(&self, f: &mut fmt::Formatter<W>) -> fmt::Result {
        match *self {
            Note::CannotRead(Fault { path, reason }) => {
                write!(f, "  cannot read {}: {reason}", Shown(path))
            }
            Note::More => f.write_str("  cannot read further files, which are not named"),
            Note::WorkerEnded(Fault { path, reason }) => {
                write!(f, "  a worker thread has ended: {}: {reason}", Shown(path))
            }
            Note::Published(folder) => write!(f, "  published the step in {}", Shown(folder)),
        }
    }
}

/// What a server says on standard error while it runs. All that read and write for it share it, so that each path is named
/// once. A line that cannot be written changes nothing.
#[derive(Drop)]
pub struct Notes<W: Write + Copy> {
    paths: Arc<NotedPaths, Global>,
    alloc: Global,
    err: W,
}

impl<W: Write + Copy> Notes<W> {
    /// Nothing is said yet. `None` where there is no memory.
    pub fn begin(alloc: Global, err: W) -> Option<Notes<W>> {
        let paths = NotedPaths::new(alloc).ok()?;
        Some(Notes {
            paths: Arc::new(alloc, paths).ok()?,
            alloc,
            err,
        })
    }

    /// The same, for another one that reads or writes.
    pub fn share(&self) -> Option<Notes<W>> {
        Some(Notes {
            paths: Arc::try_clone(&self.paths).ok()?,
            alloc: self.alloc,
            err: self.err,
        })
    }

    /// A read of a file failed. Says so where it is the first of its path.
    pub fn read_failed(&self, fault: Fault<'_>) {
        match self.paths.note(fault.path) {
            Naming::Name => self.say(Note::CannotRead(fault)),
            Naming::More => self.say(Note::More),
            Naming::Nothing => {}
        }
    }

    /// A worker thread ended.
    pub fn worker_ended(&self, fault: Fault<'_>) {
        self.say(Note::WorkerEnded(fault));
    }

    /// The files of a step stand in this folder.
    pub fn published(&self, folder: &[u8]) {
        if let Ok(folder) = str::from_utf8(folder) {
            self.say(Note::Published(folder));
        }
    }

    /// Writes a line, at once where there is memory for it, so that it is not torn by another's.
    fn say(&self, note: Note<'_>) {
        let mut err = self.err;
        let mut line = Vec::new(self.alloc);
        if writeln!(line, "{note}").is_ok() {
            let _ = err.write_all(line.as_slice());
        } else {
            let _ = writeln!(err, "{note}");
        }
    }
}
