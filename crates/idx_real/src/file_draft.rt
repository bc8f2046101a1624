ghost use Rattle.std.specs.Prelude.{◌≡◌, ◌↔◌, ◌<◌, None, IsSome, string_bytes, IfOk, IfErr, OnOk, OnErr};
ghost use Rattle.std.specs.Io.KnownBytes.{Appends};
ghost use Rattle.idx_outside.specs.Cause.{counted, NeverFalls, Rose};
ghost use Rattle.idx_real.specs.Faults.{no_faults};

use crate::fault_log::FaultLog;
use crate::{FileLeaf, Reason};
use idx_outside::{Draft, Outage};
use std::fs::OpenFile;
use std::io::Write;
use std::marker::Model;

/// A file that is being written, of which nothing is told. It is staged beside the folder of its step. A contract sees
/// the open file, its two paths and the faults.
///
/// Each is one fault: a write that fails, bytes that the system refuses once it has taken them, and a length that it does
/// not tell.
pub struct FileDraft<F: Write + OpenFile + Drop> {
    file: F,
    staged: String,
    path: String,
    /// Whether the file system may refuse bytes that it has taken.
    is_late: bool,
    log: FaultLog,
}

impl<F: Write + OpenFile + Drop> Model for FileDraft<F> {
    ghost use Rattle.std.specs.Prelude.{string_bytes};
    ghost use Rattle.idx_real.specs.FolderState.{DraftState};

    ghost Value = { DraftState F };

    ghost view = { λ s. record {
      file = s.file;
      staged = string_bytes s.staged;
      path = string_bytes s.path;
      faults = s.log;
    } };
}

impl<F: Write + OpenFile + Drop> FileDraft<F> {
    /// A file that is being written at the path `staged`, open for that, and that will stand at `path` once its step was
    /// committed. Where the file system may refuse bytes that it has taken (`is_late`), `seal` asks for them to be written.
    pub fn new(file: F, staged: String, path: String, is_late: bool) -> FileDraft<F>
        ensures { result ≡ record {
          file = file;
          staged = string_bytes staged;
          path = string_bytes path;
          faults = no_faults;
        } }
    {
        FileDraft {
            file,
            staged,
            path,
            is_late,
            log: FaultLog::new(),
        }
    }

    /// Closes the file. Gives the path where it is staged, and why the last fault came; `None` exactly where there was
    /// none.
    pub(crate) fn end(self) -> (String, Option<Reason>)
        ensures staged { string_bytes result.0 ≡ self.staged }
        ensures reason { result.1 ≡ self.faults.last }
        ensures some { IsSome result.1 ↔ (0 < self.faults.count) }
    {
        let reason = self.log.last();
        let FileDraft {
            file: _file,
            staged,
            path: _path,
            is_late: _is_late,
            log: _log,
        } = self;
        (staged, reason)
    }
}

impl<F: Write + OpenFile + Drop> Draft for FileDraft<F> {
    type Leaf = FileLeaf;

    ghost contents = { λ _. None };

    ghost path = { λ _. None };

    ghost faults = { λ s. s.faults.count };

    fn append(&mut self, piece: &[u8]) -> Result<(), Outage>
        ensures taken { OnOk result (Appends (F.contents self.old.file) (F.contents self.new.file) piece.now) }
        ensures staged { self.new.staged ≡ self.old.staged }
        ensures path { self.new.path ≡ self.old.path }
        ensures quiet { OnOk result (self.new.faults ≡ self.old.faults) }
        ensures err { OnErr result (self.new.faults.count ≡ counted self.old.faults.count) }
        ensures count { NeverFalls self.old.faults.count self.new.faults.count }
        ensures cause { OnErr result (Rose self.old.faults.count self.new.faults.count) }
    {
        let taken = write_whole(&mut self.file, piece);
        self.log.answer(taken)
    }

    /// The length is the one that the system tells of the file, once it has written the bytes where it may refuse them late.
    fn seal(mut self) -> Result<FileLeaf, (FileDraft<F>, Outage)>
        ensures path { IfOk result (λ leaf. leaf.path ≡ self.path) }
        ensures faults { IfOk result (λ leaf. leaf.faults ≡ self.faults.count) }
        ensures same { IfErr result (λ back. (back.0.file ≡ self.file) × (back.0.staged ≡ self.staged) × (back.0.path ≡ self.path)) }
        ensures err { IfErr result (λ back. back.0.faults.count ≡ counted self.faults.count) }
        ensures cause { IfErr result (λ back. Rose self.faults.count back.0.faults.count) }
    {
        let found = written_length(&self.file, self.is_late);
        match self.log.answer(found) {
            Ok(len) => {
                let FileDraft {
                    file: _file,
                    staged: _staged,
                    path,
                    is_late: _is_late,
                    log,
                } = self;
                Ok(FileLeaf::sealed(path, len, log.faults()))
            }
            Err(outage) => Err((self, outage)),
        }
    }

    fn faults(&self) -> u64 {
        self.log.faults()
    }
}

fn write_whole<F: Write>(file: &mut F, piece: &[u8]) -> Result<(), Reason>
    ensures { OnOk result (Appends (F.contents file.old) (F.contents file.new) piece.now) }
{
    Ok(file.write_all(piece)?)
}

/// The length of a file; where the file system may refuse bytes late, only once it has written them.
fn written_length<F: OpenFile>(file: &F, is_late: bool) -> Result<u64, Reason> {
    if is_late {
        file.sync_data()?;
    }
    Ok(file.metadata()?.len())
}
