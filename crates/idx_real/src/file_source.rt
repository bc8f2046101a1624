ghost use Rattle.std.specs.Prelude.{◌≡◌, ◌↔◌, ◌<◌, ◌+◌, ◌%◌, ◌^◌, length, None, Some, IsSome, string_bytes, option_map, IfSome, IfOk, OnOk, OnErr};
ghost use Rattle.idx_outside.specs.Cause.{counted, NeverFalls, Rose};
ghost use Rattle.idx_real.specs.Faults.{no_faults};
ghost use Rattle.idx_real.specs.Placed.{known_bytes, WasReadAt, OfItsFile};

use crate::fault_log::FaultLog;
use crate::placed::{length_of, read_range};
use crate::regular_file::open_regular;
use crate::{Fault, Reason};
use idx_outside::{Outage, Source};
use std::marker::Model;
use std::rt::Files;

/// A regular file as a source, of which nothing is known. It is opened at the first call and stays open. A contract sees
/// the path, the open file, how many bytes were asked for, and the faults.
///
/// Each is one fault: a path that cannot be opened, what is no regular file (a folder, a pipe, a terminal, a device), a
/// read that fails, and a range that passes the file's end, as in a file that shrank.
#[derive(Drop)]
pub struct FileSource<R: Files + Drop> {
    rt: R,
    path: String,
    file: Option<R::File>,
    asked: u64,
    log: FaultLog,
}

impl<R: Files + Drop> Model for FileSource<R> {
    ghost use Rattle.std.specs.Prelude.{string_bytes};
    ghost use Rattle.idx_real.specs.FileState.{FileState};

    ghost Value = { FileState R.File };

    ghost view = { λ s. record { path = string_bytes s.path; file = s.file; asked = s.asked; faults = s.log } };
}

impl<R: Files + Drop> FileSource<R> {
    /// Opens nothing yet and takes no memory.
    pub fn new(rt: R, path: String) -> FileSource<R>
        ensures { result ≡ record { path = string_bytes path; file = None; asked = 0; faults = no_faults } }
    {
        FileSource {
            rt,
            path,
            file: None,
            asked: 0,
            log: FaultLog::new(),
        }
    }

    /// The last fault, with the path and the reason; `None` exactly where no fault was counted.
    pub fn last_fault(&self) -> Option<Fault<'_>>
        ensures path { IfSome result (λ fault. fault.path.now ≡ self.now.path) }
        ensures reason { option_map (λ fault. fault.reason) result ≡ self.now.faults.last }
        ensures some { IsSome result ↔ (0 < self.now.faults.count) }
    {
        let path = self.path.as_str();
        self.log.last().map(|reason| Fault { path, reason })
    }
}

impl<R: Files + Drop> Source for FileSource<R> {
    ghost contents = { λ _. None };

    ghost asked = { λ s. s.asked };

    ghost faults = { λ s. s.faults.count };

    fn len(&mut self) -> Result<u64, Outage>
        ensures length { IfOk result (λ n. OfItsFile self.old.file (λ f.
            IfSome (known_bytes (R.File.stream_position f) (R.File.stream_bytes f)) (λ bytes. n ≡ length bytes))) }
        ensures path { self.new.path ≡ self.old.path }
        ensures asked { self.new.asked ≡ self.old.asked }
        ensures quiet { OnOk result (self.new.faults ≡ self.old.faults) }
        ensures err { OnErr result (self.new.faults.count ≡ counted self.old.faults.count) }
        ensures count { NeverFalls self.old.faults.count self.new.faults.count }
        ensures cause { OnErr result (Rose self.old.faults.count self.new.faults.count) }
    {
        let found = file_length(&self.rt, self.path.as_str(), &mut self.file);
        self.log.answer(found)
    }

    fn read_at(&mut self, at: u64, into: &mut [u8]) -> Result<(), Outage>
        ensures read { OnOk result (OfItsFile self.old.file
            (λ f. WasReadAt R.File.remaining R.File.stream_position R.File.stream_bytes f at into.new)) }
        ensures path { self.new.path ≡ self.old.path }
        ensures asked { self.new.asked ≡ (self.old.asked + length into.old) % 2 ^ 64 }
        ensures quiet { OnOk result (self.new.faults ≡ self.old.faults) }
        ensures err { OnErr result (self.new.faults.count ≡ counted self.old.faults.count) }
        ensures count { NeverFalls self.old.faults.count self.new.faults.count }
        ensures cause { OnErr result (Rose self.old.faults.count self.new.faults.count) }
    {
        self.asked = self.asked.wrapping_add(into.len() as u64);
        let found = read_file(&self.rt, self.path.as_str(), &mut self.file, at, into);
        self.log.answer(found)
    }

    fn faults(&self) -> u64 {
        self.log.faults()
    }
}

fn file_length<R: Files>(rt: &R, path: &str, file: &mut Option<R::File>) -> Result<u64, Reason>
    ensures { IfOk result (λ n. OfItsFile file.old (λ f.
        IfSome (known_bytes (R.File.stream_position f) (R.File.stream_bytes f)) (λ bytes. n ≡ length bytes))) }
{
    length_of(opened(rt, path, file)?)
}

fn read_file<R: Files>(
    rt: &R,
    path: &str,
    file: &mut Option<R::File>,
    at: u64,
    into: &mut [u8],
) -> Result<(), Reason>
    ensures { OnOk result (OfItsFile file.old
        (λ f. WasReadAt R.File.remaining R.File.stream_position R.File.stream_bytes f at into.new)) }
{
    read_range(opened(rt, path, file)?, at, into)
}

/// The file, which is opened if it is not open yet.
fn opened<'f, R: Files>(
    rt: &R,
    path: &str,
    file: &'f mut Option<R::File>,
) -> Result<&'f mut R::File, Reason>
    ensures { IfSome file.old (λ f. IfOk result (λ opened. opened.now ≡ f)) }
{
    match file {
        Some(file) => Ok(file),
        None => Ok(file.insert(open_regular(rt, path)?)),
    }
}
