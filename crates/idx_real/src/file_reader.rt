ghost use Rattle.std.specs.Prelude.{◌≡◌, ◌↔◌, ◌<◌, ◌+◌, ◌%◌, ◌^◌, length, None, IsSome, option_map, OnOk, OnErr};
ghost use Rattle.idx_outside.specs.Cause.{counted, NeverFalls, Rose};
ghost use Rattle.idx_real.specs.Faults.{no_faults};
ghost use Rattle.idx_real.specs.Placed.{WasReadAt};
ghost use Rattle.idx_real.specs.ReaderState.{IsOpenAt, OfFileAt};

use crate::fault_log::FaultLog;
use crate::opened::{Opened, read_new};
use crate::{Fault, FileLeaf, Reason};
use idx_outside::{Outage, Reader};
use std::alloc::Global;
use std::marker::Model;
use std::rt::Files;

/// A reader of finished files. The file that was read last stays open. A contract sees that file with its path, how many
/// reads there were, and how many bytes they asked for, both modulo 2^64, and the faults.
///
/// Each is one fault: a path that cannot be opened, what is no regular file, a read that fails, and a range that passes
/// the file's end.
#[derive(Drop)]
pub struct FileReader<R: Files + Drop> {
    rt: R,
    alloc: Global,
    last: Option<Opened<R::File>>,
    failed: Option<String>,
    reads: u64,
    asked: u64,
    log: FaultLog,
}

impl<R: Files + Drop> Model for FileReader<R> {
    ghost use Rattle.idx_real.specs.ReaderState.{ReaderState};

    ghost Value = { ReaderState R.File };

    ghost view = { λ s. record { last = s.last; reads = s.reads; asked = s.asked; faults = s.log } };
}

impl<R: Files + Drop> FileReader<R> {
    /// Opens nothing yet and takes no memory.
    pub fn new(rt: R, alloc: Global) -> FileReader<R>
        ensures { result ≡ record { last = None; reads = 0; asked = 0; faults = no_faults } }
    {
        FileReader {
            rt,
            alloc,
            last: None,
            failed: None,
            reads: 0,
            asked: 0,
            log: FaultLog::new(),
        }
    }

    /// How many calls of `read_at` were made, modulo 2^64.
    pub fn reads(&self) -> u64
        ensures { result ≡ self.now.reads }
    {
        self.reads
    }

    /// The last fault, with the path and the reason; `None` exactly where no fault was counted.
    pub fn last_fault(&self) -> Option<Fault<'_>>
        ensures reason { option_map (λ fault. fault.reason) result ≡ self.now.faults.last }
        ensures some { IsSome result ↔ (0 < self.now.faults.count) }
    {
        let path = match &self.failed {
            Some(path) => path.as_str(),
            None => "a file of a step",
        };
        self.log.last().map(|reason| Fault { path, reason })
    }
}

impl<R: Files + Drop> Reader<FileLeaf> for FileReader<R> {
    ghost faults = { λ s. s.faults.count };

    ghost reads = { λ s. s.reads };

    ghost asked = { λ s. s.asked };

    fn read_at(&mut self, leaf: &FileLeaf, at: u64, into: &mut [u8]) -> Result<(), Outage>
        ensures read { OnOk result (OfFileAt self.old.last leaf.now.path
            (λ f. WasReadAt R.File.remaining R.File.stream_position R.File.stream_bytes f at into.new)) }
        ensures stays { OnOk result (IsOpenAt leaf.now.path self.new.last) }
        ensures kept { OnErr result (option_map (λ o. o.path) self.new.last ≡ option_map (λ o. o.path) self.old.last) }
        ensures reads { self.new.reads ≡ (self.old.reads + 1) % 2 ^ 64 }
        ensures asked { self.new.asked ≡ (self.old.asked + length into.old) % 2 ^ 64 }
        ensures quiet { OnOk result (self.new.faults ≡ self.old.faults) }
        ensures err { OnErr result (self.new.faults.count ≡ counted self.old.faults.count) }
        ensures count { NeverFalls self.old.faults.count self.new.faults.count }
        ensures cause { OnErr result (Rose self.old.faults.count self.new.faults.count) }
    {
        self.reads = self.reads.wrapping_add(1);
        self.asked = self.asked.wrapping_add(into.len() as u64);
        let found = read_of(&self.rt, self.alloc, &mut self.last, leaf.path(), at, into);
        if found.is_err() {
            self.failed = String::from_str(self.alloc, leaf.path()).ok();
        }
        self.log.answer(found)
    }

    fn faults(&self) -> u64 {
        self.log.faults()
    }
}

/// Reads the file of this path, which is open already, or is opened. It stays open where there is memory for its path.
fn read_of<R: Files>(
    rt: &R,
    alloc: Global,
    last: &mut Option<Opened<R::File>>,
    path: &str,
    at: u64,
    into: &mut [u8],
) -> Result<(), Reason>
    ensures read { OnOk result (OfFileAt last.old path.now
        (λ f. WasReadAt R.File.remaining R.File.stream_position R.File.stream_bytes f at into.new)) }
    ensures stays { OnOk result (IsOpenAt path.now last.new) }
    ensures kept { OnErr result (option_map (λ o. o.path) last.new ≡ option_map (λ o. o.path) last.old) }
{
    if let Some(opened) = last {
        if opened.is_at(path) {
            return opened.read(path, at, into);
        }
    }
    *last = read_new(rt, alloc, path, at, into)?;
    Ok(())
}
