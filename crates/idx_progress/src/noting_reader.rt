ghost use Rattle.std.specs.Prelude.{◌≡◌, ◌↔◌, ◌<◌, ◌+◌, ◌%◌, ◌^◌, length, IsSome, option_map, OnOk, OnErr};
ghost use Rattle.idx_outside.specs.Cause.{counted, NeverFalls, Rose};
ghost use Rattle.idx_real.specs.Placed.{WasReadAt};
ghost use Rattle.idx_real.specs.ReaderState.{IsOpenAt, OfFileAt};

use crate::notes::Notes;
use idx_outside::{Outage, Reader};
use idx_real::{Fault, FileLeaf, FileReader};
use std::io::Write;
use std::marker::Model;
use std::rt::Files;

/// A reader of finished files that says, where it is to, which one could not be read, once for each. A contract sees the
/// reader.
#[derive(Drop)]
pub struct NotingReader<R: Files + Drop, W: Write + Copy> {
    reader: FileReader<R>,
    notes: Option<Notes<W>>,
}

impl<R: Files + Drop, W: Write + Copy> Model for NotingReader<R, W> {
    ghost use Rattle.idx_real.specs.ReaderState.{ReaderState};

    ghost Value = { ReaderState R.File };

    ghost view = { λ s. s.reader };
}

impl<R: Files + Drop, W: Write + Copy> NotingReader<R, W> {
    /// The reader, which says so here.
    pub fn new(reader: FileReader<R>, notes: Option<Notes<W>>) -> NotingReader<R, W>
        ensures { result ≡ reader }
    {
        NotingReader { reader, notes }
    }

    /// The last fault, with the path and the reason; `None` exactly where no fault was counted.
    pub fn last_fault(&self) -> Option<Fault<'_>>
        ensures reason { option_map (λ fault. fault.reason) result ≡ self.now.faults.last }
        ensures some { IsSome result ↔ (0 < self.now.faults.count) }
    {
        self.reader.last_fault()
    }

    /// Says why the last read failed.
    fn say(&self) {
        if let (Some(notes), Some(fault)) = (&self.notes, self.reader.last_fault()) {
            notes.read_failed(fault);
        }
    }
}

impl<R: Files + Drop, W: Write + Copy> Reader<FileLeaf> for NotingReader<R, W> {
    ghost faults = { λ s. s.faults.count };

    ghost reads = { λ s. s.reads };

    ghost asked = { λ s. s.asked };

    fn read_at(&mut self, leaf: &FileLeaf, at: u64, into: &mut [u8]) -> Result<(), Outage>
        ensures read { OnOk result (OfFileAt self.old.last leaf.now.path
            (λ f. WasReadAt R.File.remaining R.File.stream_position R.File.stream_bytes f at into.new)) }
        ensures stays { OnOk result (IsOpenAt leaf.now.path self.new.last) }
        ensures kept { OnErr result (option_map (λ o. o.path) self.new.last ≡ option_map (λ o. o.path) self.old.last) }
        ensures reads { self.new.reads ≡ (self.old.reads + 1) % 2 ^ 64 }
        ensures asked { self.new.asked ≡ (self.old.asked + length into.old) % 2 ^ 64 }
        ensures quiet { OnOk result (self.new.faults ≡ self.old.faults) }
        ensures err { OnErr result (self.new.faults.count ≡ counted self.old.faults.count) }
        ensures count { NeverFalls self.old.faults.count self.new.faults.count }
        ensures cause { OnErr result (Rose self.old.faults.count self.new.faults.count) }
    {
        match self.reader.read_at(leaf, at, into) {
            Ok(()) => Ok(()),
            Err(outage) => {
                self.say();
                Err(outage)
            }
        }
    }

    fn faults(&self) -> u64 {
        self.reader.faults()
    }
}
