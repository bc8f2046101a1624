use crate::meeting::Meeting;
use idx_memory::{MemLeaf, MemReader};
use idx_outside::{Outage, Reader};
use std::marker::Model;

/// A reader of leaves in memory that gives its sign at its first read, and then waits. None of its calls fails.
#[derive(Drop)]
pub(crate) struct WaitingReader<'a> {
    leaves: MemReader,
    meeting: Meeting<'a>,
}

impl<'a> Model for WaitingReader<'a> {
    ghost use Rattle.idx_memory.specs.Memory.{ReaderState};

    ghost Value = { ReaderState };

    ghost view = { λ r. r.leaves };
}

impl<'a> WaitingReader<'a> {
    /// The reader over this one.
    pub(crate) fn new(leaves: MemReader, meeting: Meeting<'a>) -> WaitingReader<'a> {
        WaitingReader { leaves, meeting }
    }

    /// How many reads were made.
    pub(crate) fn reads(&self) -> u64 {
        self.leaves.reads()
    }
}

impl Reader<MemLeaf> for WaitingReader<'_> {
    ghost faults = { λ s. s.script.faults };

    ghost reads = { λ s. s.reads.calls };

    ghost asked = { λ s. s.reads.bytes };

    fn read_at(&mut self, leaf: &MemLeaf, at: u64, into: &mut [u8]) -> Result<(), Outage> {
        self.meeting.give();
        self.meeting.wait();
        self.leaves.read_at(leaf, at, into)
    }

    fn faults(&self) -> u64 {
        self.leaves.faults()
    }
}
