ghost use Rattle.std.specs.Prelude.{◌≡◌, ◌+◌, ◌≤◌, IsOk, length, take, drop};
ghost use Rattle.idx_core_forms.specs.Held.{after_read, no_reads};

use crate::HeldLeaf;
use idx_outside::{Outage, Reader};
use std::marker::Model;

/// A reader of files in memory that never fails: its count of faults is 0 and stays, so that code that answers a fault of
/// its reader only where the count rose answers none. A contract sees how many reads it made, and how many bytes they
/// asked for, both modulo 2^64.
#[derive(Drop)]
pub struct HeldReader {
    reads: u64,
    asked: u64,
}

impl Model for HeldReader {
    ghost use Rattle.idx_core_forms.specs.Held.{ReadsValue};

    ghost Value = { ReadsValue };

    ghost view = { λ s. record { reads = s.reads; asked = s.asked } };
}

impl HeldReader {
    /// A reader that has made no read. Takes no memory.
    pub fn new() -> HeldReader
        ensures { result ≡ no_reads }
    {
        HeldReader { reads: 0, asked: 0 }
    }

    /// How many calls of `read_at` were made, modulo 2^64.
    pub fn reads(&self) -> u64
        ensures { result ≡ self.now.reads }
    {
        self.reads
    }

    /// How many bytes were asked for, modulo 2^64.
    pub fn asked(&self) -> u64
        ensures { result ≡ self.now.asked }
    {
        self.asked
    }
}

impl Reader<HeldLeaf> for HeldReader {
    ghost faults = { λ _. 0 };

    ghost reads = { λ s. s.reads };

    ghost asked = { λ s. s.asked };

    fn read_at(&mut self, leaf: &HeldLeaf, at: u64, into: &mut [u8]) -> Result<(), Outage>
        requires { at + length into.old ≤ length leaf.now }
        ensures sure { IsOk result }
        ensures read { into.new ≡ take (length into.old) (drop at leaf.now) }
        ensures state { self.new ≡ after_read (length into.old) self.old }
    {
        self.reads = self.reads.wrapping_add(1);
        self.asked = self.asked.wrapping_add(into.len() as u64);
        let bytes = leaf.bytes().as_slice();
        let start = at as usize;
        into.copy_from_slice(&bytes[start..start + into.len()]);
        Ok(())
    }

    fn faults(&self) -> u64 {
        0
    }
}
