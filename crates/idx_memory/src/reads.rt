ghost use Rattle.std.specs.Prelude.{◌≡◌};
ghost use Rattle.idx_memory.specs.Memory.{no_reads, after_read};

use std::marker::Model;

/// What was read: how many calls there were, and how many bytes they asked for, both modulo 2^64.
#[derive(Drop)]
pub(crate) struct Reads {
    calls: u64,
    bytes: u64,
}

impl Model for Reads {
    ghost use Rattle.idx_memory.specs.Memory.{Reads};

    ghost Value = { Reads };

    ghost view = { λ s. record { calls = s.calls; bytes = s.bytes } };
}

impl Reads {
    /// Nothing yet.
    pub(crate) fn new() -> Reads
        ensures { result ≡ no_reads }
    {
        Reads { calls: 0, bytes: 0 }
    }

    /// Counts a read of so many bytes.
    pub(crate) fn add(&mut self, count: usize)
        ensures { self.new ≡ after_read count self.old }
    {
        self.calls = self.calls.wrapping_add(1);
        self.bytes = self.bytes.wrapping_add(count as u64);
    }

    pub(crate) fn calls(&self) -> u64
        ensures { result ≡ self.now.calls }
    {
        self.calls
    }

    pub(crate) fn bytes(&self) -> u64
        ensures { result ≡ self.now.bytes }
    {
        self.bytes
    }
}
