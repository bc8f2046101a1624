ghost use Rattle.std.specs.Prelude.{◌≡◌, ◌+◌, ◌≤◌, length, take, drop, Some, Ok, IsOk};
ghost use Rattle.idx_memory.specs.Memory.{more};

use crate::range::copy_range;
use idx_outside::{Bytes, Outage, Source};
use std::marker::Model;

/// A source in memory, whose bytes are known and which never fails.
#[derive(Drop)]
pub struct SureSource {
    bytes: Bytes,
    asked: u64,
}

impl Model for SureSource {
    ghost use Rattle.idx_memory.specs.Memory.{SourceBytes};

    ghost Value = { SourceBytes };

    ghost view = { λ s. record { bytes = s.bytes; asked = s.asked } };
}

impl SureSource {
    /// Takes no memory.
    pub fn new(bytes: Bytes) -> SureSource
        ensures { result ≡ record { bytes = bytes; asked = 0 } }
    {
        SureSource { bytes, asked: 0 }
    }
}

impl Source for SureSource {
    ghost contents = { λ s. Some s.bytes };

    ghost asked = { λ s. s.asked };

    ghost faults = { λ _. 0 };

    fn len(&mut self) -> Result<u64, Outage>
        ensures length { result ≡ Ok (length self.old.bytes) }
        ensures same { self.new ≡ self.old }
    {
        Ok(self.bytes.len() as u64)
    }

    fn read_at(&mut self, at: u64, into: &mut [u8]) -> Result<(), Outage>
        requires { at + length into.old ≤ length self.old.bytes }
        ensures sure { IsOk result }
        ensures read { into.new ≡ take (length into.old) (drop at self.old.bytes) }
        ensures asked { self.new ≡ record self.old { asked = more self.old.asked (length into.old) } }
    {
        self.asked = self.asked.wrapping_add(into.len() as u64);
        copy_range(self.bytes.as_slice(), at, into);
        Ok(())
    }

    fn faults(&self) -> u64 {
        0
    }
}
