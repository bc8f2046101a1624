ghost use Rattle.std.specs.Prelude.{◌≡◌, ◌++◌, length, take, drop, replicate, IsOk};
ghost use Rattle.idx_memory.specs.Memory.{no_reads, after_read, kept_range};

use crate::SureLeaf;
use crate::reads::Reads;
use idx_outside::{Bytes, Outage, Reader};
use std::marker::Model;

/// A reader of leaves in memory that never fails. Behind the bytes that a leaf has kept it reads zeros. A contract sees
/// what was read.
#[derive(Drop)]
pub struct SureReader {
    reads: Reads,
}

impl Model for SureReader {
    ghost use Rattle.idx_memory.specs.Memory.{Reads};

    ghost Value = { Reads };

    ghost view = { λ s. s.reads };
}

impl SureReader {
    /// Takes no memory.
    pub fn new() -> SureReader
        ensures { result ≡ no_reads }
    {
        SureReader {
            reads: Reads::new(),
        }
    }

    /// How many calls of `read_at` were made, modulo 2^64.
    pub fn reads(&self) -> u64
        ensures { result ≡ self.now.calls }
    {
        self.reads.calls()
    }

    /// How many bytes were asked for, modulo 2^64.
    pub fn asked(&self) -> u64
        ensures { result ≡ self.now.bytes }
    {
        self.reads.bytes()
    }
}

impl Reader<SureLeaf> for SureReader {
    ghost faults = { λ _. 0 };

    ghost reads = { λ s. s.calls };

    ghost asked = { λ s. s.bytes };

    fn read_at(&mut self, leaf: &SureLeaf, at: u64, into: &mut [u8]) -> Result<(), Outage>
        ensures sure { IsOk result }
        ensures read { into.new ≡ kept_range leaf.now at (length into.old) }
        ensures reads { self.new ≡ after_read (length into.old) self.old }
    {
        self.reads.add(into.len());
        let kept = behind(leaf.bytes(), at);
        fill(kept, into);
        Ok(())
    }

    fn faults(&self) -> u64 {
        0
    }
}

/// The bytes from a place on; none from the end on.
fn behind(bytes: &Bytes, at: u64) -> &[u8]
    ensures { result.now ≡ drop at bytes.now }
{
    let start = at.min(bytes.len() as u64) as usize;
    &bytes.as_slice()[start..]
}

/// Writes bytes from the front, as far as there is room, and zeros behind them.
fn fill(bytes: &[u8], into: &mut [u8])
    ensures { into.new ≡ take (length into.old) (bytes.now ++ replicate (length into.old) 0) }
{
    let count = bytes.len().min(into.len());
    let (front, rest) = into.split_at_mut(count);
    front.copy_from_slice(&bytes[..count]);
    rest.fill(0);
}
