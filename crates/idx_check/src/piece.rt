ghost use Rattle.std.specs.Prelude.{◌≡◌, ◌≢◌, ℕ, ◌+◌, ◌-◌, ◌<◌, ◌≤◌, min, Err, IfErr, IfSome, OnErr, OnOk, length, slice_index};
ghost use Rattle.idx_outside.specs.Cause.{AskedFor, MeetsOnce, NeverFalls, Rose};
ghost use Rattle.idx_check.specs.Piece.{AskedUpTo, HasLength, IsOnTheWay};
ghost use Rattle.idx_check.specs.Pieces.{ReadsOn, read_to};

use crate::CheckFault;
use idx_outside::{Leaf, Reader};
use std::alloc::Global;

/// How many bytes are read at once, at most.
pub(crate) const PIECE: usize = 65_536;

/// A piece of a file that was read and is looked at, unit by unit. Behind the file's end it goes on with zeros.
#[derive(Drop)]
pub(crate) struct Piece {
    /// The bytes.
    pub(crate) bytes: Vec<u8>,
    /// How many of them were looked at.
    pub(crate) used: usize,
}

/// A stretch of a file, of units of `unit` bytes each, which ends at `end`. The file has `there` bytes.
#[derive(Clone, Copy)]
pub(crate) struct Stretch {
    pub(crate) there: u64,
    pub(crate) unit: usize,
    pub(crate) end: u64,
}

impl Piece {
    /// A piece without bytes.
    pub(crate) fn new(alloc: Global) -> Piece
        ensures bytes { length result.bytes.items ≡ 0 }
        ensures used { result.used ≡ 0 }
    {
        Piece {
            bytes: Vec::new(alloc),
            used: 0,
        }
    }

    /// Sees to it that the next unit of a stretch, which begins at `at`, was read: where nothing is ahead, reads as many
    /// whole units of it as fit into a piece.
    pub(crate) fn look_ahead<L: Leaf, R: Reader<L>>(
        &mut self,
        stretch: Stretch,
        at: u64,
        leaf: &L,
        reader: &mut R,
    ) -> Result<(), CheckFault>
        requires some { 0 < stretch.unit }
        requires few { stretch.unit ≤ PIECE }
        requires more { at + stretch.unit ≤ stretch.end }
        requires length { HasLength (L.contents leaf.now) stretch.there }
        requires way { IsOnTheWay (L.contents leaf.now) self.old.bytes.items self.old.used stretch.unit
            at (stretch.end - at) }
        ensures ahead { OnOk result (self.new.used + stretch.unit ≤ length self.new.bytes.items) }
        ensures way { OnOk result (IsOnTheWay (L.contents leaf.now) self.new.bytes.items self.new.used stretch.unit
            at (stretch.end - at)) }
        ensures asked { (before : ℕ) →
            AskedUpTo before (R.asked reader.old) self.old.bytes.items self.old.used at stretch.there → OnOk result
            (AskedUpTo before (R.asked reader.new) self.new.bytes.items self.new.used at stretch.there) }
        ensures pieces { OnOk result (ReadsOn R.reads R.asked reader.old reader.new
            (read_to at self.old.bytes.items self.old.used) (read_to at self.new.bytes.items self.new.used)) }
        ensures outage { IfErr result (λ fault. fault ≢ CheckFault.NoMemory →
            (fault ≡ CheckFault.StoreFault (R.faults reader.new)) × Rose (R.faults reader.old) (R.faults reader.new)) }
        ensures no_memory { result ≡ Err CheckFault.NoMemory → R.faults reader.new ≡ R.faults reader.old }
        ensures quiet { OnOk result (R.faults reader.new ≡ R.faults reader.old) }
        ensures count { NeverFalls (R.faults reader.old) (R.faults reader.new) }
        ensures once { MeetsOnce (R.faults reader.old) (R.faults reader.new) }
    {
        if self.used < self.bytes.len() {
            return Ok(());
        }
        let most = PIECE - PIECE % stretch.unit;
        let count = (stretch.end - at).min(most as u64) as usize;
        self.used = 0;
        read_padded(leaf, at, count, stretch.there, &mut self.bytes, reader)
    }
}

/// Reads so many bytes of a file from a place on. Behind its end, at `there`, they go on with zeros.
fn read_padded<L: Leaf, R: Reader<L>>(
    leaf: &L,
    at: u64,
    count: usize,
    there: u64,
    into: &mut Vec<u8>,
    reader: &mut R,
) -> Result<(), CheckFault>
    requires length { HasLength (L.contents leaf.now) there }
    requires few { count ≤ PIECE }
    ensures length { OnOk result (length into.new.items ≡ count) }
    ensures bytes { OnOk result (IfSome (L.contents leaf.now) (λ bytes. (i : ℕ) → i < count →
        slice_index into.new.items i ≡ slice_index bytes (at + i))) }
    ensures asked { OnOk result (AskedFor (R.asked reader.old) (R.asked reader.new) (min count (there - at))) }
    ensures pieces { OnOk result (ReadsOn R.reads R.asked reader.old reader.new at (at + count)) }
    ensures outage { IfErr result (λ fault. fault ≢ CheckFault.NoMemory →
        (fault ≡ CheckFault.StoreFault (R.faults reader.new)) × Rose (R.faults reader.old) (R.faults reader.new)) }
    ensures no_memory { result ≡ Err CheckFault.NoMemory → R.faults reader.new ≡ R.faults reader.old }
    ensures quiet { OnOk result (R.faults reader.new ≡ R.faults reader.old) }
    ensures count { NeverFalls (R.faults reader.old) (R.faults reader.new) }
    ensures once { MeetsOnce (R.faults reader.old) (R.faults reader.new) }
{
    into.resize(count, 0)?;
    fill_padded(leaf, at, there, into, reader)
}

/// Fills bytes with those of a file from a place on. Behind its end, at `there`, they go on with zeros.
fn fill_padded<L: Leaf, R: Reader<L>>(
    leaf: &L,
    at: u64,
    there: u64,
    into: &mut [u8],
    reader: &mut R,
) -> Result<(), CheckFault>
    requires length { HasLength (L.contents leaf.now) there }
    requires few { length into.old ≤ PIECE }
    ensures bytes { OnOk result (IfSome (L.contents leaf.now) (λ bytes. (i : ℕ) → i < length into.old →
        slice_index into.new i ≡ slice_index bytes (at + i))) }
    ensures asked { OnOk result (AskedFor (R.asked reader.old) (R.asked reader.new)
        (min (length into.old) (there - at))) }
    ensures pieces { OnOk result (ReadsOn R.reads R.asked reader.old reader.new at (at + length into.old)) }
    ensures outage { IfErr result (λ fault. fault ≢ CheckFault.NoMemory →
        (fault ≡ CheckFault.StoreFault (R.faults reader.new)) × Rose (R.faults reader.old) (R.faults reader.new)) }
    ensures no_memory { result ≡ Err CheckFault.NoMemory → R.faults reader.new ≡ R.faults reader.old }
    ensures quiet { OnOk result (R.faults reader.new ≡ R.faults reader.old) }
    ensures count { NeverFalls (R.faults reader.old) (R.faults reader.new) }
    ensures once { MeetsOnce (R.faults reader.old) (R.faults reader.new) }
{
    let standing = there.saturating_sub(at).min(into.len() as u64) as usize;
    into[standing..].fill(0);
    if standing == 0 {
        return Ok(());
    }
    match reader.read_at(leaf, at, &mut into[..standing]) {
        Ok(()) => Ok(()),
        Err(_) => Err(CheckFault::StoreFault {
            faults: reader.faults(),
        }),
    }
}
