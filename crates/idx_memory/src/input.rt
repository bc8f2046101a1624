ghost use Rattle.std.specs.Prelude.{◌≡◌, ◌<◌, ◌≤◌, [], ◌++◌, All, IfOk, length, take, drop};
ghost use Rattle.idx_memory.specs.Links.{most, given, after_reading};

use idx_outside::{Bytes, NoMemory};
use std::alloc::Global;
use std::marker::Model;

/// An input that comes in pieces.
#[derive(Drop)]
pub(crate) struct Input {
    bytes: Bytes,
    at: usize,
    pieces: Vec<u64>,
}

impl Model for Input {
    ghost use Rattle.std.specs.Prelude.{◌<◌, ◌≤◌, All, length, drop};
    ghost use Rattle.idx_memory.specs.Links.{InputState};

    ghost Value = { InputState };

    ghost view = { λ s. record { bytes = drop s.at s.bytes; pieces = s.pieces.items } };

    ghost invariant = { λ s. (s.at ≤ length s.bytes) × All (λ piece. 0 < piece) s.pieces.items };
}

impl Input {
    /// `pieces` are the lengths in which the bytes come.
    pub(crate) fn new(bytes: Bytes, pieces: Vec<u64>) -> Input
        requires { All (λ piece. 0 < piece) pieces.items }
        ensures { result ≡ record { bytes = bytes; pieces = pieces.items } }
    {
        Input {
            bytes,
            at: 0,
            pieces,
        }
    }

    pub(crate) fn copy(&self, alloc: Global) -> Result<Input, NoMemory>
        ensures { IfOk result (λ input. input ≡ self.now) }
    {
        Ok(Input {
            bytes: Bytes::from_slice(alloc, self.rest())?,
            at: 0,
            pieces: Vec::from_slice(alloc, self.pieces.as_slice())?,
        })
    }

    /// The bytes that are still to come.
    fn rest(&self) -> &[u8]
        ensures { result.now ≡ self.now.bytes }
    {
        &self.bytes.as_slice()[self.at..]
    }

    /// The most that the next read gives into so much room.
    fn most(&self, room: usize) -> usize
        ensures most { result ≡ most self.now.pieces room }
        ensures some { 0 < room → 0 < result }
    {
        match self.pieces.first() {
            Some(piece) => room.min(usize::try_from(*piece).unwrap_or(room)),
            None => room,
        }
    }

    /// Passes over so many bytes, and over one piece.
    fn pass(&mut self, count: usize)
        requires { count ≤ length self.old.bytes }
        ensures { self.new ≡ record { bytes = drop count self.old.bytes; pieces = drop 1 self.old.pieces } }
    {
        let left = self.rest().len() - count;
        self.at = self.bytes.len() - left;
        if !self.pieces.is_empty() {
            let _piece = self.pieces.remove(0);
        }
    }

    /// Puts the next bytes to the front of `into`, and tells how many.
    pub(crate) fn read(&mut self, into: &mut [u8]) -> usize
        requires { 0 < length into.old }
        ensures count { result ≡ given self.old (length into.old) }
        ensures read { into.new ≡ take result self.old.bytes ++ drop result into.old }
        ensures state { self.new ≡ after_reading (length into.old) self.old }
        ensures end { result ≡ 0 → self.old.bytes ≡ [] }
    {
        let most = self.most(into.len());
        let rest = self.rest();
        let count = most.min(rest.len());
        into[..count].copy_from_slice(&rest[..count]);
        self.pass(count);
        count
    }
}
