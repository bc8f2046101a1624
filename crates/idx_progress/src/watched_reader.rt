ghost use Rattle.std.specs.Prelude.{◌≡◌};

use crate::line::Line;
use idx_outside::{Leaf, Outage, Reader};
use std::io::Write;
use std::marker::Model;
use std::time::Clock;

/// A reader that tells a line, where there is one, how many bytes it read. A contract sees the reader.
#[derive(Drop)]
pub struct WatchedReader<F: Drop, R: Clock + Copy, W: Write + Copy> {
    reader: F,
    line: Option<Line<R, W>>,
}

impl<F: Drop, R: Clock + Copy, W: Write + Copy> Model for WatchedReader<F, R, W> {
    ghost Value = { F };

    ghost view = { λ s. s.reader };
}

impl<F: Drop, R: Clock + Copy, W: Write + Copy> WatchedReader<F, R, W> {
    /// The reader, which tells this line.
    pub fn new(reader: F, line: Option<Line<R, W>>) -> WatchedReader<F, R, W>
        ensures { result ≡ reader }
    {
        WatchedReader { reader, line }
    }

    /// The reader alone.
    pub fn reader(&self) -> &F
        ensures { result.now ≡ self.now }
    {
        &self.reader
    }
}

impl<L: Leaf, F: Reader<L> + Drop, R: Clock + Copy, W: Write + Copy> Reader<L>
    for WatchedReader<F, R, W> {
    ghost faults = { F.faults };

    ghost reads = { F.reads };

    ghost asked = { F.asked };

    fn read_at(&mut self, leaf: &L, at: u64, into: &mut [u8]) -> Result<(), Outage> {
        self.reader.read_at(leaf, at, into)?;
        if let Some(line) = &self.line {
            line.add_bytes(into.len() as u64);
        }
        Ok(())
    }

    fn faults(&self) -> u64 {
        self.reader.faults()
    }
}
