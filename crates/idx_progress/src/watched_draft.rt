ghost use Rattle.std.specs.Prelude.{◌≡◌};

use crate::line::Line;
use idx_outside::{Draft, Outage};
use std::io::Write;
use std::marker::Model;
use std::time::Clock;

/// A draft that tells a line, where there is one, how many bytes it was given and that it was sealed. A contract sees the
/// draft.
pub struct WatchedDraft<D: Draft, R: Clock + Copy, W: Write + Copy> {
    draft: D,
    line: Option<Line<R, W>>,
}

impl<D: Draft, R: Clock + Copy, W: Write + Copy> Model for WatchedDraft<D, R, W> {
    ghost Value = { D };

    ghost view = { λ d. d.draft };
}

impl<D: Draft, R: Clock + Copy, W: Write + Copy> WatchedDraft<D, R, W> {
    /// The draft, which tells this line.
    pub fn new(draft: D, line: Option<Line<R, W>>) -> WatchedDraft<D, R, W>
        ensures { result ≡ draft }
    {
        WatchedDraft { draft, line }
    }

    /// The draft alone.
    pub fn into_draft(self) -> D
        ensures { result ≡ self }
    {
        let WatchedDraft { draft, line: _ } = self;
        draft
    }
}

impl<D: Draft, R: Clock + Copy, W: Write + Copy> Draft for WatchedDraft<D, R, W> {
    type Leaf = D::Leaf;

    ghost contents = { D.contents };

    ghost path = { D.path };

    ghost faults = { D.faults };

    fn append(&mut self, piece: &[u8]) -> Result<(), Outage> {
        self.draft.append(piece)?;
        if let Some(line) = &self.line {
            line.add_bytes(piece.len() as u64);
        }
        Ok(())
    }

    fn seal(self) -> Result<D::Leaf, (Self, Outage)> {
        let WatchedDraft { draft, line } = self;
        match draft.seal() {
            Ok(leaf) => {
                if let Some(line) = &line {
                    line.add_file();
                }
                Ok(leaf)
            }
            Err((draft, outage)) => Err((WatchedDraft { draft, line }, outage)),
        }
    }

    fn faults(&self) -> u64 {
        self.draft.faults()
    }
}
