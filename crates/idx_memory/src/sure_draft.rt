ghost use Rattle.std.specs.Prelude.{◌≡◌, ◌+◌, ◌-◌, ◌^◌, [], None, Ok, IsOk, length, min};

use crate::SureLeaf;
use idx_outside::{Draft, Outage};
use std::alloc::Global;
use std::marker::Model;

/// A draft that keeps no bytes, of which nothing is told and no call of which fails. A contract sees how many bytes came,
/// a number that stands still at `u64::MAX`.
pub struct SureDraft {
    alloc: Global,
    len: u64,
}

impl Model for SureDraft {
    ghost use Rattle.std.specs.Prelude.{ℕ};

    ghost Value = { ℕ };

    ghost view = { λ s. s.len };
}

impl SureDraft {
    pub(crate) fn new(alloc: Global) -> SureDraft
        ensures { result ≡ 0 }
    {
        SureDraft { alloc, len: 0 }
    }

    /// Ends the draft.
    pub(crate) fn end(self) {
        let SureDraft {
            alloc: _alloc,
            len: _len,
        } = self;
    }
}

impl Draft for SureDraft {
    type Leaf = SureLeaf;

    ghost contents = { λ _. None };

    ghost path = { λ _. None };

    ghost faults = { λ _. 0 };

    fn append(&mut self, piece: &[u8]) -> Result<(), Outage>
        ensures sure { IsOk result }
        ensures counts { self.new ≡ min (self.old + length piece.now) (2 ^ 64 - 1) }
    {
        self.len = self.len.saturating_add(piece.len() as u64);
        Ok(())
    }

    fn seal(self) -> Result<SureLeaf, (SureDraft, Outage)>
        ensures { result ≡ Ok (record { len = self; bytes = [] }) }
    {
        let SureDraft { alloc, len } = self;
        Ok(SureLeaf::forgotten(alloc, len))
    }

    fn faults(&self) -> u64 {
        0
    }
}
