ghost use Rattle.std.specs.Prelude.{◌≡◌, IfOk};

use crate::Ranks;
use idx_geom::Region;
use idx_outside::NoMemory;
use std::alloc::Global;

/// The points of a dataset's box whose Z addresses have the same first digits. They form a box.
#[derive(Debug, Drop)]
pub struct Piece {
    /// The first digits, as a number: the Z address of each point, without so many of its last digits.
    pub id: u64,
    /// The points, at least one.
    pub region: Region,
    /// The ranks that have a part of it, rising.
    pub ranks: Ranks,
    /// Among how many ranks the box is divided.
    pub of_ranks: u32,
}

impl Piece {
    /// The same piece once more.
    pub fn copy(&self, alloc: Global) -> Result<Piece, NoMemory>
        ensures { IfOk result (λ copy. copy ≡ self.now) }
    {
        Ok(Piece {
            id: self.id,
            region: self.region,
            ranks: Ranks::from_vec(Vec::from_slice(alloc, self.ranks.as_slice())?),
            of_ranks: self.of_ranks,
        })
    }
}
