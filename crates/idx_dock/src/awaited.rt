ghost use Rattle.std.specs.Prelude.{◌≡◌, ◌++◌, IfOk, map, take};

use idx_geom::Region;
use idx_outside::{Bytes, NoMemory};
use idx_pieces::{Run, Runs};
use std::alloc::Global;

/// A piece that a dock awaits.
#[derive(Debug, Drop)]
pub struct Awaited {
    /// The id of the piece.
    pub piece: u64,
    /// Its points.
    pub region: Region,
    /// Its samples in the dock's file, once they were delivered.
    pub runs: Option<Runs>,
}

impl Awaited {
    /// The same piece with copies of its samples.
    pub(crate) fn copy(&self, alloc: Global) -> Result<Awaited, NoMemory>
        ensures { IfOk result (λ awaited. awaited ≡ self.now) }
    {
        let runs = match &self.runs {
            Some(runs) => Some(copied_runs(alloc, runs)?),
            None => None,
        };
        Ok(Awaited {
            piece: self.piece,
            region: self.region,
            runs,
        })
    }
}

/// Copies of awaited pieces.
pub(crate) fn copies(alloc: Global, awaited: &[Awaited]) -> Result<Vec<Awaited>, NoMemory>
    ensures { IfOk result (λ copies. copies.items ≡ awaited.now) }
{
    let mut copies = Vec::with_capacity(alloc, awaited.len())?;
    for piece in awaited {
        copies.push(piece.copy(alloc)?)?;
    }
    Ok(copies)
}

/// Copies of runs.
fn copied_runs(alloc: Global, runs: &Runs) -> Result<Runs, NoMemory>
    ensures { IfOk result (λ copies. copies ≡ runs.now) }
{
    let runs = runs.as_slice();
    let mut copies = Vec::with_capacity(alloc, runs.len())?;
    for run in runs {
        copies.push(copied_run(alloc, run)?)?;
    }
    Ok(Runs::from_vec(copies))
}

/// A copy of a run.
fn copied_run(alloc: Global, run: &Run) -> Result<Run, NoMemory>
    ensures { IfOk result (λ copy. copy ≡ run.now) }
{
    Ok(Run {
        field: run.field,
        first: run.first,
        bytes: Bytes::from_slice(alloc, run.bytes.as_slice())?,
    })
}
