ghost use Rattle.std.specs.Prelude.{◌≡◌, ◌≢◌, ◌↔◌, All, Contains, IfErr, IfOk, IsTrue, drop, length, map};
ghost use Rattle.idx_dock.specs.Dock.{IsDivision, IsDock, new_dock};
ghost use Rattle.idx_layout.specs.OfHeader.{placing_of};
ghost use Rattle.idx_layout.specs.Placing.{file_numbers};
ghost use Rattle.idx_pieces.specs.Pieces.{IsPiece};
ghost use Rattle.idx_gather.specs.States.{AreFull, wanted};
ghost use Rattle.idx_gather.specs.Windows.{window_of};

use crate::wanted::wanted_pieces;
use crate::window::window_count;
use crate::{Docking, GatherFault, Opening};
use idx_dock::Dock;
use idx_header::Header;
use idx_outside::{Leaf, NoMemory};
use idx_pieces::Piece;
use std::alloc::Global;

impl<L: Leaf> Opening<L> {
    /// Empty aggregators for the next window of files.
    pub fn dock(self, alloc: Global) -> Result<Docking<L>, GatherFault>
        requires unsealed { length self.leaves.items ≢ length self.files.items }
        ensures opening { IfOk result (λ docking. docking.opening ≡ self) }
        ensures empty { IfOk result (λ docking. docking.docks.items ≡ map (new_dock self.header self.pieces.items)
            (window_of self.header self.room (drop (length self.leaves.items) self.files.items))) }
        ensures only { IfErr result (λ fault. fault ≡ GatherFault.NoMemory) }
    {
        let left = &self.files[self.leaves.len()..];
        let count = window_count(&self.header, left, self.room);
        let (docks, left) = make_window(alloc, &self.header, &self.pieces, &left[..count])?;
        Ok(Docking {
            opening: self,
            docks,
            done: 0,
            left,
        })
    }
}

impl<L: Leaf> Docking<L> {
    /// Whether no aggregator of the window misses a piece.
    pub fn is_full(&self) -> bool
        ensures full { IsTrue result ↔ AreFull self.now.docks.items }
        ensures docks { All IsDock self.now.docks.items }
    {
        look_over(&self.docks);
        are_full(&self.docks)
    }
}

/// Looks at each dock, of which then is known what is true of every dock.
pub(crate) fn look_over(docks: &[Dock])
    ensures { All IsDock docks.now }
{
    for dock in docks {
        let _file = dock.file();
    }
}

/// Whether no dock misses a piece.
fn are_full(docks: &[Dock]) -> bool
    ensures { IsTrue result ↔ AreFull docks.now }
{
    for dock in docks {
        if dock.missing().is_some() {
            return false;
        }
    }
    true
}

/// The docks of some files of a division of the box, and its pieces that have a point in one of these.
pub(crate) fn make_window(
    alloc: Global,
    header: &Header,
    pieces: &Vec<Piece>,
    files: &[u64],
) -> Result<(Vec<Dock>, Vec<Piece>), NoMemory>
    requires files { All (Contains (file_numbers (placing_of header.now))) files.now }
    requires division { IsDivision header.now pieces.now.items }
    requires pieces { All (IsPiece header.now) pieces.now.items }
    ensures docks { IfOk result (λ made. made.0.items ≡ map (new_dock header.now pieces.now.items) files.now) }
    ensures wanted { IfOk result (λ made. made.1.items ≡ wanted header.now files.now pieces.now.items) }
{
    let docks = make_docks(alloc, header, pieces, files)?;
    let wanted = wanted_pieces(alloc, header, pieces, files)?;
    Ok((docks, wanted))
}

/// The docks of some files of a division of the box, to which nothing was delivered.
fn make_docks(
    alloc: Global,
    header: &Header,
    pieces: &Vec<Piece>,
    files: &[u64],
) -> Result<Vec<Dock>, NoMemory>
    requires files { All (Contains (file_numbers (placing_of header.now))) files.now }
    requires division { IsDivision header.now pieces.now.items }
    ensures { IfOk result (λ docks. docks.items ≡ map (new_dock header.now pieces.now.items) files.now) }
{
    let mut docks = Vec::with_capacity(alloc, files.len())?;
    for file in files {
        docks.push(Dock::new(alloc, header, pieces, *file)?)?;
    }
    Ok(docks)
}
