ghost use Rattle.std.specs.Prelude.{◌≡◌, ◌↔◌, ◌<◌, ◌≤◌, [], IfErr, IfOk, IsTrue, length};
ghost use Rattle.idx_layout.specs.OfHeader.{placing_of};
ghost use Rattle.idx_layout.specs.Placing.{file_numbers};

use crate::{GatherFault, Opening};
use idx_header::Header;
use idx_layout::files;
use idx_outside::{Leaf, NoMemory};
use idx_pieces::{piece_digits, pieces};
use idx_rowmajor::Layout;
use std::alloc::Global;

impl<L: Leaf> Opening<L> {
    /// A step of a dataset of which nothing is sealed yet. The box is divided among so many ranks. No more than `room`
    /// bytes of files, and of samples that are on their way to them, are kept in memory at a time, but for one file and one
    /// piece. The samples of each block are written in the order of the layout.
    pub fn new(
        alloc: Global,
        header: &Header,
        step: u64,
        ranks: u32,
        room: u64,
        layout: Layout,
    ) -> Result<Opening<L>, GatherFault>
        requires some_rank { 1 ≤ ranks }
        requires few_ranks { ranks ≤ 256 }
        requires some_room { 1 ≤ room }
        ensures header { IfOk result (λ opening. opening.header ≡ header.now) }
        ensures step { IfOk result (λ opening. opening.step ≡ step) }
        ensures ranks { IfOk result (λ opening. opening.ranks ≡ ranks) }
        ensures room { IfOk result (λ opening. opening.room ≡ room) }
        ensures layout { IfOk result (λ opening. opening.layout ≡ layout) }
        ensures empty { IfOk result (λ opening. opening.leaves.items ≡ []) }
        ensures only { IfErr result (λ fault. fault ≡ GatherFault.NoMemory) }
    {
        let opening = open(alloc, header, step, ranks, room, layout)?;
        Ok(opening)
    }

    /// Whether every file of the step is sealed.
    pub fn is_sealed(&self) -> bool
        ensures { IsTrue result ↔ (length self.now.leaves.items ≡ length self.now.files.items) }
    {
        self.leaves.len() == self.files.len()
    }
}

/// The same, where want of memory is the only refusal.
fn open<L: Leaf>(
    alloc: Global,
    header: &Header,
    step: u64,
    ranks: u32,
    room: u64,
    layout: Layout,
) -> Result<Opening<L>, NoMemory>
    requires some_rank { 1 ≤ ranks }
    requires few_ranks { ranks ≤ 256 }
    requires some_room { 1 ≤ room }
    ensures header { IfOk result (λ opening. opening.header ≡ header.now) }
    ensures step { IfOk result (λ opening. opening.step ≡ step) }
    ensures ranks { IfOk result (λ opening. opening.ranks ≡ ranks) }
    ensures room { IfOk result (λ opening. opening.room ≡ room) }
    ensures layout { IfOk result (λ opening. opening.layout ≡ layout) }
    ensures empty { IfOk result (λ opening. opening.leaves.items ≡ []) }
{
    Ok(Opening {
        step,
        ranks,
        room,
        layout,
        pieces: pieces(alloc, header, piece_digits(header, room), ranks)?,
        files: all_files(alloc, header)?,
        leaves: Vec::new(alloc),
        header: header.copy(alloc)?,
    })
}

/// The numbers of all files of the dataset, rising.
fn all_files(alloc: Global, header: &Header) -> Result<Vec<u64>, NoMemory>
    ensures { IfOk result (λ numbers. numbers.items ≡ file_numbers (placing_of header.now)) }
{
    let mut numbers = Vec::new(alloc);
    for file in files(header) {
        numbers.push(file)?;
    }
    Ok(numbers)
}
