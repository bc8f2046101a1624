ghost use Rattle.std.specs.Prelude.{◌≡◌, ◌≤◌, [], IfErr, IfOk, IfSome, None, OnOk};
ghost use Rattle.idx_outside.specs.Cause.{MadeReads, MeetsOnce, NeverFalls};
ghost use Rattle.idx_outside.specs.Files.{StillAdmits};
ghost use Rattle.idx_layout.specs.Shape.{shape_of};
ghost use Rattle.idx_cache.specs.Cached.{cached};
ghost use Rattle.idx_edition.specs.Loaded.{counts};
ghost use Rattle.idx_board.specs.Standing.{IsBoardCause, first_bad_row, reads_of, standing_posts, step_numbers};

use crate::step::publish_step;
use crate::steps::steps_of;
use idx_edition::{Edition, LoadFault, block_lengths};
use idx_hall::Hall;
use idx_header::Header;
use idx_outside::{Bay, Blocks, NoMemory, Reader};
use std::alloc::Global;

/// A hall with the steps of a dataset that stand, by rising time, and room for so many cached blocks. The tables of their
/// files are read, one read a file; the first faulty row ends it.
pub fn hall_of<B: Bay, R: Reader<B::Leaf>>(
    alloc: Global,
    header: &Header,
    capacity: u32,
    bay: &mut B,
    reader: &mut R,
) -> Result<Hall<Edition<B::Leaf>>, LoadFault>
    requires some { 1 ≤ capacity }
    requires few { capacity ≤ 65536 }
    ensures board { IfOk result (λ hall. IfSome (B.files bay.old)
        (λ files. hall.board ≡ standing_posts header.now files)) }
    ensures hall_shape { IfOk result (λ hall. hall.shape ≡ shape_of header.now) }
    ensures cache { IfOk result (λ hall. hall.cache ≡ cached [] capacity) }
    ensures capacity { IfOk result (λ hall. hall.cache.cap ≡ capacity) }
    ensures sound { OnOk result (IfSome (B.files bay.old) (λ files. first_bad_row header.now files ≡ None)) }
    ensures reads { OnOk result (IfSome (B.files bay.old) (λ files.
        MadeReads (R.reads reader.old) (R.reads reader.new) (reads_of header.now files (step_numbers header.now)))) }
    ensures cause { IfErr result (IsBoardCause header.now (B.files bay.old)
        (counts B.faults B.failed R.faults bay.old bay.new reader.old reader.new)) }
    ensures quiet { OnOk result (B.faults bay.new ≡ B.faults bay.old) }
    ensures failed { OnOk result (B.failed bay.new ≡ B.failed bay.old) }
    ensures reader_quiet { OnOk result (R.faults reader.new ≡ R.faults reader.old) }
    ensures count { NeverFalls (B.faults bay.old) (B.faults bay.new) }
    ensures once { MeetsOnce (B.faults bay.old) (B.faults bay.new) }
    ensures reader_count { NeverFalls (R.faults reader.old) (R.faults reader.new) }
    ensures reader_once { MeetsOnce (R.faults reader.old) (R.faults reader.new) }
    ensures header { B.header bay.new ≡ B.header bay.old }
    ensures files { B.files bay.new ≡ B.files bay.old }
    ensures admits { StillAdmits B.admits bay.old bay.new }
    ensures begun { B.begun bay.new ≡ B.begun bay.old }
    ensures changes { B.changes bay.new ≡ B.changes bay.old }
{
    let mut hall = empty_hall(alloc, header, capacity)?;
    let (first, count) = steps_of(header);
    for number in 0..count {
        match publish_step(alloc, header, first + number, bay, reader, &mut hall) {
            Ok(()) => {}
            Err(fault) => return Err(fault),
        }
    }
    Ok(hall)
}

/// A hall for a dataset, as yet without a step, and with room for so many cached blocks.
fn empty_hall<E: Blocks + Drop>(
    alloc: Global,
    header: &Header,
    capacity: u32,
) -> Result<Hall<E>, NoMemory>
    requires some { 1 ≤ capacity }
    requires few { capacity ≤ 65536 }
    ensures board { IfOk result (λ hall. hall.board ≡ []) }
    ensures hall_shape { IfOk result (λ hall. hall.shape ≡ shape_of header.now) }
    ensures cache { IfOk result (λ hall. hall.cache ≡ cached [] capacity) }
{
    let lengths = block_lengths(alloc, header)?;
    Hall::new(alloc, capacity, header.block_count(), lengths)
}
