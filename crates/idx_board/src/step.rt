ghost use Rattle.std.specs.Prelude.{◌≡◌, ◌⊎◌, ◌++◌, ◌∷◌, [], IfErr, IfSome, OnErr, OnOk};
ghost use Rattle.idx_outside.specs.Cause.{MadeReads, MeetsOnce, NeverFalls};
ghost use Rattle.idx_outside.specs.Files.{StillAdmits};
ghost use Rattle.idx_layout.specs.Shape.{shape_of};
ghost use Rattle.idx_header.specs.Header.{HasTime};
ghost use Rattle.idx_hall.specs.Posts.{Lacks, post_of};
ghost use Rattle.idx_edition.specs.Loaded.{IsCause, counts};
ghost use Rattle.idx_board.specs.Standing.{IsStepAdded, bad_at, reads_at};

use idx_edition::{Edition, LoadFault};
use idx_hall::{Hall, PublishRefusal};
use idx_header::Header;
use idx_outside::{Bay, Blocks, Reader};
use std::alloc::Global;
use std::sync::Arc;

/// Loads the newest revision of a step, if the step stands, and publishes it in a hall that has no cached block.
pub(crate) fn publish_step<B: Bay, R: Reader<B::Leaf>>(
    alloc: Global,
    header: &Header,
    time: u64,
    bay: &mut B,
    reader: &mut R,
    hall: &mut Hall<Edition<B::Leaf>>,
) -> Result<(), LoadFault>
    requires has { HasTime header.now time }
    requires shape { hall.old.shape ≡ shape_of header.now }
    requires lacks { Lacks time hall.old.board }
    requires empty { hall.old.cache.pairs ≡ [] }
    ensures added { OnOk result (IsStepAdded header.now time (B.files bay.old) hall.old.board hall.new.board) }
    ensures sound { OnOk result (IfSome (B.files bay.old) (λ files. bad_at header.now files time ≡ None)) }
    ensures reads { OnOk result (IfSome (B.files bay.old) (λ files.
        MadeReads (R.reads reader.old) (R.reads reader.new) (reads_at header.now files time))) }
    ensures cause { IfErr result (IsCause (λ bad. IfSome (B.files bay.old)
        (λ files. bad_at header.now files time ≡ Some bad))
        (counts B.faults B.failed R.faults bay.old bay.new reader.old reader.new)) }
    ensures shape { hall.new.shape ≡ hall.old.shape }
    ensures cache { hall.new.cache ≡ hall.old.cache }
    ensures quiet { OnOk result (B.faults bay.new ≡ B.faults bay.old) }
    ensures failed { OnOk result (B.failed bay.new ≡ B.failed bay.old) }
    ensures reader_quiet { OnOk result (R.faults reader.new ≡ R.faults reader.old) }
    ensures count { NeverFalls (B.faults bay.old) (B.faults bay.new) }
    ensures once { MeetsOnce (B.faults bay.old) (B.faults bay.new) }
    ensures reader_count { NeverFalls (R.faults reader.old) (R.faults reader.new) }
    ensures reader_once { MeetsOnce (R.faults reader.old) (R.faults reader.new) }
    ensures header { B.header bay.new ≡ B.header bay.old }
    ensures files { B.files bay.new ≡ B.files bay.old }
    ensures admits { StillAdmits B.admits bay.old bay.new }
    ensures begun { B.begun bay.new ≡ B.begun bay.old }
    ensures changes { B.changes bay.new ≡ B.changes bay.old }
{
    let Some(edition) = Edition::load_newest(alloc, header, time, bay, reader)? else {
        return Ok(());
    };
    add(alloc, hall, edition)
}

/// Publishes a step that the hall lacks, which has no cached block.
fn add<E: Blocks + Drop>(alloc: Global, hall: &mut Hall<E>, edition: E) -> Result<(), LoadFault>
    requires shape { E.shape edition ≡ hall.old.shape }
    requires lacks { Lacks (E.time edition) hall.old.board }
    requires empty { hall.old.cache.pairs ≡ [] }
    ensures added { OnOk result (hall.new.board ≡ hall.old.board ++ post_of hall.old.shape
        (E.time edition) (E.has edition) (E.stored edition) ∷ []) }
    ensures refused { IfErr result (λ fault. fault ≡ LoadFault.NoMemory) }
    ensures shape { hall.new.shape ≡ hall.old.shape }
    ensures cache { hall.new.cache ≡ hall.old.cache }
{
    let Ok(shared) = Arc::new(alloc, edition) else {
        return Err(LoadFault::NoMemory);
    };
    match hall.publish(shared, None) {
        Ok(_) => Ok(()),
        Err((_, PublishRefusal::NoMemory)) => Err(LoadFault::NoMemory),
        Err((_, PublishRefusal::AlreadyPublished { .. })) => unreachable!(),
    }
}
