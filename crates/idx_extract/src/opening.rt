ghost use Rattle.std.specs.Prelude.{◌≡◌, ◌≢◌, ◌<◌, ◌≤◌, None, Some, Err, IfErr, IfOk, IfSome, OnErr, OnOk, length};
ghost use Rattle.idx_outside.specs.Cause.{MadeReads, MeetsOnce, NeverFalls};
ghost use Rattle.idx_outside.specs.Files.{StillAdmits, shown};
ghost use Rattle.idx_layout.specs.Shape.{shape_of};
ghost use Rattle.idx_edition.specs.Loaded.{HoldsStored};
ghost use Rattle.idx_edition.specs.Newest.{IsNewest, ReadsNewest};
ghost use Rattle.idx_edition.specs.Reads.{most_reads};
ghost use Rattle.idx_edition.specs.Tables.{has_in_tables, shape_in, stored_in};
ghost use Rattle.idx_plan.specs.QuestionValue.{QuestionValue};
ghost use Rattle.idx_extract.specs.Extract.{HasPlan, IsCauseUnder, IsUnread, known};

use crate::ExtractFault;
use idx_edition::Edition;
use idx_header::Header;
use idx_outside::{Bay, Reader};
use std::alloc::Global;

/// Opens the newest revision of a step: reads the tables of its files.
pub(crate) fn open_step<B: Bay, R: Reader<B::Leaf>>(
    alloc: Global,
    header: &Header,
    time: u64,
    bay: &mut B,
    reader: &mut R,
) -> Result<Edition<B::Leaf>, ExtractFault>
    ensures time { IfOk result (λ edition. edition.time ≡ time) }
    ensures shape { IfOk result (λ edition. shape_in edition.tables ≡ shape_of header.now) }
    ensures holds { IfOk result (λ edition. IfSome (B.files bay.old) (λ files.
        HoldsStored edition.tables.header time files (shape_in edition.tables) (has_in_tables edition.tables)
        (stored_in edition.tables (shown B.Leaf.contents edition.leaves.items))
        (shown B.Leaf.contents edition.leaves.items))) }
    ensures newest { IfOk result (λ edition.
        IsNewest header.now time (B.files bay.old) edition.tables.header) }
    ensures reads { IfOk result (λ edition.
        MadeReads (R.reads reader.old) (R.reads reader.new) (length edition.leaves.items)) }
    ensures few { IfOk result (λ edition.
        length edition.leaves.items ≤ most_reads edition.tables.header time (B.files bay.old)) }
    ensures cause { (q : QuestionValue) → q.time ≡ time → HasPlan q header.now → IfErr result (IsCauseUnder header.now q
        (known B.header B.files B.faults B.failed R.faults R.reads bay.old bay.new reader.old reader.new)) }
    ensures few_reads { OnErr result
        (ReadsNewest header.now time (B.files bay.old) (R.reads reader.old) (R.reads reader.new)) }
    ensures failed { result ≢ Err ExtractFault.StoreFault → B.failed bay.new ≡ B.failed bay.old }
    ensures unread { IfErr result (λ fault. IsUnread fault → reader.new ≡ reader.old) }
    ensures bay_answered { B.faults bay.old < B.faults bay.new → result ≡ Err ExtractFault.StoreFault }
    ensures reader_answered { R.faults reader.old < R.faults reader.new → result ≡ Err ExtractFault.StoreFault }
    ensures bay_quiet { OnOk result (B.faults bay.new ≡ B.faults bay.old) }
    ensures kept { OnOk result (B.failed bay.new ≡ B.failed bay.old) }
    ensures reader_quiet { OnOk result (R.faults reader.new ≡ R.faults reader.old) }
    ensures bay_count { NeverFalls (B.faults bay.old) (B.faults bay.new) }
    ensures bay_once { MeetsOnce (B.faults bay.old) (B.faults bay.new) }
    ensures reader_count { NeverFalls (R.faults reader.old) (R.faults reader.new) }
    ensures reader_once { MeetsOnce (R.faults reader.old) (R.faults reader.new) }
    ensures header { B.header bay.new ≡ B.header bay.old }
    ensures files { B.files bay.new ≡ B.files bay.old }
    ensures admits { StillAdmits B.admits bay.old bay.new }
    ensures begun { B.begun bay.new ≡ B.begun bay.old }
    ensures changes { B.changes bay.new ≡ B.changes bay.old }
{
    match Edition::load_newest(alloc, header, time, bay, reader)? {
        Some(edition) => Ok(edition),
        None => Err(ExtractFault::NotPublished),
    }
}
