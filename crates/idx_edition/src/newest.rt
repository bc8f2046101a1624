ghost use Rattle.std.specs.Prelude.{◌≡◌, ◌≢◌, ◌↔◌, ◌*◌, ◌≤◌, None, Ok, Some, Err, IfErr, IfOk, IfSome, OnErr, OnOk, length};
ghost use Rattle.idx_outside.specs.Cause.{MadeReads, MeetsOnce, NeverFalls, Rose};
ghost use Rattle.idx_outside.specs.Files.{StillAdmits, shown};
ghost use Rattle.idx_outside.specs.declared.bay_call.BayCall.{BayCall};
ghost use Rattle.idx_header.specs.Header.{HasTime};
ghost use Rattle.idx_header.specs.Revisions.{IsRevisionOf, header_that_stands};
ghost use Rattle.idx_table.specs.Table.{table_bytes};
ghost use Rattle.idx_layout.specs.Files.{row_count};
ghost use Rattle.idx_layout.specs.OfHeader.{placing_of};
ghost use Rattle.idx_layout.specs.Shape.{shape_of};
ghost use Rattle.idx_edition.specs.Asked.{AskedAtMost};
ghost use Rattle.idx_edition.specs.Loaded.{HoldsStored, counts};
ghost use Rattle.idx_edition.specs.Newest.{IsNewest, IsNewestCause, ReadsNewest};
ghost use Rattle.idx_edition.specs.Reads.{most_reads};
ghost use Rattle.idx_edition.specs.Stored.{IsAbsent};
ghost use Rattle.idx_edition.specs.Tables.{has_in_tables, shape_in, stored_in};

use crate::{Edition, LoadFault};
use idx_header::Header;
use idx_outside::{Bay, BayFault, Leaf, Reader};
use std::alloc::Global;

impl<L: Leaf> Edition<L> {
    /// Opens the newest revision of a step that stands, as `load` does. `None` exactly where the header lacks the step or
    /// no revision of it stands; nothing is asked where the header lacks it.
    pub fn load_newest<B: Bay<Leaf = L>, R: Reader<L>>(
        alloc: Global,
        header: &Header,
        time: u64,
        bay: &mut B,
        reader: &mut R,
    ) -> Result<Option<Edition<L>>, LoadFault>
        ensures time { IfOk result (λ loaded. IfSome loaded (λ edition. edition.time ≡ time)) }
        ensures newest { IfOk result (λ loaded. IfSome loaded (λ edition.
            IsNewest header.now time (B.files bay.old) edition.tables.header)) }
        ensures shape { IfOk result (λ loaded. IfSome loaded (λ edition.
            shape_in edition.tables ≡ shape_of header.now)) }
        ensures holds { IfOk result (λ loaded. IfSome loaded (λ edition. IfSome (B.files bay.old) (λ files.
            HoldsStored edition.tables.header time files (shape_in edition.tables) (has_in_tables edition.tables)
            (stored_in edition.tables (shown L.contents edition.leaves.items))
            (shown L.contents edition.leaves.items)))) }
        ensures none { IfOk result (λ loaded. IfSome (B.files bay.old)
            (λ files. (loaded ≡ None) ↔ IsAbsent header.now time files)) }
        ensures lacks { ¬ HasTime header.now time →
            (result ≡ Ok None) × (bay.new ≡ bay.old) × (reader.new ≡ reader.old) }
        ensures cause { IfErr result (IsNewestCause header.now time (B.files bay.old)
            (counts B.faults B.failed R.faults bay.old bay.new reader.old reader.new)) }
        ensures few_reads { OnErr result
            (ReadsNewest header.now time (B.files bay.old) (R.reads reader.old) (R.reads reader.new)) }
        ensures reads { IfOk result (λ loaded. IfSome loaded (λ edition.
            MadeReads (R.reads reader.old) (R.reads reader.new) (length edition.leaves.items))) }
        ensures few { IfOk result (λ loaded. IfSome loaded (λ edition.
            length edition.leaves.items ≤ most_reads edition.tables.header time (B.files bay.old))) }
        ensures asked { IfOk result (λ loaded. IfSome loaded (λ edition.
            AskedAtMost (R.asked reader.old) (R.asked reader.new)
            (length edition.leaves.items * table_bytes (row_count (placing_of header.now))))) }
        ensures no_read { result ≡ Ok None → reader.new ≡ reader.old }
        ensures quiet { OnOk result (B.faults bay.new ≡ B.faults bay.old) }
        ensures reader_quiet { OnOk result (R.faults reader.new ≡ R.faults reader.old) }
        ensures count { NeverFalls (B.faults bay.old) (B.faults bay.new) }
        ensures once { MeetsOnce (B.faults bay.old) (B.faults bay.new) }
        ensures reader_count { NeverFalls (R.faults reader.old) (R.faults reader.new) }
        ensures reader_once { MeetsOnce (R.faults reader.old) (R.faults reader.new) }
        ensures header { B.header bay.new ≡ B.header bay.old }
        ensures files { B.files bay.new ≡ B.files bay.old }
        ensures admits { StillAdmits B.admits bay.old bay.new }
        ensures begun { B.begun bay.new ≡ B.begun bay.old }
        ensures changes { B.changes bay.new ≡ B.changes bay.old }
        ensures failed { OnOk result (B.failed bay.new ≡ B.failed bay.old) }
    {
        if !header.has_time(time) {
            return Ok(None);
        }
        match newest_header(alloc, header, time, bay)? {
            Some(revised) => Edition::load(alloc, &revised, time, bay, reader),
            None => Ok(None),
        }
    }
}

/// The header at the newest revision of a step that stands, if one does.
fn newest_header<B: Bay>(
    alloc: Global,
    header: &Header,
    time: u64,
    bay: &mut B,
) -> Result<Option<Header>, LoadFault>
    ensures newest { IfOk result (λ found. IfSome (B.files bay.old)
        (λ files. found ≡ header_that_stands header.now time files)) }
    ensures revised { IfOk result (λ found. IfSome found (IsRevisionOf header.now)) }
    ensures outage { IfErr result (λ fault. fault ≢ LoadFault.NoMemory →
        (fault ≡ LoadFault.StoreFault (B.faults bay.new)) × Rose (B.faults bay.old) (B.faults bay.new)) }
    ensures no_memory { result ≡ Err LoadFault.NoMemory → B.faults bay.new ≡ B.faults bay.old }
    ensures failed { IfErr result (λ fault. fault ≢ LoadFault.NoMemory → B.failed bay.new ≡ Some BayCall.HasStep) }
    ensures unfailed { result ≡ Err LoadFault.NoMemory → B.failed bay.new ≡ B.failed bay.old }
    ensures kept { OnOk result (B.failed bay.new ≡ B.failed bay.old) }
    ensures quiet { OnOk result (B.faults bay.new ≡ B.faults bay.old) }
    ensures count { NeverFalls (B.faults bay.old) (B.faults bay.new) }
    ensures once { MeetsOnce (B.faults bay.old) (B.faults bay.new) }
    ensures header { B.header bay.new ≡ B.header bay.old }
    ensures files { B.files bay.new ≡ B.files bay.old }
    ensures admits { StillAdmits B.admits bay.old bay.new }
    ensures begun { B.begun bay.new ≡ B.begun bay.old }
    ensures changes { B.changes bay.new ≡ B.changes bay.old }
{
    match header.that_stands(alloc, time, bay) {
        Ok(found) => Ok(found),
        Err(BayFault::Outage) => Err(LoadFault::StoreFault {
            faults: bay.faults(),
        }),
        Err(BayFault::NoMemory) => Err(LoadFault::NoMemory),
    }
}
