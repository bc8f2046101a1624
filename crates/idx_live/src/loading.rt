ghost use Rattle.std.specs.Prelude.{◌≡◌, ◌≢◌, ◌<◌, ◌≤◌, ℕ, Err, IfErr, IfOk, IfSome, OnOk, vec_len};
ghost use Rattle.idx_outside.specs.Cause.{MadeReads, MeetsOnce, NeverFalls};
ghost use Rattle.idx_outside.specs.Objects.{faults_at};
ghost use Rattle.idx_header.specs.OfBay.{Gives};
ghost use Rattle.idx_layout.specs.Shape.{shape_of};
ghost use Rattle.idx_query.specs.Capacity.{capacity_for};
ghost use Rattle.idx_board.specs.Standing.{reads_of, standing_posts, step_numbers};
ghost use Rattle.idx_convert.specs.Known.{Known};
ghost use Rattle.idx_host.specs.Host.{IsLoaded};
ghost use Rattle.idx_live.specs.Live.{IsCause, IsReady, IsSound, OnlyLoads, OnlyLooks};
ghost use Rattle.idx_live.specs.Stages.{IsLocked, seen_by};

use crate::LiveFault;
use idx_board::hall_of;
use idx_edition::Edition;
use idx_hall::Hall;
use idx_header::Header;
use idx_lock::{Seat, TurnLock};
use idx_outside::{Bay, Reader};
use idx_query::capacity_of;
use std::alloc::Global;

/// A hall with the steps of a dataset that stand, which the first reader loads, and which keeps as many blocks as are
/// wished for and fit. Where a step may be written, nothing else has a part in the cause of a refusal.
fn load<B: Bay, R: Reader<B::Leaf>>(
    alloc: Global,
    header: &Header,
    cache: u32,
    bay: &mut B,
    readers: &mut Vec<R>,
) -> Result<Hall<Edition<B::Leaf>>, LiveFault>
    requires some { 1 ≤ cache }
    requires few { cache ≤ 65536 }
    requires reader { 0 < vec_len readers.old }
    ensures board { IfOk result (λ hall. IfSome (B.files bay.old)
        (λ files. hall.board ≡ standing_posts header.now files)) }
    ensures shape { IfOk result (λ hall. hall.shape ≡ shape_of header.now) }
    ensures capacity { IfOk result (λ hall. hall.cache.cap ≡ capacity_for header.now cache) }
    ensures sound { OnOk result (IsSound header.now (B.files bay.old)) }
    ensures loaded { OnOk result (IsLoaded R.faults R.reads header.now (B.files bay.old)
        readers.old.items readers.new.items) }
    ensures cause { (time : ℕ) (k : Known) → Gives (B.header bay.old) header.now →
        IsReady header.now time (seen_by B.header B.files B.failed B.faults bay.old bay.new k) →
        IfErr result (IsCause time (seen_by B.header B.files B.failed B.faults bay.old bay.new k)
        (faults_at R.faults readers.old.items 0) (faults_at R.faults readers.new.items 0)) }
    ensures looks { OnlyLooks B.header B.files B.begun B.changes B.failed B.admits B.faults bay.old bay.new result }
    ensures loads { OnlyLoads R.faults readers.old.items readers.new.items result }
{
    load_with(alloc, header, cache, bay, &mut readers[0])
}

/// The same behind a lock, with the seat of its writer.
pub(crate) fn load_locked<B: Bay, R: Reader<B::Leaf>>(
    alloc: Global,
    header: &Header,
    cache: u32,
    bay: &mut B,
    readers: &mut Vec<R>,
) -> Result<
    (
        TurnLock<Hall<Edition<B::Leaf>>>,
        Seat<Hall<Edition<B::Leaf>>>,
    ),
    LiveFault,
>
    requires some { 1 ≤ cache }
    requires few { cache ≤ 65536 }
    requires reader { 0 < vec_len readers.old }
    ensures locked { IfOk result (λ made. IsLocked R.faults R.reads header.now cache (B.files bay.old)
        readers.old.items readers.new.items made.0 made.1) }
    ensures cause { (time : ℕ) (k : Known) → Gives (B.header bay.old) header.now →
        IsReady header.now time (seen_by B.header B.files B.failed B.faults bay.old bay.new k) →
        IfErr result (IsCause time (seen_by B.header B.files B.failed B.faults bay.old bay.new k)
        (faults_at R.faults readers.old.items 0) (faults_at R.faults readers.new.items 0)) }
    ensures looks { OnlyLooks B.header B.files B.begun B.changes B.failed B.admits B.faults bay.old bay.new result }
    ensures loads { OnlyLoads R.faults readers.old.items readers.new.items result }
{
    let hall = load(alloc, header, cache, bay, readers)?;
    let Ok((lock, writer)) = TurnLock::new(alloc, hall) else {
        return Err(LiveFault::NoMemory);
    };
    Ok((lock, writer))
}

/// The same without a lock, with this reader.
fn load_with<B: Bay, R: Reader<B::Leaf>>(
    alloc: Global,
    header: &Header,
    cache: u32,
    bay: &mut B,
    reader: &mut R,
) -> Result<Hall<Edition<B::Leaf>>, LiveFault>
    requires some { 1 ≤ cache }
    requires few { cache ≤ 65536 }
    ensures board { IfOk result (λ hall. IfSome (B.files bay.old)
        (λ files. hall.board ≡ standing_posts header.now files)) }
    ensures shape { IfOk result (λ hall. hall.shape ≡ shape_of header.now) }
    ensures capacity { IfOk result (λ hall. hall.cache.cap ≡ capacity_for header.now cache) }
    ensures sound { OnOk result (IsSound header.now (B.files bay.old)) }
    ensures reads { OnOk result (IfSome (B.files bay.old) (λ files.
        MadeReads (R.reads reader.old) (R.reads reader.new) (reads_of header.now files (step_numbers header.now)))) }
    ensures cause { (time : ℕ) (k : Known) → Gives (B.header bay.old) header.now →
        IsReady header.now time (seen_by B.header B.files B.failed B.faults bay.old bay.new k) →
        IfErr result (IsCause time (seen_by B.header B.files B.failed B.faults bay.old bay.new k)
        (R.faults reader.old) (R.faults reader.new)) }
    ensures looks { OnlyLooks B.header B.files B.begun B.changes B.failed B.admits B.faults bay.old bay.new result }
    ensures reader_quiet { result ≢ Err LiveFault.StoreFault → R.faults reader.new ≡ R.faults reader.old }
    ensures reader_count { NeverFalls (R.faults reader.old) (R.faults reader.new) }
    ensures reader_once { MeetsOnce (R.faults reader.old) (R.faults reader.new) }
{
    let capacity = capacity_of(header, cache);
    match hall_of(alloc, header, capacity, bay, reader) {
        Ok(hall) => Ok(hall),
        Err(fault) => Err(LiveFault::from(fault)),
    }
}
