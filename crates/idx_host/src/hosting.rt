ghost use Rattle.std.specs.Prelude.{◌≡◌, ◌≢◌, ◌<◌, ◌≤◌, Err, IfErr, IfOk, OnErr, vec_len};
ghost use Rattle.idx_outside.specs.Cause.{MeetsOnce, NeverFalls};
ghost use Rattle.idx_outside.specs.Files.{StillAdmits};
ghost use Rattle.idx_outside.specs.Objects.{OthersUntouched, faults_at};
ghost use Rattle.idx_serve.specs.Visits.{link_tells};
ghost use Rattle.idx_workers.specs.Workers.{tells};
ghost use Rattle.idx_layout.specs.Shape.{shape_of};
ghost use Rattle.idx_host.specs.Host.{AreServedOut, Hosted, IsCause, known_first};

use crate::HostFault;
use crate::opening::open_site;
use idx_edition::Edition;
use idx_hall::Hall;
use idx_lock::TurnLock;
use idx_outside::{Bay, Door, Gate, Leaf, Reader};
use idx_serve::{Site, Summary};
use idx_workers::serve;
use std::alloc::Global;
use std::sync::Wait;
use std::thread::Threads;

/// Serves a dataset by this name with `workers` workers (1 to 64), each at a door and with a reader of its own, until each
/// door hands out no more links or fails: the header is read, the newest revision of each step that stands is loaded with the
/// first reader and published, by rising time, and the links are served. The workers share one cache, which keeps as many
/// blocks as are wished for, and no more than have 2^31 bytes. The dataset is not changed.
///
/// The first refusal ends it before any link is handed out, in this order: the header, the tables of the files of these
/// revisions.
pub fn host<B: Bay, R: Reader<B::Leaf> + Send, D: Door + Send, G: Gate, H: Threads + Wait + Sync>(
    rt: &H,
    alloc: Global,
    name: &[u8],
    cache: u32,
    workers: u32,
    bay: &mut B,
    readers: &mut Vec<R>,
    doors: &mut Vec<D>,
    gate: &G,
) -> Result<Summary, HostFault>
where
    D::Link: Send,
    B::Leaf: Send + Sync,
    requires some_blocks { 1 ≤ cache }
    requires few_blocks { cache ≤ 65536 }
    requires some { 0 < workers }
    requires few { workers ≤ 64 }
    requires a_door { workers ≤ vec_len doors.old }
    requires a_reader { workers ≤ vec_len readers.old }

    // Every link that was handed out was served out of the steps that stand, and came back.
    ensures hosted { IfOk result (Hosted
        (tells (link_tells D.Link.incoming D.Link.written D.Link.readings D.Link.faults)
        D.told D.faults R.faults R.reads)
        name.now (B.header bay.old) (B.files bay.old) cache workers
        doors.old.items doors.new.items readers.old.items readers.new.items) }

    // Each refusal has its cause, and comes before a door is used and a reader but the first.
    ensures cause { IfErr result (IsCause
        (known_first B.header B.files B.faults B.failed R.faults R.reads bay.old bay.new readers.old.items readers.new.items)) }
    ensures doors { OnErr result (doors.new.items ≡ doors.old.items) }
    ensures readers { OnErr result (OthersUntouched readers.old.items readers.new.items 0) }
    ensures reader_number { OnErr result (vec_len readers.new ≡ vec_len readers.old) }
    ensures reader_count { OnErr result
        (NeverFalls (faults_at R.faults readers.old.items 0) (faults_at R.faults readers.new.items 0)) }
    ensures reader_once { OnErr result
        (MeetsOnce (faults_at R.faults readers.old.items 0) (faults_at R.faults readers.new.items 0)) }

    // A fault of the bay is answered, and so is one of the first reader before the first link.
    ensures failed { result ≢ Err HostFault.StoreFault → B.failed bay.new ≡ B.failed bay.old }
    ensures quiet { result ≢ Err HostFault.StoreFault → B.faults bay.new ≡ B.faults bay.old }
    ensures reader_quiet { OnErr result (result ≢ Err HostFault.StoreFault →
        faults_at R.faults readers.new.items 0 ≡ faults_at R.faults readers.old.items 0) }
    ensures bay_count { NeverFalls (B.faults bay.old) (B.faults bay.new) }
    ensures bay_once { MeetsOnce (B.faults bay.old) (B.faults bay.new) }

    // Nothing of the dataset is changed.
    ensures header { B.header bay.new ≡ B.header bay.old }
    ensures files { B.files bay.new ≡ B.files bay.old }
    ensures admits { StillAdmits B.admits bay.old bay.new }
    ensures begun { B.begun bay.new ≡ B.begun bay.old }
    ensures changes { B.changes bay.new ≡ B.changes bay.old }
{
    let (site, hall) = match open_site(alloc, name, cache, bay, readers) {
        Ok(opened) => opened,
        Err(fault) => return Err(fault),
    };
    serve_hall(rt, alloc, site, hall, workers, readers, doors, gate)
}

/// Serves out of a hall that no one else has. There may be no memory for it to be taken in turn.
fn serve_hall<
    L: Leaf + Drop + Send + Sync,
    R: Reader<L> + Send,
    D: Door + Send,
    G: Gate,
    H: Threads + Wait + Sync,
>(
    rt: &H,
    alloc: Global,
    site: Site,
    hall: Hall<Edition<L>>,
    workers: u32,
    readers: &mut Vec<R>,
    doors: &mut Vec<D>,
    gate: &G,
) -> Result<Summary, HostFault>
where
    D::Link: Send,
    requires shape { hall.shape ≡ shape_of site.header }
    requires some { 0 < workers }
    requires few { workers ≤ 64 }
    requires a_door { workers ≤ vec_len doors.old }
    requires a_reader { workers ≤ vec_len readers.old }
    ensures served { IfOk result (AreServedOut
        (tells (link_tells D.Link.incoming D.Link.written D.Link.readings D.Link.faults)
        D.told D.faults R.faults R.reads)
        site hall.cache.cap workers doors.old.items doors.new.items readers.old.items readers.new.items
        hall.board hall.board) }
    ensures only { IfErr result (λ fault. fault ≡ HostFault.NoMemory) }
    ensures doors { OnErr result (doors.new.items ≡ doors.old.items) }
    ensures readers { OnErr result (readers.new.items ≡ readers.old.items) }
{
    let Ok((lock, mut writer)) = TurnLock::new(alloc, hall) else {
        return Err(HostFault::NoMemory);
    };
    let seat = lock.split(&mut writer);
    let (seat, summary) = serve(rt, alloc, &site, &lock, seat, doors, readers, workers, gate);
    lock.join(&mut writer, seat);
    Ok(summary)
}
