ghost use Rattle.std.specs.Prelude.{◌≡◌, ◌<◌, ◌≤◌, true, map, vec_len};
ghost use Rattle.idx_header.specs.Header.{at_revision};
ghost use Rattle.idx_layout.specs.Shape.{shape_of};
ghost use Rattle.idx_serve.specs.Visits.{link_tells};
ghost use Rattle.idx_workers.specs.Workers.{tells};
ghost use Rattle.idx_gather.specs.Gather.{HasFolder, HaveSame};
ghost use Rattle.idx_host.specs.Host.{AreServedOut};
ghost use Rattle.idx_live.specs.Pair.{MayRun, Runs};
ghost use Rattle.idx_live.specs.Sides.{CanServe, CanWrite, HasServed, HasWritten, IsWritten};
ghost use Rattle.idx_live.specs.Stages.{IsNew};

use crate::Live;
use crate::pair::call_both;
use crate::sides::{Serving, Writing};
use idx_edition::Edition;
use idx_hall::Hall;
use idx_ingest::IngestEnd;
use idx_lock::{Seat, TurnLock};
use idx_outside::{Bay, Door, Gate, Leaf, Reader, Source};
use idx_serve::{Site, Summary};
use std::alloc::Global;
use std::sync::Wait;
use std::thread::Threads;

/// Serves on a seat like the writer's while a step is gathered and published on the writer's, which comes back and has
/// seen all that either has.
pub(crate) fn serve_beside<
    V: Source + Send,
    B: Bay + Send,
    R: Reader<B::Leaf> + Send,
    D: Door + Send,
    G: Gate,
    H: Threads + Wait + Sync,
>(
    rt: &H,
    alloc: Global,
    site: &Site,
    lock: &TurnLock<Hall<Edition<B::Leaf>>>,
    mut writer: Seat<Hall<Edition<B::Leaf>>>,
    workers: u32,
    time: u64,
    revision: u32,
    raws: &mut Vec<V>,
    bay: &mut B,
    readers: &mut Vec<R>,
    doors: &mut Vec<D>,
    gate: &G,
) -> (Seat<Hall<Edition<B::Leaf>>>, Live)
where
    B::Draft: Send,
    B::Leaf: Send + Sync,
    D::Link: Send,
    requires lock { writer.lock ≡ lock.now }
    requires writer { writer.writer ≡ true }
    requires shape { writer.seen.shape ≡ shape_of site.now.header }
    requires some_workers { 0 < workers }
    requires few_workers { workers ≤ 64 }
    requires a_door { workers ≤ vec_len doors.old }
    requires a_reader { workers ≤ vec_len readers.old }
    requires few_revisions { revision ≤ 255 }
    requires some_raws { 0 < vec_len raws.old }
    requires few_raws { vec_len raws.old ≤ 256 }
    requires alike { HaveSame V.contents raws.old.items }
    requires folder { HasFolder (at_revision revision site.now.header) time }
    requires new { IsNew B.files B.admits (at_revision revision site.now.header) time bay.old }
    ensures served { AreServedOut
        (tells (link_tells D.Link.incoming D.Link.written D.Link.readings D.Link.faults)
        D.told D.faults R.faults R.reads)
        site.now writer.seen.capacity workers doors.old.items doors.new.items readers.old.items readers.new.items
        writer.seen.posts result.0.seen.posts result.1.summary }
    ensures written { IsWritten V.contents V.faults B.header B.files B.begun B.failed B.faults site.now time revision
        writer.seen.posts result.0.seen.posts raws.old.items raws.new.items bay.old bay.new result.1.ingested }
{
    let seat = lock.split(&mut writer);
    let mut serving = Serving::new(alloc, doors, workers, seat);
    let mut writing = Writing::new(alloc, raws, time, revision, writer);
    let ((seat, summary), (mut writer, ingested)) = run_sides(
        rt,
        alloc,
        site,
        lock,
        gate,
        &mut serving,
        readers,
        &mut writing,
        bay,
    );
    lock.join(&mut writer, seat);
    serving.give_back(doors);
    writing.give_back(raws);
    (writer, Live { summary, ingested })
}

/// Runs the two sides beside each other: the servers in a thread of their own, or last where none can be had.
fn run_sides<
    V: Source + Send,
    B: Bay + Send,
    R: Reader<B::Leaf> + Send,
    D: Door + Send,
    G: Gate,
    H: Threads + Wait + Sync,
>(
    rt: &H,
    alloc: Global,
    site: &Site,
    lock: &TurnLock<Hall<Edition<B::Leaf>>>,
    gate: &G,
    serving: &mut Serving<Hall<Edition<B::Leaf>>, D>,
    readers: &mut Vec<R>,
    writing: &mut Writing<Hall<Edition<B::Leaf>>, V>,
    bay: &mut B,
) -> (
    (Seat<Hall<Edition<B::Leaf>>>, Summary),
    (Seat<Hall<Edition<B::Leaf>>>, IngestEnd),
)
where
    B::Draft: Send,
    B::Leaf: Send + Sync,
    D::Link: Send,
    requires servers { CanServe lock.now (shape_of site.now.header) (vec_len readers.old) serving.old }
    requires writer { CanWrite V.contents B.files B.admits lock.now site.now writing.old bay.old }
    ensures servers { HasServed
        (tells (link_tells D.Link.incoming D.Link.written D.Link.readings D.Link.faults)
        D.told D.faults R.faults R.reads)
        site.now serving.old serving.new readers.old.items readers.new.items result.0 }
    ensures writer { HasWritten V.contents V.faults B.header B.files B.begun B.failed B.faults
        site.now writing.old writing.new bay.old bay.new result.1 }
{
    serve_with(
        rt,
        alloc,
        site,
        lock,
        gate,
        serving,
        readers,
        &|side: &mut Writing<Hall<Edition<B::Leaf>>, V>, bay: &mut B| -> (
            Seat<Hall<Edition<B::Leaf>>>,
            IngestEnd,
        )
            requires { CanWrite V.contents B.files B.admits lock.now site.now side.old bay.old }
            ensures { HasWritten V.contents V.faults B.header B.files B.begun B.failed B.faults
                site.entry.now side.old side.new bay.old bay.new result }
        { side.run(rt, alloc, site, lock, gate, bay) },
        writing,
        bay,
    )
}

/// Runs the servers in a thread of their own, or last where none can be had, and the other call in this one.
fn serve_with<
    L: Leaf + Send + Sync,
    R: Reader<L> + Send,
    D: Door + Send,
    G: Gate,
    X: Send,
    Y: Send,
    A: Send,
    F: Fn(&mut X, &mut Y) -> A + Sync,
    H: Threads + Wait + Sync,
>(
    rt: &H,
    alloc: Global,
    site: &Site,
    lock: &TurnLock<Hall<Edition<L>>>,
    gate: &G,
    serving: &mut Serving<Hall<Edition<L>>, D>,
    readers: &mut Vec<R>,
    other: &F,
    x: &mut X,
    y: &mut Y,
) -> ((Seat<Hall<Edition<L>>>, Summary), A)
where
    D::Link: Send,
    requires servers { CanServe lock.now (shape_of site.now.header) (vec_len readers.old) serving.old }
    requires other { MayRun F.Fn other.now x.old y.old }
    ensures servers { HasServed
        (tells (link_tells D.Link.incoming D.Link.written D.Link.readings D.Link.faults)
        D.told D.faults R.faults R.reads)
        site.now serving.old serving.new readers.old.items readers.new.items result.0 }
    ensures other { Runs F.Fn other.now x.old x.new y.old y.new result.1 }
{
    call_both(
        rt,
        &|side: &mut Serving<Hall<Edition<L>>, D>, readers: &mut Vec<R>| -> (
            Seat<Hall<Edition<L>>>,
            Summary,
        )
            requires { CanServe lock.now (shape_of site.now.header) (vec_len readers.old) side.old }
            ensures { HasServed
                (tells (link_tells D.Link.incoming D.Link.written D.Link.readings D.Link.faults)
                D.told D.faults R.faults R.reads)
                site.entry.now side.old side.new readers.old.items readers.new.items result }
        { side.run(rt, alloc, site, lock, gate, readers) },
        serving,
        readers,
        other,
        x,
        y,
    )
}
