ghost use Rattle.std.specs.Prelude.{◌≡◌, ◌<◌, ◌≤◌, IfErr, IfOk, OnErr, map, vec_len};
ghost use Rattle.idx_outside.specs.Cause.{MeetsOnce, NeverFalls};
ghost use Rattle.idx_outside.specs.Counts.{EachMeetsOnce};
ghost use Rattle.idx_outside.specs.Objects.{SameContents, faults_at};
ghost use Rattle.idx_seal.specs.Rows.{MeetsOnceOrRow};
ghost use Rattle.idx_serve.specs.Visits.{link_tells};
ghost use Rattle.idx_workers.specs.Workers.{tells};
ghost use Rattle.idx_gather.specs.Gather.{HaveSame, NoneFalls};
ghost use Rattle.idx_extract.specs.Extract.{Under};
ghost use Rattle.idx_convert.specs.Known.{known_of};
ghost use Rattle.idx_live.specs.Live.{IsCause, IsLive, OnlyLoads, OnlyLooks, OnlyMeasures};

use crate::beside::serve_beside;
use crate::opening::{Opened, open};
use crate::{Live, LiveFault};
use idx_outside::{Bay, Door, Gate, Reader, Source};
use std::alloc::Global;
use std::sync::Wait;
use std::thread::Threads;

/// Serves a dataset by this name with `workers` workers (1 to 64), each at a door and with a reader of its own, until
/// each door hands out no more links or fails; and gathers a step of it beside them out of raw volumes, 1 to 256 that
/// hold the same, at the next revision of the step, and publishes it behind all others. The workers share one cache,
/// which keeps as many blocks as are wished for, and no more than have 2^31 bytes. How one of the two ends does not
/// end the other.
///
/// The first refusal ends it before any link is handed out, in this order: the header; whether it has a time and the
/// step; the bytes of its volume, then of its files; whether a revision of the step is left, for a step has at most
/// 256; the length of the first raw volume; the tables of the files of the steps that stand, by rising time. Then the
/// step is begun.
pub fn host_live<
    V: Source + Send,
    B: Bay + Send,
    R: Reader<B::Leaf> + Send,
    D: Door + Send,
    G: Gate,
    H: Threads + Wait + Sync,
>(
    rt: &H,
    alloc: Global,
    name: &[u8],
    cache: u32,
    workers: u32,
    time: u64,
    raws: &mut Vec<V>,
    bay: &mut B,
    readers: &mut Vec<R>,
    doors: &mut Vec<D>,
    gate: &G,
) -> Result<Live, LiveFault>
where
    B::Draft: Send,
    B::Leaf: Send + Sync,
    D::Link: Send,
    requires some_blocks { 1 ≤ cache }
    requires few_blocks { cache ≤ 65536 }
    requires some_workers { 0 < workers }
    requires few_workers { workers ≤ 64 }
    requires a_door { workers ≤ vec_len doors.old }
    requires a_reader { workers ≤ vec_len readers.old }
    requires some_raws { 0 < vec_len raws.old }
    requires few_raws { vec_len raws.old ≤ 256 }
    requires alike { HaveSame V.contents raws.old.items }

    // Every link that was handed out was served, and the step was gathered and published beside, or why not.
    ensures live { IfOk result (λ live. Under (B.header bay.old) (λ h. IsLive
        (tells (link_tells D.Link.incoming D.Link.written D.Link.readings D.Link.faults)
        D.told D.faults R.faults R.reads)
        h name.now time (known_of V.contents V.asked V.faults raws.old.items raws.new.items
        B.header B.files B.begun B.changes B.failed B.faults bay.old bay.new) cache workers
        raws.old.items raws.new.items doors.old.items doors.new.items readers.old.items readers.new.items live)) }

    // Each refusal has its cause, and comes before a door is used, a reader but the first, or a raw volume but the
    // first; of the dataset nothing is changed, and no byte is asked of a raw volume.
    ensures cause { IfErr result (IsCause time (known_of V.contents V.asked V.faults raws.old.items raws.new.items
        B.header B.files B.begun B.changes B.failed B.faults bay.old bay.new)
        (faults_at R.faults readers.old.items 0) (faults_at R.faults readers.new.items 0)) }
    ensures doors { OnErr result (doors.new.items ≡ doors.old.items) }
    ensures readers { OnErr result (OnlyLoads R.faults readers.old.items readers.new.items result) }
    ensures raws { OnErr result (OnlyMeasures V.contents V.asked V.faults raws.old.items raws.new.items result) }
    ensures bay { OnErr result
        (OnlyLooks B.header B.files B.begun B.changes B.failed B.admits B.faults bay.old bay.new result) }

    // What is known of the raw volumes and the header text stay, and no count falls.
    ensures same { SameContents V.contents raws.old.items raws.new.items }
    ensures raw_count { NoneFalls (map V.faults raws.old.items) (map V.faults raws.new.items) }
    ensures raws_once { EachMeetsOnce (map V.faults raws.old.items) (map V.faults raws.new.items) }
    ensures header { B.header bay.new ≡ B.header bay.old }
    ensures bay_count { NeverFalls (B.faults bay.old) (B.faults bay.new) }
    ensures bay_once { MeetsOnceOrRow (B.failed bay.new) (vec_len raws.old) (B.faults bay.old) (B.faults bay.new) }
{
    let Opened {
        site,
        revision,
        lock,
        writer,
    } = open(alloc, name, cache, time, raws, bay, readers)?;
    let _axes = site.header.axes();
    let (_writer, live) = serve_beside(
        rt, alloc, &site, &lock, writer, workers, time, revision, raws, bay, readers, doors, gate,
    );
    Ok(live)
}
