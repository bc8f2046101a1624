ghost use Rattle.std.specs.Prelude.{◌≡◌, ◌≢◌, ◌<◌, ◌≤◌, map, vec_len};
ghost use Rattle.idx_outside.specs.Cause.{MeetsOnce, NeverFalls};
ghost use Rattle.idx_outside.specs.Counts.{EachMeetsOnce};
ghost use Rattle.idx_outside.specs.Objects.{SameContents};
ghost use Rattle.idx_seal.specs.Rows.{MeetsOnceOrRow};
ghost use Rattle.idx_gather.specs.Gather.{HaveSame, NoneFalls};
ghost use Rattle.idx_words.specs.ServeGrammar.{IsSoundServe};
ghost use Rattle.idx_commands.specs.LiveRun.{Concludes, LiveEnds, LiveMeans, cause_of_live};
ghost use Rattle.idx_commands.specs.Seen.{bay_seen, doors_seen, raws_seen, readers_seen, sink_seen};

use crate::causes::Cause;
use crate::serve::{workers_for, write_totals};
use crate::site_name::site_name;
use idx_convert::move_last;
use idx_gather::GatherFault;
use idx_ingest::IngestEnd;
use idx_live::{Live, LiveFault, host_live};
use idx_outside::{Bay, Door, FreeGate, Reader, Sink, Source};
use idx_serve::ServeEnd;
use idx_words::{IngestWords, ServeWords};
use std::alloc::Global;
use std::mem;
use std::sync::Wait;
use std::thread::Threads;

/// A step is gathered out of at most so many raw volumes, one for each rank.
const MOST_RAWS: usize = 256;

/// Does what the values of the words ask for, where they ask for a step to be published too: out of the first 256 raw
/// volumes, or as many as there are. The others are as they were.
pub(crate) fn serve_live<
    V: Source + Send,
    B: Bay + Send,
    R: Reader<B::Leaf> + Send,
    K: Sink,
    D: Door + Send,
    H: Threads + Wait + Sync,
>(
    rt: &H,
    alloc: Global,
    words: &ServeWords<'_>,
    ingest: &IngestWords<'_>,
    raws: &mut Vec<V>,
    bay: &mut B,
    readers: &mut Vec<R>,
    out: &mut K,
    doors: &mut Vec<D>,
) -> Cause
where
    B::Draft: Send,
    B::Leaf: Send + Sync,
    D::Link: Send,
    requires some { 0 < vec_len raws.old }
    requires alike { HaveSame V.contents raws.old.items }
    requires reader { 0 < vec_len readers.old }
    requires door { 0 < vec_len doors.old }
    requires sound { IsSoundServe words.now }
    ensures { LiveEnds words.now ingest.now
        (raws_seen V.contents V.faults V.asked raws.old.items raws.new.items)
        (bay_seen B.header B.files B.begun B.changes B.failed B.faults bay.old bay.new)
        (readers_seen R.faults R.reads R.asked readers.old.items readers.new.items)
        (sink_seen K.contents K.faults out.old out.new)
        (doors_seen D.told D.faults D.Link.incoming D.Link.written D.Link.readings D.Link.faults
        doors.old.items doors.new.items)
        result }
{
    let used = raws.len().min(MOST_RAWS);
    let others = raws.len() - used;
    let Ok(mut all) = Vec::with_capacity(alloc, raws.len()) else {
        return Cause::NoMemory;
    };
    move_last(others, raws, &mut all);
    let cause = serve_beside(rt, alloc, words, ingest, raws, bay, readers, out, doors);
    move_last(used, raws, &mut all);
    mem::replace(raws, all).destroy_empty();
    cause
}

/// The same out of all raw volumes, at most 256.
fn serve_beside<
    V: Source + Send,
    B: Bay + Send,
    R: Reader<B::Leaf> + Send,
    K: Sink,
    D: Door + Send,
    H: Threads + Wait + Sync,
>(
    rt: &H,
    alloc: Global,
    words: &ServeWords<'_>,
    ingest: &IngestWords<'_>,
    raws: &mut Vec<V>,
    bay: &mut B,
    readers: &mut Vec<R>,
    out: &mut K,
    doors: &mut Vec<D>,
) -> Cause
where
    B::Draft: Send,
    B::Leaf: Send + Sync,
    D::Link: Send,
    requires some { 0 < vec_len raws.old }
    requires few { vec_len raws.old ≤ 256 }
    requires alike { HaveSame V.contents raws.old.items }
    requires reader { 0 < vec_len readers.old }
    requires door { 0 < vec_len doors.old }
    requires sound { IsSoundServe words.now }
    ensures means { LiveMeans words.now ingest.now
        (raws_seen V.contents V.faults V.asked raws.old.items raws.new.items)
        (bay_seen B.header B.files B.begun B.changes B.failed B.faults bay.old bay.new)
        (readers_seen R.faults R.reads R.asked readers.old.items readers.new.items)
        (sink_seen K.contents K.faults out.old out.new)
        (doors_seen D.told D.faults D.Link.incoming D.Link.written D.Link.readings D.Link.faults
        doors.old.items doors.new.items)
        result }
    ensures sink_answered { K.faults out.old < K.faults out.new → result ≡ Cause.SinkFault }
    ensures same { SameContents V.contents raws.old.items raws.new.items }
    ensures raw_count { NoneFalls (map V.faults raws.old.items) (map V.faults raws.new.items) }
    ensures raws_once { EachMeetsOnce (map V.faults raws.old.items) (map V.faults raws.new.items) }
    ensures header { B.header bay.new ≡ B.header bay.old }
    ensures bay_count { NeverFalls (B.faults bay.old) (B.faults bay.new) }
    ensures bay_once { MeetsOnceOrRow (B.failed bay.new) 256 (B.faults bay.old) (B.faults bay.new) }
    ensures sink_count { NeverFalls (K.faults out.old) (K.faults out.new) }
    ensures sink_once { MeetsOnce (K.faults out.old) (K.faults out.new) }
{
    let workers = workers_for(words, doors.len(), readers.len());
    match host_live(
        rt,
        alloc,
        site_name(words.dataset),
        words.cache,
        workers,
        ingest.step,
        raws,
        bay,
        readers,
        doors,
        &FreeGate,
    ) {
        Ok(live) => conclude(alloc, &live, out),
        Err(fault) => cause_of(ingest.step, fault),
    }
}

/// Writes how many links and heads there were, where the step was published, each door handed out all its links and there
/// was memory for each head. Want of memory is no refusal of the step.
fn conclude<K: Sink>(alloc: Global, live: &Live, out: &mut K) -> Cause
    requires { live.now.ingested ≢ IngestEnd.Refused GatherFault.NoMemory }
    ensures says { Concludes (sink_seen K.contents K.faults out.old out.new) live.now result }
    ensures answered { K.faults out.old < K.faults out.new → result ≡ Cause.SinkFault }
    ensures count { NeverFalls (K.faults out.old) (K.faults out.new) }
    ensures once { MeetsOnce (K.faults out.old) (K.faults out.new) }
{
    match live.ingested {
        IngestEnd::NoMemory => Cause::NoMemory,
        IngestEnd::Refused { why } => match live.summary.end {
            ServeEnd::NoMemory => Cause::NoMemory,
            _ => match why {
                GatherFault::RawWrongSize { want, found } => Cause::RawWrongSize { want, found },
                GatherFault::RawFault { .. } => Cause::RawFault,
                GatherFault::StoreFault { .. } => Cause::StoreFault,
                GatherFault::NoMemory => unreachable!(),
            },
        },
        IngestEnd::Published { .. } => match live.summary.end {
            ServeEnd::NoMemory => Cause::NoMemory,
            ServeEnd::DoorFault { .. } => Cause::DoorFault,
            ServeEnd::Done => write_totals(alloc, &live.summary, out),
        },
    }
}

/// The cause of a run whose dataset is not served, where this step was to be published.
fn cause_of(step: u64, fault: LiveFault) -> Cause
    ensures { result ≡ cause_of_live step fault }
{
    match fault {
        LiveFault::Header { line, kind } => Cause::Header { line, kind },
        LiveFault::NoStep => Cause::NoStep { time: step },
        LiveFault::TooLarge { bytes } => Cause::TooLarge { bytes },
        LiveFault::AlreadyPublished => Cause::AlreadyPublished { time: step },
        LiveFault::RawWrongSize { want, found } => Cause::RawWrongSize { want, found },
        LiveFault::RawFault => Cause::RawFault,
        LiveFault::BadTable { file, row, kind } => Cause::BadTable { file, row, kind },
        LiveFault::StoreFault => Cause::StoreFault,
        LiveFault::NoMemory => Cause::NoMemory,
    }
}
