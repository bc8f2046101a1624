ghost use Rattle.std.specs.Prelude.{◌≡◌, ◌≢◌, ◌↔◌, ◌⊎◌, ℕ, ◌<◌, ◌≤◌, codes, map, min, string_bytes, vec_len};
ghost use Rattle.idx_outside.specs.Cause.{MeetsOnce, NeverFalls, Rose};
ghost use Rattle.idx_outside.specs.Contents.{appended, AppendsPrefix};
ghost use Rattle.idx_words.specs.declared.command.Command.{Command};
ghost use Rattle.idx_words.specs.ServeGrammar.{IsSoundServe};
ghost use Rattle.idx_words.specs.ServeValue.{ServeValue};
ghost use Rattle.idx_words.specs.Words.{Give, GiveServe, IsUsagePlace};
ghost use Rattle.idx_commands.specs.Cause.{status_of};
ghost use Rattle.idx_commands.specs.Run.{AreNamed};
ghost use Rattle.idx_commands.specs.Seen.{bay_seen, doors_seen, raws_seen, readers_seen, sink_seen};
ghost use Rattle.idx_gather.specs.Gather.{HaveSame};
ghost use Rattle.idx_commands.specs.LiveRun.{EndsServing};
ghost use Rattle.idx_commands.specs.ServeRun.{ServeEnds, ServeMeans, cause_of_host};
ghost use Rattle.idx_commands.specs.Totals.{totals};

use crate::causes::{Cause, Done};
use crate::live::serve_live;
use crate::site_name::site_name;
use crate::totals::totals;
use idx_host::{HostFault, host};
use idx_outside::{Bay, Door, FreeGate, Reader, Sink, Source};
use idx_serve::{ServeEnd, Summary};
use idx_words::{Command, ServeWords, read_words};
use std::alloc::Global;
use std::sync::Wait;
use std::thread::Threads;

/// Does what the words ask for, whose first is `serve`, and says how it ended. The first refusal ends it, in this order:
/// the words, the header, the tables of the files of the steps that stand, by rising steps. Then the links of the first
/// doors are served, each door by a worker of its own with a reader of its own, until it hands out no more or fails, and the
/// line is written that says how many they were. There are as many workers as the words say, and no more than doors and
/// readers. Where the words ask for a step to be published meanwhile, `host_live` has the order, and the step is gathered out of
/// the first raw volumes.
pub(crate) fn run_serve<
    V: Source + Send,
    B: Bay + Send,
    R: Reader<B::Leaf> + Send,
    K: Sink,
    D: Door + Send,
    H: Threads + Wait + Sync,
>(
    rt: &H,
    alloc: Global,
    words: &[String],
    raws: &mut Vec<V>,
    bay: &mut B,
    readers: &mut Vec<R>,
    out: &mut K,
    doors: &mut Vec<D>,
) -> Done
where
    B::Draft: Send,
    B::Leaf: Send + Sync,
    D::Link: Send,
    requires some { 0 < vec_len raws.old }
    requires alike { HaveSame V.contents raws.old.items }
    requires reader { 0 < vec_len readers.old }
    requires door { 0 < vec_len doors.old }
    requires named { AreNamed (map string_bytes words.now) (codes "serve") }
    ensures status { result.status ≡ status_of result.cause }
    ensures serve { (v : ServeValue) → Give (map string_bytes words.now) (Command.Serve v) →
        EndsServing v.ingest v (raws_seen V.contents V.faults V.asked raws.old.items raws.new.items)
        (bay_seen B.header B.files B.begun B.changes B.failed B.faults bay.old bay.new)
        (readers_seen R.faults R.reads R.asked readers.old.items readers.new.items)
        (sink_seen K.contents K.faults out.old out.new)
        (doors_seen D.told D.faults D.Link.incoming D.Link.written D.Link.readings D.Link.faults
        doors.old.items doors.new.items)
        result.cause }

    // Usage comes exactly where the words are not in the grammar, and then nothing was asked of any object.
    ensures usage { (result.status ≡ 1) ↔ (¬ GiveServe (map string_bytes words.now)) }
    ensures place { (at : ℕ) → result.cause ≡ Cause.Usage at → IsUsagePlace (map string_bytes words.now) at }
    ensures raws_unasked { result.status ≡ 1 → raws.new.items ≡ raws.old.items }
    ensures unasked { result.status ≡ 1 → bay.new ≡ bay.old }
    ensures unread { result.status ≡ 1 → readers.new.items ≡ readers.old.items }
    ensures silent { result.status ≡ 1 → out.new ≡ out.old }
    ensures unopened { result.status ≡ 1 → doors.new.items ≡ doors.old.items }
{
    match read_words(words) {
        Ok(Command::Serve(serve)) => Done::of(serve_asked(
            rt, alloc, &serve, raws, bay, readers, out, doors,
        )),
        Ok(Command::Cut(_)) => unreachable!(),
        Ok(Command::Info) => unreachable!(),
        Ok(Command::Convert(_)) => unreachable!(),
        Ok(Command::Query(_)) => unreachable!(),
        Ok(Command::Check { .. }) => unreachable!(),
        Ok(Command::Drill { .. }) => unreachable!(),
        Err(misread) => Done::of(Cause::Usage { at: misread.at }),
    }
}

/// Does what the values of the words ask for, with a step that is published meanwhile or without.
fn serve_asked<
    V: Source + Send,
    B: Bay + Send,
    R: Reader<B::Leaf> + Send,
    K: Sink,
    D: Door + Send,
    H: Threads + Wait + Sync,
>(
    rt: &H,
    alloc: Global,
    words: &ServeWords<'_>,
    raws: &mut Vec<V>,
    bay: &mut B,
    readers: &mut Vec<R>,
    out: &mut K,
    doors: &mut Vec<D>,
) -> Cause
where
    B::Draft: Send,
    B::Leaf: Send + Sync,
    D::Link: Send,
    requires some { 0 < vec_len raws.old }
    requires alike { HaveSame V.contents raws.old.items }
    requires reader { 0 < vec_len readers.old }
    requires door { 0 < vec_len doors.old }
    requires sound { IsSoundServe words.now }
    ensures { EndsServing words.now.ingest words.now
        (raws_seen V.contents V.faults V.asked raws.old.items raws.new.items)
        (bay_seen B.header B.files B.begun B.changes B.failed B.faults bay.old bay.new)
        (readers_seen R.faults R.reads R.asked readers.old.items readers.new.items)
        (sink_seen K.contents K.faults out.old out.new)
        (doors_seen D.told D.faults D.Link.incoming D.Link.written D.Link.readings D.Link.faults
        doors.old.items doors.new.items)
        result }
{
    match &words.ingest {
        None => serve_words(rt, alloc, words, bay, readers, out, doors),
        Some(ingest) => serve_live(rt, alloc, words, ingest, raws, bay, readers, out, doors),
    }
}

/// Does what the values of the words ask for, where no step is published meanwhile.
#[tactic(auto, using(crate::proofs::ServeLemmas::serve_ends))]
fn serve_words<
    B: Bay,
    R: Reader<B::Leaf> + Send,
    K: Sink,
    D: Door + Send,
    H: Threads + Wait + Sync,
>(
    rt: &H,
    alloc: Global,
    words: &ServeWords<'_>,
    bay: &mut B,
    readers: &mut Vec<R>,
    out: &mut K,
    doors: &mut Vec<D>,
) -> Cause
where
    D::Link: Send,
    B::Leaf: Send + Sync,
    requires reader { 0 < vec_len readers.old }
    requires door { 0 < vec_len doors.old }
    requires sound { IsSoundServe words.now }
    ensures { ServeEnds words.now (bay_seen B.header B.files B.begun B.changes B.failed B.faults bay.old bay.new)
        (readers_seen R.faults R.reads R.asked readers.old.items readers.new.items)
        (sink_seen K.contents K.faults out.old out.new)
        (doors_seen D.told D.faults D.Link.incoming D.Link.written D.Link.readings D.Link.faults
        doors.old.items doors.new.items)
        result }
{
    serve(rt, alloc, words, bay, readers, out, doors)
}

/// How many workers serve: as many as the words say, and no more than there are doors and readers.
pub(crate) fn workers_for(words: &ServeWords<'_>, doors: usize, readers: usize) -> u32
    requires sound { IsSoundServe words.now }
    requires door { 0 < doors }
    requires reader { 0 < readers }
    ensures number { result ≡ min words.now.workers (min doors readers) }
    ensures some { 0 < result }
    ensures few { result ≤ 64 }
{
    (words.workers as usize).min(doors.min(readers)) as u32
}

/// Serves the dataset of the words at the first doors, and then writes how many links and heads there were.
fn serve<B: Bay, R: Reader<B::Leaf> + Send, K: Sink, D: Door + Send, H: Threads + Wait + Sync>(
    rt: &H,
    alloc: Global,
    words: &ServeWords<'_>,
    bay: &mut B,
    readers: &mut Vec<R>,
    out: &mut K,
    doors: &mut Vec<D>,
) -> Cause
where
    D::Link: Send,
    B::Leaf: Send + Sync,
    requires reader { 0 < vec_len readers.old }
    requires door { 0 < vec_len doors.old }
    requires sound { IsSoundServe words.now }
    ensures means { ServeMeans words.now
        (bay_seen B.header B.files B.begun B.changes B.failed B.faults bay.old bay.new)
        (readers_seen R.faults R.reads R.asked readers.old.items readers.new.items)
        (sink_seen K.contents K.faults out.old out.new)
        (doors_seen D.told D.faults D.Link.incoming D.Link.written D.Link.readings D.Link.faults
        doors.old.items doors.new.items) result }
    ensures unfailed { status_of result ≢ 5 → B.failed bay.new ≡ B.failed bay.old }
    ensures bay_answered { B.faults bay.old < B.faults bay.new → result ≡ Cause.StoreFault }
    ensures sink_answered { K.faults out.old < K.faults out.new → result ≡ Cause.SinkFault }
    ensures header { B.header bay.new ≡ B.header bay.old }
    ensures files { B.files bay.new ≡ B.files bay.old }
    ensures begun { B.begun bay.new ≡ B.begun bay.old }
    ensures changes { B.changes bay.new ≡ B.changes bay.old }
    ensures bay_count { NeverFalls (B.faults bay.old) (B.faults bay.new) }
    ensures bay_once { MeetsOnce (B.faults bay.old) (B.faults bay.new) }
    ensures sink_count { NeverFalls (K.faults out.old) (K.faults out.new) }
    ensures sink_once { MeetsOnce (K.faults out.old) (K.faults out.new) }
{
    let workers = workers_for(words, doors.len(), readers.len());
    match host(
        rt,
        alloc,
        site_name(words.dataset),
        words.cache,
        workers,
        bay,
        readers,
        doors,
        &FreeGate,
    ) {
        Ok(summary) => conclude(alloc, &summary, out),
        Err(fault) => cause_of(fault),
    }
}

/// Writes how many links and heads there were, where each door handed out all its links and there was memory for each head.
fn conclude<K: Sink>(alloc: Global, summary: &Summary, out: &mut K) -> Cause
    ensures done { result ≡ Cause.Done → (summary.now.end ≡ ServeEnd.Done)
        × (K.contents out.new ≡ appended (K.contents out.old) (totals summary.now.links summary.now.replies)) }
    ensures sink_fault { result ≡ Cause.SinkFault → Rose (K.faults out.old) (K.faults out.new)
        × (summary.now.end ≡ ServeEnd.Done)
        × AppendsPrefix (K.contents out.old) (K.contents out.new) (totals summary.now.links summary.now.replies) }
    ensures door_fault { result ≡ Cause.DoorFault → ((faults : ℕ) × (summary.now.end ≡ ServeEnd.DoorFault faults))
        × (out.new ≡ out.old) }
    ensures no_memory { result ≡ Cause.NoMemory → ((summary.now.end ≡ ServeEnd.Done)
        ⊎ (summary.now.end ≡ ServeEnd.NoMemory)) × (out.new ≡ out.old) }
    ensures only { (result ≡ Cause.Done) ⊎ ((result ≡ Cause.SinkFault)
        ⊎ ((result ≡ Cause.DoorFault) ⊎ (result ≡ Cause.NoMemory))) }
    ensures answered { K.faults out.old < K.faults out.new → result ≡ Cause.SinkFault }
    ensures count { NeverFalls (K.faults out.old) (K.faults out.new) }
    ensures once { MeetsOnce (K.faults out.old) (K.faults out.new) }
{
    match summary.end {
        ServeEnd::Done => write_totals(alloc, summary, out),
        ServeEnd::DoorFault { .. } => Cause::DoorFault,
        ServeEnd::NoMemory => Cause::NoMemory,
    }
}

/// Writes how many links and heads there were.
pub(crate) fn write_totals<K: Sink>(alloc: Global, summary: &Summary, out: &mut K) -> Cause
    ensures done { result ≡ Cause.Done →
        K.contents out.new ≡ appended (K.contents out.old) (totals summary.now.links summary.now.replies) }
    ensures sink_fault { result ≡ Cause.SinkFault → Rose (K.faults out.old) (K.faults out.new)
        × AppendsPrefix (K.contents out.old) (K.contents out.new) (totals summary.now.links summary.now.replies) }
    ensures no_memory { result ≡ Cause.NoMemory → out.new ≡ out.old }
    ensures only { (result ≡ Cause.Done) ⊎ ((result ≡ Cause.SinkFault) ⊎ (result ≡ Cause.NoMemory)) }
    ensures answered { K.faults out.old < K.faults out.new → result ≡ Cause.SinkFault }
    ensures count { NeverFalls (K.faults out.old) (K.faults out.new) }
    ensures once { MeetsOnce (K.faults out.old) (K.faults out.new) }
{
    let Ok(line) = totals(alloc, summary.links, summary.replies) else {
        return Cause::NoMemory;
    };
    match out.write(line.as_slice()) {
        Ok(()) => Cause::Done,
        Err(_) => Cause::SinkFault,
    }
}

/// The cause of a run whose dataset is not served.
fn cause_of(fault: HostFault) -> Cause
    ensures { result ≡ cause_of_host fault }
{
    match fault {
        HostFault::Header { line, kind } => Cause::Header { line, kind },
        HostFault::BadTable { file, row, kind } => Cause::BadTable { file, row, kind },
        HostFault::StoreFault => Cause::StoreFault,
        HostFault::NoMemory => Cause::NoMemory,
    }
}
