ghost use Rattle.std.specs.Prelude.{◌≡◌, ◌≢◌, ◌↔◌, ℕ, ◌<◌, map, vec_len, string_bytes};
ghost use Rattle.idx_outside.specs.Objects.{contents_at};
ghost use Rattle.idx_gather.specs.Gather.{HaveSame};
ghost use Rattle.idx_words.specs.declared.command.Command.{Command};
ghost use Rattle.idx_words.specs.declared.cut_words.CutWords.{CutWords};
ghost use Rattle.idx_words.specs.ConvertValue.{ConvertValue};
ghost use Rattle.idx_words.specs.QueryValue.{QueryValue};
ghost use Rattle.idx_words.specs.ServeValue.{ServeValue};
ghost use Rattle.idx_words.specs.Words.{Give, GiveCommand, GiveInfo, IsUsagePlace};
ghost use Rattle.idx_commands.specs.Cause.{status_of};
ghost use Rattle.idx_commands.specs.CheckRun.{CheckEnds};
ghost use Rattle.idx_commands.specs.ConvertRun.{ConvertEnds};
ghost use Rattle.idx_commands.specs.CutRun.{CutEnds};
ghost use Rattle.idx_commands.specs.DrillRun.{DrillEnds};
ghost use Rattle.idx_commands.specs.InfoRun.{InfoEnds};
ghost use Rattle.idx_commands.specs.QueryRun.{QueryEnds};
ghost use Rattle.idx_commands.specs.LiveRun.{EndsServing};
ghost use Rattle.idx_commands.specs.Run.{CommandEnds, CountsFaults, LeavesRest, MeetsFaultsOnce, Unasked, WroteAnswer, WrotePrefix, run_seen};
ghost use Rattle.idx_commands.specs.Seen.{bay_seen, doors_seen, raws_seen, readers_seen, sink_seen};

use crate::causes::{Cause, Done};
use crate::check::run_check;
use crate::convert::run_convert;
use crate::cut::run_cut;
use crate::drill::run_drill;
use crate::info::run_info;
use crate::query::run_query;
use crate::serve::run_serve;
use idx_outside::{Bay, Door, Reader, Sink, Source};
use idx_words::{Command, read_words};
use std::alloc::Global;
use std::sync::Wait;
use std::thread::Threads;

/// Does what the words ask for, and says how it ended: as `run_cut`, `run_info` and `run_query` do, and likewise for
/// `convert`, `check`, `serve` and `drill`. The first refusal ends it. `convert` uses the first of `raws`, one for each rank,
/// each in a worker thread, and a `serve` that publishes a timestep the first 256. `serve` uses the first of `readers`
/// and of `doors`, one for each worker thread, and returns when each of these doors hands out no more connections or
/// fails. `drill` uses four worker threads, and of the objects `out` alone.
pub fn run<
    V: Source + Send,
    B: Bay + Send,
    R: Reader<B::Leaf> + Send,
    K: Sink,
    D: Door + Send,
    T: Threads + Wait + Sync,
>(
    rt: &T,
    alloc: Global,
    words: &[String],
    raws: &mut Vec<V>,
    bay: &mut B,
    readers: &mut Vec<R>,
    out: &mut K,
    doors: &mut Vec<D>,
) -> Done
where
    B::Draft: Send,
    B::Leaf: Send + Sync,
    D::Link: Send,
    requires some { 0 < vec_len raws.old }
    requires reader { 0 < vec_len readers.old }
    requires door { 0 < vec_len doors.old }
    requires same { HaveSame V.contents raws.old.items }

    ensures status { result.status ≡ status_of result.cause }

    // At status 0 the sink got exactly the answer, at status 9 some first bytes of it. At every other status it was not
    // touched.
    ensures done { result.status ≡ 0 → WroteAnswer (map string_bytes words.now)
        (contents_at V.contents raws.old.items 0) (B.header bay.old) (B.files bay.old)
        (K.contents out.old) (K.contents out.new) }
    ensures cut_off { result.status ≡ 9 → WrotePrefix (map string_bytes words.now)
        (contents_at V.contents raws.old.items 0) (B.header bay.old) (B.files bay.old)
        (K.contents out.old) (K.contents out.new) }
    ensures silent { result.status ≢ 0 → result.status ≢ 9 → out.new ≡ out.old }

    // How a run of each command ends.
    ensures cut { (c : CutWords) → Give (map string_bytes words.now) (Command.Cut c) →
        CutEnds c (raws_seen V.contents V.faults V.asked raws.old.items raws.new.items)
        (sink_seen K.contents K.faults out.old out.new) result.cause }
    ensures info { GiveInfo (map string_bytes words.now) →
        InfoEnds (bay_seen B.header B.files B.begun B.changes B.failed B.faults bay.old bay.new)
        (sink_seen K.contents K.faults out.old out.new) result.cause }
    ensures convert { (c : ConvertValue) → Give (map string_bytes words.now) (Command.Convert c) →
        ConvertEnds c (raws_seen V.contents V.faults V.asked raws.old.items raws.new.items)
        (bay_seen B.header B.files B.begun B.changes B.failed B.faults bay.old bay.new) result.cause }
    ensures query { (q : QueryValue) → Give (map string_bytes words.now) (Command.Query q) →
        QueryEnds q (bay_seen B.header B.files B.begun B.changes B.failed B.faults bay.old bay.new)
        (readers_seen R.faults R.reads R.asked readers.old.items readers.new.items)
        (sink_seen K.contents K.faults out.old out.new) result.cause }
    ensures check { (step : ℕ) → Give (map string_bytes words.now) (Command.Check step) →
        CheckEnds step (bay_seen B.header B.files B.begun B.changes B.failed B.faults bay.old bay.new)
        (readers_seen R.faults R.reads R.asked readers.old.items readers.new.items)
        (sink_seen K.contents K.faults out.old out.new) result.cause }
    ensures serve { (v : ServeValue) → Give (map string_bytes words.now) (Command.Serve v) →
        EndsServing v.ingest v (raws_seen V.contents V.faults V.asked raws.old.items raws.new.items)
        (bay_seen B.header B.files B.begun B.changes B.failed B.faults bay.old bay.new)
        (readers_seen R.faults R.reads R.asked readers.old.items readers.new.items)
        (sink_seen K.contents K.faults out.old out.new)
        (doors_seen D.told D.faults D.Link.incoming D.Link.written D.Link.readings D.Link.faults
        doors.old.items doors.new.items)
        result.cause }
    ensures drill { (number : ℕ) → Give (map string_bytes words.now) (Command.Drill number) →
        DrillEnds number (sink_seen K.contents K.faults out.old out.new) result.cause }

    // Usage comes exactly where the words are not in the grammar, and then nothing was asked of any object. Its place is
    // the least such that no list of the grammar begins with the words up to it and the word at it, and the number of
    // words where there is none. At each other status the words give a command.
    ensures usage { (result.status ≡ 1) ↔ (¬ GiveCommand (map string_bytes words.now)) }
    ensures place { (at : ℕ) → result.cause ≡ Cause.Usage at → IsUsagePlace (map string_bytes words.now) at }
    ensures unasked { result.status ≡ 1 → Unasked (run_seen
        (raws_seen V.contents V.faults V.asked raws.old.items raws.new.items)
        (bay_seen B.header B.files B.begun B.changes B.failed B.faults bay.old bay.new)
        (readers_seen R.faults R.reads R.asked readers.old.items readers.new.items)
        (sink_seen K.contents K.faults out.old out.new)
        (doors_seen D.told D.faults D.Link.incoming D.Link.written D.Link.readings D.Link.faults
        doors.old.items doors.new.items)) }
    ensures given { result.status ≢ 1 → GiveCommand (map string_bytes words.now) }

    // Each fault was counted, and each that was counted is answered; it is met once, so that no failed call is made again; and
    // what a run does not use stays as it was.
    ensures faults { CountsFaults (map string_bytes words.now) (run_seen
        (raws_seen V.contents V.faults V.asked raws.old.items raws.new.items)
        (bay_seen B.header B.files B.begun B.changes B.failed B.faults bay.old bay.new)
        (readers_seen R.faults R.reads R.asked readers.old.items readers.new.items)
        (sink_seen K.contents K.faults out.old out.new)
        (doors_seen D.told D.faults D.Link.incoming D.Link.written D.Link.readings D.Link.faults
        doors.old.items doors.new.items)) result.cause }
    ensures once { MeetsFaultsOnce (map string_bytes words.now) (run_seen
        (raws_seen V.contents V.faults V.asked raws.old.items raws.new.items)
        (bay_seen B.header B.files B.begun B.changes B.failed B.faults bay.old bay.new)
        (readers_seen R.faults R.reads R.asked readers.old.items readers.new.items)
        (sink_seen K.contents K.faults out.old out.new)
        (doors_seen D.told D.faults D.Link.incoming D.Link.written D.Link.readings D.Link.faults
        doors.old.items doors.new.items)) }
    ensures rest { LeavesRest (map string_bytes words.now) (run_seen
        (raws_seen V.contents V.faults V.asked raws.old.items raws.new.items)
        (bay_seen B.header B.files B.begun B.changes B.failed B.faults bay.old bay.new)
        (readers_seen R.faults R.reads R.asked readers.old.items readers.new.items)
        (sink_seen K.contents K.faults out.old out.new)
        (doors_seen D.told D.faults D.Link.incoming D.Link.written D.Link.readings D.Link.faults
        doors.old.items doors.new.items)) }
{
    match read_words(words) {
        Ok(command) => run_command(rt, alloc, words, &command, raws, bay, readers, out, doors),
        Err(misread) => Done::of(Cause::Usage { at: misread.at }),
    }
}

/// Does what the words ask for, which give this command, and says how it ended.
fn run_command<
    V: Source + Send,
    B: Bay + Send,
    R: Reader<B::Leaf> + Send,
    K: Sink,
    D: Door + Send,
    T: Threads + Wait + Sync,
>(
    rt: &T,
    alloc: Global,
    words: &[String],
    command: &Command<'_>,
    raws: &mut Vec<V>,
    bay: &mut B,
    readers: &mut Vec<R>,
    out: &mut K,
    doors: &mut Vec<D>,
) -> Done
where
    B::Draft: Send,
    B::Leaf: Send + Sync,
    D::Link: Send,
    requires some { 0 < vec_len raws.old }
    requires reader { 0 < vec_len readers.old }
    requires door { 0 < vec_len doors.old }
    requires same { HaveSame V.contents raws.old.items }
    requires given { Give (map string_bytes words.now) command.now }
    ensures status { result.status ≡ status_of result.cause }
    ensures ends { CommandEnds (run_seen
        (raws_seen V.contents V.faults V.asked raws.old.items raws.new.items)
        (bay_seen B.header B.files B.begun B.changes B.failed B.faults bay.old bay.new)
        (readers_seen R.faults R.reads R.asked readers.old.items readers.new.items)
        (sink_seen K.contents K.faults out.old out.new)
        (doors_seen D.told D.faults D.Link.incoming D.Link.written D.Link.readings D.Link.faults
        doors.old.items doors.new.items)) command.now result.cause }
{
    match command {
        Command::Cut(_) => run_cut(alloc, words, raws, out),
        Command::Info => run_info(alloc, words, bay, out),
        Command::Convert(_) => run_convert(rt, alloc, words, raws, bay),
        Command::Query(_) => run_query(alloc, words, bay, readers, out),
        Command::Check { time } => Done::of(run_check(alloc, *time, bay, readers, out)),
        Command::Serve(_) => run_serve(rt, alloc, words, raws, bay, readers, out, doors),
        Command::Drill { .. } => run_drill(rt, alloc, words, out),
    }
}
