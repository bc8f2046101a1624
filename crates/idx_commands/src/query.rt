ghost use Rattle.std.specs.Prelude.{◌≡◌, ◌≢◌, ◌↔◌, ℕ, ◌<◌, ◌≤◌, codes, map, string_bytes, vec_len};
ghost use Rattle.idx_outside.specs.Cause.{MeetsOnce, NeverFalls};
ghost use Rattle.idx_words.specs.declared.command.Command.{Command};
ghost use Rattle.idx_words.specs.QueryValue.{QueryValue};
ghost use Rattle.idx_extract.specs.Extract.{ReadsFew};
ghost use Rattle.idx_words.specs.Words.{Give, GiveQuery, IsUsagePlace};
ghost use Rattle.idx_commands.specs.Cause.{status_of};
ghost use Rattle.idx_commands.specs.QueryRun.{IsUnreadCause, QueryEnds, QueryMeans, cause_of_extract, cause_of_plan, known_of, question_of};
ghost use Rattle.idx_commands.specs.Run.{AreNamed};
ghost use Rattle.idx_commands.specs.Seen.{bay_seen, readers_seen, sink_seen};

use crate::causes::{Cause, Done};
use idx_extract::{ExtractFault, extract};
use idx_outside::{Bay, Reader, Sink};
use idx_plan::{PlanFault, Question};
use idx_words::{Command, QueryWords, read_words};
use std::alloc::Global;

/// Does what the words ask for, whose first is `query`, and says how it ended. The first refusal ends it, in this order:
/// the words, reading the header of the bay, the header's faults, the number of axes, the name of the field, the region,
/// the levels, the bytes of the answer, whether the step stands, the tables of its files, the blocks that it needs,
/// writing. It uses the bay and the first reader.
pub fn run_query<B: Bay, R: Reader<B::Leaf>, K: Sink>(
    alloc: Global,
    words: &[String],
    bay: &mut B,
    readers: &mut Vec<R>,
    out: &mut K,
) -> Done
    requires reader { 0 < vec_len readers.old }
    requires named { AreNamed (map string_bytes words.now) (codes "query") }
    ensures status { result.status ≡ status_of result.cause }
    ensures query { (q : QueryValue) → Give (map string_bytes words.now) (Command.Query q) →
        QueryEnds q (bay_seen B.header B.files B.begun B.changes B.failed B.faults bay.old bay.new)
        (readers_seen R.faults R.reads R.asked readers.old.items readers.new.items)
        (sink_seen K.contents K.faults out.old out.new) result.cause }

    // Usage comes exactly where the words are not in the grammar, and then nothing was asked of any object.
    ensures usage { (result.status ≡ 1) ↔ (¬ GiveQuery (map string_bytes words.now)) }
    ensures place { (at : ℕ) → result.cause ≡ Cause.Usage at → IsUsagePlace (map string_bytes words.now) at }
    ensures unasked { result.status ≡ 1 → bay.new ≡ bay.old }
    ensures unread { result.status ≡ 1 → readers.new.items ≡ readers.old.items }
    ensures silent { result.status ≡ 1 → out.new ≡ out.old }
{
    match read_words(words) {
        Ok(Command::Query(query)) => Done::of(query_first(alloc, &query, bay, readers, out)),
        Ok(Command::Cut(_)) => unreachable!(),
        Ok(Command::Info) => unreachable!(),
        Ok(Command::Convert(_)) => unreachable!(),
        Ok(Command::Check { .. }) => unreachable!(),
        Ok(Command::Serve(_)) => unreachable!(),
        Ok(Command::Drill { .. }) => unreachable!(),
        Err(misread) => Done::of(Cause::Usage { at: misread.at }),
    }
}

/// Does what the values of the words ask for, with the first reader.
#[tactic(auto, using(crate::proofs::QueryLemmas::query_ends))]
fn query_first<B: Bay, R: Reader<B::Leaf>, K: Sink>(
    alloc: Global,
    words: &QueryWords<'_>,
    bay: &mut B,
    readers: &mut Vec<R>,
    out: &mut K,
) -> Cause
    requires reader { 0 < vec_len readers.old }
    ensures { QueryEnds words.now (bay_seen B.header B.files B.begun B.changes B.failed B.faults bay.old bay.new)
        (readers_seen R.faults R.reads R.asked readers.old.items readers.new.items)
        (sink_seen K.contents K.faults out.old out.new) result }
{
    query(alloc, words, bay, &mut readers[0], out)
}

/// Reads the samples that the words ask for, and then writes them in one piece. It writes nothing before all is read.
fn query<B: Bay, R: Reader<B::Leaf>, K: Sink>(
    alloc: Global,
    words: &QueryWords<'_>,
    bay: &mut B,
    reader: &mut R,
    out: &mut K,
) -> Cause
    ensures means { QueryMeans words.now
        (bay_seen B.header B.files B.begun B.changes B.failed B.faults bay.old bay.new) (record {
          faults_before = R.faults reader.old;
          faults_after = R.faults reader.new;
          reads_before = R.reads reader.old;
          reads_after = R.reads reader.new;
        }) (sink_seen K.contents K.faults out.old out.new) result }
    ensures few_reads { status_of result ≢ 0 → status_of result ≢ 9 → ReadsFew (question_of words.now) (known_of
        (bay_seen B.header B.files B.begun B.changes B.failed B.faults bay.old bay.new) (record {
          faults_before = R.faults reader.old;
          faults_after = R.faults reader.new;
          reads_before = R.reads reader.old;
          reads_after = R.reads reader.new;
        })) }
    ensures unread { IsUnreadCause result → reader.new ≡ reader.old }
    ensures unfailed { status_of result ≢ 5 → B.failed bay.new ≡ B.failed bay.old }
    ensures header { B.header bay.new ≡ B.header bay.old }
    ensures files { B.files bay.new ≡ B.files bay.old }
    ensures begun { B.begun bay.new ≡ B.begun bay.old }
    ensures changes { B.changes bay.new ≡ B.changes bay.old }
    ensures bay_count { NeverFalls (B.faults bay.old) (B.faults bay.new) }
    ensures bay_once { MeetsOnce (B.faults bay.old) (B.faults bay.new) }
    ensures bay_answered { B.faults bay.old < B.faults bay.new → result ≡ Cause.StoreFault }
    ensures reader_count { NeverFalls (R.faults reader.old) (R.faults reader.new) }
    ensures reader_once { MeetsOnce (R.faults reader.old) (R.faults reader.new) }
    ensures reader_answered { R.faults reader.old < R.faults reader.new → result ≡ Cause.StoreFault }
    ensures sink_count { NeverFalls (K.faults out.old) (K.faults out.new) }
    ensures sink_once { MeetsOnce (K.faults out.old) (K.faults out.new) }
    ensures sink_answered { K.faults out.old < K.faults out.new → result ≡ Cause.SinkFault }
{
    let samples = match extract(alloc, &question_of(words), bay, reader) {
        Ok(samples) => samples,
        Err(fault) => return cause_of(words.time, fault),
    };
    match out.write(samples.as_slice()) {
        Ok(()) => Cause::Done,
        Err(_) => Cause::SinkFault,
    }
}

/// The question that the words ask.
fn question_of<'w>(words: &QueryWords<'w>) -> Question<'w>
    ensures { result ≡ question_of words.now }
{
    Question {
        time: words.time,
        field: words.field,
        region: words.region,
        lo: words.lo,
        hi: words.hi,
    }
}

/// The cause of a run that ends with this fault, where this step was asked for.
fn cause_of(step: u64, fault: ExtractFault) -> Cause
    ensures { result ≡ cause_of_extract step fault }
{
    match fault {
        ExtractFault::Header { line, kind } => Cause::Header { line, kind },
        ExtractFault::OtherAxes => Cause::OtherAxes,
        ExtractFault::UnknownField => Cause::UnknownField,
        ExtractFault::Plan(fault) => cause_of_plan(fault),
        ExtractFault::NotPublished => Cause::NotPublished { time: step },
        ExtractFault::BadTable { file, row, kind } => Cause::BadTable { file, row, kind },
        ExtractFault::StoreFault => Cause::StoreFault,
        ExtractFault::NoMemory => Cause::NoMemory,
    }
}

/// The cause of a run whose question has no plan.
fn cause_of_plan(fault: PlanFault) -> Cause
    ensures { result ≡ cause_of_plan fault }
{
    match fault {
        PlanFault::OutsideVolume { axis } => Cause::OutsideVolume { axis },
        PlanFault::BadLevels { lo, hi, max } => Cause::BadLevels { lo, hi, max },
        PlanFault::TooLarge { bytes } => Cause::TooLarge { bytes },
        PlanFault::NoMemory => Cause::NoMemory,
    }
}
