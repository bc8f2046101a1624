ghost use Rattle.std.specs.Prelude.{◌≡◌, ◌≢◌, ◌⊎◌, ◌<◌, ℕ, vec_len, IfOk};
ghost use Rattle.idx_outside.specs.Cause.{MeetsOnce, NeverFalls, Rose};
ghost use Rattle.idx_outside.specs.Contents.{AppendsPrefix, appended};
ghost use Rattle.idx_commands.specs.Cause.{status_of};
ghost use Rattle.idx_check.specs.declared.verdict.WrongKind.{WrongKind};
ghost use Rattle.idx_commands.specs.CheckRun.{CheckEnds, CheckMeans, LooksOnce, LooksOnceAtSame, cause_of_refused};
ghost use Rattle.idx_commands.specs.QueryRun.{IsUnreadCause};
ghost use Rattle.idx_commands.specs.SameLine.{same_line};
ghost use Rattle.idx_commands.specs.Seen.{bay_seen, readers_seen, sink_seen};

use crate::causes::Cause;
use idx_check::{RefusedCheck, Verdict, check};
use idx_outside::{Bay, Bytes, NoMemory, Reader, Sink};
use idx_text::write_number;
use std::alloc::Global;

/// Says whether the files of a step, those of its newest revision, are exactly the writer's. The first refusal ends it, in
/// this order: reading the header of the bay, the header's faults, whether it has a time with the step and the step stands,
/// reading its files, the first file that is not the writer's, writing. It uses the bay and the first reader.
#[tactic(auto, using(crate::proofs::CheckLemmas::check_ends))]
pub(crate) fn run_check<B: Bay, R: Reader<B::Leaf>, K: Sink>(
    alloc: Global,
    time: u64,
    bay: &mut B,
    readers: &mut Vec<R>,
    out: &mut K,
) -> Cause
    requires reader { 0 < vec_len readers.old }
    ensures { CheckEnds time (bay_seen B.header B.files B.begun B.changes B.failed B.faults bay.old bay.new)
        (readers_seen R.faults R.reads R.asked readers.old.items readers.new.items)
        (sink_seen K.contents K.faults out.old out.new) result }
{
    check_with(alloc, time, bay, &mut readers[0], out)
}

/// The same with the one reader that is used. It writes nothing before all is read.
fn check_with<B: Bay, R: Reader<B::Leaf>, K: Sink>(
    alloc: Global,
    time: u64,
    bay: &mut B,
    reader: &mut R,
    out: &mut K,
) -> Cause
    ensures means { CheckMeans time
        (bay_seen B.header B.files B.begun B.changes B.failed B.faults bay.old bay.new) (record {
          faults_before = R.faults reader.old;
          faults_after = R.faults reader.new;
          reads_before = R.reads reader.old;
          reads_after = R.reads reader.new;
        }) (sink_seen K.contents K.faults out.old out.new) result }
    ensures pieces_same { (status_of result ≡ 0) ⊎ (status_of result ≡ 9) → LooksOnceAtSame time
        (bay_seen B.header B.files B.begun B.changes B.failed B.faults bay.old bay.new)
        (record {
          reads_before = R.reads reader.old;
          reads_after = R.reads reader.new;
          asked_before = R.asked reader.old;
          asked_after = R.asked reader.new;
        }) }
    ensures pieces_wrong { (file at : ℕ) (why : WrongKind) → result ≡ Cause.NotSame file at why → LooksOnce
        (bay_seen B.header B.files B.begun B.changes B.failed B.faults bay.old bay.new)
        (record {
          reads_before = R.reads reader.old;
          reads_after = R.reads reader.new;
          asked_before = R.asked reader.old;
          asked_after = R.asked reader.new;
        }) (Verdict.Wrong file at why) }
    ensures unread { IsUnreadCause result → reader.new ≡ reader.old }
    ensures unfailed { status_of result ≢ 5 → B.failed bay.new ≡ B.failed bay.old }
    ensures header { B.header bay.new ≡ B.header bay.old }
    ensures files { B.files bay.new ≡ B.files bay.old }
    ensures begun { B.begun bay.new ≡ B.begun bay.old }
    ensures changes { B.changes bay.new ≡ B.changes bay.old }
    ensures bay_count { NeverFalls (B.faults bay.old) (B.faults bay.new) }
    ensures bay_once { MeetsOnce (B.faults bay.old) (B.faults bay.new) }
    ensures bay_answered { B.faults bay.old < B.faults bay.new → result ≡ Cause.StoreFault }
    ensures reader_count { NeverFalls (R.faults reader.old) (R.faults reader.new) }
    ensures reader_once { MeetsOnce (R.faults reader.old) (R.faults reader.new) }
    ensures reader_answered { R.faults reader.old < R.faults reader.new → result ≡ Cause.StoreFault }
    ensures sink_count { NeverFalls (K.faults out.old) (K.faults out.new) }
    ensures sink_once { MeetsOnce (K.faults out.old) (K.faults out.new) }
    ensures sink_answered { K.faults out.old < K.faults out.new → result ≡ Cause.SinkFault }
{
    match check(alloc, time, bay, reader) {
        Ok(Verdict::Same { files, bytes }) => write_same(alloc, files, bytes, out),
        Ok(Verdict::Wrong { file, at, why }) => Cause::NotSame { file, at, why },
        Err(refusal) => cause_of(time, refusal),
    }
}

/// Writes how many files a step has whose files are the writer's, and how many bytes.
fn write_same<K: Sink>(alloc: Global, files: u64, bytes: u64, out: &mut K) -> Cause
    ensures done { result ≡ Cause.Done →
        K.contents out.new ≡ appended (K.contents out.old) (same_line files bytes) }
    ensures sink_fault { result ≡ Cause.SinkFault → Rose (K.faults out.old) (K.faults out.new)
        × AppendsPrefix (K.contents out.old) (K.contents out.new) (same_line files bytes) }
    ensures no_memory { result ≡ Cause.NoMemory → out.new ≡ out.old }
    ensures only { (result ≡ Cause.Done) ⊎ ((result ≡ Cause.SinkFault) ⊎ (result ≡ Cause.NoMemory)) }
    ensures answered { K.faults out.old < K.faults out.new → result ≡ Cause.SinkFault }
    ensures count { NeverFalls (K.faults out.old) (K.faults out.new) }
    ensures once { MeetsOnce (K.faults out.old) (K.faults out.new) }
{
    let Ok(line) = same_line(alloc, files, bytes) else {
        return Cause::NoMemory;
    };
    match out.write(line.as_slice()) {
        Ok(()) => Cause::Done,
        Err(_) => Cause::SinkFault,
    }
}

/// The line of a step whose files are the writer's.
#[tactic(auto, unfolding(crate::specs::SameLine::same_line))]
fn same_line(alloc: Global, files: u64, bytes: u64) -> Result<Bytes, NoMemory>
    ensures { IfOk result (λ text. text ≡ same_line files bytes) }
{
    let mut text = Bytes::new(alloc);
    text.append(b"same files ")?;
    write_number(files, &mut text)?;
    text.append(b" bytes ")?;
    write_number(bytes, &mut text)?;
    text.push(b'\n')?;
    Ok(text)
}

/// The cause of a run that ends with this refusal, where this step was asked for.
fn cause_of(step: u64, refusal: RefusedCheck) -> Cause
    ensures { result ≡ cause_of_refused step refusal }
{
    match refusal {
        RefusedCheck::Header { line, kind } => Cause::Header { line, kind },
        RefusedCheck::NotPublished => Cause::NotPublished { time: step },
        RefusedCheck::StoreFault => Cause::StoreFault,
        RefusedCheck::NoMemory => Cause::NoMemory,
    }
}
