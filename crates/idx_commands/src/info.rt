ghost use Rattle.std.specs.Prelude.{◌≡◌, ◌↔◌, ℕ, codes, map, string_bytes};
ghost use Rattle.idx_words.specs.Words.{GiveInfo, IsUsagePlace};
ghost use Rattle.idx_commands.specs.Cause.{status_of};
ghost use Rattle.idx_commands.specs.InfoRun.{InfoEnds, cause_of_refusal};
ghost use Rattle.idx_commands.specs.Run.{AreNamed};
ghost use Rattle.idx_commands.specs.Seen.{bay_seen, sink_seen};

use crate::causes::{Cause, Done};
use crate::summary::summary_of;
use idx_header::{Header, HeaderRefusal};
use idx_outside::{Bay, Sink};
use idx_words::{Command, read_words};
use std::alloc::Global;

/// Does what the words ask for, whose first is `info`, and says how it ended. The first refusal ends it, in this order:
/// the words, reading the header of the bay, the header's faults, writing.
pub fn run_info<B: Bay, K: Sink>(alloc: Global, words: &[String], bay: &mut B, out: &mut K) -> Done
    requires named { AreNamed (map string_bytes words.now) (codes "info") }
    ensures status { result.status ≡ status_of result.cause }
    ensures info { GiveInfo (map string_bytes words.now) →
        InfoEnds (bay_seen B.header B.files B.begun B.changes B.failed B.faults bay.old bay.new)
        (sink_seen K.contents K.faults out.old out.new) result.cause }

    // Usage comes exactly where the words are not in the grammar, and then nothing was asked of any object.
    ensures usage { (result.status ≡ 1) ↔ (¬ GiveInfo (map string_bytes words.now)) }
    ensures place { (at : ℕ) → result.cause ≡ Cause.Usage at → IsUsagePlace (map string_bytes words.now) at }
    ensures unasked { result.status ≡ 1 → bay.new ≡ bay.old }
    ensures silent { result.status ≡ 1 → out.new ≡ out.old }
{
    match read_words(words) {
        Ok(Command::Info) => Done::of(info(alloc, bay, out)),
        Ok(Command::Cut(_)) => unreachable!(),
        Ok(Command::Convert(_)) => unreachable!(),
        Ok(Command::Query(_)) => unreachable!(),
        Ok(Command::Check { .. }) => unreachable!(),
        Ok(Command::Serve(_)) => unreachable!(),
        Ok(Command::Drill { .. }) => unreachable!(),
        Err(misread) => Done::of(Cause::Usage { at: misread.at }),
    }
}

/// Reads the header of a bay, and then writes its summary in one piece.
#[tactic(auto, using(crate::proofs::InfoLemmas::info_ends))]
fn info<B: Bay, K: Sink>(alloc: Global, bay: &mut B, out: &mut K) -> Cause
    ensures { InfoEnds (bay_seen B.header B.files B.begun B.changes B.failed B.faults bay.old bay.new)
        (sink_seen K.contents K.faults out.old out.new) result }
{
    let header = match Header::of_bay(alloc, bay) {
        Ok(header) => header,
        Err(refusal) => return cause_of(refusal),
    };
    let Ok(summary) = summary_of(alloc, &header) else {
        return Cause::NoMemory;
    };
    match out.write(summary.as_slice()) {
        Ok(()) => Cause::Done,
        Err(_) => Cause::SinkFault,
    }
}

/// The cause of a run that ends since a bay gives no header.
fn cause_of(refusal: HeaderRefusal) -> Cause
    ensures { result ≡ cause_of_refusal refusal }
{
    match refusal {
        HeaderRefusal::Fault { line, kind } => Cause::Header { line, kind },
        HeaderRefusal::Outage => Cause::StoreFault,
        HeaderRefusal::NoMemory => Cause::NoMemory,
    }
}
