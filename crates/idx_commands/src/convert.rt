ghost use Rattle.std.specs.Prelude.{◌≡◌, ◌↔◌, ℕ, ◌<◌, ◌≤◌, codes, map, string_bytes, vec_len};
ghost use Rattle.idx_gather.specs.Gather.{HaveSame};
ghost use Rattle.idx_words.specs.declared.command.Command.{Command};
ghost use Rattle.idx_words.specs.ConvertValue.{ConvertValue};
ghost use Rattle.idx_words.specs.Words.{Give, GiveConvert, IsUsagePlace};
ghost use Rattle.idx_commands.specs.Cause.{status_of};
ghost use Rattle.idx_commands.specs.ConvertRun.{ConvertEnds, cause_of_fault};
ghost use Rattle.idx_commands.specs.Run.{AreNamed};
ghost use Rattle.idx_commands.specs.Seen.{bay_seen, raws_seen};

use crate::causes::{Cause, Done};
use idx_convert::{ConvertFault, convert};
use idx_outside::{Bay, Source};
use idx_words::{Command, ConvertWords, read_words};
use std::alloc::Global;
use std::thread::Threads;

/// Does what the words ask for, whose first is `convert`, and says how it ended. The first refusal ends it, in this order:
/// the words, the header text that they ask for, its step, its volume's bytes, its files' bytes; the header that stands,
/// whether it agrees, whether a revision of the step is left to write; the raw volume's length; putting the header,
/// beginning the step, reading the raw volumes, writing and committing the files. It uses the first raw volumes, one for
/// each of the ranks that the words say, and the bay.
pub(crate) fn run_convert<V: Source + Send, B: Bay, T: Threads + Sync>(
    rt: &T,
    alloc: Global,
    words: &[String],
    raws: &mut Vec<V>,
    bay: &mut B,
) -> Done
where
    B::Draft: Send,
    B::Leaf: Send,
    requires some { 0 < vec_len raws.old }
    requires alike { HaveSame V.contents raws.old.items }
    requires named { AreNamed (map string_bytes words.now) (codes "convert") }
    ensures status { result.status ≡ status_of result.cause }
    ensures convert { (c : ConvertValue) → Give (map string_bytes words.now) (Command.Convert c) →
        ConvertEnds c (raws_seen V.contents V.faults V.asked raws.old.items raws.new.items)
        (bay_seen B.header B.files B.begun B.changes B.failed B.faults bay.old bay.new) result.cause }

    // Usage comes exactly where the words are not in the grammar, and then nothing was asked of any object.
    ensures usage { (result.status ≡ 1) ↔ (¬ GiveConvert (map string_bytes words.now)) }
    ensures place { (at : ℕ) → result.cause ≡ Cause.Usage at → IsUsagePlace (map string_bytes words.now) at }
    ensures unasked { result.status ≡ 1 → raws.new.items ≡ raws.old.items }
    ensures bay_unasked { result.status ≡ 1 → bay.new ≡ bay.old }
{
    match read_words(words) {
        Ok(Command::Convert(words)) => Done::of(convert_volume(rt, alloc, &words, raws, bay)),
        Ok(Command::Cut(_)) => unreachable!(),
        Ok(Command::Info) => unreachable!(),
        Ok(Command::Query(_)) => unreachable!(),
        Ok(Command::Check { .. }) => unreachable!(),
        Ok(Command::Serve(_)) => unreachable!(),
        Ok(Command::Drill { .. }) => unreachable!(),
        Err(misread) => Done::of(Cause::Usage { at: misread.at }),
    }
}

/// Writes the step that the words ask for out of the first raw volumes, at its next revision, and puts the header text that
/// they ask for where none stands.
fn convert_volume<V: Source + Send, B: Bay, T: Threads + Sync>(
    rt: &T,
    alloc: Global,
    words: &ConvertWords<'_>,
    raws: &mut Vec<V>,
    bay: &mut B,
) -> Cause
where
    B::Draft: Send,
    B::Leaf: Send,
    requires some { 0 < vec_len raws.old }
    requires alike { HaveSame V.contents raws.old.items }
    requires one { 1 ≤ words.now.ranks }
    requires few { words.now.ranks ≤ 256 }
    ensures { ConvertEnds words.now (raws_seen V.contents V.faults V.asked raws.old.items raws.new.items)
        (bay_seen B.header B.files B.begun B.changes B.failed B.faults bay.old bay.new) result }
{
    let Ok(text) = words.header_text(alloc) else {
        return Cause::NoMemory;
    };
    match convert(
        rt,
        alloc,
        text.as_slice(),
        words.step,
        words.ranks,
        words.layout,
        raws,
        bay,
    ) {
        Ok(()) => Cause::Done,
        Err(fault) => cause_of(words.step, fault),
    }
}

/// The cause of a run that ends with this fault.
fn cause_of(step: u64, fault: ConvertFault) -> Cause
    ensures { result ≡ cause_of_fault step fault }
{
    match fault {
        ConvertFault::Header { line, kind } => Cause::Header { line, kind },
        ConvertFault::NoStep => Cause::NoStep { time: step },
        ConvertFault::TooLarge { bytes } => Cause::TooLarge { bytes },
        ConvertFault::OtherHeader => Cause::OtherHeader,
        ConvertFault::AlreadyPublished => Cause::AlreadyPublished { time: step },
        ConvertFault::RawWrongSize { want, found } => Cause::RawWrongSize { want, found },
        ConvertFault::RawFault => Cause::RawFault,
        ConvertFault::StoreFault => Cause::StoreFault,
        ConvertFault::NoMemory => Cause::NoMemory,
    }
}
