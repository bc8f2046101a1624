ghost use Rattle.std.specs.Prelude.{◌≡◌, ◌↔◌, ℕ, ◌≤◌, codes, map, string_bytes};
ghost use Rattle.idx_words.specs.declared.command.Command.{Command};
ghost use Rattle.idx_words.specs.Words.{Give, GiveDrill, IsUsagePlace};
ghost use Rattle.idx_commands.specs.Cause.{status_of};
ghost use Rattle.idx_commands.specs.DrillRun.{DrillEnds};
ghost use Rattle.idx_commands.specs.Run.{AreNamed};
ghost use Rattle.idx_commands.specs.Seen.{sink_seen};

use crate::causes::{Cause, Done};
use crate::drill_text::drill_text;
use idx_drill::drill;
use idx_outside::Sink;
use idx_words::{Command, read_words};
use std::alloc::Global;
use std::thread::Threads;

/// Does what the words ask for, whose first is `drill`, and says how it ended. The first refusal ends it, in this order: the
/// words, the drill, writing. It uses the sink alone.
pub(crate) fn run_drill<K: Sink, T: Threads + Sync>(
    rt: &T,
    alloc: Global,
    words: &[String],
    out: &mut K,
) -> Done
    requires named { AreNamed (map string_bytes words.now) (codes "drill") }
    ensures status { result.status ≡ status_of result.cause }
    ensures drill { (number : ℕ) → Give (map string_bytes words.now) (Command.Drill number) →
        DrillEnds number (sink_seen K.contents K.faults out.old out.new) result.cause }

    // Usage comes exactly where the words are not in the grammar, and then nothing was asked of any object.
    ensures usage { (result.status ≡ 1) ↔ (¬ GiveDrill (map string_bytes words.now)) }
    ensures place { (at : ℕ) → result.cause ≡ Cause.Usage at → IsUsagePlace (map string_bytes words.now) at }
    ensures silent { result.status ≡ 1 → out.new ≡ out.old }
{
    match read_words(words) {
        Ok(Command::Drill { number }) => Done::of(drill_first(rt, alloc, number, out)),
        Ok(Command::Cut(_)) => unreachable!(),
        Ok(Command::Info) => unreachable!(),
        Ok(Command::Convert(_)) => unreachable!(),
        Ok(Command::Query(_)) => unreachable!(),
        Ok(Command::Check { .. }) => unreachable!(),
        Ok(Command::Serve(_)) => unreachable!(),
        Err(misread) => Done::of(Cause::Usage { at: misread.at }),
    }
}

/// Does the drill of a number, and then writes what it says of itself in one piece.
#[tactic(auto, using(crate::proofs::DrillLemmas::drill_ends))]
fn drill_first<K: Sink, T: Threads + Sync>(rt: &T, alloc: Global, number: u32, out: &mut K) -> Cause
    requires some { 1 ≤ number }
    requires few { number ≤ 8 }
    ensures { DrillEnds number (sink_seen K.contents K.faults out.old out.new) result }
{
    let Ok(drilled) = drill(rt, alloc, number) else {
        return Cause::NoMemory;
    };
    let Ok(text) = drill_text(alloc, &drilled) else {
        return Cause::NoMemory;
    };
    match out.write(text.as_slice()) {
        Ok(()) => Cause::Done,
        Err(_) => Cause::SinkFault,
    }
}
