ghost use Rattle.std.specs.Prelude.{◌≡◌, ◌↔◌, ◌⊎◌, ℕ, ◌<◌, codes, map, string_bytes, vec_len};
ghost use Rattle.idx_outside.specs.Cause.{MeetsOnce, NeverFalls};
ghost use Rattle.idx_raw.specs.Cut as cuts;
ghost use Rattle.idx_words.specs.declared.command.Command.{Command};
ghost use Rattle.idx_words.specs.declared.cut_words.CutWords.{CutWords};
ghost use Rattle.idx_words.specs.CutGrammar.{IsSound};
ghost use Rattle.idx_words.specs.Words.{Give, GiveCut, IsUsagePlace};
ghost use Rattle.idx_commands.specs.Cause.{status_of};
ghost use Rattle.idx_commands.specs.CutOutput.{cut_of};
ghost use Rattle.idx_commands.specs.CutRun.{CutEnds, CutMeans, HasOtherSize, cause_of_cut};
ghost use Rattle.idx_commands.specs.Run.{AreNamed};
ghost use Rattle.idx_commands.specs.Seen.{raws_seen, sink_seen};

use crate::causes::{Cause, Done};
use idx_outside::{Sink, Source};
use idx_raw::{Cut, CutFault, cut};
use idx_words::{Command, CutWords, read_words};
use std::alloc::Global;

/// Does what the words ask for, whose first is `cut`, and says how it ended. The first refusal ends it, in this order: the
/// words, the length of the raw volume, reading it, writing. It uses the first raw volume alone.
pub fn run_cut<V: Source, K: Sink>(
    alloc: Global,
    words: &[String],
    raws: &mut Vec<V>,
    out: &mut K,
) -> Done
    requires some { 0 < vec_len raws.old }
    requires named { AreNamed (map string_bytes words.now) (codes "cut") }
    ensures status { result.status ≡ status_of result.cause }
    ensures cut { (c : CutWords) → Give (map string_bytes words.now) (Command.Cut c) →
        CutEnds c (raws_seen V.contents V.faults V.asked raws.old.items raws.new.items)
        (sink_seen K.contents K.faults out.old out.new) result.cause }

    // Usage comes exactly where the words are not in the grammar, and then nothing was asked of any object.
    ensures usage { (result.status ≡ 1) ↔ (¬ GiveCut (map string_bytes words.now)) }
    ensures place { (at : ℕ) → result.cause ≡ Cause.Usage at → IsUsagePlace (map string_bytes words.now) at }
    ensures unasked { result.status ≡ 1 → raws.new.items ≡ raws.old.items }
    ensures silent { result.status ≡ 1 → out.new ≡ out.old }
{
    match read_words(words) {
        Ok(Command::Cut(cut)) => Done::of(cut_first(alloc, &cut, raws, out)),
        Ok(Command::Info) => unreachable!(),
        Ok(Command::Convert(_)) => unreachable!(),
        Ok(Command::Query(_)) => unreachable!(),
        Ok(Command::Check { .. }) => unreachable!(),
        Ok(Command::Serve(_)) => unreachable!(),
        Ok(Command::Drill { .. }) => unreachable!(),
        Err(misread) => Done::of(Cause::Usage { at: misread.at }),
    }
}

/// Does what the values of the words ask for, over the first raw volume.
#[tactic(auto, using(crate::proofs::CutLemmas::cut_ends))]
fn cut_first<V: Source, K: Sink>(
    alloc: Global,
    words: &CutWords,
    raws: &mut Vec<V>,
    out: &mut K,
) -> Cause
    requires some { 0 < vec_len raws.old }
    requires sound { IsSound words.now }
    ensures { CutEnds words.now (raws_seen V.contents V.faults V.asked raws.old.items raws.new.items)
        (sink_seen K.contents K.faults out.old out.new) result }
{
    cut_volume(alloc, words, &mut raws[0], out)
}

/// Cuts out what the words ask for, and then writes it in one piece.
fn cut_volume<V: Source, K: Sink>(
    alloc: Global,
    words: &CutWords,
    raw: &mut V,
    out: &mut K,
) -> Cause
    requires { IsSound words.now }
    ensures means { CutMeans words.now (V.contents raw.old) (V.faults raw.old) (V.faults raw.new)
        (sink_seen K.contents K.faults out.old out.new) result }
    ensures raw_unread { (status_of result ≡ 3) ⊎ HasOtherSize words.now (V.contents raw.old) →
        V.asked raw.new ≡ V.asked raw.old }
    ensures raw_same { V.contents raw.new ≡ V.contents raw.old }
    ensures raw_count { NeverFalls (V.faults raw.old) (V.faults raw.new) }
    ensures raw_once { MeetsOnce (V.faults raw.old) (V.faults raw.new) }
    ensures raw_answered { V.faults raw.old < V.faults raw.new → result ≡ Cause.RawFault }
    ensures sink_count { NeverFalls (K.faults out.old) (K.faults out.new) }
    ensures sink_once { MeetsOnce (K.faults out.old) (K.faults out.new) }
    ensures sink_answered { K.faults out.old < K.faults out.new → result ≡ Cause.SinkFault }
{
    let samples = match cut(alloc, &asked_of(words), raw) {
        Ok(samples) => samples,
        Err(fault) => return cause_of(fault),
    };
    match out.write(&samples) {
        Ok(()) => Cause::Done,
        Err(_) => Cause::SinkFault,
    }
}

/// What the values of the words ask to be cut.
#[tactic(auto, using(crate::proofs::CutLemmas::cut_sound))]
fn asked_of(words: &CutWords) -> Cut
    requires { IsSound words.now }
    ensures asked { result ≡ cut_of words.now }
    ensures sound { cuts.IsSound result }
{
    let (lo, hi) = words.levels();
    Cut {
        size: words.size,
        extent: words.extent,
        mask: words.mask,
        region: words.region,
        lo,
        hi,
    }
}

/// The cause of a run that ends since nothing was cut.
fn cause_of(fault: CutFault) -> Cause
    ensures { result ≡ cause_of_cut fault }
{
    match fault {
        CutFault::RawWrongSize { want, found } => Cause::RawWrongSize { want, found },
        CutFault::RawFault => Cause::RawFault,
        CutFault::NoMemory => Cause::NoMemory,
    }
}
