//! Laws of several runs, one after another.
ghost use Rattle.std.specs.Prelude.{◌≡◌, ◌≢◌, ◌↔◌, ◌<◌, map, vec_len, string_bytes};
ghost use Rattle.idx_outside.specs.Objects.{SameContents, contents_at};
ghost use Rattle.idx_gather.specs.Gather.{HaveSame};
ghost use Rattle.idx_words.specs.Words.{GiveCommand, GiveConvert};
ghost use Rattle.idx_commands.specs.Run.{GiveIngest, WroteAnswer};

use idx_commands::{Done, run};
use idx_outside::{Bay, Door, Reader, Sink, Source};
use std::alloc::Global;
use std::sync::Wait;
use std::thread::Threads;

/// Runs a command that writes no step twice, each time over a sink of its own, and says how each run ended. Both are
/// answered from what there was before the first: a question changes nothing that a later one is answered from. A sink is
/// untouched where its run ends with neither 0 nor 9.
pub fn ask_twice<
    V: Source + Send,
    B: Bay + Send,
    R: Reader<B::Leaf> + Send,
    K: Sink,
    D: Door + Send,
    T: Threads + Wait + Sync,
>(
    rt: &T,
    alloc: Global,
    words: &[String],
    raws: &mut Vec<V>,
    bay: &mut B,
    readers: &mut Vec<R>,
    first: &mut K,
    second: &mut K,
    doors: &mut Vec<D>,
) -> (Done, Done)
where
    B::Draft: Send,
    B::Leaf: Send + Sync,
    D::Link: Send,
    requires some { 0 < vec_len raws.old }
    requires reader { 0 < vec_len readers.old }
    requires door { 0 < vec_len doors.old }
    requires same { HaveSame V.contents raws.old.items }
    requires asks { ¬ GiveConvert (map string_bytes words.now) }
    requires only { ¬ GiveIngest (map string_bytes words.now) }
    ensures first { result.0.status ≡ 0 → WroteAnswer (map string_bytes words.now)
        (contents_at V.contents raws.old.items 0) (B.header bay.old) (B.files bay.old)
        (K.contents first.old) (K.contents first.new) }
    ensures second { result.1.status ≡ 0 → WroteAnswer (map string_bytes words.now)
        (contents_at V.contents raws.old.items 0) (B.header bay.old) (B.files bay.old)
        (K.contents second.old) (K.contents second.new) }
    ensures silent { result.0.status ≢ 0 → result.0.status ≢ 9 → first.new ≡ first.old }
    ensures silent_again { result.1.status ≢ 0 → result.1.status ≢ 9 → second.new ≡ second.old }
    ensures usage { (result.0.status ≡ 1) ↔ (¬ GiveCommand (map string_bytes words.now)) }
    ensures usage_again { (result.1.status ≡ 1) ↔ (¬ GiveCommand (map string_bytes words.now)) }
    ensures raws { SameContents V.contents raws.old.items raws.new.items }
    ensures header { B.header bay.new ≡ B.header bay.old }
    ensures files { B.files bay.new ≡ B.files bay.old }
    ensures changes { B.changes bay.new ≡ B.changes bay.old }
{
    let before = run(rt, alloc, words, raws, bay, readers, first, doors);
    let after = run(rt, alloc, words, raws, bay, readers, second, doors);
    (before, after)
}
