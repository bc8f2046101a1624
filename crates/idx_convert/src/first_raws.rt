ghost use Rattle.std.specs.Prelude.{◌≡◌, ◌+◌, ◌++◌, ◌<◌, ◌≤◌, ℕ, [], IfErr, List, OnOk, drop, map, min, vec_capacity, vec_len};
ghost use Rattle.std.specs.Option.{ForSome};
ghost use Rattle.idx_outside.specs.Cause.{NeverFalls};
ghost use Rattle.idx_outside.specs.Files.{HasStep as HasCommitted, LiesIn};
ghost use Rattle.idx_outside.specs.Counts.{EachMeetsOnce};
ghost use Rattle.idx_outside.specs.Objects.{SameContents, contents_at};
ghost use Rattle.idx_seal.specs.Rows.{MeetsOnceOrRow};
ghost use Rattle.idx_header.specs.Names.{step_folder};
ghost use Rattle.idx_gather.specs.Gather.{HasFolder, HasVolume, HaveSame, IsCaused, LeavesAs, LeavesFailed, NoneFalls, SomeStepAddedAs};

use idx_edition::Edition;
use idx_gather::{GatherFault, gather_as};
use idx_header::Header;
use idx_outside::{Bay, FreeGate, Source};
use idx_rowmajor::Layout;
use std::alloc::Global;
use std::mem;
use std::thread::Threads;

/// Gathers a step in a layout out of the first raw volumes, one for each rank. The others are as they were; for moving them
/// there is memory before any is asked for bytes.
pub(crate) fn gather_first<V: Source + Send, B: Bay, R: Threads + Sync>(
    rt: &R,
    alloc: Global,
    header: &Header,
    step: u64,
    ranks: u32,
    layout: Layout,
    raws: &mut Vec<V>,
    bay: &mut B,
) -> Result<Edition<B::Leaf>, GatherFault>
where
    B::Draft: Send,
    B::Leaf: Send,
    requires some { 0 < vec_len raws.old }
    requires one { 1 ≤ ranks }
    requires few { ranks ≤ 256 }
    requires alike { HaveSame V.contents raws.old.items }
    requires size { HasVolume header.now (contents_at V.contents raws.old.items 0) }
    requires folder { HasFolder header.now step }
    requires begun { ForSome (step_folder header.now step)
        (λ folder. (path : List ℕ) → LiesIn folder path → B.admits bay.old path) }
    requires new { ForSome (step_folder header.now step)
        (λ folder. ForSome (B.files bay.old) (λ files. ¬ HasCommitted folder files)) }
    ensures added { OnOk result (SomeStepAddedAs layout header.now step (contents_at V.contents raws.old.items 0)
        (B.files bay.old) (B.files bay.new)) }
    ensures cause { IfErr result (IsCaused header.now (contents_at V.contents raws.old.items 0)
        (map V.faults raws.old.items) (map V.faults raws.new.items) (B.faults bay.old) (B.faults bay.new)) }
    ensures leaves { IfErr result (LeavesAs layout header.now step (contents_at V.contents raws.old.items 0)
        (B.files bay.old) (B.files bay.new)) }
    ensures begun { B.begun bay.new ≡ B.begun bay.old }
    ensures failed { LeavesFailed (B.files bay.old) (B.files bay.new) (B.failed bay.old) (B.failed bay.new) result }
    ensures raw_quiet { OnOk result (map V.faults raws.new.items ≡ map V.faults raws.old.items) }
    ensures quiet { OnOk result (B.faults bay.new ≡ B.faults bay.old) }
    ensures same { SameContents V.contents raws.old.items raws.new.items }
    ensures idle { drop (min ranks (vec_len raws.old)) raws.new.items
        ≡ drop (min ranks (vec_len raws.old)) raws.old.items }
    ensures raw_count { NoneFalls (map V.faults raws.old.items) (map V.faults raws.new.items) }
    ensures raw_once { EachMeetsOnce (map V.faults raws.old.items) (map V.faults raws.new.items) }
    ensures header { B.header bay.new ≡ B.header bay.old }
    ensures count { NeverFalls (B.faults bay.old) (B.faults bay.new) }
    ensures once { MeetsOnceOrRow (B.failed bay.new) ranks (B.faults bay.old) (B.faults bay.new) }
{
    let used = raws.len().min(ranks as usize);
    let Ok(mut rest) = Vec::with_capacity(alloc, raws.len()) else {
        return Err(GatherFault::NoMemory);
    };
    keep_first(used, raws, &mut rest);
    let gathered = gather_as(rt, alloc, header, step, raws, bay, layout, &FreeGate);
    put_back(rest, raws);
    gathered
}

/// Moves all but the first so many objects of a list to another one, which is empty and has room for the list.
fn keep_first<V>(used: usize, from: &mut Vec<V>, rest: &mut Vec<V>)
    requires some { used ≤ vec_len from.old }
    requires empty { rest.old.items ≡ [] }
    requires room { vec_len from.old ≤ vec_capacity rest.old }
    ensures split { from.old.items ≡ from.new.items ++ rest.new.items }
    ensures first { vec_len from.new ≡ used }
    ensures room { used + vec_len rest.new ≤ vec_capacity rest.new }
{
    let others = from.len() - used;
    move_last(others, from, rest);
}

/// Puts objects behind those of a list. Their own list has room for both.
fn put_back<V>(rest: Vec<V>, into: &mut Vec<V>)
    requires { vec_len into.old + vec_len rest ≤ vec_capacity rest }
    ensures { into.new.items ≡ into.old.items ++ rest.items }
{
    let mut all = rest;
    let count = into.len();
    move_last(count, into, &mut all);
    mem::replace(into, all).destroy_empty();
}

/// Moves so many objects from the end of one list to the front of another, which has room for them. They keep their order.
pub fn move_last<V>(count: usize, from: &mut Vec<V>, to: &mut Vec<V>)
    requires some { count ≤ vec_len from.old }
    requires room { vec_len to.old + count ≤ vec_capacity to.old }
    ensures joined { from.new.items ++ to.new.items ≡ from.old.items ++ to.old.items }
    ensures left { vec_len from.new + count ≡ vec_len from.old }
    ensures there { vec_len to.new ≡ vec_len to.old + count }
    ensures capacity { vec_capacity to.old ≤ vec_capacity to.new }
{
    for moved in 0..count {
        let object = from.pop().unwrap();
        to.insert(0, object).unwrap();
    }
}
