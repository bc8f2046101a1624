//! The files of a row: as many as there are workers.
ghost use Rattle.std.specs.Prelude.{◌≡◌, ◌+◌, ◌<◌, ◌≤◌, ◌++◌, ℕ, All, None, OnOk, map, vec_capacity, vec_len};
ghost use Rattle.std.specs.List.{AllByRecursion};
ghost use Rattle.std.specs.Vec.Iter.{into_iter_items, into_iter_len};
ghost use Rattle.idx_outside.specs.Files.{known_files, shown};
ghost use Rattle.idx_header.specs.Names.{file_name};
ghost use Rattle.idx_dock.specs.Dock.{missing};
ghost use Rattle.idx_seal.specs.Bay.{Answers, Keeps};
ghost use Rattle.idx_seal.specs.Files.{dock_file};
ghost use Rattle.idx_seal.specs.Jobs.{IsFinished};
ghost use Rattle.idx_seal.specs.Rows.{MeetsOnceOrRow};

use crate::giving_up::give_all_up;
use crate::leaves::take_leaves;
use crate::opening::open_row;
use crate::writing::{any_failed, write_all};
use idx_dock::Dock;
use idx_header::Header;
use idx_outside::{Bay, BayFault, Bytes, Gate};
use idx_rowmajor::Layout;
use std::alloc::Global;
use std::thread::Threads;
use std::vec::IntoIter;

/// Writes and seals the next docks, at most one a worker, and puts their leaves behind those of the rows before. After
/// a refusal all drafts of the row were handed back, in the order of the files.
pub(crate) fn seal_row<B: Bay, G: Gate, R: Threads + Sync>(
    rt: &R,
    alloc: Global,
    header: &Header,
    step: u64,
    docks: &mut IntoIter<Dock, Global>,
    layout: Layout,
    workers: u32,
    bay: &mut B,
    gate: &G,
    leaves: &mut Vec<(Bytes, B::Leaf)>,
) -> Result<(), BayFault>
where
    B::Draft: Send,
    B::Leaf: Send,
    requires some { 0 < into_iter_len docks.old }
    requires workers { 1 ≤ workers }
    requires few { workers ≤ 256 }
    requires complete { AllByRecursion (λ d. missing d ≡ None) (into_iter_items docks.old) }
    requires admits { (file : ℕ) → B.admits bay.old (file_name header.now step file) }
    requires room { vec_len leaves.old + into_iter_len docks.old ≤ vec_capacity leaves.old }
    ensures leaves { OnOk result (shown B.Leaf.contents leaves.new.items
        ++ known_files (B.files bay.old) (map (dock_file layout header.now step) (into_iter_items docks.new))
        ≡ shown B.Leaf.contents leaves.old.items
        ++ known_files (B.files bay.old) (map (dock_file layout header.now step) (into_iter_items docks.old))) }
    ensures finished { OnOk result (All (IsFinished B.Leaf.path B.Leaf.faults (B.files bay.old)) leaves.old.items →
        All (IsFinished B.Leaf.path B.Leaf.faults (B.files bay.old)) leaves.new.items) }
    ensures fewer { OnOk result (into_iter_len docks.new < into_iter_len docks.old) }
    ensures complete { OnOk result (AllByRecursion (λ d. missing d ≡ None) (into_iter_items docks.new)) }
    ensures room { OnOk result (vec_len leaves.new + into_iter_len docks.new ≤ vec_capacity leaves.new) }
    ensures answers { Answers result (B.faults bay.old) (B.faults bay.new) (B.failed bay.old) (B.failed bay.new) }
    ensures once { MeetsOnceOrRow (B.failed bay.new) workers (B.faults bay.old) (B.faults bay.new) }
    ensures kept { Keeps B.header B.files B.begun B.admits B.faults bay.old bay.new }
{
    let left = docks.len();
    let count = left.min(workers as usize);
    let Ok(mut jobs) = Vec::with_capacity(alloc, count) else {
        return Err(BayFault::NoMemory);
    };
    if let Err(fault) = open_row(alloc, header, step, docks, layout, count, bay, &mut jobs) {
        give_all_up(bay, jobs);
        return Err(fault);
    }
    write_all(rt, &mut jobs, left.saturating_sub(workers as usize), gate);
    if any_failed(&jobs) {
        give_all_up(bay, jobs);
        return Err(BayFault::Outage);
    }
    take_leaves(jobs, leaves);
    Ok(())
}
