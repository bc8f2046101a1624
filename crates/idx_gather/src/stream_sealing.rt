//! The second half of a turn of a stream: the aggregators that miss nothing are written and sealed.
ghost use Rattle.std.specs.Prelude.{◌≡◌, ◌++◌, ℕ, [], All, IfErr, IfOk, OnOk, length, map};
ghost use Rattle.std.specs.List.{zip};
ghost use Rattle.idx_outside.specs.Cause.{NeverFalls};
ghost use Rattle.idx_outside.specs.Files.{AllNamed, StillAdmits};
ghost use Rattle.idx_header.specs.Names.{file_name};
ghost use Rattle.idx_dock.specs.Dock.{IsDock};
ghost use Rattle.idx_seal.specs.Rows.{MeetsOnceOrRow};
ghost use Rattle.idx_gather.specs.Gather.{IsStoreFault, LeavesFailed};
ghost use Rattle.idx_gather.specs.States.{AreFull};
ghost use Rattle.idx_gather.specs.Streams.{dock_entry, full_docks, numbered, other_docks};

use crate::docks::look_over;
use crate::stream::Stream;
use crate::{GatherFault, Opening};
use idx_dock::Dock;
use idx_outside::{Bay, Bytes, Gate, Leaf, NoMemory};
use idx_seal::seal_docks;
use std::alloc::Global;
use std::thread::Threads;

/// Writes and seals the files of the aggregators that miss nothing, with as many workers as there are ranks. After a
/// refusal every draft was given up.
pub(crate) fn seal_full<B: Bay, G: Gate, R: Threads + Sync>(
    rt: &R,
    alloc: Global,
    stream: Stream<B::Leaf>,
    bay: &mut B,
    gate: &G,
) -> Result<Stream<B::Leaf>, GatherFault>
where
    B::Draft: Send,
    B::Leaf: Send,
    requires admits { (file : ℕ) → B.admits bay.old (file_name stream.opening.header stream.opening.step file) }
    ensures opening { IfOk result (λ next. next.opening ≡ stream.opening) }
    ensures left { IfOk result (λ next. next.left.items ≡ stream.left.items) }
    ensures docks { IfOk result (λ next. next.docks.items ≡ other_docks stream.docks.items) }
    ensures sealed { IfOk result (λ next. numbered B.Leaf.contents next.sealed.items ≡
        numbered B.Leaf.contents stream.sealed.items
        ++ map (dock_entry stream.opening.layout stream.opening.header stream.opening.step (B.files bay.old)) (full_docks stream.docks.items)) }
    ensures valid { IfOk result (λ next. All IsDock stream.docks.items) }
    ensures cause { IfErr result (IsStoreFault (B.faults bay.old) (B.faults bay.new)) }
    ensures files { B.files bay.new ≡ B.files bay.old }
    ensures header { B.header bay.new ≡ B.header bay.old }
    ensures begun { B.begun bay.new ≡ B.begun bay.old }
    ensures still { StillAdmits B.admits bay.old bay.new }
    ensures failed { LeavesFailed (B.files bay.old) (B.files bay.new) (B.failed bay.old) (B.failed bay.new) result }
    ensures count { NeverFalls (B.faults bay.old) (B.faults bay.new) }
    ensures once { MeetsOnceOrRow (B.failed bay.new) stream.opening.ranks (B.faults bay.old) (B.faults bay.new) }
    ensures quiet { OnOk result (B.faults bay.new ≡ B.faults bay.old) }
{
    let Stream {
        opening,
        docks,
        left,
        mut sealed,
    } = stream;
    look_over(&docks);
    let (full, others) = split_full(alloc, docks)?;
    seal_more(rt, alloc, &opening, full, bay, gate, &mut sealed)?;
    Ok(Stream {
        opening,
        docks: others,
        left,
        sealed,
    })
}

/// Those of some docks that miss nothing, and the others.
fn split_full(alloc: Global, docks: Vec<Dock>) -> Result<(Vec<Dock>, Vec<Dock>), NoMemory>
    ensures full { IfOk result (λ parts. parts.0.items ≡ full_docks docks.items) }
    ensures others { IfOk result (λ parts. parts.1.items ≡ other_docks docks.items) }
{
    let mut full = Vec::new(alloc);
    let mut others = Vec::new(alloc);
    for dock in docks {
        if dock.missing().is_none() {
            full.push(dock)?;
        } else {
            others.push(dock)?;
        }
    }
    Ok((full, others))
}

/// Writes and seals the files of some docks, and puts them behind those that are sealed.
fn seal_more<B: Bay, G: Gate, R: Threads + Sync>(
    rt: &R,
    alloc: Global,
    opening: &Opening<B::Leaf>,
    docks: Vec<Dock>,
    bay: &mut B,
    gate: &G,
    sealed: &mut Vec<(u64, (Bytes, B::Leaf))>,
) -> Result<(), GatherFault>
where
    B::Draft: Send,
    B::Leaf: Send,
    requires full { AreFull docks.items }
    requires admits { (file : ℕ) → B.admits bay.old (file_name opening.now.header opening.now.step file) }
    ensures sealed { OnOk result (numbered B.Leaf.contents sealed.new.items ≡
        numbered B.Leaf.contents sealed.old.items
        ++ map (dock_entry opening.now.layout opening.now.header opening.now.step (B.files bay.old)) docks.items) }
    ensures named { OnOk result (AllNamed B.Leaf.path (map (λ entry. entry.1) sealed.old.items) →
        AllNamed B.Leaf.path (map (λ entry. entry.1) sealed.new.items)) }
    ensures cause { IfErr result (IsStoreFault (B.faults bay.old) (B.faults bay.new)) }
    ensures files { B.files bay.new ≡ B.files bay.old }
    ensures header { B.header bay.new ≡ B.header bay.old }
    ensures begun { B.begun bay.new ≡ B.begun bay.old }
    ensures still { StillAdmits B.admits bay.old bay.new }
    ensures failed { LeavesFailed (B.files bay.old) (B.files bay.new) (B.failed bay.old) (B.failed bay.new) result }
    ensures count { NeverFalls (B.faults bay.old) (B.faults bay.new) }
    ensures once { MeetsOnceOrRow (B.failed bay.new) opening.now.ranks (B.faults bay.old) (B.faults bay.new) }
    ensures quiet { OnOk result (B.faults bay.new ≡ B.faults bay.old) }
{
    let numbers = numbers_of(alloc, &docks)?;
    let leaves = seal_docks(
        rt,
        alloc,
        &opening.header,
        opening.step,
        docks,
        opening.layout,
        opening.ranks,
        bay,
        gate,
    );
    match leaves {
        Ok(leaves) => {
            number(numbers, leaves, sealed)?;
            Ok(())
        }
        Err(fault) => Err(GatherFault::of_bay(fault, bay)),
    }
}

/// The numbers of the files of docks.
fn numbers_of(alloc: Global, docks: &[Dock]) -> Result<Vec<u64>, NoMemory>
    ensures { IfOk result (λ numbers. numbers.items ≡ map (λ d. d.file) docks.now) }
{
    let mut numbers = Vec::with_capacity(alloc, docks.len())?;
    for dock in docks {
        numbers.push(dock.file())?;
    }
    Ok(numbers)
}

/// Puts leaves behind those that are sealed, each with its number.
fn number<L: Leaf>(
    numbers: Vec<u64>,
    leaves: Vec<(Bytes, L)>,
    sealed: &mut Vec<(u64, (Bytes, L))>,
) -> Result<(), NoMemory>
    requires many { length numbers.items ≡ length leaves.items }
    ensures { OnOk result (sealed.new.items ≡ sealed.old.items ++ zip numbers.items leaves.items) }
{
    let mut leaves = leaves.into_iter();
    for file in numbers {
        let Some(leaf) = leaves.next() else {
            unreachable!()
        };
        sealed.push((file, leaf))?;
    }
    Ok(())
}
