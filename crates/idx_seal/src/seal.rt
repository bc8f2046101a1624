ghost use Rattle.std.specs.Prelude.{◌≡◌, ◌≢◌, ◌≤◌, ℕ, All, Err, IfOk, None, OnOk, map};
ghost use Rattle.idx_outside.specs.Cause.{NeverFalls, Rose};
ghost use Rattle.idx_outside.specs.Files.{AllNamed, StillAdmits, known_files, known_with, shown};
ghost use Rattle.idx_header.specs.Names.{file_name};
ghost use Rattle.idx_dock.specs.Dock.{missing};
ghost use Rattle.idx_seal.specs.Bay.{IsSealCall};
ghost use Rattle.idx_seal.specs.Files.{dock_file};
ghost use Rattle.idx_seal.specs.Rows.{MeetsOnceOrRow};

use crate::row::seal_row;
use idx_dock::Dock;
use idx_header::Header;
use idx_outside::{Bay, BayFault, Bytes, Gate};
use idx_rowmajor::Layout;
use std::alloc::Global;
use std::thread::Threads;

/// Writes complete docks to drafts of a bay by so many workers, and seals them: the paths of their files of a step,
/// each with its leaf, in the order of the docks. The paths are those of the header, the bytes those of the docks in a
/// layout. Each file was made for its path, and no call on its draft has failed.
///
/// The files are written in rows of as many as there are workers, so that the dock at place `j` is written by the
/// worker `j % workers`, and the memory of the docks of a row is free before the next row begins. A worker passes the
/// gate as `Sealed` when it has sealed the last of its files. All memory of a row is taken before a dock is written.
///
/// After a refusal each draft was sealed or handed back. `Outage` exactly where the bay's count of faults rose: a draft
/// could not be made, or one that counted a fault was given up. Such a fault goes before want of memory.
pub fn seal_docks<B: Bay, G: Gate, R: Threads + Sync>(
    rt: &R,
    alloc: Global,
    header: &Header,
    step: u64,
    docks: Vec<Dock>,
    layout: Layout,
    workers: u32,
    bay: &mut B,
    gate: &G,
) -> Result<Vec<(Bytes, B::Leaf)>, BayFault>
where
    B::Draft: Send,
    B::Leaf: Send,
    requires some { 1 ≤ workers }
    requires few { workers ≤ 256 }
    requires complete { All (λ d. missing d ≡ None) docks.items }
    requires admits { (file : ℕ) → B.admits bay.old (file_name header.now step file) }
    ensures leaves { IfOk result (λ leaves. shown B.Leaf.contents leaves.items ≡
        known_files (B.files bay.old) (map (dock_file layout header.now step) docks.items)) }
    ensures named { IfOk result (λ leaves. AllNamed B.Leaf.path leaves.items) }
    ensures paths { IfOk result (λ leaves.
        All (λ entry. B.Leaf.path entry.1 ≡ known_with (B.files bay.old) entry.0) leaves.items) }
    ensures faultless { IfOk result (λ leaves. All (λ entry. B.Leaf.faults entry.1 ≡ 0) leaves.items) }
    ensures files { B.files bay.new ≡ B.files bay.old }
    ensures header { B.header bay.new ≡ B.header bay.old }
    ensures begun { B.begun bay.new ≡ B.begun bay.old }
    ensures still { StillAdmits B.admits bay.old bay.new }
    ensures failed { result ≡ Err BayFault.Outage → IsSealCall (B.failed bay.new) }
    ensures unfailed { result ≢ Err BayFault.Outage → B.failed bay.new ≡ B.failed bay.old }
    ensures count { NeverFalls (B.faults bay.old) (B.faults bay.new) }
    ensures once { MeetsOnceOrRow (B.failed bay.new) workers (B.faults bay.old) (B.faults bay.new) }
    ensures quiet { OnOk result (B.faults bay.new ≡ B.faults bay.old) }
    ensures no_memory { result ≡ Err BayFault.NoMemory → B.faults bay.new ≡ B.faults bay.old }
    ensures outage { result ≡ Err BayFault.Outage → Rose (B.faults bay.old) (B.faults bay.new) }
{
    let mut leaves = Vec::with_capacity(alloc, docks.len())?;
    let mut docks = docks.into_iter();
    'rows: while docks.len() > 0 {
        seal_row(
            rt,
            alloc,
            header,
            step,
            &mut docks,
            layout,
            workers,
            bay,
            gate,
            &mut leaves,
        )?;
    }
    Ok(leaves)
}
