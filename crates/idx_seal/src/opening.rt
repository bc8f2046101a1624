//! The paths and the drafts of a row.
ghost use Rattle.std.specs.Prelude.{◌≡◌, ◌+◌, ◌≤◌, ◌++◌, ℕ, All, IfOk, None, OnOk, map, vec_capacity, vec_len};
ghost use Rattle.std.specs.List.{AllByRecursion};
ghost use Rattle.std.specs.Vec.Iter.{into_iter_items, into_iter_len};
ghost use Rattle.idx_outside.specs.Cause.{MeetsOnce};
ghost use Rattle.idx_header.specs.Names.{file_name};
ghost use Rattle.idx_dock.specs.Dock.{missing};
ghost use Rattle.idx_seal.specs.Bay.{Answers, Keeps};
ghost use Rattle.idx_seal.specs.Files.{dock_file};
ghost use Rattle.idx_seal.specs.Jobs.{IsOpened, planned};

use crate::job::Job;
use crate::written::Written;
use idx_dock::Dock;
use idx_header::Header;
use idx_outside::{Bay, BayFault};
use idx_rowmajor::Layout;
use std::alloc::Global;
use std::vec::IntoIter;

/// Takes so many docks, and makes a job of each in order, with the path and an empty draft of its file. After a refusal
/// the jobs that were made are there.
pub(crate) fn open_row<B: Bay>(
    alloc: Global,
    header: &Header,
    step: u64,
    docks: &mut IntoIter<Dock, Global>,
    layout: Layout,
    count: usize,
    bay: &mut B,
    jobs: &mut Vec<Job<B::Draft, B::Leaf>>,
) -> Result<(), BayFault>
    requires number { count ≤ into_iter_len docks.old }
    requires complete { AllByRecursion (λ d. missing d ≡ None) (into_iter_items docks.old) }
    requires admits { (file : ℕ) → B.admits bay.old (file_name header.now step file) }
    requires none { vec_len jobs.old ≡ 0 }
    requires room { count ≤ vec_capacity jobs.old }
    ensures opened { All (IsOpened B.Draft.contents B.Draft.path B.Draft.faults (B.files bay.old)) jobs.new.items }
    ensures planned { OnOk result (map planned jobs.new.items
        ++ map (dock_file layout header.now step) (into_iter_items docks.new)
        ≡ map (dock_file layout header.now step) (into_iter_items docks.old)) }
    ensures number { OnOk result (vec_len jobs.new ≡ count) }
    ensures left { OnOk result (into_iter_len docks.new + count ≡ into_iter_len docks.old) }
    ensures complete { OnOk result (AllByRecursion (λ d. missing d ≡ None) (into_iter_items docks.new)) }
    ensures answers { Answers result (B.faults bay.old) (B.faults bay.new) (B.failed bay.old) (B.failed bay.new) }
    ensures once { MeetsOnce (B.faults bay.old) (B.faults bay.new) }
    ensures kept { Keeps B.header B.files B.begun B.admits B.faults bay.old bay.new }
{
    for opened in 0..count {
        let Some(dock) = docks.next() else {
            unreachable!()
        };
        let job = open_file(alloc, header, step, dock, layout, bay)?;
        jobs.push(job).unwrap();
    }
    Ok(())
}

/// A job for a dock, which takes its buffers, with the path and an empty draft of its file.
fn open_file<B: Bay>(
    alloc: Global,
    header: &Header,
    step: u64,
    dock: Dock,
    layout: Layout,
    bay: &mut B,
) -> Result<Job<B::Draft, B::Leaf>, BayFault>
    requires complete { missing dock ≡ None }
    requires admits { B.admits bay.old (file_name header.now step dock.file) }
    ensures opened { IfOk result (IsOpened B.Draft.contents B.Draft.path B.Draft.faults (B.files bay.old)) }
    ensures planned { IfOk result (λ job. planned job ≡ dock_file layout header.now step dock) }
    ensures answers { Answers result (B.faults bay.old) (B.faults bay.new) (B.failed bay.old) (B.failed bay.new) }
    ensures once { MeetsOnce (B.faults bay.old) (B.faults bay.new) }
    ensures kept { Keeps B.header B.files B.begun B.admits B.faults bay.old bay.new }
{
    let mut dock = dock;
    dock.reserve(alloc, layout)?;
    let path = header.file_name(alloc, step, dock.file())?;
    let draft = bay.create(path.as_slice())?;
    Ok(Job {
        path,
        layout,
        file: Some(Written::Open(dock, draft)),
    })
}
