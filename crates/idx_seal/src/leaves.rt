//! The leaves of a row whose files were all sealed.
ghost use Rattle.std.specs.Prelude.{◌≡◌, ◌+◌, ◌≤◌, ◌++◌, All, List, Option, map, true, vec_capacity, vec_len};
ghost use Rattle.std.specs.List.{AllByRecursion};
ghost use Rattle.idx_outside.specs.Files.{shown};
ghost use Rattle.idx_outside.specs.declared.mem_file.MemFile.{MemFile};
ghost use Rattle.idx_seal.specs.Jobs.{Finishes, IsFinished, is_sealed, job_shown};

use crate::job::Job;
use crate::written::Written;
use idx_outside::{Bytes, Leaf};

/// Puts the leaves of files that were all sealed behind others, in order. Takes no memory.
pub(crate) fn take_leaves<D, L: Leaf>(jobs: Vec<Job<D, L>>, leaves: &mut Vec<(Bytes, L)>)
    requires sealed { AllByRecursion (λ job. is_sealed job.file ≡ true) jobs.items }
    requires room { vec_len leaves.old + vec_len jobs ≤ vec_capacity leaves.old }
    ensures leaves { shown L.contents leaves.new.items ≡
        shown L.contents leaves.old.items ++ map (job_shown L.contents) jobs.items }
    ensures finished { (known : Option (List MemFile)) →
        AllByRecursion (Finishes L.path L.faults known) jobs.items →
        All (IsFinished L.path L.faults known) leaves.old.items →
        All (IsFinished L.path L.faults known) leaves.new.items }
    ensures number { vec_len leaves.new ≡ vec_len leaves.old + vec_len jobs }
    ensures room { vec_capacity leaves.old ≤ vec_capacity leaves.new }
{
    let mut left = jobs.into_iter();
    'jobs: while let Some(job) = left.next() {
        leaves.push(leaf_of(job)).unwrap();
    }
    left.destroy_empty();
}

/// The path and the leaf of a file that was sealed.
fn leaf_of<D, L: Leaf>(job: Job<D, L>) -> (Bytes, L)
    requires { is_sealed job.file ≡ true }
    ensures path { result.0 ≡ job.path }
    ensures leaf { job_shown L.contents job ≡ (result.0, L.contents result.1) }
    ensures finished { (known : Option (List MemFile)) → Finishes L.path L.faults known job →
        IsFinished L.path L.faults known result }
{
    let Job {
        path,
        layout: _layout,
        file,
    } = job;
    match file {
        Some(Written::Sealed(leaf)) => (path, leaf),
        Some(Written::Open(_dock, _draft)) => unreachable!(),
        Some(Written::Failed(_draft)) => unreachable!(),
        None => unreachable!(),
    }
}
