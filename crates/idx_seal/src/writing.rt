//! The jobs of a row, run by workers.
ghost use Rattle.std.specs.Prelude.{◌≡◌, ◌<◌, ◌^◌, ℕ, All, length, slice_index_or, true, vec_len};
ghost use Rattle.std.specs.List.{list_any};
ghost use Rattle.idx_seal.specs.Jobs.{IsOpen, Writes, has_failed};
ghost use Rattle.idx_seal.specs.declared.job.Job.{Job as AJob};

use crate::job::Job;
use crate::written::Written;
use idx_outside::{Draft, Gate, GatePlace};
use std::thread;
use std::thread::Threads;

/// Runs the jobs of a row, each by a worker of its own, in a thread of its own where one can be made. A worker passes
/// the gate when it has sealed the last of its files: those from the place `last` of the row on.
pub(crate) fn write_all<D: Draft + Send, G: Gate, R: Threads + Sync>(
    rt: &R,
    jobs: &mut Vec<Job<D, D::Leaf>>,
    last: usize,
    gate: &G,
)
where
    D::Leaf: Send,
    requires some { 0 < vec_len jobs.old }
    requires few { vec_len jobs.old < 2 ^ 32 }
    requires open { All (IsOpen D.contents) jobs.old.items }
    ensures number { vec_len jobs.new ≡ vec_len jobs.old }
    ensures each { (i : ℕ) (d : AJob D D.Leaf) → i < vec_len jobs.old →
        Writes D.contents D.path D.faults D.Leaf.contents D.Leaf.path D.Leaf.faults
        (slice_index_or jobs.old.items i d) (slice_index_or jobs.new.items i d) }
{
    let workers = jobs.len();
    thread::for_each_mut(
        rt,
        jobs.as_mut_slice(),
        workers,
        &|i: usize, job: &mut Job<D, D::Leaf>|
            requires { (i < 2 ^ 32) × IsOpen D.contents job.old }
            ensures { Writes D.contents D.path D.faults D.Leaf.contents D.Leaf.path D.Leaf.faults job.old job.new }
        {
            let sealed = job.run();
            if sealed && last <= i {
                gate.pass(GatePlace::Sealed, i as u32);
            }
        },
    );
}

/// Whether some draft came back.
pub(crate) fn any_failed<D, L>(jobs: &[Job<D, L>]) -> bool
    ensures { result ≡ list_any has_failed jobs.now }
{
    for job in jobs {
        if let Some(Written::Failed(_)) = &job.file {
            return true;
        }
    }
    false
}
