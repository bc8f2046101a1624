//! Loads are dealt out to workers, each of which puts its own in order.
ghost use Rattle.std.specs.Prelude.{◌≡◌, ℕ, ◌<◌, ◌≤◌, ◌^◌, [], ◌∷◌, All, IfOk, OnOk, slice_index_or, vec_len};
ghost use Rattle.std.specs.List.Sorted.{IsPermutation};
ghost use Rattle.idx_aggregate.specs.Jobs.{Does, MayRun, loads_of};
ghost use Rattle.idx_aggregate.specs.declared.job.Job.{Job as AJob};

use crate::job::Job;
use idx_header::Header;
use idx_outside::{Gate, GatePlace, NoMemory};
use idx_ranks::Load;
use std::alloc::Global;
use std::collections::VecDeque;
use std::thread;
use std::thread::Threads;

/// A job for each worker: load j, counted from 0, is for worker j mod `workers`.
pub(crate) fn deal(alloc: Global, loads: Vec<Load>, workers: u32) -> Result<Vec<Job>, NoMemory>
    requires some { 1 ≤ workers }
    ensures dealt { IfOk result (λ jobs. IsPermutation loads.items (loads_of jobs.items)) }
    ensures number { IfOk result (λ jobs. vec_len jobs ≡ workers) }
{
    let mut jobs = idle_jobs(alloc, workers)?;
    let mut worker = 0;
    for load in loads {
        give(&mut jobs, worker, load)?;
        worker = (worker + 1) % workers as usize;
    }
    Ok(jobs)
}

/// A job without loads for each worker.
fn idle_jobs(alloc: Global, workers: u32) -> Result<Vec<Job>, NoMemory>
    ensures none { IfOk result (λ jobs. loads_of jobs.items ≡ []) }
    ensures number { IfOk result (λ jobs. vec_len jobs ≡ workers) }
{
    let mut jobs = Vec::with_capacity(alloc, workers as usize)?;
    for worker in 0..workers {
        jobs.push(Job {
            loads: VecDeque::new(alloc),
            made: Err(NoMemory),
        })?;
    }
    Ok(jobs)
}

/// Gives a load to a worker.
fn give(jobs: &mut Vec<Job>, worker: usize, load: Load) -> Result<(), NoMemory>
    requires { worker < vec_len jobs.old }
    ensures given { OnOk result (IsPermutation (load ∷ loads_of jobs.old.items) (loads_of jobs.new.items)) }
    ensures number { vec_len jobs.new ≡ vec_len jobs.old }
{
    jobs[worker].loads.push_back(load)?;
    Ok(())
}

/// Runs the jobs of all workers, each in a thread of its own where one can be had. Each worker passes the gate behind its
/// job.
pub(crate) fn run_all<G: Gate, R: Threads + Sync>(
    rt: &R,
    alloc: Global,
    header: &Header,
    jobs: &mut Vec<Job>,
    gate: &G,
)
    requires some { 0 < vec_len jobs.old }
    requires few { vec_len jobs.old < 2 ^ 32 }
    requires loads { All (MayRun header.now) jobs.old.items }
    ensures number { vec_len jobs.new ≡ vec_len jobs.old }
    ensures each { (i : ℕ) (d : AJob) → i < vec_len jobs.old →
        Does header.now (slice_index_or jobs.old.items i d) (slice_index_or jobs.new.items i d) }
{
    let workers = jobs.len();
    thread::for_each_mut(
        rt,
        jobs.as_mut_slice(),
        workers,
        &|i: usize, job: &mut Job|
            requires { (i < 2 ^ 32) × MayRun header.now job.old }
            ensures { Does header.entry.now job.old job.new }
        {
            job.run(alloc, header);
            gate.pass(GatePlace::Shipped, i as u32);
        },
    );
}
