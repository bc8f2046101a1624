ghost use Rattle.std.specs.Prelude.{◌≤◌, All, IfOk, map};
ghost use Rattle.idx_ranks.specs.Loads.{IsLoad};
ghost use Rattle.idx_aggregate.specs.Docks.{AreReady, Gain};

use crate::delivery::deliver_all;
use crate::job::Job;
use crate::workers::{deal, run_all};
use idx_dock::Dock;
use idx_header::Header;
use idx_outside::{Gate, NoMemory};
use idx_ranks::Load;
use std::alloc::Global;
use std::thread::Threads;

/// Assembles the pieces of loads, puts them into hierarchical order and hands their samples to the docks of the files,
/// which come back. Load j, counted from 0, is put in order by worker j mod `workers`, and each worker goes through its
/// loads in their order, in a thread of its own where one can be had. When all have done so, the calling thread hands on
/// what they made, worker after worker. Samples for files without a dock are dropped, and no sample is copied on its way
/// into a dock. Where there are loads, each worker passes the gate as `Shipped` when its loads are in order, or at once
/// where it has none. `NoMemory` where a worker, or the list of the workers' loads, found no memory.
pub fn ship_loads<G: Gate, R: Threads + Sync>(
    rt: &R,
    alloc: Global,
    header: &Header,
    loads: Vec<Load>,
    docks: Vec<Dock>,
    workers: u32,
    gate: &G,
) -> Result<Vec<Dock>, NoMemory>
    requires some { 1 ≤ workers }
    requires few { workers ≤ 256 }
    requires loads { All (IsLoad header.now) loads.items }
    requires ready { AreReady header.now (map (λ load. load.piece) loads.items) docks.items }
    ensures { IfOk result (λ done. Gain header.now loads.items docks.items done.items) }
{
    let _valid = header.axes();
    if loads.is_empty() {
        return Ok(docks);
    }
    let mut docks = docks;
    let mut jobs = deal(alloc, loads, workers)?;
    run_all(rt, alloc, header, &mut jobs, gate);
    for job in jobs {
        let Job {
            loads: _loads,
            made,
        } = job;
        deliver_all(&mut docks, made?);
    }
    Ok(docks)
}
