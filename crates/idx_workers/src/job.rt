ghost use Rattle.std.specs.Prelude.{◌<◌, ◌^◌, All, vec_len};
ghost use Rattle.idx_layout.specs.Shape.{shape_of};
ghost use Rattle.idx_serve.specs.Visits.{link_tells};
ghost use Rattle.idx_workers.specs.Jobs.{AllWork, IsReady, Works};
ghost use Rattle.idx_workers.specs.Workers.{tells};

use idx_hall::Hall;
use idx_lock::{Seat, TurnLock};
use idx_outside::{Blocks, Door, Gate, Reader};
use idx_serve::{Site, Summary, serve_door};
use std::alloc::Global;
use std::sync::Wait;
use std::thread;
use std::thread::Threads;

/// A worker's job: its door, its reader, its seat, and what came of it.
pub(crate) struct Job<S, D, R> {
    pub(crate) door: D,
    pub(crate) reader: R,
    /// The seat, unless it is out with the worker.
    pub(crate) place: Option<Seat<S>>,
    pub(crate) summary: Summary,
}

impl<E: Blocks + Drop, D: Door, R: Reader<E::Leaf>> Job<Hall<E>, D, R> {
    /// Serves the links of the door on the seat.
    fn run<G: Gate, H: Wait>(
        &mut self,
        rt: &H,
        alloc: Global,
        site: &Site,
        lock: &TurnLock<Hall<E>>,
        gate: &G,
        worker: u32,
    )
        requires { IsReady lock.now (shape_of site.now.header) self.old }
        ensures { Works
            (tells (link_tells D.Link.incoming D.Link.written D.Link.readings D.Link.faults)
            D.told D.faults R.faults R.reads)
            site.now self.old self.new }
    {
        let seat = self.place.take().unwrap();
        let mut chair = lock.chair(rt, seat);
        self.summary = serve_door(
            alloc,
            site,
            &mut chair,
            &mut self.reader,
            &mut self.door,
            gate,
            worker,
        );
        self.place = Some(chair.leave());
    }
}

/// Runs all jobs, each in a thread of its own where one can be had.
pub(crate) fn run_all<
    E: Blocks + Drop + Send + Sync,
    D: Door + Send,
    R: Reader<E::Leaf> + Send,
    G: Gate,
    H: Threads + Wait + Sync,
>(
    rt: &H,
    alloc: Global,
    site: &Site,
    lock: &TurnLock<Hall<E>>,
    jobs: &mut Vec<Job<Hall<E>, D, R>>,
    gate: &G,
)
where
    D::Link: Send,
    E::Leaf: Send,
    requires few { vec_len jobs.old < 2 ^ 32 }
    requires some { 0 < vec_len jobs.old }
    requires ready { All (IsReady lock.now (shape_of site.now.header)) jobs.old.items }
    ensures { AllWork (tells (link_tells D.Link.incoming D.Link.written D.Link.readings D.Link.faults)
        D.told D.faults R.faults R.reads)
        site.now jobs.old.items jobs.new.items }
{
    let threads = jobs.len();
    thread::for_each_mut(
        rt,
        jobs.as_mut_slice(),
        threads,
        &|i: usize, job: &mut Job<Hall<E>, D, R>|
            requires { (i < 2 ^ 32) × IsReady lock.now (shape_of site.now.header) job.old }
            ensures { Works
                (tells (link_tells D.Link.incoming D.Link.written D.Link.readings D.Link.faults)
                D.told D.faults R.faults R.reads)
                site.entry.now job.old job.new }
        { job.run(rt, alloc, site, lock, gate, i as u32) },
    );
}
