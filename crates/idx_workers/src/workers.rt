ghost use Rattle.std.specs.Prelude.{◌≡◌, ◌⊎◌, ◌<◌, ◌≤◌, false, vec_len};
ghost use Rattle.idx_layout.specs.Shape.{shape_of};
ghost use Rattle.idx_serve.specs.Visits.{link_tells};
ghost use Rattle.idx_workers.specs.Workers.{AreServed, NoneBegan, tells};

use crate::job::run_all;
use crate::moving::{give_back, make_jobs};
use crate::total::nothing_served;
use idx_hall::Hall;
use idx_lock::{Seat, TurnLock};
use idx_outside::{Blocks, Door, Gate, Reader};
use idx_serve::{Site, Summary};
use std::alloc::Global;
use std::sync::Wait;
use std::thread::Threads;

/// Serves the links of the first `workers` doors (1 to 64), each door by a worker of its own with the reader of the same
/// number, side by side where threads can be had, until each door hands out no more or fails. How one worker ends does not
/// end the others.
///
/// The summary counts the links that were accepted and their heads. `NoMemory` where there was no memory for a head of some
/// link, or for the workers: then none of them began. Else `DoorFault` of the least worker whose door failed. The doors and
/// the readers are back in their places, and the seat has seen all that those of the workers have.
pub fn serve<
    E: Blocks + Drop + Send + Sync,
    R: Reader<E::Leaf> + Send,
    D: Door + Send,
    G: Gate,
    H: Threads + Wait + Sync,
>(
    rt: &H,
    alloc: Global,
    site: &Site,
    lock: &TurnLock<Hall<E>>,
    mut seat: Seat<Hall<E>>,
    doors: &mut Vec<D>,
    readers: &mut Vec<R>,
    workers: u32,
    gate: &G,
) -> (Seat<Hall<E>>, Summary)
where
    D::Link: Send,
    E::Leaf: Send,
    requires some { 0 < workers }
    requires few { workers ≤ 64 }
    requires doors { workers ≤ vec_len doors.old }
    requires readers { workers ≤ vec_len readers.old }
    requires lock { seat.lock ≡ lock.now }
    requires reader { seat.writer ≡ false }
    requires shape { seat.seen.shape ≡ shape_of site.now.header }
    ensures served { AreServed
        (tells (link_tells D.Link.incoming D.Link.written D.Link.readings D.Link.faults)
        D.told D.faults R.faults R.reads) site.now
        workers seat result.0 doors.old.items doors.new.items readers.old.items readers.new.items result.1
        ⊎ NoneBegan seat result.0 doors.old.items doors.new.items readers.old.items readers.new.items result.1 }
{
    match make_jobs(alloc, lock, &mut seat, doors, readers, workers) {
        Ok(mut jobs) => {
            run_all(rt, alloc, site, lock, &mut jobs, gate);
            let total = give_back(lock, &mut seat, jobs, doors, readers);
            (seat, total)
        }
        Err(_) => (seat, nothing_served()),
    }
}
