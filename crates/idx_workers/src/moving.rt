//! Doors and readers, moved into jobs and back; seats, split for the jobs and joined again.
ghost use Rattle.std.specs.Prelude.{◌≡◌, ◌+◌, ◌≤◌, ◌++◌, false, All, IfOk, OnErr, OnOk, vec_capacity, vec_len};
ghost use Rattle.idx_workers.specs.Jobs.{IsBegun, IsReady, doors_of, readers_of, works_of};
ghost use Rattle.idx_workers.specs.Workers.{IsBack, IsTotal};

use crate::job::Job;
use crate::total::{no_works, nothing_served, with_first};
use idx_hall::Standing;
use idx_lock::{Seat, TurnLock};
use idx_outside::NoMemory;
use idx_serve::Summary;
use std::alloc::Global;

/// A job for each worker, into which its door and its reader are moved, with a seat like this one. After a refusal the
/// doors and the readers are as they were.
pub(crate) fn make_jobs<S: Standing + Drop, D, R>(
    alloc: Global,
    lock: &TurnLock<S>,
    seat: &mut Seat<S>,
    doors: &mut Vec<D>,
    readers: &mut Vec<R>,
    workers: u32,
) -> Result<Vec<Job<S, D, R>>, NoMemory>
    requires lock { seat.old.lock ≡ lock.now }
    requires reader { seat.old.writer ≡ false }
    requires doors { workers ≤ vec_len doors.old }
    requires readers { workers ≤ vec_len readers.old }
    ensures seat { seat.new ≡ seat.old }
    ensures number { IfOk result (λ jobs. vec_len jobs ≡ workers) }
    ensures begun { IfOk result (λ jobs. All (IsBegun seat.old) jobs.items) }
    ensures doors { IfOk result (λ jobs. doors_of jobs.items ++ doors.new.items ≡ doors.old.items) }
    ensures readers { IfOk result (λ jobs. readers_of jobs.items ++ readers.new.items ≡ readers.old.items) }
    ensures doors_room { OnOk result (workers + vec_len doors.new ≤ vec_capacity doors.new) }
    ensures readers_room { OnOk result (workers + vec_len readers.new ≤ vec_capacity readers.new) }
    ensures refused_doors { OnErr result (doors.new.items ≡ doors.old.items) }
    ensures refused_readers { OnErr result (readers.new.items ≡ readers.old.items) }
{
    // They tell that the doors and the readers fit in the room that they have, so that they can be moved back there.
    doors.reserve(0)?;
    readers.reserve(0)?;
    let mut jobs = Vec::with_capacity(alloc, workers as usize)?;
    for taken in 0..workers {
        let job = Job {
            door: doors.remove(0),
            reader: readers.remove(0),
            place: Some(lock.split(seat)),
            summary: nothing_served(),
        };
        jobs.push(job).unwrap();
    }
    Ok(jobs)
}

/// Moves the doors and the readers of the jobs back in front of the others, makes their seats one with this one, and tells
/// what the workers came to.
pub(crate) fn give_back<S: Standing + Drop, D, R>(
    lock: &TurnLock<S>,
    seat: &mut Seat<S>,
    mut jobs: Vec<Job<S, D, R>>,
    doors: &mut Vec<D>,
    readers: &mut Vec<R>,
) -> Summary
    requires lock { seat.old.lock ≡ lock.now }
    requires reader { seat.old.writer ≡ false }
    requires ready { All (IsReady lock.now seat.old.seen.shape) jobs.items }
    requires doors_room { vec_len jobs + vec_len doors.old ≤ vec_capacity doors.old }
    requires readers_room { vec_len jobs + vec_len readers.old ≤ vec_capacity readers.old }
    ensures doors { doors.new.items ≡ doors_of jobs.items ++ doors.old.items }
    ensures readers { readers.new.items ≡ readers_of jobs.items ++ readers.old.items }
    ensures seat { IsBack seat.old (works_of jobs.items) seat.new }
    ensures total { IsTotal (works_of jobs.items) result }
{
    let mut total = no_works();
    let count = jobs.len();
    for taken in 0..count {
        let Job {
            door,
            reader,
            place,
            summary,
        } = jobs.pop().unwrap();
        doors.insert(0, door).unwrap();
        readers.insert(0, reader).unwrap();
        lock.join(seat, place.unwrap());
        total = with_first(summary, total);
    }
    jobs.destroy_empty();
    total
}
