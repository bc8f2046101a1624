//! The two sides: those who serve, and the one who writes.
ghost use Rattle.std.specs.Prelude.{◌≡◌, [], Some, vec_len};
ghost use Rattle.idx_layout.specs.Shape.{shape_of};
ghost use Rattle.idx_serve.specs.Visits.{link_tells};
ghost use Rattle.idx_workers.specs.Workers.{tells};
ghost use Rattle.idx_live.specs.Sides.{CanServe, CanWrite, HasServed, HasWritten};

use idx_edition::Edition;
use idx_hall::Hall;
use idx_ingest::{IngestEnd, ingest};
use idx_lock::{Seat, TurnLock};
use idx_outside::{Bay, Door, Gate, Leaf, Reader, Source};
use idx_serve::{Site, Summary};
use idx_workers::serve;
use std::alloc::Global;
use std::mem;
use std::sync::Wait;
use std::thread::Threads;

/// Those who serve: their doors, how many workers they are, and their seat, unless it is out with them.
pub(crate) struct Serving<S, D> {
    pub(crate) doors: Vec<D>,
    pub(crate) workers: u32,
    pub(crate) place: Option<Seat<S>>,
}

/// The one who writes: the raw volumes, which step it is at which revision, and the writer's seat, unless it is out.
pub(crate) struct Writing<S, V> {
    pub(crate) raws: Vec<V>,
    pub(crate) time: u64,
    pub(crate) revision: u32,
    pub(crate) place: Option<Seat<S>>,
}

impl<S, D> Serving<S, D> {
    /// So many workers at these doors, which are taken out of their list, and on this seat.
    pub(crate) fn new(
        alloc: Global,
        doors: &mut Vec<D>,
        workers: u32,
        seat: Seat<S>,
    ) -> Serving<S, D>
        ensures doors { result.doors ≡ doors.old }
        ensures taken { doors.new.items ≡ [] }
        ensures workers { result.workers ≡ workers }
        ensures place { result.place ≡ Some seat }
    {
        Serving {
            doors: mem::replace(doors, Vec::new(alloc)),
            workers,
            place: Some(seat),
        }
    }

    /// Gives the doors back to their list, which is empty.
    pub(crate) fn give_back(self, doors: &mut Vec<D>)
        requires { doors.old.items ≡ [] }
        ensures { doors.new.items ≡ self.doors.items }
    {
        let Serving {
            doors: served,
            workers: _,
            place: _,
        } = self;
        mem::replace(doors, served).destroy_empty();
    }
}

impl<S, V> Writing<S, V> {
    /// The writer of this step at this revision, on this seat, out of these raw volumes, which are taken out of their
    /// list.
    pub(crate) fn new(
        alloc: Global,
        raws: &mut Vec<V>,
        time: u64,
        revision: u32,
        seat: Seat<S>,
    ) -> Writing<S, V>
        ensures raws { result.raws ≡ raws.old }
        ensures taken { raws.new.items ≡ [] }
        ensures time { result.time ≡ time }
        ensures revision { result.revision ≡ revision }
        ensures place { result.place ≡ Some seat }
    {
        Writing {
            raws: mem::replace(raws, Vec::new(alloc)),
            time,
            revision,
            place: Some(seat),
        }
    }

    /// Gives the raw volumes back to their list, which is empty.
    pub(crate) fn give_back(self, raws: &mut Vec<V>)
        requires { raws.old.items ≡ [] }
        ensures { raws.new.items ≡ self.raws.items }
    {
        let Writing {
            raws: used,
            time: _,
            revision: _,
            place: _,
        } = self;
        mem::replace(raws, used).destroy_empty();
    }
}

impl<L: Leaf + Send + Sync, D: Door + Send> Serving<Hall<Edition<L>>, D> {
    /// Serves until each door hands out no more or fails. The seat comes back.
    pub(crate) fn run<R: Reader<L> + Send, G: Gate, H: Threads + Wait + Sync>(
        &mut self,
        rt: &H,
        alloc: Global,
        site: &Site,
        lock: &TurnLock<Hall<Edition<L>>>,
        gate: &G,
        readers: &mut Vec<R>,
    ) -> (Seat<Hall<Edition<L>>>, Summary)
    where
        D::Link: Send,
        requires { CanServe lock.now (shape_of site.now.header) (vec_len readers.old) self.old }
        ensures { HasServed
            (tells (link_tells D.Link.incoming D.Link.written D.Link.readings D.Link.faults)
            D.told D.faults R.faults R.reads)
            site.now self.old self.new readers.old.items readers.new.items result }
    {
        let seat = self.place.take().unwrap();
        let doors = &mut self.doors;
        serve(
            rt,
            alloc,
            site,
            lock,
            seat,
            doors,
            readers,
            self.workers,
            gate,
        )
    }
}

impl<L: Leaf + Send, V: Source + Send> Writing<Hall<Edition<L>>, V> {
    /// Gathers the step and publishes it. The seat comes back.
    pub(crate) fn run<B: Bay<Leaf = L>, G: Gate, H: Threads + Wait + Sync>(
        &mut self,
        rt: &H,
        alloc: Global,
        site: &Site,
        lock: &TurnLock<Hall<Edition<L>>>,
        gate: &G,
        bay: &mut B,
    ) -> (Seat<Hall<Edition<L>>>, IngestEnd)
    where
        B::Draft: Send,
        requires { CanWrite V.contents B.files B.admits lock.now site.now self.old bay.old }
        ensures { HasWritten V.contents V.faults B.header B.files B.begun B.failed B.faults
            site.now self.old self.new bay.old bay.new result }
    {
        let seat = self.place.take().unwrap();
        let raws = &mut self.raws;
        ingest(
            rt,
            alloc,
            site,
            lock,
            seat,
            self.time,
            self.revision,
            raws,
            bay,
            gate,
        )
    }
}
