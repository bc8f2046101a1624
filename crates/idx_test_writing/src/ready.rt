ghost use Rattle.std.specs.Prelude.{◌≡◌, [], IfOk, IsSome, vec_len};
ghost use Rattle.idx_header.specs.Header.{HasTime, at_revision};
ghost use Rattle.idx_header.specs.Names.{step_folder};
ghost use Rattle.idx_test_writing.specs.Ready.{HasTime-prop, IsWriter};

use crate::dataset::bay_of;
use crate::raw::{Raw, raws_of};
use idx_edition::Edition;
use idx_hall::Hall;
use idx_ingest::{IngestEnd, ingest};
use idx_lock::{Seat, TurnLock};
use idx_memory::{MemBay, MemLeaf};
use idx_outside::Gate;
use idx_serve::Site;
use std::alloc::Global;
use std::process::Abort;
use std::sync::Wait;
use std::test::Fail;
use std::thread::Threads;

/// The steps of a dataset.
pub(crate) type Steps = Hall<Edition<MemLeaf>>;

/// The writer's seat of a dataset, and what a step is ingested out of and into: two raw volumes, and a bay.
#[derive(Drop)]
pub(crate) struct Ready<'a> {
    site: &'a Site,
    lock: &'a TurnLock<Steps>,
    writer: Seat<Steps>,
    time: u64,
    raws: Vec<Raw>,
    bay: MemBay,
    ghost number: { vec_len raws ≡ 2 },
    ghost seat: { IsWriter lock.now site.now.header writer },
    ghost timed: { IsSome (at_revision 0 site.now.header).steps },
    ghost has: { HasTime (at_revision 0 site.now.header) time } by { HasTime-prop (at_revision 0 site.now.header) time },
    ghost begun: { bay.begun ≡ step_folder (at_revision 0 site.now.header) time },
    ghost files: { bay.files ≡ [] },
}

impl<'a> Ready<'a> {
    /// The seat, and this step of these bytes.
    pub(crate) fn new(
        alloc: Global,
        rt: &impl Abort,
        site: &'a Site,
        lock: &'a TurnLock<Steps>,
        writer: Seat<Steps>,
        time: u64,
        bytes: &'static [u8],
    ) -> Result<Ready<'a>, Fail>
        requires { IsWriter lock.now site.now.header writer }
        ensures site { IfOk result (λ ready. ready.site.now ≡ site.now) }
        ensures lock { IfOk result (λ ready. ready.lock.now ≡ lock.now) }
    {
        assert!(rt; site.header.steps().is_some());
        let header = site.header.at_revision(alloc, 0)?;
        Ok(Ready {
            site,
            lock,
            writer,
            time,
            raws: raws_of(alloc, bytes, 2)?,
            bay: bay_of(alloc, rt, &header, time)?,
        })
    }

    /// Ingests the step, and gives the seat and the bay back.
    pub(crate) fn ingest<G: Gate, R: Threads + Wait + Sync>(
        self,
        rt: &R,
        alloc: Global,
        gate: &G,
    ) -> (Seat<Steps>, IngestEnd, MemBay)
        ensures { IsWriter self.entry.lock.now self.entry.site.now.header result.0 }
    {
        let Ready {
            site,
            lock,
            writer,
            time,
            mut raws,
            mut bay,
        } = self;
        let (writer, end) = ingest(
            rt, alloc, site, lock, writer, time, 0, &mut raws, &mut bay, gate,
        );
        (writer, end, bay)
    }
}
