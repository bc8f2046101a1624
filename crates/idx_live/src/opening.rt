ghost use Rattle.std.specs.Prelude.{◌≡◌, ◌<◌, ◌≤◌, IfErr, IfOk, OnErr, OnOk, map, vec_len};
ghost use Rattle.idx_outside.specs.Objects.{faults_at};
ghost use Rattle.idx_header.specs.Header.{at_revision};
ghost use Rattle.idx_convert.specs.Known.{known_of};
ghost use Rattle.idx_live.specs.Live.{IsCause, OnlyLoads, OnlyLooks, OnlyMeasures};
ghost use Rattle.idx_live.specs.Stages.{IsNew, IsOpened};

use crate::LiveFault;
use crate::beginning::begin_at;
use crate::finding::find_step;
use crate::loading::load_locked;
use idx_edition::Edition;
use idx_hall::Hall;
use idx_lock::{Seat, TurnLock};
use idx_outside::{Bay, Leaf, Reader, Source};
use idx_serve::Site;
use std::alloc::Global;

/// What serves and writes: the site, the revision of the step that is written, and the hall behind a lock, with the
/// seat of its writer.
#[derive(Drop)]
pub(crate) struct Opened<L: Leaf> {
    pub(crate) site: Site,
    pub(crate) revision: u32,
    pub(crate) lock: TurnLock<Hall<Edition<L>>>,
    pub(crate) writer: Seat<Hall<Edition<L>>>,
}

/// Opens a dataset that is served by this name, and begins the step that is written to it out of the raw volumes. No
/// link is handed out for it.
pub(crate) fn open<V: Source, B: Bay, R: Reader<B::Leaf>>(
    alloc: Global,
    name: &[u8],
    cache: u32,
    time: u64,
    raws: &mut Vec<V>,
    bay: &mut B,
    readers: &mut Vec<R>,
) -> Result<Opened<B::Leaf>, LiveFault>
    requires some_blocks { 1 ≤ cache }
    requires few_blocks { cache ≤ 65536 }
    requires a_reader { 0 < vec_len readers.old }
    requires some_raws { 0 < vec_len raws.old }
    ensures opened { IfOk result (λ opened. IsOpened R.faults R.reads name.now cache time
        (known_of V.contents V.asked V.faults raws.old.items raws.new.items
        B.header B.files B.begun B.changes B.failed B.faults bay.old bay.new) readers.old.items readers.new.items
        opened.site opened.revision opened.lock opened.writer) }
    ensures new { IfOk result (λ opened. IsNew B.files B.admits
        (at_revision opened.revision opened.site.header) time bay.new) }
    ensures cause { IfErr result (IsCause time
        (known_of V.contents V.asked V.faults raws.old.items raws.new.items
        B.header B.files B.begun B.changes B.failed B.faults bay.old bay.new)
        (faults_at R.faults readers.old.items 0) (faults_at R.faults readers.new.items 0)) }
    ensures looks { OnErr result
        (OnlyLooks B.header B.files B.begun B.changes B.failed B.admits B.faults bay.old bay.new result) }
    ensures measures { OnlyMeasures V.contents V.asked V.faults raws.old.items raws.new.items result }
    ensures loads { OnlyLoads R.faults readers.old.items readers.new.items result }
    ensures header { B.header bay.new ≡ B.header bay.old }
    ensures files { B.files bay.new ≡ B.files bay.old }
    ensures failed { OnOk result (B.failed bay.new ≡ B.failed bay.old) }
    ensures quiet { OnOk result (B.faults bay.new ≡ B.faults bay.old) }
{
    let (site, revision) = find_step(alloc, name, time, raws, bay)?;
    let (lock, writer) = load_locked(alloc, &site.header, cache, bay, readers)?;
    begin_at(alloc, &site.header, time, revision, bay)?;
    Ok(Opened {
        site,
        revision,
        lock,
        writer,
    })
}
