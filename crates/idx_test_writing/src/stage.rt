//! A dataset behind a lock, whose step 0 is published.
ghost use Rattle.std.specs.Prelude.{◌≡◌, IfOk};
ghost use Rattle.idx_layout.specs.Shape.{shape_of};
ghost use Rattle.idx_test_writing.specs.Ready.{IsWriter};

use crate::dataset::BASE;
use crate::ready::{Ready, Steps};
use idx_edition::block_lengths;
use idx_hall::Hall;
use idx_header::Header;
use idx_ingest::IngestEnd;
use idx_lock::{Seat, TurnLock};
use idx_outside::{Bytes, Gate, NoMemory};
use idx_serve::Site;
use std::alloc::Global;
use std::process::Abort;
use std::sync::Wait;
use std::test::Fail;
use std::thread::Threads;

/// A dataset, its steps behind a lock, and the writer's seat.
#[derive(Drop)]
pub(crate) struct Stage {
    pub(crate) site: Site,
    pub(crate) lock: TurnLock<Steps>,
    pub(crate) writer: Seat<Steps>,
    ghost seat: { IsWriter lock site.header writer },
}

/// An empty hall for steps of a dataset.
fn hall_of(alloc: Global, header: &Header) -> Result<Steps, NoMemory>
    ensures { IfOk result (λ hall. hall.shape ≡ shape_of header.now) }
{
    let lengths = block_lengths(alloc, header)?;
    Hall::new(alloc, 4, header.block_count(), lengths)
}

/// The dataset `v` of the base, of which no step is published.
fn empty_stage(alloc: Global, rt: &impl Abort) -> Result<Stage, Fail> {
    let header = BASE.header(alloc, rt);
    let name = Bytes::from_slice(alloc, b"v")?;
    match TurnLock::new(alloc, hall_of(alloc, &header)?) {
        Ok((lock, writer)) => {
            let site = Site { header, name };
            Ok(Stage { site, lock, writer })
        }
        Err(_) => Err(Fail::from(NoMemory)),
    }
}

/// The same once its step 0 is ingested, whose workers pass this gate.
pub(crate) fn stage_of<G: Gate, R: Threads + Wait + Sync + Abort>(
    rt: &R,
    alloc: Global,
    gate: &G,
) -> Result<Stage, Fail> {
    let Stage { site, lock, writer } = empty_stage(alloc, rt)?;
    let ready = Ready::new(alloc, rt, &site, &lock, writer, 0, BASE.raw)?;
    let (writer, end, bay) = ready.ingest(rt, alloc, gate);
    assert!(rt; end == IngestEnd::Published { post: 0 });
    assert!(rt; BASE.is_step(alloc, bay.committed())?);
    Ok(Stage { site, lock, writer })
}
