//! A step that is ingested while a link is served, whose second head comes once the step is published.
ghost use Rattle.std.specs.Prelude.{◌≡◌, None};
ghost use Rattle.idx_layout.specs.Shape.{shape_of};

use crate::ready::{Ready, Steps};
use crate::stage::{Stage, stage_of};
use crate::waiting::{TURNS, held_one};
use idx_ingest::IngestEnd;
use idx_lock::{Seat, TurnLock};
use idx_memory::{HoldGate, MemLink, MemReader};
use idx_outside::{Bytes, FreeGate, Gate, GatePlace, Link, NoMemory, Outage};
use idx_serve::{Site, serve_link};
use idx_session::LinkEnd;
use std::alloc::Global;
use std::process::Abort;
use std::sync::Wait;
use std::test::Fail;
use std::thread;
use std::thread::Threads;

/// The bytes of the step 9, which is ingested.
const LATER: &[u8] = &[
    16, 17, 18, 19, 20, 21, 22, 23, 24, 25, 26, 27, 28, 29, 30, 31,
];

/// The head before it, which asks for four samples of the step 0, and the one behind it, for those of the step 9.
const HEADS: [&[u8]; 2] = [
    b"GET /mod_visus?action=boxquery&dataset=v&box=0+3+0+3&toh=2&time=0 HTTP/1.1\r\n\r\n",
    b"GET /mod_visus?action=boxquery&dataset=v&box=0+3+0+3&toh=2&time=9 HTTP/1.1\r\n\r\n",
];

/// What they are answered: the first out of the first post, and the second out of the second.
static REPLIES: &[u8] = b"HTTP/1.1 200 OK\r\n\
    Content-Type: application/octet-stream\r\n\
    Content-Length: 4\r\n\
    visus-compression: raw\r\n\
    visus-dtype: uint8\r\n\
    visus-samples: 4\r\n\
    visus-post: 0\r\n\
    \r\n\
    \x00\x02\x08\x0aHTTP/1.1 200 OK\r\n\
    Content-Type: application/octet-stream\r\n\
    Content-Length: 4\r\n\
    visus-compression: raw\r\n\
    visus-dtype: uint8\r\n\
    visus-samples: 4\r\n\
    visus-post: 1\r\n\
    \r\n\
    \x10\x12\x18\x1a";

/// A link that gives the first head at once, and the second when its gate lets it, as worker 0. It tells nothing.
#[derive(Drop)]
struct LateLink<'a> {
    gate: &'a HoldGate,
    link: MemLink,
    has_begun: bool,
}

impl<'a> LateLink<'a> {
    fn new(alloc: Global, gate: &'a HoldGate) -> Result<LateLink<'a>, NoMemory> {
        let [first, second] = HEADS;
        let mut input = Bytes::from_slice(alloc, first)?;
        input.append(second)?;
        let pieces = vec![in alloc; first.len() as u64]?;
        Ok(LateLink {
            gate,
            link: MemLink::new(input, pieces, Vec::new(alloc)),
            has_begun: false,
        })
    }
}

impl Link for LateLink<'_> {
    ghost incoming = { λ _. None };

    ghost written = { λ _. None };

    ghost readings = { λ _. None };

    ghost faults = { λ s. s.link.script.faults };

    fn read(&mut self, into: &mut [u8]) -> Result<usize, Outage> {
        if self.has_begun {
            self.gate.pass(GatePlace::Accepted, 0);
        }
        self.has_begun = true;
        self.link.read(into)
    }

    fn write(&mut self, piece: &[u8]) -> Result<(), Outage> {
        self.link.write(piece)
    }

    fn faults(&self) -> u64 {
        self.link.faults()
    }
}

/// Serves a late link at a seat: how it ended, and whether exactly the replies were written.
fn serve_late<R: Wait>(
    rt: &R,
    alloc: Global,
    site: &Site,
    lock: &TurnLock<Steps>,
    seat: Seat<Steps>,
    mut link: LateLink<'_>,
) -> (LinkEnd, bool)
    requires of { seat.lock ≡ lock.now }
    requires shape { seat.seen.shape ≡ shape_of site.now.header }
{
    let mut chair = lock.chair(rt, seat);
    let mut reader = MemReader::new(Vec::new(alloc));
    let mut served = Vec::new(alloc);
    let end = serve_link(alloc, site, &mut chair, &mut reader, &mut link, &mut served);
    let _seat = chair.leave();
    (end, link.link.written().as_slice() == REPLIES)
}

/// Ingests a step, and passes the gate as worker 1.
fn ingest_beside<R: Threads + Wait + Sync>(
    rt: &R,
    alloc: Global,
    ready: Ready<'_>,
    gate: &HoldGate,
) -> IngestEnd {
    let (_writer, end, _bay) = ready.ingest(rt, alloc, &FreeGate);
    gate.pass(GatePlace::Answered, 1);
    end
}

/// How the step was ingested, how the link ended beside it, and whether exactly the replies were written.
fn both_ends<R: Threads + Wait + Sync + Abort>(
    rt: &R,
    alloc: Global,
    gate: &HoldGate,
) -> Result<(IngestEnd, (LinkEnd, bool)), Fail> {
    let Stage {
        site,
        lock,
        mut writer,
    } = stage_of(rt, alloc, &FreeGate)?;
    let seat = lock.split(&mut writer);
    let ready = Ready::new(alloc, rt, &site, &lock, writer, 9, LATER)?;
    let link = LateLink::new(alloc, gate)?;
    let (site, lock) = (&site, &lock);
    Ok(thread::join(
        rt,
        move || ingest_beside(rt, alloc, ready, gate),
        move ||
            requires { (seat.lock ≡ lock.now) × (seat.seen.shape ≡ shape_of site.now.header) }
        { serve_late(rt, alloc, site, lock, seat, link) },
    ))
}

#[test]
fn a_head_behind_a_publish_is_answered_out_of_it(rt: HostRuntime) -> Result<(), Fail> {
    let gate = HoldGate::new(0, GatePlace::Accepted, 1, GatePlace::Answered, TURNS);
    let ends = both_ends(&rt, rt.alloc(), &gate)?;
    assert!(rt; held_one(&gate));
    assert!(rt; ends == (IngestEnd::Published { post: 1 }, (LinkEnd::Closed, true)));
    Ok(())
}
