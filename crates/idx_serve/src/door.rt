ghost use Rattle.std.specs.Prelude.{◌≡◌, Bool, None, [], if◌then◌else◌};
ghost use Rattle.idx_outside.specs.Cause.{MeetsOnce};
ghost use Rattle.idx_layout.specs.Shape.{shape_of};
ghost use Rattle.idx_session.specs.Entry.{state_of};
ghost use Rattle.idx_serve.specs.Later.{IsLater};
ghost use Rattle.idx_serve.specs.Visits.{AtDoor, IsEnd, is_starving, link_tells};

use crate::{Site, serve_link};
use idx_hall::{Hall, LEAST_BYTES};
use idx_outside::{Blocks, Door, Gate, GatePlace, Reader, Served};
use idx_session::LinkEnd;
use idx_turn::Turn;
use std::alloc::Global;
use std::mem::size_of;

/// There is room for so many entries of a link at least.
const LEAST_ENTRIES: usize = LEAST_BYTES / size_of::<Served>();

/// How serving ended.
#[derive(Clone, Copy, Debug, PartialEq, Eq)]
pub enum ServeEnd {
    /// The door hands out no more links.
    Done,
    /// The door failed. Its count of faults is now this.
    DoorFault { faults: u64 },
    /// There was no memory for a head of some link.
    NoMemory,
}

/// What came of serving: how many links were accepted, how many heads were answered on them, and how it ended.
#[derive(Clone, Copy, Debug)]
pub struct Summary {
    pub links: u64,
    pub replies: u64,
    pub end: ServeEnd,
}

/// Serves the links of a door, one after another, until it hands out no more or fails. Each link is handed back with its
/// entries. How a link ends does not end the serving; where there was no memory for a head of one, this is told at the
/// end. The worker of this number passes the gate when it has accepted a link, and again when it has handed it back.
pub fn serve_door<E: Blocks + Drop, T: Turn<Hall<E>>, R: Reader<E::Leaf>, D: Door, G: Gate>(
    alloc: Global,
    site: &Site,
    turn: &mut T,
    reader: &mut R,
    door: &mut D,
    gate: &G,
    worker: u32,
) -> Summary
    requires shape { T.shape turn.old ≡ shape_of site.now.header }
    requires given { T.given turn.old ≡ None }
    ensures served { (starved : Bool)
        × AtDoor (link_tells D.Link.incoming D.Link.written D.Link.readings D.Link.faults) T.tells site.now
        (state_of (T.seen turn.old) (T.may_add turn.old) (R.faults reader.old) (R.reads reader.old)
        (T.kept turn.old) (T.holds turn.old))
        (state_of (T.seen turn.new) (T.may_add turn.new) (R.faults reader.new) (R.reads reader.new)
        (T.kept turn.new) (T.holds turn.new))
        (D.told door.old) (D.told door.new) result.links result.replies starved
        × IsEnd (D.told door.new) (D.faults door.old) (D.faults door.new) result.links starved result.end }
    ensures once { MeetsOnce (D.faults door.old) (D.faults door.new) }
    ensures later { IsLater
        (state_of (T.seen turn.old) (T.may_add turn.old) (R.faults reader.old) (R.reads reader.old)
        (T.kept turn.old) (T.holds turn.old))
        (state_of (T.seen turn.new) (T.may_add turn.new) (R.faults reader.new) (R.reads reader.new)
        (T.kept turn.new) (T.holds turn.new))
        (T.shape turn.old) (T.shape turn.new) (T.lock turn.old) (T.lock turn.new) }
    ensures given { T.given turn.new ≡ None }
{
    let mut replies = 0u64;
    let mut starved = false;
    for links in 0..u64::MAX {
        let mut link = match door.accept() {
            Ok(Some(link)) => link,
            Ok(None) => return conclude(links, replies, starved, ServeEnd::Done),
            Err(_) => {
                let faults = door.faults();
                return conclude(links, replies, starved, ServeEnd::DoorFault { faults });
            }
        };
        gate.pass(GatePlace::Accepted, worker);
        let mut served = no_entries(alloc);
        let end = serve_link(alloc, site, turn, reader, &mut link, &mut served);
        starved |= is_starving(end);
        replies = replies.saturating_add(served.len() as u64);
        door.finish(link, served);
        gate.pass(GatePlace::Answered, worker);
    }
    conclude(u64::MAX, replies, starved, ServeEnd::NoMemory)
}

/// No entries of a link, with room for some where there is memory for it.
fn no_entries(alloc: Global) -> Vec<Served>
    ensures { result.items ≡ [] }
{
    match Vec::with_capacity(alloc, LEAST_ENTRIES) {
        Ok(entries) => entries,
        Err(_) => Vec::new(alloc),
    }
}

/// What came of so many links and heads. Want of memory goes before how the door ended.
fn conclude(links: u64, replies: u64, starved: bool, end: ServeEnd) -> Summary
    ensures links { result.links ≡ links }
    ensures replies { result.replies ≡ replies }
    ensures end { result.end ≡ (if starved then ServeEnd.NoMemory else end) }
{
    let end = if starved { ServeEnd::NoMemory } else { end };
    Summary {
        links,
        replies,
        end,
    }
}

/// Whether there was no memory for a head of the link that ended so.
fn is_starving(end: LinkEnd) -> bool
    ensures { result ≡ is_starving end }
{
    match end {
        LinkEnd::NoMemory => true,
        _ => false,
    }
}
