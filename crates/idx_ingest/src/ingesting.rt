ghost use Rattle.std.specs.Prelude.{◌≡◌, ◌<◌, ◌≤◌, true, IsSome, List, drop, map, vec_len, ℕ};
ghost use Rattle.std.specs.Option.{ForSome};
ghost use Rattle.idx_outside.specs.Cause.{NeverFalls};
ghost use Rattle.idx_outside.specs.Files.{HasStep as HasCommitted, LiesIn};
ghost use Rattle.idx_outside.specs.Counts.{EachMeetsOnce};
ghost use Rattle.idx_outside.specs.Objects.{SameContents, contents_at};
ghost use Rattle.idx_header.specs.Header.{at_revision};
ghost use Rattle.idx_header.specs.Names.{step_folder};
ghost use Rattle.idx_layout.specs.Shape.{shape_of};
ghost use Rattle.idx_pieces.specs.Ranks.{rank_count};
ghost use Rattle.idx_seal.specs.Rows.{MeetsOnceOrRow};
ghost use Rattle.idx_gather.specs.Gather.{HasFolder, HaveSame, LacksVolume, NoneFalls};
ghost use Rattle.idx_ingest.specs.Ingested.{EndsFailed, IsIngested, known};

use crate::IngestEnd;
use crate::publishing::publish_at;
use idx_edition::Edition;
use idx_gather::{GatherFault, gather};
use idx_hall::Hall;
use idx_header::Header;
use idx_lock::{Seat, TurnLock};
use idx_outside::{Bay, Gate, NoMemory, Source};
use idx_serve::Site;
use std::alloc::Global;
use std::sync::Wait;
use std::thread::Threads;

/// Gathers a step at a revision out of raw volumes, one for each rank, and publishes it at the writer's seat, behind all
/// that was published, in one hold of the hall. Others serve meanwhile: the hall is held only to publish. The seat that
/// comes back is the writer's.
pub fn ingest<V: Source + Send, B: Bay, G: Gate, H: Threads + Wait + Sync>(
    rt: &H,
    alloc: Global,
    site: &Site,
    lock: &TurnLock<Hall<Edition<B::Leaf>>>,
    seat: Seat<Hall<Edition<B::Leaf>>>,
    time: u64,
    revision: u32,
    raws: &mut Vec<V>,
    bay: &mut B,
    gate: &G,
) -> (Seat<Hall<Edition<B::Leaf>>>, IngestEnd)
where
    B::Draft: Send,
    B::Leaf: Send,
    requires lock { seat.lock ≡ lock.now }
    requires writer { seat.writer ≡ true }
    requires shape { seat.seen.shape ≡ shape_of site.now.header }
    requires few_revisions { revision ≤ 255 }
    requires some { 0 < vec_len raws.old }
    requires few { vec_len raws.old ≤ 256 }
    requires alike { HaveSame V.contents raws.old.items }
    requires folder { HasFolder (at_revision revision site.now.header) time }
    requires begun { ForSome (step_folder (at_revision revision site.now.header) time)
        (λ folder. (path : List ℕ) → LiesIn folder path → B.admits bay.old path) }
    requires new { ForSome (step_folder (at_revision revision site.now.header) time)
        (λ folder. ForSome (B.files bay.old) (λ files. ¬ HasCommitted folder files)) }

    // How it ends, with what was seen and what is known.
    ensures ingested { IsIngested (at_revision revision site.now.header) time
        (known (contents_at V.contents raws.old.items 0) (map V.faults raws.old.items) (map V.faults raws.new.items)
        (B.files bay.old) (B.files bay.new) (B.faults bay.old) (B.faults bay.new))
        seat.seen.posts result.0.seen.posts result.1 }

    // The seat is the writer's still, of the lock and of its shape.
    ensures lock { result.0.lock ≡ lock.now }
    ensures writer { result.0.writer ≡ true }
    ensures seat_shape { result.0.seen.shape ≡ seat.seen.shape }

    // Nothing is asked of raw volumes that are known to have another length, and then the bay is not changed either.
    ensures unasked { LacksVolume (at_revision revision site.now.header) (contents_at V.contents raws.old.items 0) →
        map V.asked raws.new.items ≡ map V.asked raws.old.items }
    ensures unchanged { LacksVolume (at_revision revision site.now.header) (contents_at V.contents raws.old.items 0) →
        B.changes bay.new ≡ B.changes bay.old }

    // No step is begun, and the call that failed is one of those that write, give up or commit.
    ensures begun { B.begun bay.new ≡ B.begun bay.old }
    ensures failed { EndsFailed (B.files bay.old) (B.files bay.new) (B.failed bay.old) (B.failed bay.new) result.1 }

    // What is known of the raw volumes stays, the ones for which the box has no part are not touched, and no count falls.
    ensures same { SameContents V.contents raws.old.items raws.new.items }
    ensures idle { drop (rank_count site.now.header.box (vec_len raws.old)) raws.new.items
        ≡ drop (rank_count site.now.header.box (vec_len raws.old)) raws.old.items }
    ensures raw_count { NoneFalls (map V.faults raws.old.items) (map V.faults raws.new.items) }
    ensures header { B.header bay.new ≡ B.header bay.old }
    ensures count { NeverFalls (B.faults bay.old) (B.faults bay.new) }

    // A fault is met once: no raw volume counts two, and the bay no more than one row of files does, one file for each rank.
    ensures raw_once { EachMeetsOnce (map V.faults raws.old.items) (map V.faults raws.new.items) }
    ensures once { MeetsOnceOrRow (B.failed bay.new) (vec_len raws.old) (B.faults bay.old) (B.faults bay.new) }
{
    let Ok(header) = site.header.at_revision(alloc, revision) else {
        return (seat, IngestEnd::NoMemory);
    };
    let edition = match gather(rt, alloc, &header, time, raws, bay, gate) {
        Ok(edition) => edition,
        Err(GatherFault::NoMemory) => return (seat, IngestEnd::NoMemory),
        Err(why) => return (seat, IngestEnd::Refused { why }),
    };
    let (seat, published) = publish_at(rt, alloc, lock, seat, edition);
    match published {
        Ok(post) => (seat, IngestEnd::Published { post }),
        Err(NoMemory) => (seat, IngestEnd::NoMemory),
    }
}
