//! A window begins, and the next batch of its pieces is read and handed to the aggregators.
ghost use Rattle.std.specs.Prelude.{◌≡◌, ◌≢◌, ◌⊎◌, ◌<◌, ◌≤◌, ◌++◌, ℕ, [], All, IfErr, IfOk, List, OnOk, Some, drop, length, map, vec_len};
ghost use Rattle.idx_outside.specs.Counts.{EachMeetsOnce};
ghost use Rattle.idx_outside.specs.Objects.{SameContents, contents_at};
ghost use Rattle.idx_header.specs.Header.{HeaderValue, volume_bytes};
ghost use Rattle.idx_pieces.specs.Pieces.{IsPiece};
ghost use Rattle.idx_pieces.specs.Ranks.{rank_count};
ghost use Rattle.idx_pieces.specs.Samples.{raw_sample};
ghost use Rattle.idx_ranks.specs.Loads.{HoldsLoad, IsLoad};
ghost use Rattle.idx_aggregate.specs.Docks.{pieces_in};
ghost use Rattle.idx_gather.specs.Gather.{HasVolume, HaveSame, IsCaused, NoneFalls};
ghost use Rattle.idx_gather.specs.States.{HaveSamples};
ghost use Rattle.idx_gather.specs.Streams.{AreOpen, IsNextWindow};

use crate::batch::read_batch;
use crate::begun::opens_few;
use crate::docks::make_window;
use crate::stream::Stream;
use crate::window::window_count;
use crate::{GatherFault, Opening};
use idx_dock::Dock;
use idx_outside::{Gate, Leaf, NoMemory, Source};
use idx_pieces::Piece;
use std::alloc::Global;
use std::thread::Threads;

/// So many files may have aggregators at a time.
const MOST_DOCKS: usize = 1 << 16;

/// Empty aggregators for the next files that are not sealed.
pub(crate) fn open_stream<L: Leaf>(
    alloc: Global,
    opening: Opening<L>,
) -> Result<Stream<L>, NoMemory>
    requires unsealed { length opening.leaves.items ≢ length opening.files.items }
    ensures opening { IfOk result (λ stream. stream.opening ≡ opening) }
    ensures some { IfOk result (λ stream. 0 < length stream.docks.items) }
    ensures sealed { IfOk result (λ stream. stream.sealed.items ≡ []) }
    ensures state { IfOk result (λ stream. AreOpen opening.header opening.pieces.items
        (drop (length opening.leaves.items) opening.files.items) [] stream.left.items stream.docks.items) }
    ensures empty { IfOk result (λ stream. (h : HeaderValue) (sample : ℕ → List ℕ → List ℕ) →
        HaveSamples h sample stream.docks.items) }
{
    let (docks, left) = next_docks(alloc, &opening)?;
    let sealed = Vec::with_capacity(alloc, docks.len())?;
    Ok(Stream {
        opening,
        docks,
        left,
        sealed,
    })
}

/// Empty aggregators for the next files that are not sealed, and the pieces that they await: for all of them where there
/// are no more than `MOST_DOCKS` and no more than 2^30 bytes of their files are begun and not complete at a time, and
/// else for as many as fit into the room together, or one.
fn next_docks<L: Leaf>(
    alloc: Global,
    opening: &Opening<L>,
) -> Result<(Vec<Dock>, Vec<Piece>), NoMemory>
    requires unsealed { length opening.now.leaves.items ≢ length opening.now.files.items }
    ensures window { IfOk result (λ made. (count : ℕ) × (0 < count) × IsNextWindow opening.now.header opening.now.room
        opening.now.pieces.items (drop (length opening.now.leaves.items) opening.now.files.items) count
        made.0.items made.1.items) }
{
    let files = &opening.files[opening.leaves.len()..];
    if files.len() <= MOST_DOCKS {
        let (docks, left) = make_window(alloc, &opening.header, &opening.pieces, files)?;
        if opens_few(alloc, &opening.header, &left, &docks)? {
            return Ok((docks, left));
        }
    }
    let count = window_count(&opening.header, files, opening.room);
    make_window(alloc, &opening.header, &opening.pieces, &files[..count])
}

/// Reads the next batch of pieces, with one worker for each rank, out of as many raw volumes, puts it into hierarchical
/// order and hands it to the aggregators.
pub(crate) fn deliver<L: Leaf, V: Source + Send, G: Gate, R: Threads + Sync>(
    rt: &R,
    alloc: Global,
    stream: Stream<L>,
    raws: &mut Vec<V>,
    gate: &G,
) -> Result<Stream<L>, GatherFault>
    requires ranks { vec_len raws.old ≡ stream.opening.ranks }
    requires alike { HaveSame V.contents raws.old.items }
    requires right { HasVolume stream.opening.header (contents_at V.contents raws.old.items 0) }
    requires state { AreOpen stream.opening.header stream.opening.pieces.items
        (drop (length stream.opening.leaves.items) stream.opening.files.items)
        (map (λ entry. entry.0) stream.sealed.items) stream.left.items stream.docks.items }
    ensures opening { IfOk result (λ next. next.opening ≡ stream.opening) }
    ensures sealed { IfOk result (λ next. next.sealed.items ≡ stream.sealed.items) }
    ensures moves { IfOk result (λ next. (length next.left.items < length stream.left.items) ⊎ (next.left.items ≡ [])) }
    ensures many { IfOk result (λ next. length next.docks.items ≡ length stream.docks.items) }
    ensures state { IfOk result (λ next. AreOpen stream.opening.header stream.opening.pieces.items
        (drop (length stream.opening.leaves.items) stream.opening.files.items)
        (map (λ entry. entry.0) stream.sealed.items) next.left.items next.docks.items) }
    ensures samples { IfOk result (λ next. (bytes : List ℕ) →
        contents_at V.contents raws.old.items 0 ≡ Some bytes → length bytes ≡ volume_bytes stream.opening.header →
        HaveSamples stream.opening.header (raw_sample stream.opening.header bytes) stream.docks.items →
        HaveSamples stream.opening.header (raw_sample stream.opening.header bytes) next.docks.items) }
    ensures cause { (count : ℕ) → IfErr result (IsCaused stream.opening.header
        (contents_at V.contents raws.old.items 0) (map V.faults raws.old.items) (map V.faults raws.new.items)
        count count) }
    ensures quiet { OnOk result (map V.faults raws.new.items ≡ map V.faults raws.old.items) }
    ensures number { vec_len raws.new ≡ vec_len raws.old }
    ensures same { SameContents V.contents raws.old.items raws.new.items }
    ensures idle { drop (rank_count stream.opening.header.box (vec_len raws.old)) raws.new.items
        ≡ drop (rank_count stream.opening.header.box (vec_len raws.old)) raws.old.items }
    ensures raw_count { NoneFalls (map V.faults raws.old.items) (map V.faults raws.new.items) }
    ensures raw_once { EachMeetsOnce (map V.faults raws.old.items) (map V.faults raws.new.items) }
{
    // The box has axes and points, and the pieces lie in it.
    let _axes = stream.opening.header.axes();
    let Stream {
        opening,
        docks,
        left,
        sealed,
    } = stream;
    let (batch, rest) = read_batch(rt, alloc, &opening.header, opening.room, left, raws, gate)?;
    let docks = batch.ship(rt, alloc, &opening, docks, gate)?;
    Ok(Stream {
        opening,
        docks,
        left: rest,
        sealed,
    })
}
