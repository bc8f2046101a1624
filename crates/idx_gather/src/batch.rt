ghost use Rattle.std.specs.Prelude.{◌≡◌, ◌⊎◌, ◌<◌, ◌≤◌, ◌++◌, ℕ, [], All, IfErr, IfOk, List, OnOk, Some, drop, length, map, vec_len};
ghost use Rattle.idx_outside.specs.Counts.{EachMeetsOnce};
ghost use Rattle.idx_outside.specs.Objects.{SameContents, contents_at};
ghost use Rattle.idx_pieces.specs.Pieces.{IsPiece};
ghost use Rattle.idx_pieces.specs.Ranks.{rank_count};
ghost use Rattle.idx_pieces.specs.Samples.{raw_sample, region_bytes};
ghost use Rattle.idx_ranks.specs.Loads.{HoldsLoad, IsLoad};
ghost use Rattle.idx_aggregate.specs.Docks.{AreReady, Gain, pieces_in};
ghost use Rattle.idx_gather.specs.Bytes.{load_bytes};
ghost use Rattle.idx_gather.specs.Gather.{HasVolume, HaveSame, IsCaused, NoneFalls};
ghost use Rattle.idx_gather.specs.Windows.{FitOrIsOne, run_count};

use crate::length::check_length;
use crate::window::joins;
use crate::{GatherFault, Opening};
use idx_aggregate::ship_loads;
use idx_dock::Dock;
use idx_header::Header;
use idx_outside::{Gate, Leaf, NoMemory, Source};
use idx_pieces::Piece;
use idx_ranks::{Load, read_loads};
use idx_ship::piece_bytes;
use std::alloc::Global;
use std::thread::Threads;

/// What the ranks read of the next pieces: all of it together has no more bytes than the room that it was read for, or it is of
/// one piece.
#[derive(Drop)]
pub(crate) struct Batch {
    loads: Vec<Load>,
    room: u64,
    ghost fits: { ∥ FitOrIsOne load_bytes room loads.items ∥₁ },
}

impl Batch {
    /// Puts a batch that was read for the room of this run into hierarchical order, with as many workers as there are ranks, and
    /// hands it to the aggregators.
    pub(crate) fn ship<L: Leaf, G: Gate, R: Threads + Sync>(
        self,
        rt: &R,
        alloc: Global,
        opening: &Opening<L>,
        docks: Vec<Dock>,
        gate: &G,
    ) -> Result<Vec<Dock>, NoMemory>
        requires room { self.room ≡ opening.now.room }
        requires loads { All (IsLoad opening.now.header) self.loads.items }
        requires ready { AreReady opening.now.header (map (λ load. load.piece) self.loads.items) docks.items }
        ensures { IfOk result (λ done. Gain opening.now.header self.loads.items docks.items done.items) }
    {
        let Batch { loads, room: _ } = self;
        ship_loads(
            rt,
            alloc,
            &opening.header,
            loads,
            docks,
            opening.ranks,
            gate,
        )
    }
}

/// Reads the next batch of the pieces that are left, if any are: as many as fit into the room together, or one. Those
/// behind it are still left. Nothing else makes a batch. The first raw volume's length is asked first.
pub(crate) fn read_batch<V: Source + Send, G: Gate, R: Threads + Sync>(
    rt: &R,
    alloc: Global,
    header: &Header,
    room: u64,
    left: Vec<Piece>,
    raws: &mut Vec<V>,
    gate: &G,
) -> Result<(Batch, Vec<Piece>), GatherFault>
    requires some { 0 < vec_len raws.old }
    requires few { vec_len raws.old ≤ 256 }
    requires alike { HaveSame V.contents raws.old.items }
    requires right { HasVolume header.now (contents_at V.contents raws.old.items 0) }
    requires pieces { All (IsPiece header.now) left.items }
    requires ranks { All (λ piece. piece.of_ranks ≡ vec_len raws.old) left.items }
    ensures room { IfOk result (λ read. read.0.room ≡ room) }
    ensures left { IfOk result (λ read. pieces_in read.0.loads.items ++ read.1.items ≡ left.items) }
    ensures moves { IfOk result (λ read. (length read.1.items < length left.items) ⊎ (read.1.items ≡ [])) }
    ensures loads { IfOk result (λ read. All (IsLoad header.now) read.0.loads.items) }
    ensures samples { IfOk result (λ read. (bytes : List ℕ) → contents_at V.contents raws.old.items 0 ≡ Some bytes →
        All (HoldsLoad header.now (raw_sample header.now bytes)) read.0.loads.items) }
    ensures cause { (count : ℕ) → IfErr result (IsCaused header.now (contents_at V.contents raws.old.items 0)
        (map V.faults raws.old.items) (map V.faults raws.new.items) count count) }
    ensures quiet { OnOk result (map V.faults raws.new.items ≡ map V.faults raws.old.items) }
    ensures number { vec_len raws.new ≡ vec_len raws.old }
    ensures same { SameContents V.contents raws.old.items raws.new.items }
    ensures idle { drop (rank_count header.now.box (vec_len raws.old)) raws.new.items
        ≡ drop (rank_count header.now.box (vec_len raws.old)) raws.old.items }
    ensures raw_count { NoneFalls (map V.faults raws.old.items) (map V.faults raws.new.items) }
    ensures raw_once { EachMeetsOnce (map V.faults raws.old.items) (map V.faults raws.new.items) }
{
    // The box has axes and points, so that some rank has a part of it.
    let _axes = header.axes();
    check_length(header, raws)?;
    let mut left = left;
    let count = batch_count(header, &left, room);
    let rest = match left.split_off(count) {
        Ok(rest) => rest,
        Err(_) => return Err(GatherFault::NoMemory),
    };
    let loads = read_loads(rt, alloc, header, left, raws, gate)?;
    Ok((Batch { loads, room }, rest))
}

/// How many of these pieces make the next batch: as many as fit into the room together, or one.
pub(crate) fn batch_count(header: &Header, pieces: &[Piece], room: u64) -> usize
    ensures count { result ≡ run_count (λ piece. region_bytes header.now piece.region) room pieces.now }
    ensures within { result ≤ length pieces.now }
{
    let mut used = 0;
    for count in 0..pieces.len() {
        let more = piece_bytes(header, &pieces[count].region);
        if !joins(count, used, more, room) {
            return count;
        }
        used += more;
    }
    pieces.len()
}
