ghost use Rattle.std.specs.Prelude.{◌≡◌, ◌<◌, ◌≤◌, ℕ, All, IfErr, IfOk, List, OnErr, OnOk, Some, drop, map, vec_capacity, vec_len};
ghost use Rattle.idx_header.specs.Header.{volume_bytes};
ghost use Rattle.idx_outside.specs.Counts.{EachMeetsOnce, NoneFell};
ghost use Rattle.idx_outside.specs.Objects.{SameContents};
ghost use Rattle.idx_pieces.specs.Pieces.{IsPiece};
ghost use Rattle.idx_pieces.specs.Ranks.{rank_count};
ghost use Rattle.idx_pieces.specs.RawReads.{HasVolume};
ghost use Rattle.idx_pieces.specs.Samples.{raw_sample};
ghost use Rattle.idx_ranks.specs.Faults.{EachAsksAtMost, IsRefusedBy};
ghost use Rattle.idx_ranks.specs.Jobs.{AreReads};
ghost use Rattle.idx_ranks.specs.Loads.{HoldsLoad, IsLoad};

use crate::job::run_all;
use crate::moving::{give_back, make_jobs};
use crate::settling::settled;
use crate::sorting::sorted;
use crate::{Load, RanksFault};
use idx_header::Header;
use idx_outside::{Gate, NoMemory, Source};
use idx_pieces::{Parcel, Piece, RawRefusal};
use std::alloc::Global;
use std::thread::Threads;

/// Reads the pieces of a division out of the raw volumes of its ranks: raw volume `i` is that of rank `i`. Each rank
/// reads its parcels in a thread of its own, where one can be had, and passes the gate. Then the parcels are sorted to
/// their pieces.
///
/// `RawFault` where a call on a raw volume failed: the least such rank, and its count of faults. `NoMemory` only where
/// none failed. A raw volume is asked for at most as many bytes as the samples of the box have, and that of a rank
/// without a part of the box is not touched.
pub fn read_loads<V: Source + Send, G: Gate, R: Threads + Sync>(
    rt: &R,
    alloc: Global,
    header: &Header,
    pieces: Vec<Piece>,
    raws: &mut Vec<V>,
    gate: &G,
) -> Result<Vec<Load>, RanksFault>
    requires some { 0 < vec_len raws.old }
    requires few { vec_len raws.old ≤ 256 }
    requires pieces { All (λ piece. IsPiece header.now piece) pieces.items }
    requires ranks { All (λ piece. piece.of_ranks ≡ vec_len raws.old) pieces.items }
    requires volume { All (λ raw. HasVolume header.now (V.contents raw)) raws.old.items }
    ensures pieces { IfOk result (λ loads. map (λ load. load.piece) loads.items ≡ pieces.items) }
    ensures loads { IfOk result (λ loads. All (IsLoad header.now) loads.items) }
    ensures samples { IfOk result (λ loads. (bytes : List ℕ) →
        All (λ raw. V.contents raw ≡ Some bytes) raws.old.items →
        All (HoldsLoad header.now (raw_sample header.now bytes)) loads.items) }
    ensures quiet { OnOk result (map V.faults raws.new.items ≡ map V.faults raws.old.items) }
    ensures refused { IfErr result (IsRefusedBy (map V.faults raws.old.items) (map V.faults raws.new.items)) }
    ensures count { NoneFell (map V.faults raws.old.items) (map V.faults raws.new.items) }
    ensures once { EachMeetsOnce (map V.faults raws.old.items) (map V.faults raws.new.items) }
    ensures same { SameContents V.contents raws.old.items raws.new.items }
    ensures idle { drop (rank_count header.now.box (vec_len raws.old)) raws.new.items ≡
        drop (rank_count header.now.box (vec_len raws.old)) raws.old.items }
    ensures asked { EachAsksAtMost (map V.asked raws.old.items) (map V.asked raws.new.items) (volume_bytes header.now) }
{
    let Ok(reads) = read_all(rt, alloc, header, &pieces, raws, gate) else {
        return Err(RanksFault::NoMemory);
    };
    let queues = match settled(alloc, reads) {
        Ok(queues) => queues,
        Err(fault) => return Err(fault),
    };
    match sorted(alloc, header, pieces, queues) {
        Ok(loads) => Ok(loads),
        Err(_) => Err(RanksFault::NoMemory),
    }
}

/// What each rank read. The raw volumes are back in their places.
fn read_all<V: Source + Send, G: Gate, R: Threads + Sync>(
    rt: &R,
    alloc: Global,
    header: &Header,
    pieces: &Vec<Piece>,
    raws: &mut Vec<V>,
    gate: &G,
) -> Result<Vec<Result<Vec<Parcel>, RawRefusal>>, NoMemory>
    requires some { 0 < vec_len raws.old }
    requires few { vec_len raws.old ≤ 256 }
    requires pieces { All (λ piece. IsPiece header.now piece) pieces.now.items }
    requires volume { All (λ raw. HasVolume header.now (V.contents raw)) raws.old.items }
    ensures reads { IfOk result (λ reads. AreReads V.contents V.faults V.asked header.now pieces.now.items
        raws.old.items raws.new.items reads.items) }
    ensures refused { OnErr result (raws.new.items ≡ raws.old.items) }
{
    let whole = header.region();
    prove!(whole.axes() >= 2);
    let mut reads = room_for_reads(alloc, raws)?;
    let mut jobs = make_jobs(alloc, header, raws)?;
    run_all(rt, alloc, header, pieces, &mut jobs, gate);
    give_back(jobs, raws, &mut reads);
    Ok(reads)
}

/// Room for what each raw volume gives. The raw volumes stay as they are.
fn room_for_reads<V: Source>(
    alloc: Global,
    raws: &mut Vec<V>,
) -> Result<Vec<Result<Vec<Parcel>, RawRefusal>>, NoMemory>
    ensures same { raws.new.items ≡ raws.old.items }
    ensures fit { OnOk result (vec_len raws.new ≤ vec_capacity raws.new) }
    ensures none { IfOk result (λ reads. vec_len reads ≡ 0) }
    ensures room { IfOk result (λ reads. vec_len raws.new ≤ vec_capacity reads) }
{
    // It tells that the raw volumes fit in the room that they have, so that they can be moved back there.
    raws.reserve(0)?;
    let reads = Vec::with_capacity(alloc, raws.len())?;
    Ok(reads)
}
