//! The parcels of all ranks, sorted to their pieces. They are moved, and no byte of them is copied.
ghost use Rattle.std.specs.Prelude.{◌≡◌, ◌≢◌, ℕ, ◌+◌, ◌-◌, ◌<◌, [], ◌∷◌, ◌++◌, All, IfOk, List, None, OnOk, Option, length, map, slice_index_or, take, vec_len};
ghost use Rattle.idx_header.specs.Header.{HeaderValue};
ghost use Rattle.idx_pieces.specs.Parcels.{IsFull};
ghost use Rattle.idx_pieces.specs.Pieces.{IsPiece};
ghost use Rattle.idx_pieces.specs.Refusals.{why_not};
ghost use Rattle.idx_pieces.specs.declared.piece.Piece.{Piece as APiece};
ghost use Rattle.idx_ranks.specs.Queues.{AllFull, AreQueuesOf, queue_at};

use crate::Load;
use idx_header::Header;
use idx_outside::NoMemory;
use idx_pieces::{Parcel, Parcels, Piece};
use std::alloc::Global;

/// The pieces, each with its parcels. Each rank's queue has one parcel for each piece that its region meets, in the
/// order of the pieces: so the last parcels of the last piece's ranks are that piece's.
pub(crate) fn sorted(
    alloc: Global,
    header: &Header,
    mut pieces: Vec<Piece>,
    mut queues: Vec<Vec<Parcel>>,
) -> Result<Vec<Load>, NoMemory>
    requires pieces { All (IsPiece header.now) pieces.items }
    requires ranks { All (λ piece. piece.of_ranks ≡ vec_len queues) pieces.items }
    requires queues { AreQueuesOf header.now.box (vec_len queues) pieces.items queues.items }
    ensures pieces { IfOk result (λ loads. map (λ load. load.piece) loads.items ≡ pieces.items) }
    ensures legal { IfOk result (λ loads.
        All (λ load. why_not header.now load.piece load.parcels ≡ None) loads.items) }
    ensures full { (told : Option (List ℕ)) → AllFull header.now told queues.items →
        IfOk result (λ loads. All (λ load. All (IsFull header.now told) load.parcels) loads.items) }
{
    let count = pieces.len();
    let mut loads = Vec::with_capacity(alloc, count)?;
    for taken in 0..count {
        let parcels = take_last(alloc, header, &pieces, &mut queues)?;
        let piece = pieces.pop().unwrap();
        loads.push(Load {
            piece,
            parcels: Parcels::from_vec(parcels),
        })?;
    }
    loads.reverse();
    Ok(loads)
}

/// Takes the parcels of the last one of some pieces, by rising rank. The header is named by the contract alone.
fn take_last(
    alloc: Global,
    _header: &Header,
    pieces: &Vec<Piece>,
    queues: &mut Vec<Vec<Parcel>>,
) -> Result<Vec<Parcel>, NoMemory>
    requires some { 0 < vec_len pieces.now }
    requires pieces { All (IsPiece _header.now) pieces.now.items }
    requires ranks { All (λ piece. piece.of_ranks ≡ vec_len queues.old) pieces.now.items }
    requires queues { AreQueuesOf _header.now.box (vec_len queues.old) pieces.now.items queues.old.items }
    ensures number { vec_len queues.new ≡ vec_len queues.old }
    ensures queues { OnOk result (AreQueuesOf _header.now.box (vec_len queues.old)
        (take (vec_len pieces.now - 1) pieces.now.items) queues.new.items) }
    ensures legal { IfOk result (λ parcels. (d : APiece) →
        why_not _header.now (slice_index_or pieces.now.items (vec_len pieces.now - 1) d) parcels.items ≡ None) }
    ensures full { (told : Option (List ℕ)) → AllFull _header.now told queues.old.items →
        IfOk result (λ parcels.
        AllFull _header.now told queues.new.items × All (IsFull _header.now told) parcels.items) }
{
    let piece = &pieces[pieces.len() - 1];
    let ranks = piece.ranks.as_slice();
    let mut parcels = Vec::with_capacity(alloc, ranks.len())?;
    for rank in ranks {
        parcels.push(take_parcel(queues, *rank))?;
    }
    Ok(parcels)
}

/// Takes the last parcel of a rank's queue.
fn take_parcel(queues: &mut Vec<Vec<Parcel>>, rank: u32) -> Parcel
    requires rank { rank < vec_len queues.old }
    requires some { 0 < length (queue_at queues.old.items rank) }
    ensures number { vec_len queues.new ≡ vec_len queues.old }
    ensures taken { queue_at queues.old.items rank ≡ queue_at queues.new.items rank ++ result ∷ [] }
    ensures others { (i : ℕ) → i ≢ rank → queue_at queues.new.items i ≡ queue_at queues.old.items i }
    ensures full { (h : HeaderValue) (told : Option (List ℕ)) → AllFull h told queues.old.items →
        AllFull h told queues.new.items × IsFull h told result }
{
    queues[rank as usize].pop().unwrap()
}
