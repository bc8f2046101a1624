ghost use Rattle.std.specs.Prelude.{◌≡◌, [], ◌∷◌, All, IfErr, IfOk, None, length, unwrap_or};
ghost use Rattle.idx_pieces.specs.Joined.{HoldsWhereAllDo};
ghost use Rattle.idx_pieces.specs.Pieces.{IsPiece};
ghost use Rattle.idx_pieces.specs.Refusals.{why_not};
ghost use Rattle.idx_pieces.specs.Samples.{region_bytes};
ghost use Rattle.idx_pieces.specs.declared.parcel.Parcel.{Parcel};

use crate::joined::joined;
use crate::{Filled, Parcel, Parcels, Piece, Refused, Why, why_not};
use idx_header::Header;
use idx_outside::Bytes;
use std::alloc::Global;

/// A piece with all of its samples, from the parcels of its ranks, one of each, in any order. Where they do not make
/// the piece, or there is no memory for its bytes, the piece and the parcels are handed back as they were: `why_not` is
/// the reason, and want of memory only where there is none.
pub fn assemble(
    alloc: Global,
    header: &Header,
    piece: Piece,
    parcels: Vec<Parcel>,
) -> Result<Filled, Refused>
    requires piece { IsPiece header.now piece }
    requires whole { All (λ parcel. length parcel.bytes ≡ region_bytes header.now parcel.region) parcels.items }
    ensures ok { IfOk result (λ filled. (why_not header.now piece parcels.items ≡ None) × (filled.piece ≡ piece)) }
    ensures samples { IfOk result (λ filled. HoldsWhereAllDo header.now piece parcels.items filled.bytes) }
    ensures why { IfErr result (λ refused.
        refused.why ≡ unwrap_or (why_not header.now piece parcels.items) Why.NoMemory) }
    ensures back { IfErr result (λ refused. (refused.piece ≡ piece) × (refused.parcels ≡ parcels.items)) }
{
    if let Some(why) = why_not(header, &piece, parcels.as_slice()) {
        return Err(refused(why, piece, parcels));
    }
    if parcels.len() == 1 {
        prove!(header.axes() >= 2);
        let bytes = bytes_of_one(parcels);
        return Ok(Filled { piece, bytes });
    }
    match joined(alloc, header, &piece, parcels.as_slice()) {
        Ok(bytes) => Ok(Filled { piece, bytes }),
        Err(_) => Err(refused(Why::NoMemory, piece, parcels)),
    }
}

/// The bytes of the only parcel, moved out of it.
fn bytes_of_one(parcels: Vec<Parcel>) -> Bytes
    requires { length parcels.items ≡ 1 }
    ensures { (parcel : Parcel) → parcels.items ≡ parcel ∷ [] → result ≡ parcel.bytes }
{
    let mut parcels = parcels;
    let Some(parcel) = parcels.pop() else {
        unreachable!()
    };
    parcel.bytes
}

/// A refusal that hands back the piece and the parcels.
fn refused(why: Why, piece: Piece, parcels: Vec<Parcel>) -> Refused
    ensures why { result.why ≡ why }
    ensures piece { result.piece ≡ piece }
    ensures parcels { result.parcels ≡ parcels.items }
{
    Refused {
        why,
        piece,
        parcels: Parcels::from_vec(parcels),
    }
}
