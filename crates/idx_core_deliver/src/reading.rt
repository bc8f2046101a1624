//! A piece and its samples, read from a raw volume.
ghost use Rattle.std.specs.Prelude.{◌≡◌, ◌∷◌, [], All, IfOk, Some, length};
ghost use Rattle.idx_header.specs.Header.{volume_bytes};
ghost use Rattle.idx_pieces.specs.Parcels.{AreParcelsOf, IsFull};
ghost use Rattle.idx_pieces.specs.Pieces.{IsPiece};
ghost use Rattle.idx_pieces.specs.declared.parcel.Parcel.{Parcel as AParcel};
ghost use Rattle.idx_pieces.specs.Samples.{HoldsSamples, raw_sample, region_bytes};

use idx_header::Header;
use idx_memory::SureSource;
use idx_outside::{Bytes, NoMemory};
use idx_pieces::{Filled, Parcel, Piece, read_rank};
use std::alloc::Global;

/// Reads all samples of a piece.
pub(crate) fn read_piece(
    alloc: Global,
    raw: &mut SureSource,
    header: &Header,
    piece: &Piece,
) -> Result<Filled, NoMemory>
    requires piece { IsPiece header.now piece.now }
    requires whole { length raw.old.bytes ≡ volume_bytes header.now }
    ensures piece { IfOk result (λ filled. filled.piece ≡ piece.now) }
    ensures many { IfOk result (λ filled. length filled.bytes ≡ region_bytes header.now piece.now.region) }
    ensures samples { IfOk result (λ filled.
        HoldsSamples header.now (raw_sample header.now raw.old.bytes) piece.now.region filled.bytes) }
    ensures raw { raw.new.bytes ≡ raw.old.bytes }
{
    let _valid = header.axes();
    let mut pieces = one_piece(alloc, piece)?;
    let parcels = read_box(alloc, raw, header, &pieces)?;
    let piece = pieces.pop().unwrap();
    let bytes = bytes_of_one(parcels);
    Ok(Filled { piece, bytes })
}

/// A piece alone, copied.
fn one_piece(alloc: Global, piece: &Piece) -> Result<Vec<Piece>, NoMemory>
    ensures { IfOk result (λ pieces. pieces.items ≡ piece.now ∷ []) }
{
    let mut pieces = Vec::new(alloc);
    pieces.push(piece.copy(alloc)?)?;
    Ok(pieces)
}

/// Reads what the whole box has of pieces: one parcel for each of them, as of a rank that has the box for itself.
fn read_box(
    alloc: Global,
    raw: &mut SureSource,
    header: &Header,
    pieces: &Vec<Piece>,
) -> Result<Vec<Parcel>, NoMemory>
    requires axes { All (λ p. length p.region ≡ length header.now.box) pieces.now.items }
    requires whole { length raw.old.bytes ≡ volume_bytes header.now }
    ensures parcels { IfOk result (λ parcels.
        AreParcelsOf 0 header.now.box pieces.now.items parcels.items) }
    ensures full { IfOk result (λ parcels. All (IsFull header.now (Some raw.old.bytes)) parcels.items) }
    ensures raw { raw.new.bytes ≡ raw.old.bytes }
{
    match read_rank(alloc, raw, header, &header.region(), 0, pieces) {
        Ok(parcels) => Ok(parcels),
        Err(_) => Err(NoMemory),
    }
}

/// The bytes of the only parcel, moved out of it.
fn bytes_of_one(parcels: Vec<Parcel>) -> Bytes
    requires { length parcels.items ≡ 1 }
    ensures { (parcel : AParcel) → parcels.items ≡ parcel ∷ [] → result ≡ parcel.bytes }
{
    let mut parcels = parcels;
    let Some(parcel) = parcels.pop() else {
        unreachable!()
    };
    parcel.bytes
}
