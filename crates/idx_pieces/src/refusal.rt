ghost use Rattle.std.specs.Prelude.{◌≡◌, ◌==◌, Contains};
ghost use Rattle.std.specs.List.{list_any};
ghost use Rattle.idx_pieces.specs.Pieces.{IsPiece, part_of};
ghost use Rattle.idx_pieces.specs.Refusals.{double_at, has_parcel, is_of_piece, missing_rank, same_bounds, stranger_at, why_not};

use crate::{Parcel, Piece, Why, rank_region};
use idx_geom::Region;
use idx_header::Header;

/// Why parcels do not make a piece: `None` exactly where there is one parcel for each rank that has a part of it, each
/// with that part, and no other. It is never want of memory.
pub fn why_not(header: &Header, piece: &Piece, parcels: &[Parcel]) -> Option<Why>
    requires { IsPiece header.now piece.now }
    ensures { result ≡ why_not header.now piece.now parcels.now }
{
    if let Some(at) = first_stranger(header, piece, parcels) {
        return Some(Why::Stranger { at });
    }
    if let Some(at) = first_double(parcels) {
        return Some(Why::Double { at });
    }
    match first_missing(piece, parcels) {
        Some(rank) => Some(Why::Missing { rank }),
        None => None,
    }
}

/// The place of the first parcel that is not of a piece.
fn first_stranger(header: &Header, piece: &Piece, parcels: &[Parcel]) -> Option<u64>
    requires { IsPiece header.now piece.now }
    ensures { result ≡ stranger_at header.now piece.now parcels.now }
{
    for (at, parcel) in parcels.iter().enumerate() {
        if !is_of_piece(header, piece, parcel) {
            return Some(at as u64);
        }
    }
    None
}

/// The place of the first parcel whose rank came before.
fn first_double(parcels: &[Parcel]) -> Option<u64>
    ensures { result ≡ double_at parcels.now }
{
    for (at, parcel) in parcels.iter().enumerate() {
        if has_parcel(&parcels[..at], parcel.rank) {
            return Some(at as u64);
        }
    }
    None
}

/// The first rank of a piece that has no parcel.
fn first_missing(piece: &Piece, parcels: &[Parcel]) -> Option<u32>
    ensures { result ≡ missing_rank piece.now parcels.now }
{
    for rank in piece.ranks.as_slice() {
        if !has_parcel(parcels, *rank) {
            return Some(*rank);
        }
    }
    None
}

/// Whether some parcel is of a rank.
fn has_parcel(parcels: &[Parcel], rank: u32) -> bool
    ensures { result ≡ has_parcel parcels.now rank }
{
    parcels.iter().any(|parcel| parcel.rank == rank)
}

/// Whether a parcel is of a piece.
fn is_of_piece(header: &Header, piece: &Piece, parcel: &Parcel) -> bool
    requires { IsPiece header.now piece.now }
    ensures { result ≡ is_of_piece header.now piece.now parcel.now }
{
    if parcel.piece != piece.id {
        return false;
    }
    if !has_rank(piece, parcel.rank) {
        return false;
    }
    are_same(&parcel.region, &part_of(header, piece, parcel.rank))
}

/// Whether a rank has a part of a piece.
fn has_rank(piece: &Piece, rank: u32) -> bool
    ensures { result ≡ list_any (λ other. other == rank) piece.now.ranks }
{
    piece.ranks.as_slice().contains(&rank)
}

/// The part of a piece that a rank has.
pub fn part_of(header: &Header, piece: &Piece, rank: u32) -> Region
    requires piece { IsPiece header.now piece.now }
    requires rank { Contains piece.now.ranks rank }
    ensures { result ≡ part_of header.now piece.now rank }
{
    rank_region(&header.region(), piece.of_ranks, rank)
        .meet(&piece.region)
        .unwrap()
}

/// Whether two regions are the same.
fn are_same(region: &Region, other: &Region) -> bool
    ensures { result ≡ same_bounds region.now other.now }
{
    if !region.holds(other) {
        return false;
    }
    other.holds(region)
}
