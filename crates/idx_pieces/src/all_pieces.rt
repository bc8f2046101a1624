ghost use Rattle.std.specs.Prelude.{◌≡◌, ◌-◌, ◌^◌, ◌<◌, ◌≤◌, IfOk, length, true};
ghost use Rattle.idx_pieces.specs.Pieces.{has_piece, piece_at, pieces_of};
ghost use Rattle.idx_pieces.specs.Ranks.{meets, ranks_in};

use crate::piece_ids::piece_ids;
use crate::{Piece, Ranks, piece_region, rank_count, rank_region};
use idx_geom::Region;
use idx_header::Header;
use idx_outside::NoMemory;
use std::alloc::Global;

/// The pieces of a dataset's box, rising by id: for each number that the Z address of a point of the box has without
/// its last `e` digits, the points that have it. The box is divided among `n` ranks. It takes some tests for each piece,
/// each rank and each digit.
pub fn pieces(alloc: Global, header: &Header, e: u32, n: u32) -> Result<Vec<Piece>, NoMemory>
    requires digits { e ≤ length header.now.mask }
    requires ranks { 1 ≤ n }
    ensures { IfOk result (λ pieces. pieces.items ≡ pieces_of header.now e n) }
{
    let ids = piece_ids(alloc, &header.mask(), &header.region(), e)?;
    let mut pieces = Vec::new(alloc);
    for id in &ids {
        pieces.push(piece_at(alloc, header, e, n, *id)?)?;
    }
    Ok(pieces)
}

/// The piece of an id that has a point of the box.
fn piece_at(alloc: Global, header: &Header, e: u32, n: u32, id: u64) -> Result<Piece, NoMemory>
    requires digits { e ≤ length header.now.mask }
    requires small { id < 2 ^ (length header.now.mask - e) }
    requires some { has_piece header.now.mask header.now.box e id ≡ true }
    ensures { IfOk result (λ piece. piece ≡ piece_at header.now e n id) }
{
    let whole = header.region();
    let region = piece_region(&header.mask(), &whole, e, id).unwrap();
    let ranks = Ranks::from_vec(ranks_in(alloc, &whole, n, &region)?);
    Ok(Piece {
        id,
        region,
        ranks,
        of_ranks: n,
    })
}

/// The ranks, of `n`, whose region of a box has a point of another region.
fn ranks_in(alloc: Global, whole: &Region, n: u32, region: &Region) -> Result<Vec<u32>, NoMemory>
    requires { length region.now ≡ length whole.now }
    ensures { IfOk result (λ ranks. ranks.items ≡ ranks_in whole.now n region.now) }
{
    let mut ranks = Vec::new(alloc);
    for rank in 0..rank_count(whole, n) {
        if meets(&rank_region(whole, n, rank), region) {
            ranks.push(rank)?;
        }
    }
    Ok(ranks)
}

/// Whether two regions have a common point.
fn meets(region: &Region, other: &Region) -> bool
    requires { length region.now ≡ length other.now }
    ensures { result ≡ meets region.now other.now }
{
    region.meet(other).is_some()
}
