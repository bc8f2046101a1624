//! Worked values of the definitions.
ghost use Rattle.std.specs.Prelude.{◌≡◌, [], ◌∷◌, Option, filter};
ghost use Rattle.std.specs.List.{range_with_len};
ghost use Rattle.idx_pieces.specs.Ranks.{cut_axis, rank_regions, ranks_in};
ghost use Rattle.idx_pieces.specs.Pieces.{has_piece, piece_region};
ghost use Rattle.idx_pieces.specs.Runs.{has_address};
ghost use Rattle.idx_pieces.specs.Refusals.{why_not};
ghost use Rattle.idx_pieces.specs.declared.parcel.Parcel.{Parcel};
ghost use Rattle.idx_pieces.specs.declared.piece.Piece.{Piece};
ghost use Rattle.idx_header.specs.Header.{HeaderValue};

use crate::Why;

/// How boxes are divided among ranks: of 4 by 4 points, three ranks have one, one and two of the rows; of 8 by 2 points,
/// two have four columns each; and of 2 by 2 points, two of five have a part. The last rank of three meets the points of
/// the row 3 alone.
pub fn worked_ranks()
    ensures rows { rank_regions ((0, 3) ∷ (0, 3) ∷ []) 3 ≡ ((0, 3) ∷ (0, 0) ∷ []) ∷ ((0, 3) ∷ (1, 1) ∷ []) ∷
        ((0, 3) ∷ (2, 3) ∷ []) ∷ [] }
    ensures columns { rank_regions ((0, 7) ∷ (5, 6) ∷ []) 2 ≡ ((0, 3) ∷ (5, 6) ∷ []) ∷ ((4, 7) ∷ (5, 6) ∷ []) ∷ [] }
    ensures few { rank_regions ((0, 1) ∷ (0, 1) ∷ []) 5 ≡ ((0, 1) ∷ (0, 0) ∷ []) ∷ ((0, 1) ∷ (1, 1) ∷ []) ∷ [] }
    ensures last_axis { cut_axis ((0, 3) ∷ (0, 1) ∷ (4, 7) ∷ (9, 9) ∷ []) ≡ 2 }
    ensures some { ranks_in ((0, 3) ∷ (0, 3) ∷ []) 3 ((1, 1) ∷ (3, 3) ∷ []) ≡ 2 ∷ [] }
    ensures both { ranks_in ((0, 3) ∷ (0, 3) ∷ []) 3 ((0, 1) ∷ (0, 1) ∷ []) ≡ 0 ∷ 1 ∷ [] }
{}

/// The pieces of 3 by 3 points whose addresses have four digits, of which two stand in front: four pieces, of 2 by 2, 2 by
/// 1, 1 by 2 points and of one. Of the points of the rows 2 and 3 alone, two pieces have some.
pub fn worked_pieces()
    ensures first { piece_region (0 ∷ 1 ∷ 0 ∷ 1 ∷ []) ((0, 2) ∷ (0, 2) ∷ []) 2 0 ≡ (0, 1) ∷ (0, 1) ∷ [] }
    ensures second { piece_region (0 ∷ 1 ∷ 0 ∷ 1 ∷ []) ((0, 2) ∷ (0, 2) ∷ []) 2 1 ≡ (0, 1) ∷ (2, 2) ∷ [] }
    ensures third { piece_region (0 ∷ 1 ∷ 0 ∷ 1 ∷ []) ((0, 2) ∷ (0, 2) ∷ []) 2 2 ≡ (2, 2) ∷ (0, 1) ∷ [] }
    ensures last { piece_region (0 ∷ 1 ∷ 0 ∷ 1 ∷ []) ((0, 2) ∷ (0, 2) ∷ []) 2 3 ≡ (2, 2) ∷ (2, 2) ∷ [] }
    ensures rows { filter (has_piece (0 ∷ 1 ∷ 0 ∷ 1 ∷ []) ((0, 3) ∷ (2, 3) ∷ []) 2) (range_with_len 0 4) ≡ 1 ∷ 3 ∷ [] }
{}

/// The addresses, among 4 to 7 and among 8 to 15, of the points of the columns 0 and 1 of 4 by 4 points.
pub fn worked_addresses()
    ensures level_3 { filter (has_address (0 ∷ 1 ∷ 0 ∷ 1 ∷ []) ((0, 1) ∷ (0, 3) ∷ [])) (range_with_len 4 4) ≡
        4 ∷ 5 ∷ [] }
    ensures level_4 { filter (has_address (0 ∷ 1 ∷ 0 ∷ 1 ∷ []) ((0, 1) ∷ (0, 3) ∷ [])) (range_with_len 8 8) ≡
        8 ∷ 9 ∷ 10 ∷ 11 ∷ [] }
{}

/// Why parcels do not make the piece of the points (0, 0) to (1, 1) of 4 by 4 points that three ranks have, in which
/// the ranks 0 and 1 have a row each: nothing is wrong where each has its parcel; two parcels of one rank; none of the
/// rank 1; and a first parcel of another piece.
pub fn worked_refusals()
    ensures { (h : HeaderValue) →
        let box = (0, 3) ∷ (0, 3) ∷ [] in
        let here = record h { box = box } in
        let rows = (0, 1) ∷ (0, 1) ∷ [] in
        let top : Parcel = record { rank = 0; piece = 0; region = (0, 1) ∷ (0, 0) ∷ []; bytes = 0 ∷ 1 ∷ [] } in
        let low : Parcel = record { rank = 1; piece = 0; region = (0, 1) ∷ (1, 1) ∷ []; bytes = 4 ∷ 5 ∷ [] } in
        let other : Parcel = record { rank = 1; piece = 1; region = (0, 1) ∷ (1, 1) ∷ []; bytes = 4 ∷ 5 ∷ [] } in
        let piece : Piece = record { id = 0; region = rows; ranks = 0 ∷ 1 ∷ []; of_ranks = 3 } in
        (why_not here piece (low ∷ top ∷ []) ≡ None)
        × (why_not here piece (low ∷ low ∷ []) ≡ Some (Why.Double 1))
        × (why_not here piece (top ∷ []) ≡ Some (Why.Missing 1))
        × (why_not here piece (other ∷ top ∷ []) ≡ Some (Why.Stranger 0)) }
{}
