//! Worked rows of the box of 4 by 4 points, each a law.
ghost use Rattle.std.specs.Prelude.{◌≡◌, [], ◌∷◌, None, Some, map};
ghost use Rattle.idx_header.specs.Header.{HeaderValue};
ghost use Rattle.idx_header.specs.Worked.{small_header};
ghost use Rattle.idx_pieces.specs.Ranks.{rank_regions};
ghost use Rattle.idx_pieces.specs.Pieces.{pieces_of};
ghost use Rattle.idx_pieces.specs.Refusals.{why_not};
ghost use Rattle.idx_pieces.specs.declared.parcel.Parcel.{Parcel};
ghost use Rattle.idx_pieces.specs.declared.piece.Piece.{Piece};
ghost use Rattle.idx_pieces.specs.declared.why.Why.TheVariants.{Double, Missing, Stranger};

/// The parts of one rank, of two, of four and of eight, which are rows; and of two of 4 by 2 points, which are columns.
pub fn parts_of_ranks()
    ensures one { rank_regions ((0, 3) ∷ (0, 3) ∷ []) 1 ≡ ((0, 3) ∷ (0, 3) ∷ []) ∷ [] }
    ensures two { rank_regions ((0, 3) ∷ (0, 3) ∷ []) 2 ≡ ((0, 3) ∷ (0, 1) ∷ []) ∷ ((0, 3) ∷ (2, 3) ∷ []) ∷ [] }
    ensures four { rank_regions ((0, 3) ∷ (0, 3) ∷ []) 4 ≡ ((0, 3) ∷ (0, 0) ∷ []) ∷ ((0, 3) ∷ (1, 1) ∷ []) ∷
        ((0, 3) ∷ (2, 2) ∷ []) ∷ ((0, 3) ∷ (3, 3) ∷ []) ∷ [] }
    ensures eight { rank_regions ((0, 3) ∷ (0, 3) ∷ []) 8 ≡ rank_regions ((0, 3) ∷ (0, 3) ∷ []) 4 }
    ensures wide { rank_regions ((0, 3) ∷ (0, 1) ∷ []) 2 ≡ ((0, 1) ∷ (0, 1) ∷ []) ∷ ((2, 3) ∷ (0, 1) ∷ []) ∷ [] }
{}

/// The pieces with two free digits, which are quarters, and with three, which are halves: their points, and which of two
/// ranks have a part of each.
pub fn divisions()
    ensures quarters { map (λ p. p.region) (pieces_of small_header 2 2) ≡ ((0, 1) ∷ (0, 1) ∷ []) ∷
        ((0, 1) ∷ (2, 3) ∷ []) ∷ ((2, 3) ∷ (0, 1) ∷ []) ∷ ((2, 3) ∷ (2, 3) ∷ []) ∷ [] }
    ensures quarter_ids { map (λ p. p.id) (pieces_of small_header 2 2) ≡ 0 ∷ 1 ∷ 2 ∷ 3 ∷ [] }
    ensures quarter_ranks { map (λ p. p.ranks) (pieces_of small_header 2 2) ≡
        (0 ∷ []) ∷ (1 ∷ []) ∷ (0 ∷ []) ∷ (1 ∷ []) ∷ [] }
    ensures halves { map (λ p. p.region) (pieces_of small_header 3 2) ≡ ((0, 1) ∷ (0, 3) ∷ []) ∷
        ((2, 3) ∷ (0, 3) ∷ []) ∷ [] }
    ensures half_ids { map (λ p. p.id) (pieces_of small_header 3 2) ≡ 0 ∷ 1 ∷ [] }
    ensures half_ranks { map (λ p. p.ranks) (pieces_of small_header 3 2) ≡ (0 ∷ 1 ∷ []) ∷ (0 ∷ 1 ∷ []) ∷ [] }
    ensures of_ranks { map (λ p. p.of_ranks) (pieces_of small_header 3 2) ≡ 2 ∷ 2 ∷ [] }
{}

/// Why parcels do not make the first half, of which two ranks have two rows each: nothing is wrong with both, in any order;
/// a second parcel of a rank; no parcel of one; one of the other half, also behind a second one; and a part that is not
/// that of its rank, or of a rank that has none.
pub fn refused_parcels()
    ensures { (h : HeaderValue) →
        let here = record h { box = (0, 3) ∷ (0, 3) ∷ [] } in
        let upper : Parcel = record { rank = 0; piece = 0; region = (0, 1) ∷ (0, 1) ∷ []; bytes = [] } in
        let lower : Parcel = record { rank = 1; piece = 0; region = (0, 1) ∷ (2, 3) ∷ []; bytes = [] } in
        let other : Parcel = record { rank = 0; piece = 1; region = (2, 3) ∷ (0, 1) ∷ []; bytes = [] } in
        let mine : Parcel = record { rank = 0; piece = 0; region = (0, 1) ∷ (2, 3) ∷ []; bytes = [] } in
        let nobody : Parcel = record { rank = 2; piece = 0; region = (0, 1) ∷ (2, 3) ∷ []; bytes = [] } in
        let half : Piece = record { id = 0; region = (0, 1) ∷ (0, 3) ∷ []; ranks = 0 ∷ 1 ∷ []; of_ranks = 2 } in
        (why_not here half (upper ∷ lower ∷ []) ≡ None)
        × (why_not here half (lower ∷ upper ∷ []) ≡ None)
        × (why_not here half (upper ∷ upper ∷ lower ∷ []) ≡ Some (Double 1))
        × (why_not here half (upper ∷ lower ∷ lower ∷ []) ≡ Some (Double 2))
        × (why_not here half (upper ∷ []) ≡ Some (Missing 1))
        × (why_not here half (lower ∷ []) ≡ Some (Missing 0))
        × (why_not here half [] ≡ Some (Missing 0))
        × (why_not here half (other ∷ upper ∷ lower ∷ []) ≡ Some (Stranger 0))
        × (why_not here half (upper ∷ upper ∷ other ∷ []) ≡ Some (Stranger 2))
        × (why_not here half (upper ∷ mine ∷ []) ≡ Some (Stranger 1))
        × (why_not here half (upper ∷ nobody ∷ []) ≡ Some (Stranger 1)) }
{}
