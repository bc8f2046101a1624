//! Laws of the definitions, each the contract of a function that does nothing.
ghost use Rattle.std.specs.Prelude.{◌≡◌, ℕ, ◌^◌, ◌<◌, ◌≤◌, ◌↔◌, [], ◌∷◌, Contains, List, length, true};
ghost use Rattle.idx_geom.specs.Region.{HasExactly, HaveCommonPoint, HoldsAll, IsRegion, LiesIn};
ghost use Rattle.idx_header.specs.Header.{HeaderValue, IsHeader};
ghost use Rattle.idx_pieces.specs.Ranks.{rank_count, rank_region};
ghost use Rattle.idx_pieces.specs.Pieces.{IsPiece, has_piece, part_of, piece_at, piece_of, piece_region, pieces_of};
ghost use Rattle.idx_pieces.specs.declared.piece.Piece.{Piece};

/// The ranks' regions of a box are regions in it, and each point of the box lies in that of exactly one rank.
pub fn ranks_divide_the_box()
    ensures regions { (box : List (ℕ × ℕ)) (n rank : ℕ) → IsRegion box → rank < rank_count box n →
        IsRegion (rank_region box n rank) }
    ensures within { (box : List (ℕ × ℕ)) (n rank : ℕ) → IsRegion box → rank < rank_count box n →
        HoldsAll box (rank_region box n rank) }
    ensures some { (box : List (ℕ × ℕ)) (n : ℕ) (p : List ℕ) → IsRegion box → 1 ≤ n → LiesIn box p →
        (rank : ℕ) × ((rank < rank_count box n) × LiesIn (rank_region box n rank) p) }
    ensures only { (box : List (ℕ × ℕ)) (n rank other : ℕ) (p : List ℕ) → IsRegion box → rank < rank_count box n →
        other < rank_count box n → LiesIn (rank_region box n rank) p → LiesIn (rank_region box n other) p →
        rank ≡ other }
{}

/// The region of a piece is one, and has exactly the box's points of its id. Each point of the box lies in exactly one
/// piece.
pub fn pieces_divide_the_box()
    ensures regions { (h : HeaderValue) (e id : ℕ) → IsHeader h → e ≤ length h.mask →
        has_piece h.mask h.box e id ≡ true → IsRegion (piece_region h.mask h.box e id) }
    ensures exact { (h : HeaderValue) (e id : ℕ) → IsHeader h → e ≤ length h.mask → has_piece h.mask h.box e id ≡ true →
        HasExactly (piece_region h.mask h.box e id) (λ p. LiesIn h.box p × (piece_of h.mask e p ≡ id)) }
    ensures one { (h : HeaderValue) (e n : ℕ) (p : List ℕ) (piece : Piece) → IsHeader h → e ≤ length h.mask →
        LiesIn h.box p → (Contains (pieces_of h e n) piece × LiesIn piece.region p) ↔
        (piece ≡ piece_at h e n (piece_of h.mask e p)) }
{}

/// The ranks of a piece are exactly those whose region has a point of it. A piece that only one rank has a part of is
/// whole that rank's part.
pub fn ranks_have_their_parts()
    ensures ranks { (h : HeaderValue) (piece : Piece) (rank : ℕ) → IsHeader h → IsPiece h piece →
        Contains piece.ranks rank ↔ ((rank < rank_count h.box piece.of_ranks) ×
        HaveCommonPoint (rank_region h.box piece.of_ranks rank) piece.region) }
    ensures whole { (h : HeaderValue) (piece : Piece) (rank : ℕ) → IsHeader h → IsPiece h piece →
        piece.ranks ≡ rank ∷ [] → part_of h piece rank ≡ piece.region }
{}
