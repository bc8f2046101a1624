//! What holds of the definitions, each the contract of a function that does nothing.
ghost use Rattle.std.specs.Prelude.{◌≡◌, ℕ, ◌+◌, ◌≤◌, ◌++◌, All, List, drop, length, map, nat_lt, take};
ghost use Rattle.idx_header.specs.Header.{HeaderValue, IsHeader};
ghost use Rattle.idx_pieces.specs.Pieces.{IsPiece};
ghost use Rattle.idx_pieces.specs.Samples.{region_bytes};
ghost use Rattle.idx_pieces.specs.declared.piece.Piece.{Piece};
ghost use Rattle.idx_dock.specs.Dock.{DockValue, new_dock};
ghost use Rattle.idx_ranks.specs.Loads.{IsLoad};
ghost use Rattle.idx_ranks.specs.declared.load.Load.{Load};
ghost use Rattle.idx_aggregate.specs.Docks.{has_id, pieces_in};
ghost use Rattle.idx_gather.specs.States.{AreDocks, AreLoads, HasAllBut, IsOpening};
ghost use Rattle.idx_gather.specs.Streams.{AreOpen, open_bytes};
ghost use Rattle.idx_gather.specs.Windows.{FitOrIsOne};
ghost use Rattle.idx_gather.specs.Bytes.{load_bytes};
ghost use Rattle.idx_memory_bound.specs.Open.{begun_bytes};

/// The parcels of a piece have together exactly as many bytes as the samples of the piece.
pub fn parcels_take_as_their_piece()
    ensures { (h : HeaderValue) (load : Load) → IsHeader h → IsLoad h load →
        load_bytes load ≡ region_bytes h load.piece.region }
{}

/// The parcels of a batch of pieces have together no more bytes than the room, or it is a batch of one piece.
pub fn batches_fit_into_the_room()
    ensures { (h : HeaderValue) (room : ℕ) (loads : List Load) (left : List Piece) → IsHeader h →
        All (λ load. IsPiece h load.piece) loads → AreLoads h room loads left → FitOrIsOne load_bytes room loads }
{}

/// While a step is gathered (`Parcelled`), what was read of its next pieces has no more bytes than the room, or is of
/// one piece.
pub fn parcelled_pieces_fit_into_the_room()
    ensures { (h : HeaderValue) (step ranks room done : ℕ) (pieces left : List Piece) (files : List ℕ)
        (paths : List (List ℕ)) (docks : List DockValue) (loads : List Load) → IsHeader h →
        IsOpening h step ranks room pieces files paths →
        AreDocks h room pieces (drop (length paths) files) done (pieces_in loads ++ left) docks →
        AreLoads h room loads left → FitOrIsOne load_bytes room loads }
{}

/// Where the pieces with an id up to this one were delivered to docks, and the others are left, the files of those docks
/// that are begun and not complete have together exactly as many bytes as was counted beforehand (`OpenAtMost`).
pub fn begun_files_take_what_was_counted()
    ensures { (h : HeaderValue) (id : ℕ) (left : List Piece) (docks : List DockValue) → All (HasAllBut left) docks →
        All (λ d. All (λ a. has_id left a.piece ≡ nat_lt id a.piece) d.awaited) docks →
        begun_bytes h docks ≡ open_bytes h docks id }
{}

/// So while a window of files is gathered (`AreOpen`) they have no more than was counted of its new docks.
pub fn begun_files_take_no_more_than_was_counted()
    ensures { (h : HeaderValue) (id most : ℕ) (pieces left : List Piece) (files numbers : List ℕ)
        (docks : List DockValue) → AreOpen h pieces files numbers left docks →
        All (λ d. All (λ a. has_id left a.piece ≡ nat_lt id a.piece) d.awaited) docks →
        open_bytes h (map (new_dock h pieces) (take (length docks + length numbers) files)) id ≤ most →
        begun_bytes h docks ≤ most }
{}
