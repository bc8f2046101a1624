//! What holds of the definitions, each the contract of a function that does nothing.
ghost use Rattle.std.specs.Prelude.{◌≡◌, ◌≢◌, ℕ, ◌++◌, All, AllPairs, Contains, List, None, map};
ghost use Rattle.idx_header.specs.Header.{HeaderValue};
ghost use Rattle.idx_layout.specs.Placing.{file_numbers};
ghost use Rattle.idx_layout.specs.OfHeader.{placing_of};
ghost use Rattle.idx_pieces.specs.Runs.{HasSamples};
ghost use Rattle.idx_pieces.specs.Samples.{AreSamples};
ghost use Rattle.idx_pieces.specs.declared.piece.Piece.{Piece};
ghost use Rattle.idx_dock.specs.Content.{runs_in};
ghost use Rattle.idx_dock.specs.Dock.{DockValue, IsDivision, missing, new_dock};
ghost use Rattle.idx_ranks.specs.Loads.{HoldsLoad};
ghost use Rattle.idx_ranks.specs.declared.load.Load.{Load};
ghost use Rattle.idx_aggregate.specs.Docks.{AreReady, Gain, pieces_in};

/// What docks gain by some loads and then by others, they gain by all of them.
pub fn gains_add_up()
    ensures { (h : HeaderValue) (loads others : List Load) (old docks new : List DockValue) →
        Gain h loads old docks → Gain h others docks new → Gain h (loads ++ others) old new }
{}

/// New docks of different files of a dataset are ready for all pieces of the division that they were made with.
pub fn new_docks_are_ready()
    ensures { (h : HeaderValue) (division : List Piece) (files : List ℕ) → IsDivision h division →
        All (Contains (file_numbers (placing_of h))) files → AllPairs (λ one other. one ≢ other) files →
        AreReady h division (map (new_dock h division) files) }
{}

/// Docks that are ready for the pieces of some loads and of others are ready for those of the first, and, once they
/// have gained these, for those of the others.
pub fn docks_stay_ready()
    ensures first { (h : HeaderValue) (loads others : List Load) (docks : List DockValue) →
        AreReady h (pieces_in (loads ++ others)) docks → AreReady h (pieces_in loads) docks }
    ensures others { (h : HeaderValue) (loads others : List Load) (docks new : List DockValue) →
        AreReady h (pieces_in (loads ++ others)) docks → Gain h loads docks new → AreReady h (pieces_in others) new }
{}

/// New docks that gained the loads of all pieces miss none, and where the loads hold the samples of a dataset, so does
/// all that was delivered.
pub fn docks_become_complete()
    ensures complete { (h : HeaderValue) (loads : List Load) (division : List Piece) (files : List ℕ)
        (docks : List DockValue) → pieces_in loads ≡ division →
        Gain h loads (map (new_dock h division) files) docks → All (λ d. missing d ≡ None) docks }
    ensures samples { (h : HeaderValue) (loads : List Load) (division : List Piece) (files : List ℕ)
        (docks : List DockValue) → Gain h loads (map (new_dock h division) files) docks →
        (sample : ℕ → List ℕ → List ℕ) → AreSamples h sample → All (HoldsLoad h sample) loads →
        All (λ d. All (HasSamples h sample) (runs_in d.awaited)) docks }
{}
