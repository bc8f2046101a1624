//! Worked values of the definitions.
ghost use Rattle.std.specs.Prelude.{◌≡◌, true, false, [], ◌∷◌};
ghost use Rattle.idx_stride.specs.Places.{offsets, samples_at};

/// The places of a grid of four by four bytes, whose coarser grid has every second coordinate along both axes.
pub fn worked_offsets()
    ensures finer { offsets 0 true (record { step = 1; count = 4; phase = 0; ratio = 2 } ∷
        record { step = 4; count = 4; phase = 0; ratio = 2 } ∷ []) ≡
        1 ∷ 3 ∷ 4 ∷ 5 ∷ 6 ∷ 7 ∷ 9 ∷ 11 ∷ 12 ∷ 13 ∷ 14 ∷ 15 ∷ [] }
    ensures all { offsets 0 false (record { step = 1; count = 4; phase = 0; ratio = 2 } ∷
        record { step = 4; count = 2; phase = 0; ratio = 2 } ∷ []) ≡ 0 ∷ 1 ∷ 2 ∷ 3 ∷ 4 ∷ 5 ∷ 6 ∷ 7 ∷ [] }

    // The odd coordinates of every second row, from the row at 16 on.
    ensures odd { offsets 16 true (record { step = 2; count = 4; phase = 1; ratio = 2 } ∷
        record { step = 32; count = 2; phase = 0; ratio = 1 } ∷ []) ≡ 16 ∷ 20 ∷ 48 ∷ 52 ∷ [] }
{}

/// The samples of two bytes at two places.
pub fn worked_samples()
    ensures { samples_at 2 (7 ∷ 8 ∷ 9 ∷ 10 ∷ 11 ∷ 12 ∷ []) (1 ∷ 4 ∷ []) ≡ 8 ∷ 9 ∷ 11 ∷ 12 ∷ [] }
{}
