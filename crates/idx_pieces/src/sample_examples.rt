//! A worked value of what a parcel's bytes are.
ghost use Rattle.std.specs.Prelude.{◌≡◌, [], ◌∷◌};
ghost use Rattle.idx_geom.specs.Region.{place_of};
ghost use Rattle.idx_pieces.specs.Filling.{samples_from};
ghost use Rattle.idx_pieces.specs.Samples.{samples_in};

/// The bytes of a parcel with the columns 1 and 2 of a box of 3 by 2 points and two fields, where the bytes of a sample
/// are its field's number and its place in the box; and the samples, of two bytes each, of a raw field of the same box
/// that begins at byte 1.
pub fn worked_samples()
    ensures fields { samples_in 2 (λ field p. field ∷ place_of ((0, 2) ∷ (0, 1) ∷ []) p ∷ []) ((1, 2) ∷ (0, 1) ∷ []) ≡
        0 ∷ 1 ∷ 0 ∷ 2 ∷ 0 ∷ 4 ∷ 0 ∷ 5 ∷ 1 ∷ 1 ∷ 1 ∷ 2 ∷ 1 ∷ 4 ∷ 1 ∷ 5 ∷ [] }
    ensures raw { samples_from 2 1 (9 ∷ 0 ∷ 0 ∷ 1 ∷ 1 ∷ 2 ∷ 2 ∷ 3 ∷ 3 ∷ 4 ∷ 4 ∷ 5 ∷ 5 ∷ [])
        ((0, 2) ∷ (0, 1) ∷ []) ((1, 2) ∷ (0, 1) ∷ []) 0 4 ≡ 1 ∷ 1 ∷ 2 ∷ 2 ∷ 4 ∷ 4 ∷ 5 ∷ 5 ∷ [] }
{}
