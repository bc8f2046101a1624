//! What holds of the definitions, for every region.
ghost use Rattle.std.specs.Prelude.{◌≡◌, ℕ, ◌*◌, ◌<◌, ◌↔◌, IsTrue, List, Some, length, sum, slice_get};
ghost use Rattle.idx_geom.specs.Region.{LiesIn, place_of, points};
ghost use Rattle.idx_geom.specs.Volume.{IsVolume, raw_of, volume_of};

use crate::Point;

/// A region's points have one place each, and each place one point.
pub fn places_are_points()
    // A point of the region stands at its place.
    ensures found { (r : List (ℕ × ℕ)) (p : List ℕ) → LiesIn r p → slice_get (points r) (place_of r p) ≡ Some p }

    // What stands at a place lies in the region, and has that place.
    ensures only { (r : List (ℕ × ℕ)) (k : ℕ) (p : List ℕ) →
        slice_get (points r) k ≡ Some p → LiesIn r p × (place_of r p ≡ k) }
    ensures below { (r : List (ℕ × ℕ)) (p : List ℕ) → LiesIn r p → place_of r p < length (points r) }
{}

/// Points are equal exactly where their coordinates are.
pub fn equal_points_are_one()
    ensures { (p q : List ℕ) → IsTrue (⟦<Point as PartialEq>⟧.eq p q) ↔ (p ≡ q) }
{}

/// A raw input of the right length is that of one volume, which is cut from it, and each volume has one raw input.
pub fn raw_gives_volume()
    ensures cut { (sizes : List ℕ) (n : ℕ) (bytes : List ℕ) →
        length bytes ≡ sum sizes * n → IsVolume sizes n (volume_of sizes n bytes) }
    ensures raw { (sizes : List ℕ) (n : ℕ) (bytes : List ℕ) →
        length bytes ≡ sum sizes * n → raw_of (volume_of sizes n bytes) ≡ bytes }
    ensures length { (sizes : List ℕ) (n : ℕ) (volume : List (List (List ℕ))) →
        IsVolume sizes n volume → length (raw_of volume) ≡ sum sizes * n }
    ensures volume { (sizes : List ℕ) (n : ℕ) (volume : List (List (List ℕ))) →
        IsVolume sizes n volume → volume_of sizes n (raw_of volume) ≡ volume }
{}
