//! Worked values of the definitions.
ghost use Rattle.std.specs.Prelude.{◌≡◌, [], ◌∷◌};
ghost use Rattle.idx_lanes.specs.Axis.{count_to, first_from};
ghost use Rattle.idx_lanes.specs.Spread.{axis_bits, part_after, spread};

/// The mask of two axes with two bits each: axis 0 has the bits 1 and 3 of a Z address, the coordinate 3 of axis 1
/// gives 5 to it, and the coordinates of axis 0 give 0, 2, 8 and 10. From 6 to 20 the numbers that are 1 more than a
/// multiple of 4 are 9, 13 and 17.
pub fn worked_parts()
    ensures bits { axis_bits 0 (0 ∷ 1 ∷ 0 ∷ 1 ∷ []) ≡ 10 }
    ensures third { spread 1 (0 ∷ 1 ∷ 0 ∷ 1 ∷ []) 3 ≡ 5 }
    ensures second_step { part_after 10 0 2 ≡ 8 }
    ensures last_step { part_after 10 0 3 ≡ 10 }
    ensures first { first_from 6 1 4 ≡ 9 }
    ensures count { count_to 9 20 4 ≡ 3 }
{}
