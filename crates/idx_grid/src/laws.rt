//! What holds of the definitions, each the contract of a function that does nothing.
ghost use Rattle.std.specs.Prelude.{◌≡◌, ℕ, ◌↔◌, IsTrue, List, length, replicate};
ghost use Rattle.idx_hz.specs.Mask.{HasAddress};
ghost use Rattle.idx_hz.specs.Address.{level};
ghost use Rattle.idx_grid.specs.Grid.{LiesOn, lies_on};
ghost use Rattle.idx_grid.specs.declared.grid.Grid.{Grid};

/// The test of a grid's points says which they are.
pub fn grids_are_tested()
    ensures { (grid : Grid) (p : List ℕ) → IsTrue (lies_on grid p) ↔ LiesOn grid p }
{}

/// Below the mask's size, level 0 has the origin alone.
pub fn level_zero_is_the_origin()
    ensures { (mask p : List ℕ) → HasAddress mask p → (level mask p ≡ 0) ↔ (p ≡ replicate (length p) 0) }
{}
