ghost use Rattle.std.specs.Prelude.{◌≡◌, ℕ, ◌^◌, ◌<◌, ◌≤◌, ◌↔◌, All, EachIndex, List, length, slice_index, take};
ghost use Rattle.idx_geom.specs.Point.{IsAxes};
ghost use Rattle.idx_hz.specs.Mask.{NamesAxes, HasAddress};
ghost use Rattle.idx_hz.specs.Address.{level};
ghost use Rattle.idx_hz.specs.Stride.{stride};
ghost use Rattle.idx_grid.specs.Grid.{LiesOn};
ghost use Rattle.idx_grid.specs.LevelGrid.{IsGridAt, IsGridUpTo, first_on, strides};

use crate::Grid;
use idx_geom::{MAX_AXES, Point};
use idx_hz::Mask;

/// The grid of the points of level at most `h`, from the origin on. Below the mask's size that of level 0 is the origin
/// alone, its step 2 to the bits of each axis.
pub fn grid_up_to(mask: &Mask, axes: u32, h: u32) -> Grid
    requires axes { IsAxes axes }
    requires named { NamesAxes mask.now axes }
    requires deepest { h ≤ length mask.now }
    ensures points { (p : List ℕ) → length p ≡ axes → HasAddress mask.now p → (level mask.now p ≤ h) ↔ LiesOn result p }
    ensures axes { (length result.first ≡ axes) × (length result.step ≡ axes) }
    ensures value { IsGridUpTo mask.now axes h result }
    ensures positive { All (λ step. 1 ≤ step) result.step }
{
    Grid {
        first: point_of(&[0; MAX_AXES], axes),
        step: point_of(&strides(mask, h), axes),
    }
}

/// The grid of the points of level `h`. For `h` from 1, digit `h` of the mask names an axis: on it they lie at the odd
/// multiples of the stride of level `h`, and on each other axis at all of its multiples.
pub fn grid_at(mask: &Mask, axes: u32, h: u32) -> Grid
    requires axes { IsAxes axes }
    requires named { NamesAxes mask.now axes }
    requires deepest { h ≤ length mask.now }
    ensures points { (p : List ℕ) → length p ≡ axes → HasAddress mask.now p → (level mask.now p ≡ h) ↔ LiesOn result p }
    ensures axes { (length result.first ≡ axes) × (length result.step ≡ axes) }
    ensures value { IsGridAt mask.now axes h result }
    ensures positive { All (λ step. 1 ≤ step) result.step }
{
    Grid {
        first: point_of(&first_of_level(mask, h), axes),
        step: point_of(&strides(mask, h.saturating_sub(1)), axes),
    }
}

/// The stride of a level on each axis: 2 to the number of the axis's digits in the places behind the level.
pub(crate) fn strides(mask: &Mask, h: u32) -> [u64; MAX_AXES]
    requires { h ≤ length mask.now }
    ensures room { length result ≡ 5 }
    ensures value { EachIndex result (λ axis. slice_index result axis ≡ stride mask.now h axis) }
    ensures small { All (λ x. x ≤ 2 ^ 40) result }
{
    let mut strides = [1; MAX_AXES];
    for place in (h..mask.len()).rev() {
        strides[mask.axis(place + 1) as usize] *= 2;
    }
    strides
}

/// The lowest coordinate of the points of a level on each axis.
fn first_of_level(mask: &Mask, h: u32) -> [u64; MAX_AXES]
    requires { h ≤ length mask.now }
    ensures room { length result ≡ 5 }
    ensures value { EachIndex result (λ axis. slice_index result axis ≡ first_on mask.now h axis) }
    ensures small { All (λ x. x ≤ 2 ^ 40) result }
{
    let mut first = [0; MAX_AXES];
    if h > 0 {
        let axis = mask.axis(h) as usize;
        first[axis] = strides(mask, h)[axis];
    }
    first
}

/// The point of the first so many of these coordinates.
pub(crate) fn point_of(coordinates: &[u64; MAX_AXES], axes: u32) -> Point
    requires axes { IsAxes axes }
    requires small { All (λ x. x ≤ 2 ^ 40) coordinates.now }
    ensures { result ≡ take axes coordinates.now }
{
    Point::stride(&coordinates[..axes as usize]).unwrap()
}
