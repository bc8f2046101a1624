ghost use Rattle.std.specs.Prelude.{◌≡◌, ℕ, ◌^◌, ◌<◌, ◌≤◌, ◌↔◌, List, length};
ghost use Rattle.idx_geom.specs.Point.{IsAxes};
ghost use Rattle.idx_geom.specs.Region.{LiesIn};
ghost use Rattle.idx_hz.specs.Mask.{NamesAxes};
ghost use Rattle.idx_grid.specs.Block.{HasPrefix};

use crate::level_grid::{point_of, strides};
use idx_geom::{MAX_AXES, Region};
use idx_hz::Mask;

/// The box of the points whose Z address begins with so many given binary digits: those for which the address by 2 to
/// the number of the other digits is `front`. For no digits it is all that lies below the mask's size.
pub fn prefix_box(mask: &Mask, axes: u32, digits: u32, front: u64) -> Region
    requires axes { IsAxes axes }
    requires named { NamesAxes mask.now axes }
    requires digits { digits ≤ length mask.now }
    requires front { front < 2 ^ digits }
    ensures points { (p : List ℕ) → LiesIn result p ↔ HasPrefix mask.now axes digits front p }
    ensures axes { length result ≡ axes }
{
    let lo = mask.point_of_z(front << (mask.len() - digits), axes);
    let strides = strides(mask, digits);
    let mut upper = [0; MAX_AXES];
    for axis in 0..axes {
        upper[axis as usize] = lo.get(axis) + strides[axis as usize] - 1;
    }
    Region::new(lo, point_of(&upper, axes)).unwrap()
}
