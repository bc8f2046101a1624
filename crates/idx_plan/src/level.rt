ghost use Rattle.std.specs.Prelude.{◌≡◌, ◌-◌, ◌≤◌, drop, length};
ghost use Rattle.idx_geom.specs.Region.{upper_ends};
ghost use Rattle.idx_hz.specs.Mask.{HasAddress, IsMask, bit_count};
ghost use Rattle.idx_grid.specs.LevelGrid.{first_on};
ghost use Rattle.idx_plan.specs.Parts.{AreCounts, IsPartOf};

use crate::part::Part;
use crate::span::numbers_below;
use idx_geom::{MAX_AXES, Region};
use idx_hz::Mask;

/// A part whose numbers are not known yet.
const NO_PART: Part = Part {
    first: [0; MAX_AXES],
    end: [0; MAX_AXES],
    left: [0; MAX_AXES],
};

/// The part of all points of a level, from level 1 on, that a region has; `None` where it has none. `digits` and `behind` say
/// how many digits name each axis, of all of the mask's and of those from the level's own on.
pub(crate) fn level_part(
    mask: &Mask,
    region: &Region,
    level: u32,
    digits: &[u32; MAX_AXES],
    behind: &[u32; MAX_AXES],
) -> Option<Part>
    requires mask { IsMask mask.now }
    requires address { HasAddress mask.now (upper_ends region.now) }
    requires coarsest { 1 ≤ level }
    requires deepest { level ≤ length mask.now }
    requires digits { AreCounts mask.now 0 digits.now }
    requires behind { AreCounts mask.now (level - 1) behind.now }
    ensures { IsPartOf mask.now region.now level 0 1 result }
{
    let (lo, hi) = (region.lo(), region.hi());
    let mut part = NO_PART;
    for axis in 0..region.axes() {
        let a = axis as usize;
        let first = first_on(mask, level, axis, behind[a]);
        let from = numbers_below(lo.get(axis), first, behind[a]);
        let end = numbers_below(hi.get(axis) + 1, first, behind[a]);
        if end <= from {
            return None;
        }
        part = part.with(a, from, end, digits[a] - behind[a]);
    }
    Some(part)
}

/// The first coordinate of a level on an axis, which so many digits from the level's own on name.
fn first_on(mask: &Mask, level: u32, axis: u32, behind: u32) -> u64
    requires coarsest { 1 ≤ level }
    requires deepest { level ≤ length mask.now }
    requires behind { behind ≡ bit_count axis (drop (level - 1) mask.now) }
    ensures { result ≡ first_on mask.now level axis }
{
    if mask.axis(level) == axis {
        1 << (behind - 1)
    } else {
        0
    }
}
