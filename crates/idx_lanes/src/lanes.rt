ghost use Rattle.std.specs.Prelude.{◌≡◌, ℕ, suc, ◌+◌, ◌-◌, ◌*◌, ◌^◌, ◌<◌, ◌≤◌, IfSome, IfNone, drop, length};
ghost use Rattle.std.specs.List.{slice_index_or};
ghost use Rattle.std.specs.Option.{SomeIff};
ghost use Rattle.idx_geom.specs.Region.{HoldsAll, IsRegion};
ghost use Rattle.idx_hz.specs.Mask.{IsMask};
ghost use Rattle.idx_grid.specs.LevelGrid.{IsGridAt};
ghost use Rattle.idx_lanes.specs.Lanes.{AreLanes, count_on, lane_on, start_on, weight_on};

use crate::axis::{bounds, first_from, step_of};
use crate::axis_places::axis_places;
use crate::block_part::BlockPart;
use crate::lane::Lane;
use idx_geom::MAX_AXES;
use idx_grid::Grid;

/// A lane of no coordinate.
const NO_LANE: Lane = Lane {
    step: 0,
    count: 0,
    bits: 0,
    first: 0,
};

/// The lanes along which the samples of a block lie, the slowest first, and the byte at which the first sample begins.
#[derive(Clone, Copy, Debug)]
pub struct Lanes {
    /// The lanes, which stand at the end, the slowest first, behind lanes of no coordinate.
    pub lanes: [Lane; MAX_AXES],
    /// How many lanes there are, one for each axis.
    pub axes: u32,
    /// The byte at which the first sample begins.
    pub from: usize,
}

impl Lanes {
    /// The lanes, the slowest first.
    pub fn as_slice(&self) -> &[Lane]
        requires { self.now.axes ≤ 5 }
        ensures { result.now ≡ drop (5 - self.now.axes) self.now.lanes }
    {
        &self.lanes[MAX_AXES - self.axes as usize..]
    }
}

/// A lane, and the coordinate that it begins at.
#[derive(Clone, Copy)]
struct Found {
    start: u64,
    lane: Lane,
}

/// The lanes of the points on a grid between the bounds that are asked for: `None` exactly where there is no such
/// point.
pub fn find_lanes(part: &BlockPart, grid: &Grid) -> Option<Lanes>
    requires mask { IsMask part.now.mask }
    requires digits { part.now.bits + part.now.k < length part.now.mask }
    requires few_bits { part.now.bits ≤ 20 }
    requires inside { HoldsAll part.now.region part.now.common }
    requires grid { IsGridAt part.now.mask (length part.now.region) (suc (part.now.bits + part.now.k)) grid.now }
    requires some { 1 ≤ part.now.size }
    requires few { part.now.size ≤ 64 }
    ensures axes { IfSome result (λ lanes. lanes.axes ≤ 5) }
    ensures some { IfSome result (λ lanes.
        AreLanes part.now (length part.now.region) lanes.from (drop (5 - lanes.axes) lanes.lanes)) }
    ensures none { IfNone result ((axis : ℕ) × (axis < length part.now.region) × (count_on part.now axis ≡ 0)) }
{
    let axes = part.region.axes();
    let mut lanes = [NO_LANE; MAX_AXES];
    let mut from = 0;
    let mut weight = part.size;
    for axis in 0..part.common.axes() {
        let (lo, hi) = bounds(&part.region, axis);
        let found = find_lane(part, grid, axis, weight)?;
        from += (found.start - lo) * weight;
        weight *= hi - lo + 1;
        lanes[MAX_AXES - 1 - axis as usize] = found.lane;
    }
    Some(Lanes {
        lanes,
        axes,
        from: from as usize,
    })
}

/// The lane of an axis, along which neighbouring coordinates lie `weight` bytes apart: `None` exactly where it has no
/// coordinate.
fn find_lane(part: &BlockPart, grid: &Grid, axis: u32, weight: u64) -> Option<Found>
    requires mask { IsMask part.now.mask }
    requires digits { part.now.bits + part.now.k < length part.now.mask }
    requires few_bits { part.now.bits ≤ 20 }
    requires axis { axis < length part.now.common }
    requires valid { IsRegion part.now.common }
    requires grid_axis { axis < length part.now.region }
    requires grid { IsGridAt part.now.mask (length part.now.region) (suc (part.now.bits + part.now.k)) grid.now }
    requires weight { weight ≡ weight_on part.now axis }
    requires small { ((slice_index_or part.now.common axis (0, 0)).1 - (slice_index_or part.now.common axis (0, 0)).0)
        * weight < 2 ^ 64 }
    ensures { SomeIff result (1 ≤ count_on part.now axis)
        (record { start = start_on part.now axis; lane = lane_on part.now axis }) }
{
    let (lo, hi) = bounds(&part.common, axis);
    let step = grid.step.get(axis);
    let start = first_from(lo, grid.first.get(axis), step);
    let count = (hi + step - start) / step;
    if count == 0 {
        return None;
    }
    let places = axis_places(&part.mask, part.k, part.bits, axis, start / step);
    Some(Found {
        start,
        lane: Lane {
            step: step_of(weight, step, count) as usize,
            count: count as usize,
            bits: places.bits,
            first: places.first,
        },
    })
}
