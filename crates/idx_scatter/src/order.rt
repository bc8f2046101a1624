ghost use Rattle.std.specs.Prelude.{◌≡◌, ℕ, suc, ◌+◌, ◌-◌, ◌^◌, ◌<◌, ◌≤◌, ◌&&◌, nat_le, length, take};
ghost use Rattle.std.specs.List.{slice_index_or};
ghost use Rattle.idx_geom.specs.Region.{HoldsAll, IsRegion, points};
ghost use Rattle.idx_grid.specs.LevelGrid.{IsGridAt};
ghost use Rattle.idx_lanes.specs.Lanes.{box_on, start_on, step_on};
ghost use Rattle.idx_hz.specs.Mask.{NamesAxes};
ghost use Rattle.idx_hz.specs.Stride.{stride};
ghost use Rattle.idx_scatter.specs.Asked.{asked_before, asked_points};
ghost use Rattle.idx_scatter.specs.Sides.{AreSides, IsSide};
ghost use Rattle.idx_scatter.specs.Legs.{IsLeg, IsOrdered, no_leg, start_of};

use crate::leg::{Leg, NO_LEG};
use crate::side::{Earlier, NO_SIDE, Side, before, up_to};
use crate::tally::Tally;
use idx_geom::{MAX_AXES, Region};
use idx_grid::{Grid, grid_up_to};
use idx_hz::Mask;
use idx_lanes::{BlockPart, bounds, first_from};
use std::marker::Model;

/// The order of the points of a region whose level is `lo` to `hi`, both among them: row-major, axis 0 fastest. They
/// are the points on the strides of `hi`, without those on the strides of `lo` - 1 (Pascucci and Frank 2001).
#[derive(Debug, Drop)]
pub struct Order {
    mask: Mask,
    region: Region,
    lo: u32,
    hi: u32,
    fine: [Side; MAX_AXES],
    coarse: [Side; MAX_AXES],
}

impl Model for Order {
    ghost use Rattle.std.specs.Prelude.{◌-◌, ◌≤◌, length, take};
    ghost use Rattle.idx_hz.specs.Mask.{NamesAxes};
    ghost use Rattle.idx_hz.specs.Stride.{stride};
    ghost use Rattle.idx_scatter.specs.Asked.{Asked};
    ghost use Rattle.idx_scatter.specs.Sides.{AreSides};

    ghost Value = { Asked };

    ghost view = { λ o. record { mask = o.mask; region = o.region; lo = o.lo; hi = o.hi } };

    ghost invariant = { λ o. NamesAxes o.mask (length o.region)
        × (o.lo ≤ o.hi)
        × AreSides (stride o.mask o.hi) 0 o.region (take (length o.region) o.fine)
        × AreSides (stride o.mask (o.lo - 1)) 0 o.region (take (length o.region) o.coarse) };
}

impl Order {
    /// The order of the region's points between two levels.
    pub fn new(mask: &Mask, region: &Region, lo: u32, hi: u32) -> Order
        requires named { NamesAxes mask.now (length region.now) }
        requires ordered { lo ≤ hi }
        requires deepest { hi ≤ length mask.now }
        ensures { result ≡ record { mask = mask.now; region = region.now; lo = lo; hi = hi } }
    {
        Order {
            mask: *mask,
            region: *region,
            lo,
            hi,
            fine: sides_of(mask, region, hi),
            coarse: sides_of(mask, region, lo.saturating_sub(1)),
        }
    }

    /// How many points are asked for, at most 2^40: so many samples has an answer.
    pub fn count(&self) -> u64
        ensures count { result ≡ length (asked_points self.now) }
        ensures few { result ≤ 2 ^ 40 }
    {
        let axes = self.region.axes() as usize;
        let last = self.region.count() - 1;
        let fine = up_to(&self.fine[..axes], last);
        if self.lo == 0 {
            fine
        } else {
            fine - up_to(&self.coarse[..axes], last)
        }
    }

    /// The mask.
    pub fn mask(&self) -> &Mask
        ensures { result.now ≡ self.now.mask }
    {
        &self.mask
    }

    /// The region.
    pub fn region(&self) -> &Region
        ensures { result.now ≡ self.now.region }
    {
        &self.region
    }

    /// Whether the points of a level are asked for.
    pub(crate) fn asks(&self, level: u32) -> bool
        ensures { result ≡ (nat_le self.now.lo level && nat_le level self.now.hi) }
    {
        self.lo <= level && level <= self.hi
    }

    /// How many points that are asked for come before a place of the region's points.
    pub(crate) fn before(&self, place: usize) -> usize
        requires { place < length (points self.now.region) }
        ensures { result ≡ asked_before self.now place }
    {
        let axes = self.region.axes() as usize;
        let fine = before(&self.fine[..axes], place as u64).count;
        if self.lo == 0 {
            fine as usize
        } else {
            (fine - before(&self.coarse[..axes], place as u64).count) as usize
        }
    }

    /// What comes before the first row of all, which is the only row of no axis.
    pub(crate) fn start(&self) -> Tally
        ensures { result ≡ start_of self.now }
    {
        Tally {
            fine: Earlier {
                count: 0,
                lies: true,
            },
            coarse: Earlier {
                count: 0,
                lies: self.lo > 0,
            },
        }
    }

    /// The legs of the lanes along which a block's points lie, axis 0 first.
    pub(crate) fn legs(&self, part: &BlockPart, grid: &Grid) -> [Leg; MAX_AXES]
        requires region { part.now.region ≡ self.now.region }
        requires digits { part.now.bits + part.now.k < length part.now.mask }
        requires inside { HoldsAll part.now.region part.now.common }
        requires grid { IsGridAt part.now.mask (length part.now.region) (suc (part.now.bits + part.now.k)) grid.now }
        ensures legs { (axis : ℕ) → axis < length part.now.region →
            IsLeg self.now part.now axis (slice_index_or result axis no_leg) }
        ensures valid { IsOrdered self.now }
        ensures common { IsRegion part.now.common }
    {
        let mut legs = [NO_LEG; MAX_AXES];
        for axis in 0..part.common.axes() {
            let (here, step) = leg_start(part, grid, axis);
            legs[axis as usize] = Leg {
                fine: self.fine[axis as usize],
                coarse: self.coarse[axis as usize],
                here,
                step,
            };
        }
        legs
    }
}

/// The first coordinate of the lane of an axis, counted from the region's lower end, and how far its coordinates lie
/// apart.
fn leg_start(part: &BlockPart, grid: &Grid, axis: u32) -> (u64, u64)
    requires digits { part.now.bits + part.now.k < length part.now.mask }
    requires axis { axis < length part.now.common }
    requires valid { IsRegion part.now.common }
    requires inside { HoldsAll part.now.region part.now.common }
    requires grid { IsGridAt part.now.mask (length part.now.region) (suc (part.now.bits + part.now.k)) grid.now }
    ensures here { result.0 ≡ start_on part.now axis - (box_on part.now axis).0 }
    ensures step { result.1 ≡ step_on part.now axis }
{
    let step = grid.step.get(axis);
    let start = first_from(part.common.lo().get(axis), grid.first.get(axis), step);
    (start - part.region.lo().get(axis), step)
}

/// The sides of a region with the strides of a level.
fn sides_of(mask: &Mask, region: &Region, level: u32) -> [Side; MAX_AXES]
    requires named { NamesAxes mask.now (length region.now) }
    requires deepest { level ≤ length mask.now }
    ensures room { length result ≡ 5 }
    ensures sides { AreSides (stride mask.now level) 0 region.now (take (length region.now) result) }
{
    let strides = grid_up_to(mask, region.axes(), level).step;
    let mut sides = [NO_SIDE; MAX_AXES];
    for axis in 0..region.axes() {
        sides[axis as usize] = side_of(region, axis, strides.get(axis));
    }
    sides
}

/// The side of an axis.
fn side_of(region: &Region, axis: u32, stride: u64) -> Side
    requires axis { axis < length region.now }
    requires valid { IsRegion region.now }
    requires power { (bits : ℕ) × (stride ≡ 2 ^ bits) }
    requires small { stride ≤ 2 ^ 40 }
    ensures { IsSide stride (slice_index_or region.now axis (0, 0)) result }
{
    let (lo, hi) = bounds(region, axis);
    let below = lo.div_ceil(stride);
    Side {
        lo,
        extent: hi - lo + 1,
        stride,
        whole: (hi + 1).div_ceil(stride) - below,
        shift: stride.trailing_zeros(),
        below,
    }
}
