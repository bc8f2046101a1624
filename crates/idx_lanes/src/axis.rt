//! The coordinates of a grid along one axis.
ghost use Rattle.std.specs.Prelude.{◌≡◌, ◌+◌, ◌*◌, ◌^◌, ◌<◌, ◌≤◌, length};
ghost use Rattle.std.specs.List.{slice_index_or};
ghost use Rattle.idx_geom.specs.Region.{IsRegion};
ghost use Rattle.idx_lanes.specs.Axis.{first_from, step_of};

use idx_geom::Region;

/// The inclusive bounds of a region along an axis, the lower one first.
pub fn bounds(region: &Region, axis: u32) -> (u64, u64)
    requires axis { axis < length region.now }
    requires valid { IsRegion region.now }
    ensures value { result ≡ slice_index_or region.now axis (0, 0) }
    ensures ordered { result.0 ≤ result.1 }
    ensures small { result.1 ≤ 2 ^ 40 }
{
    (region.lo().get(axis), region.hi().get(axis))
}

/// The first number from `lo` on that is `first` more than a multiple of a step.
pub fn first_from(lo: u64, first: u64, step: u64) -> u64
    requires lo { lo ≤ 2 ^ 40 }
    requires first { first < step }
    requires step { step ≤ 2 ^ 40 }
    ensures value { result ≡ first_from lo first step }
    ensures from { lo ≤ result }
    ensures to { result < lo + step }
{
    lo + (first + step - lo % step) % step
}

/// How many bytes lie from one of so many coordinates to the next, `stride` coordinates behind it, where neighbouring
/// ones lie `weight` bytes apart: none where there is no next one.
pub fn step_of(weight: u64, stride: u64, count: u64) -> u64
    requires { 1 < count → stride * weight < 2 ^ 64 }
    ensures { result ≡ step_of weight stride count }
{
    if count > 1 { stride * weight } else { 0 }
}
