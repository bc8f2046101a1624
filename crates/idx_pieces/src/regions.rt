ghost use Rattle.std.specs.Prelude.{◌≡◌, ℕ, ◌+◌, ◌*◌, ◌/◌, ◌^◌, ◌<◌, ◌≤◌, IfOk, length, min, slice_set};
ghost use Rattle.std.specs.List.{slice_index_or};
ghost use Rattle.idx_geom.specs.Region.{IsRegion, extent};
ghost use Rattle.idx_pieces.specs.Ranks.{bounded_on, cut_axis, longest, rank_count, rank_region, rank_regions};

use idx_geom::{MAX_AXES, Point, Region};
use idx_outside::NoMemory;
use std::alloc::Global;

/// The regions of the ranks of a box, of `n` that may have a part: along its axis of greatest extent, of equal ones the
/// last, the box is cut into parts that differ by at most one coordinate. Fewer than `n` where that axis has fewer
/// coordinates.
pub fn rank_regions(alloc: Global, region: &Region, n: u32) -> Result<Vec<Region>, NoMemory>
    requires { 1 ≤ n }
    ensures { IfOk result (λ regions. regions.items ≡ rank_regions region.now n) }
{
    let mut regions = Vec::new(alloc);
    for rank in 0..rank_count(region, n) {
        regions.push(rank_region(region, n, rank))?;
    }
    Ok(regions)
}

/// How many of `n` ranks have a part of a box.
pub fn rank_count(region: &Region, n: u32) -> u32
    ensures count { result ≡ rank_count region.now n }
    ensures few { result ≤ n }
{
    u64::from(n).min(cut_of(region).extent) as u32
}

/// The region of a rank of a box, of `n` that may have a part; ranks are numbered from 0.
pub fn rank_region(region: &Region, n: u32, rank: u32) -> Region
    requires { rank < rank_count region.now n }
    ensures { result ≡ rank_region region.now n rank }
{
    let cut = cut_of(region);
    let count = u64::from(n).min(cut.extent);
    let first = region.lo().get(cut.axis);
    let from = first + share(rank, cut.extent, count);
    let to = first + share(rank + 1, cut.extent, count) - 1;
    bounded_on(region, cut.axis, from, to)
}

/// The axis along which a box is cut, and how many coordinates it has there.
#[derive(Clone, Copy)]
pub(crate) struct Cut {
    pub(crate) axis: u32,
    pub(crate) extent: u64,
}

/// The axis of the greatest extent of a box, of equal ones the last.
pub(crate) fn cut_of(region: &Region) -> Cut
    ensures axis { result.axis ≡ cut_axis region.now }
    ensures extent { result.extent ≡ longest region.now }
    ensures valid { IsRegion region.now }
{
    let (lo, hi) = (region.lo(), region.hi());
    let mut cut = Cut {
        axis: region.axes(),
        extent: 0,
    };
    for axis in (0..region.axes()).rev() {
        let extent = hi.get(axis) + 1 - lo.get(axis);
        if cut.extent < extent {
            cut = Cut { axis, extent };
        }
    }
    cut
}

/// How many of so many coordinates stand in front of the part of a rank, of `count` ranks that have one.
fn share(rank: u32, extent: u64, count: u64) -> u64
    requires some { 1 ≤ count }
    requires within { rank ≤ count }
    requires few { extent ≤ 2 ^ 41 }
    ensures value { result ≡ rank * extent / count }
    ensures within { result ≤ extent }
{
    (u128::from(rank) * u128::from(extent) / u128::from(count)) as u64
}

/// A box with narrower bounds on an axis.
fn bounded_on(region: &Region, axis: u32, from: u64, to: u64) -> Region
    requires valid { IsRegion region.now }
    requires axis { axis < length region.now }
    requires low { (slice_index_or region.now axis (0, 0)).0 ≤ from }
    requires ordered { from ≤ to }
    requires high { to ≤ (slice_index_or region.now axis (0, 0)).1 }
    ensures { result ≡ bounded_on axis (from, to) region.now }
{
    let lo = with_coordinate(&region.lo(), axis, from);
    let hi = with_coordinate(&region.hi(), axis, to);
    Region::new(lo, hi).unwrap()
}

/// A point with another coordinate on an axis.
fn with_coordinate(point: &Point, axis: u32, x: u64) -> Point
    requires axis { axis < length point.now }
    requires small { x ≤ 2 ^ 40 }
    ensures { result ≡ slice_set point.now axis x }
{
    let mut coordinates = [0; MAX_AXES];
    for other in 0..point.axes() {
        coordinates[other as usize] = point.get(other);
    }
    coordinates[axis as usize] = x;
    Point::stride(&coordinates[..point.axes() as usize]).unwrap()
}
