ghost use Rattle.std.specs.Prelude.{◌≡◌, ◌^◌, ◌≤◌, length, filter};
ghost use Rattle.std.specs.List.{range_with_len};
ghost use Rattle.idx_geom.specs.Region.{extent, points};
ghost use Rattle.idx_grid.specs.Grid.{is_on_axis, lies_on};

use idx_geom::{Point, Region};

/// The points that lie on each axis at `first` plus a multiple, from 0, of `step`. Where a step is 0, that is `first`
/// alone.
#[derive(Clone, Copy, Debug)]
pub struct Grid {
    /// The grid's lowest point.
    pub first: Point,
    /// How far apart the grid's points lie along each axis.
    pub step: Point,
}

/// How many points of a grid lie in a region, wherever that lies.
pub fn count_in(region: &Region, grid: &Grid) -> u64
    requires first { length grid.now.first ≡ length region.now }
    requires step { length grid.now.step ≡ length region.now }
    ensures count { result ≡ length (filter (lies_on grid.now) (points region.now)) }
    ensures few { result ≤ 2 ^ 40 }
{
    let (lo, hi) = (region.lo(), region.hi());
    let mut count = 1;
    for axis in 0..region.axes() {
        let (first, step) = (grid.first.get(axis), grid.step.get(axis));
        count *= count_between(lo.get(axis), hi.get(axis), first, step);
    }
    count
}

/// How many coordinates between two bounds, both among them, are `first` plus a multiple of `step`.
fn count_between(lo: u64, hi: u64, first: u64, step: u64) -> u64
    requires ordered { lo ≤ hi }
    requires small { hi ≤ 2 ^ 40 }
    ensures { result ≡ length (filter (is_on_axis first step) (range_with_len lo (extent (lo, hi)))) }
{
    count_below(hi + 1, first, step) - count_below(lo, first, step)
}

/// How many coordinates below an end are `first` plus a multiple of `step`.
fn count_below(end: u64, first: u64, step: u64) -> u64
    ensures { result ≡ length (filter (is_on_axis first step) (range_with_len 0 end)) }
{
    if end <= first {
        0
    } else if step == 0 {
        1
    } else {
        (end - first - 1) / step + 1
    }
}
