//! What the axes of a walk give together.
ghost use Rattle.std.specs.Prelude.{◌≡◌, ℕ, ◌+◌, ◌*◌, ◌^◌, ◌<◌, ◌≤◌, ◌↔◌, ◌&&◌, All, [], ◌∷◌, ◌++◌, IsTrue, filter, length, take};
ghost use Rattle.std.specs.List.{list_all, list_any};
ghost use Rattle.idx_stride.specs.Compact.{IsPacked, is_wide, is_wide_or_coarse};
ghost use Rattle.idx_stride.specs.Counts.{coarse_points, has_fine_coordinate};
ghost use Rattle.idx_stride.specs.Strides.{IsAxis, grid_points, reach};

use crate::{Axis, NO_AXIS};
use idx_geom::MAX_AXES;

/// The bytes from the first place to the last.
pub(crate) fn reach(axes: &[Axis]) -> u64
    requires axes { All IsAxis axes.now }
    requires small { reach axes.now ≤ 2 ^ 62 }
    ensures { result ≡ reach axes.now }
{
    let mut reach = 0;
    for axis in axes {
        reach += (axis.count - 1) * axis.step;
    }
    reach
}

/// How many points the grid has, and how many of them are coarse on all axes.
pub(crate) fn points(axes: &[Axis]) -> (u64, u64)
    requires axes { All IsAxis axes.now }
    requires few { grid_points axes.now ≤ 2 ^ 40 }
    ensures all { result.0 ≡ grid_points axes.now }
    ensures coarse { result.1 ≡ coarse_points axes.now }
{
    let mut all = 1;
    let mut coarse = 1;
    for axis in axes {
        all *= axis.count;
        coarse *= axis.coarse_count();
    }
    (all, coarse)
}

/// Whether each axis steps over what the faster ones fill, the fastest one over so many bytes.
pub(crate) fn is_packed(axes: &[Axis], size: u64) -> bool
    requires axes { All IsAxis axes.now }
    requires small { size * grid_points axes.now < 2 ^ 64 }
    ensures { IsTrue result ↔ IsPacked size axes.now }
{
    let mut width = size;
    for axis in axes {
        if axis.step != width {
            return false;
        }
        width *= axis.count;
    }
    true
}

/// The most bytes by which an axis steps over what the faster ones reach.
pub(crate) fn widest_gap(axes: &[Axis], size: u64) -> u64
    requires axes { All IsAxis axes.now }
    requires small { reach axes.now + size < 2 ^ 64 }
{
    let mut reach = size;
    let mut gap = 0;
    for axis in axes {
        gap = axis.step.saturating_sub(reach).max(gap);
        reach += (axis.count - 1) * axis.step;
    }
    gap
}

/// The axes of more than one coordinate, and how many there are.
pub(crate) fn wide(axes: &[Axis]) -> ([Axis; MAX_AXES], usize)
    requires { length axes.now ≤ 5 }
    ensures few { result.1 ≤ 5 }
    ensures axes { take result.1 result.0 ≡ filter is_wide axes.now }
{
    let mut wide = [NO_AXIS; MAX_AXES];
    let mut number = 0;
    for axis in axes {
        if axis.count > 1 {
            wide[number] = *axis;
            number += 1;
        }
    }
    (wide, number)
}

/// Whether this is so and each axis of one coordinate has a coarse one.
pub(crate) fn stay_coarse(axes: &[Axis], others: bool) -> bool
    requires { All IsAxis axes.now }
    ensures { result ≡ (others && list_all is_wide_or_coarse axes.now) }
{
    others && narrow_are_coarse(axes)
}

/// Whether each axis of one coordinate has a coarse one.
fn narrow_are_coarse(axes: &[Axis]) -> bool
    requires { All IsAxis axes.now }
    ensures { result ≡ list_all is_wide_or_coarse axes.now }
{
    axes.iter().all(|axis| axis.count > 1 || axis.is_coarse(0))
}

/// These axes, and a slower one behind them; and how many there are.
pub(crate) fn with_slowest(faster: &[Axis], slowest: Axis) -> ([Axis; MAX_AXES], usize)
    requires { length faster.now < 5 }
    ensures number { result.1 ≡ length faster.now + 1 }
    ensures axes { take result.1 result.0 ≡ faster.now ++ slowest ∷ [] }
{
    let number = faster.len();
    let mut axes = [NO_AXIS; MAX_AXES];
    axes[..number].copy_from_slice(faster);
    axes[number] = slowest;
    (axes, number + 1)
}

/// Whether some coordinate of some axis is not coarse.
pub(crate) fn has_fine(axes: &[Axis]) -> bool
    requires { All IsAxis axes.now }
    ensures { result ≡ list_any has_fine_coordinate axes.now }
{
    axes.iter().any(|axis| axis.coarse_count() < axis.count)
}
