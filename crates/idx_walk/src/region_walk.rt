ghost use Rattle.std.specs.Prelude.{◌≡◌, ℕ, ◌*◌, ◌^◌, ◌<◌, ◌≤◌, ◌↔◌, List, [], IsNone, IfSome, length};
ghost use Rattle.std.specs.List.{slice_index_or};
ghost use Rattle.idx_geom.specs.Region.{LiesIn, lower_ends, points, upper_ends};
ghost use Rattle.idx_geom.specs.Volume.{samples_of};
ghost use Rattle.idx_hz.specs.Mask.{NamesAxes};
ghost use Rattle.idx_hz.specs.Answer.{answer};
ghost use Rattle.idx_stride.specs.Places.{samples_at};
ghost use Rattle.idx_stride.specs.Strides.{end_of};
ghost use Rattle.idx_walk.specs.Walk.{places_of, points_up_to, wanted_places};

use crate::axis_of::axis_of;
use idx_geom::{MAX_AXES, Region};
use idx_grid::grid_up_to;
use idx_hz::Mask;
use idx_lanes::bounds;
use idx_stride::{NO_AXIS, Strides};

/// The walk over the samples, in row-major order, of a region's points whose level is `lo` to `hi`, both among them.
/// They lie in a raw volume that has one sample of `size` bytes for each point of `extent`, in row-major order, axis 0
/// fastest. On each axis the points of level at most `hi` are the multiples of its stride, and those of level at most
/// `lo` - 1, which are left out, the multiples of a coarser one (Pascucci and Frank 2001). `None` exactly where the
/// region has no point of level at most `hi`.
pub fn walk(
    mask: &Mask,
    extent: &Region,
    region: &Region,
    lo: u32,
    hi: u32,
    size: u64,
) -> Option<Strides>
    requires named { NamesAxes mask.now (length extent.now) }
    requires lower { LiesIn extent.now (lower_ends region.now) }
    requires upper { LiesIn extent.now (upper_ends region.now) }
    requires ordered { lo ≤ hi }
    requires deepest { hi ≤ length mask.now }
    requires some_bytes { 1 ≤ size }
    requires few_bytes { size ≤ 64 }
    ensures none { IsNone result ↔ (points_up_to mask.now region.now hi ≡ []) }
    ensures places { places_of result ≡ wanted_places mask.now extent.now size region.now lo hi }
    ensures size { IfSome result (λ w. w.size ≡ size) }
    ensures end { IfSome result (λ w. end_of w ≤ size * length (points extent.now)) }

    // The samples at these places are the answer, whatever the volume's bytes.
    ensures answer { (raw : List ℕ) → samples_at size raw (places_of result) ≡
        answer mask.now extent.now (samples_of size (length (points extent.now)) raw) region.now lo hi }
{
    let fine = grid_up_to(mask, extent.axes(), hi);
    let coarse = grid_up_to(mask, extent.axes(), lo.saturating_sub(1));
    let mut axes = [NO_AXIS; MAX_AXES];
    let mut base = 0;
    let mut weight = size;
    for axis in 0..region.axes() {
        let (from, to) = bounds(extent, axis);
        let stride = fine.step.get(axis);
        let found = axis_of(
            bounds(region, axis),
            stride,
            coarse.step.get(axis) / stride,
            weight,
        )?;
        base += (found.phase * stride - from) * weight;
        weight *= to - from + 1;
        axes[axis as usize] = found;
    }
    Some(Strides::new(base, size, lo > 0, &axes[..region.axes() as usize]))
}
