ghost use Rattle.std.specs.Prelude.{◌≡◌, ◌<◌, ◌||◌, IfNone, length, nat_lt};
ghost use Rattle.std.specs.List.{slice_index_or};
ghost use Rattle.idx_geom.specs.Region.{LiesIn, lower_ends, upper_ends};
ghost use Rattle.idx_plan.specs.Needed.{outside_axis};

use idx_geom::Region;
use idx_header::Header;

/// The least axis on which a region of as many axes leaves the dataset's box. Where it leaves it on none, both its ends
/// lie in the box.
pub(crate) fn outside_axis(header: &Header, region: &Region) -> Option<u32>
    requires { length region.now ≡ length header.now.box }
    ensures axis { result ≡ outside_axis 0 region.now header.now.box }
    ensures lower { IfNone result (LiesIn header.now.box (lower_ends region.now)) }
    ensures upper { IfNone result (LiesIn header.now.box (upper_ends region.now)) }
{
    let volume = header.region();
    for axis in 0..region.axes() {
        if leaves(region, &volume, axis) {
            return Some(axis);
        }
    }
    None
}

/// Whether a region leaves a box on an axis.
fn leaves(region: &Region, volume: &Region, axis: u32) -> bool
    requires region { axis < length region.now }
    requires volume { axis < length volume.now }
    ensures { result ≡ (nat_lt (slice_index_or region.now axis (0, 0)).0 (slice_index_or volume.now axis (0, 0)).0
        || nat_lt (slice_index_or volume.now axis (0, 0)).1 (slice_index_or region.now axis (0, 0)).1) }
{
    region.lo().get(axis) < volume.lo().get(axis) || volume.hi().get(axis) < region.hi().get(axis)
}
