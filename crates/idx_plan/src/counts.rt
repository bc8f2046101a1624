ghost use Rattle.std.specs.Prelude.{◌≤◌, length};
ghost use Rattle.idx_plan.specs.Parts.{AreCounts};

use idx_geom::MAX_AXES;
use idx_hz::Mask;

/// How many of the digits of a mask behind a place name each axis.
pub(crate) fn counts_behind(mask: &Mask, place: u32) -> [u32; MAX_AXES]
    requires { place ≤ length mask.now }
    ensures { AreCounts mask.now place result }
{
    let mut counts = [0; MAX_AXES];
    for at in (place..mask.len()).rev() {
        counts[mask.axis(at + 1) as usize] += 1;
    }
    counts
}
