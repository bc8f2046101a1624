ghost use Rattle.std.specs.Prelude.{◌≡◌, ◌^◌, ◌≤◌, filter, length};
ghost use Rattle.idx_geom.specs.Region.{LiesIn, lower_ends, points, upper_ends};
ghost use Rattle.idx_hz.specs.Answer.{has_level};

use idx_geom::Region;
use idx_grid::{count_in, grid_up_to};
use idx_header::Header;

/// How many points of a region of the box have a level from `lo` to `hi`, both among them. It takes a few operations an
/// axis, and one for each digit of the mask behind `hi` and behind `lo`.
pub(crate) fn points_between(header: &Header, region: &Region, lo: u32, hi: u32) -> u64
    requires lower { LiesIn header.now.box (lower_ends region.now) }
    requires upper { LiesIn header.now.box (upper_ends region.now) }
    requires ordered { lo ≤ hi }
    requires deepest { hi ≤ length header.now.mask }
    ensures count { result ≡ length (filter (has_level header.now.mask lo hi) (points region.now)) }
    ensures few { result ≤ 2 ^ 40 }
{
    let fine = points_up_to(header, region, hi);
    if lo == 0 {
        return fine;
    }
    fine - points_up_to(header, region, lo - 1)
}

/// How many points of a region of the box have a level of at most `hi`.
fn points_up_to(header: &Header, region: &Region, hi: u32) -> u64
    requires lower { LiesIn header.now.box (lower_ends region.now) }
    requires upper { LiesIn header.now.box (upper_ends region.now) }
    requires deepest { hi ≤ length header.now.mask }
    ensures count { result ≡ length (filter (has_level header.now.mask 0 hi) (points region.now)) }
    ensures few { result ≤ 2 ^ 40 }
{
    count_in(region, &grid_up_to(&header.mask(), region.axes(), hi))
}
