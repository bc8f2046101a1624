ghost use Rattle.std.specs.Prelude.{◌≡◌, ℕ, ◌*◌, ◌^◌, ◌<◌, ◌≤◌, ◌++◌, IfOk, length};
ghost use Rattle.idx_geom.specs.Region.{LiesIn, lower_ends, points, upper_ends};
ghost use Rattle.idx_geom.specs.Volume.{sample_at, samples_of};
ghost use Rattle.idx_hz.specs.Mask.{HasAddress};
ghost use Rattle.idx_hz.specs.Answer.{answer, has_level};

use idx_geom::{Point, Region};
use idx_hz::Mask;
use idx_outside::{Bytes, NoMemory};
use std::alloc::Global;

/// The samples, in row-major order, of a region's points whose level is `levels.0` to `levels.1`, both among them, in a
/// raw volume that has one sample of `size` bytes for each point of `extent`; `NoMemory` where they cannot be stored.
/// It asks each point of the region for its level: the plain search that a walk replaces.
pub fn answer_by_points(
    alloc: Global,
    mask: &Mask,
    extent: &Region,
    region: &Region,
    levels: (u32, u32),
    size: u64,
    raw: &[u8],
) -> Result<Bytes, NoMemory>
    requires masked { HasAddress mask.now (upper_ends extent.now) }
    requires lower { LiesIn extent.now (lower_ends region.now) }
    requires upper { LiesIn extent.now (upper_ends region.now) }
    requires whole { length raw.now ≡ size * length (points extent.now) }
    requires small { size * length (points extent.now) ≤ 2 ^ 46 }
    ensures { IfOk result (λ samples. samples ≡ answer mask.now extent.now
        (samples_of size (length (points extent.now)) raw.now) region.now levels.0 levels.1) }
{
    let mut samples = Bytes::new(alloc);
    for place in 0..region.count() {
        let p = region.point_at(place);
        if has_level(mask, levels, &p) {
            samples.append(sample(extent, size, raw, &p))?;
        }
    }
    Ok(samples)
}

/// Whether a point's level is one of these.
fn has_level(mask: &Mask, levels: (u32, u32), p: &Point) -> bool
    requires { HasAddress mask.now p.now }
    ensures { result ≡ has_level mask.now levels.0 levels.1 p.now }
{
    let level = mask.level_of(mask.z_of(p));
    levels.0 <= level && level <= levels.1
}

/// The sample at a point.
fn sample<'a>(extent: &Region, size: u64, raw: &'a [u8], p: &Point) -> &'a [u8]
    requires inside { LiesIn extent.now p.now }
    requires whole { length raw.now ≡ size * length (points extent.now) }
    requires small { size * length (points extent.now) ≤ 2 ^ 46 }
    ensures { result.now ≡ sample_at extent.now (samples_of size (length (points extent.now)) raw.now) p.now }
{
    let start = (extent.rank_of(p) * size) as usize;
    &raw[start..start + size as usize]
}
