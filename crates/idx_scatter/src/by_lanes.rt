ghost use Rattle.std.specs.Prelude.{◌≡◌, ℕ, suc, ◌+◌, ◌-◌, ◌*◌, ◌^◌, ◌<◌, ◌≤◌, All, List, length};
ghost use Rattle.idx_geom.specs.Region.{HoldsAll, IsRegion, upper_ends};
ghost use Rattle.idx_hz.specs.Mask.{HasAddress, IsMask};
ghost use Rattle.idx_grid.specs.LevelGrid.{IsGridAt};
ghost use Rattle.idx_lanes.specs.Copies.{HasCoordinate};
ghost use Rattle.idx_lanes.specs.Lanes.{AreNumbers, byte_at, place_at};
ghost use Rattle.idx_scatter.specs.Legs.{AllFit, EachMove};
ghost use Rattle.idx_scatter.specs.Moves.{AreMoved, AreMovedBy, IsAsked, IsRoom, IsThere, IsWanted};
ghost use Rattle.idx_scatter.specs.Asked.{asked_points};
ghost use Rattle.idx_scatter.specs.Scatter.{IsScattered};

use crate::leg::Leg;
use crate::order::Order;
use crate::tally::Tally;
use crate::walk::walk;
use idx_geom::MAX_AXES;
use idx_grid::{Grid, shape};
use idx_lanes::{BlockPart, Lane, by_size, find_lanes};

/// Puts the samples of a block other than block 0 to the places of their points in the answer: along the lanes on which
/// the points lie in the region.
pub(crate) fn scatter_by_lanes(
    order: &Order,
    bits: u32,
    block: u64,
    size: usize,
    samples: &[u8],
    into: &mut [u8],
)
    requires mask { IsMask order.now.mask }
    requires address { HasAddress order.now.mask (upper_ends order.now.region) }
    requires bits { bits ≤ length order.now.mask }
    requires few_bits { bits ≤ 20 }
    requires exists { block < 2 ^ (length order.now.mask - bits) }
    requires other { 1 ≤ block }
    requires some { 1 ≤ size }
    requires few { size ≤ 64 }
    requires samples { length samples.now ≡ size * 2 ^ bits }
    requires room { length into.old ≡ size * length (asked_points order.now) }
    ensures { IsScattered order.now bits block size samples.now into.old into.new }
{
    let (mask, region) = (order.mask(), order.region());
    let shape = shape(mask, region.axes(), bits, block);
    if !order.asks(shape.hi_level) {
        return;
    }
    if let Some(common) = region.meet(&shape.region) {
        let part = BlockPart {
            mask: *mask,
            bits,
            k: shape.hi_level - 1 - bits,
            region: *region,
            common,
            size: 1,
        };
        move_points(order, &part, &shape.grid, size, samples, into);
    }
}

/// Moves the samples of the points on a grid to their places, and leaves the others as they are. The places of the
/// points in the region are counted in samples.
fn move_points(
    order: &Order,
    part: &BlockPart,
    grid: &Grid,
    size: usize,
    samples: &[u8],
    into: &mut [u8],
)
    requires mask { IsMask part.now.mask }
    requires same { part.now.region ≡ order.now.region }
    requires valid { IsRegion part.now.region }
    requires digits { part.now.bits + part.now.k < length part.now.mask }
    requires few_bits { part.now.bits ≤ 20 }
    requires inside { HoldsAll part.now.region part.now.common }
    requires grid { IsGridAt part.now.mask (length part.now.region) (suc (part.now.bits + part.now.k)) grid.now }
    requires unit { part.now.size ≡ 1 }
    requires some { 1 ≤ size }
    requires few { size ≤ 64 }
    requires within { (ks : ℕ → ℕ) → AreNumbers part.now (length part.now.region) ks →
        IsThere order.now size samples.now into.old
        (byte_at part.now (length part.now.region) ks) (place_at part.now (length part.now.region) ks) }
    ensures { (want : ℕ → List ℕ) →
        ((ks : ℕ → ℕ) → AreNumbers part.now (length part.now.region) ks → IsAsked order.now want size samples.now
        (byte_at part.now (length part.now.region) ks) (place_at part.now (length part.now.region) ks)) →
        AreMovedBy order.now want size part.now (length part.now.region) into.old into.new }
{
    if let Some(lanes) = find_lanes(part, grid) {
        let legs = order.legs(part, grid);
        move_lanes(&legs, size, lanes.as_slice(), samples, into, &order.start());
    }
}

/// Moves the samples along these lanes, the slowest first, to their places: one loop for each usual size of a sample.
fn move_lanes(
    legs: &[Leg; MAX_AXES],
    size: usize,
    lanes: &[Lane],
    samples: &[u8],
    into: &mut [u8],
    rows: &Tally,
)
    requires some { 0 < size }
    requires few { size ≤ 64 }
    requires axes { length lanes.now ≤ 5 }
    requires lanes { All HasCoordinate lanes.now }
    requires fits { AllFit legs.now lanes.now rows.now }
    requires within { EachMove (IsRoom size samples.now into.old) legs.now lanes.now 0 rows.now }
    ensures { (want : ℕ → List ℕ) → EachMove (IsWanted want size samples.now) legs.now lanes.now 0 rows.now →
        AreMoved want size legs.now lanes.now 0 rows.now into.old into.new }
{
    by_size!(size, sample => walk(sample, legs, lanes, samples, 0, into, rows));
}
