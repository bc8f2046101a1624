ghost use Rattle.std.specs.Prelude.{◌≡◌, ◌↔◌, ◌++◌, ℕ, List, length, IfSome, IfNone, Some};
ghost use Rattle.std.specs.List.{zip};
ghost use Rattle.idx_geom.specs.Point.{IsCoordinates};
ghost use Rattle.idx_geom.specs.Region.{AreEnds};
ghost use Rattle.idx_text.specs.BoxText.{both_ends, SpellsRegion};

use crate::numbers::read_numbers;
use arrayvec::ArrayVec;
use idx_geom::{MAX_AXES, Point, Region};

/// The region that a text spells: the lower and the upper end of each of 2 to 5 axes, both inclusive, separated by
/// blanks. `None` exactly where it spells none.
pub fn read_box(text: &[u8]) -> Option<Region>
    ensures { (r : List (ℕ × ℕ)) → (result ≡ Some r) ↔ SpellsRegion text.now r }
{
    let numbers = read_numbers(text)?;
    let mut lower = ArrayVec::<u64, MAX_AXES>::new();
    let mut upper = ArrayVec::<u64, MAX_AXES>::new();
    let mut rest = numbers.as_slice();
    while let [lo, hi, more @ ..] = rest {
        lower.push(*lo);
        upper.push(*hi);
        rest = more;
    }
    if !rest.is_empty() {
        return None;
    }
    region_between(&lower, &upper)
}

/// The region between the ends, where they are coordinates and make one.
fn region_between(lower: &[u64], upper: &[u64]) -> Option<Region>
    ensures some { IfSome result (λ r. (r ≡ zip lower.now upper.now) × IsCoordinates lower.now
        × IsCoordinates upper.now × AreEnds lower.now upper.now) }
    ensures none { IfNone result (IsCoordinates lower.now → IsCoordinates upper.now → ¬ AreEnds lower.now upper.now) }
{
    Region::new(Point::new(lower)?, Point::new(upper)?)
}
