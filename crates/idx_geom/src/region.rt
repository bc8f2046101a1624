ghost use Rattle.std.specs.Prelude.{◌≡◌, ℕ, ◌-◌, ◌*◌, ◌^◌, ◌<◌, ◌≤◌, ◌↔◌, All, drop, length, IfSome, IsNone, IsTrue, Some, slice_get};
ghost use Rattle.std.specs.Option.{SomeIff};
ghost use Rattle.std.specs.List.{slice_index_or, zip};
ghost use Rattle.idx_geom.specs.Region.{AreEnds, HasExactly, HaveCommonPoint, HoldsAll, IsRegion, LiesIn, common_bounds, lower_ends, place_of, points, upper_ends};

use crate::Point;
use crate::point::MAX_AXES;
use std::marker::Model;

/// A region has at most so many points.
const MOST_POINTS: u64 = 1 << 40;

/// A box of a grid of two to five axes with at most 2^40 points, seen as the list of its inclusive bounds (lo, hi) per
/// axis, axis 0 first. Its points are in row-major order, axis 0 fastest.
#[derive(Clone, Copy, Debug)]
pub struct Region {
    lo: Point,
    hi: Point,
}

impl Model for Region {
    ghost use Rattle.std.specs.Prelude.{ℕ, List};
    ghost use Rattle.std.specs.List.{zip};
    ghost use Rattle.std.specs.Coded.{coded_list, coded_ℕ, coded×};

    ghost Value = { List (ℕ × ℕ) };

    ghost coded = { coded_list (coded× coded_ℕ coded_ℕ) };

    ghost use Rattle.idx_geom.specs.RegionFields.{IsStored, fields, fields_again};

    ghost view = { λ r. zip r.lo r.hi };

    ghost invariant = { IsStored };

    ghost inverse = { fields };

    ghost inverse_ok = { fields_again };
}

impl Region {
    /// The region between two inclusive ends: `None` exactly where their axes differ, a lower end passes its upper end,
    /// or there are more than 2^40 points.
    pub fn new(lo: Point, hi: Point) -> Option<Region>
        ensures { SomeIff result (AreEnds lo hi) (zip lo hi) }
    {
        if lo.axes() != hi.axes() || !is_ordered(&lo, &hi) {
            return None;
        }
        point_count(&lo, &hi)?;
        Some(Region { lo, hi })
    }

    /// The lower ends.
    pub fn lo(&self) -> Point
        ensures { result ≡ lower_ends self.now }
    {
        self.lo
    }

    /// The upper ends, which lie in the region too.
    pub fn hi(&self) -> Point
        ensures { result ≡ upper_ends self.now }
    {
        self.hi
    }

    /// How many axes the region has, 2 to 5.
    pub fn axes(&self) -> u32
        ensures count { result ≡ length self.now }
        ensures valid { IsRegion self.now }
    {
        self.lo.axes()
    }

    /// How many points the region has, 1 to 2^40.
    pub fn count(&self) -> u64
        ensures count { result ≡ length (points self.now) }
        ensures some { 1 ≤ result }
        ensures few { result ≤ 2 ^ 40 }
    {
        point_count(&self.lo, &self.hi).unwrap()
    }

    /// Whether a point lies in the region.
    pub fn contains(&self, p: &Point) -> bool
        requires { length p.now ≡ length self.now }
        ensures { IsTrue result ↔ LiesIn self.now p.now }
    {
        for axis in 0..self.axes() {
            let (lo, hi) = self.bounds(axis);
            let coordinate = p.get(axis);
            if coordinate < lo || hi < coordinate {
                return false;
            }
        }
        true
    }

    /// Whether another region has as many axes and lies inside this one: both its ends do, and so does each of its
    /// points.
    pub fn holds(&self, other: &Region) -> bool
        ensures ends { IsTrue result ↔
            (LiesIn self.now (lower_ends other.now) × LiesIn self.now (upper_ends other.now)) }
        ensures points { IsTrue result ↔ HoldsAll self.now other.now }
    {
        self.holds_ends(other)
    }

    /// What two regions have in common: `None` exactly where no point lies in both.
    pub fn meet(&self, other: &Region) -> Option<Region>
        requires { length self.now ≡ length other.now }
        ensures bounds { SomeIff result (HaveCommonPoint self.now other.now) (common_bounds self.now other.now) }
        ensures points { IfSome result (λ common. HasExactly common (λ p. LiesIn self.now p × LiesIn other.now p)) }
    {
        let (lo, hi) = self.common_ends(other);
        Region::new(lo, hi)
    }

    /// The row-major place of a point of the region, axis 0 fastest, counted from 0.
    pub fn rank_of(&self, p: &Point) -> u64
        requires { LiesIn self.now p.now }
        ensures place { result ≡ place_of self.now p.now }
        ensures found { slice_get (points self.now) result ≡ Some p.now }
    {
        let mut place = 0;
        for axis in (0..self.axes()).rev() {
            let (lo, hi) = self.bounds(axis);
            place = place * (hi - lo + 1) + (p.get(axis) - lo);
        }
        place
    }

    /// The point at a row-major place, counted from 0.
    pub fn point_at(&self, place: u64) -> Point
        requires { place < length (points self.now) }
        ensures point { slice_get (points self.now) place ≡ Some result }
        ensures inside { LiesIn self.now result }
        ensures undone { place_of self.now result ≡ place }
    {
        let mut coordinates = [0; MAX_AXES];
        let mut rest = place;
        for axis in 0..self.axes() {
            let (lo, hi) = self.bounds(axis);
            coordinates[axis as usize] = lo + rest % (hi - lo + 1);
            rest /= hi - lo + 1;
        }
        Point::stride(&coordinates[..self.axes() as usize]).unwrap()
    }

    /// Whether both ends of another region lie in this one.
    #[tactic(auto, using(crate::proofs::LiesInLemmas::axes_from_ends))]
    fn holds_ends(&self, other: &Region) -> bool
        ensures ends { IsTrue result ↔
            (LiesIn self.now (lower_ends other.now) × LiesIn self.now (upper_ends other.now)) }
        ensures valid { IsRegion other.now }
    {
        if self.axes() != other.axes() {
            return false;
        }
        self.contains(&other.lo()) && self.contains(&other.hi())
    }

    /// The inclusive bounds along an axis.
    fn bounds(&self, axis: u32) -> (u64, u64)
        requires { axis < length self.now }
        ensures value { result ≡ slice_index_or self.now axis (0, 0) }
        ensures ordered { result.0 ≤ result.1 }
        ensures small { result.1 ≤ 2 ^ 40 }
    {
        (self.lo.get(axis), self.hi.get(axis))
    }

    /// The greater lower ends, and the lesser upper ends.
    fn common_ends(&self, other: &Region) -> (Point, Point)
        requires { length self.now ≡ length other.now }
        ensures same_axes { length result.0 ≡ length result.1 }
        ensures bounds { zip result.0 result.1 ≡ common_bounds self.now other.now }
        ensures few { length (points (zip result.0 result.1)) ≤ 2 ^ 40 }
    {
        let mut lows = [0; MAX_AXES];
        let mut highs = [0; MAX_AXES];
        for axis in 0..self.axes() {
            let (a, b) = (self.bounds(axis), other.bounds(axis));
            lows[axis as usize] = a.0.max(b.0);
            highs[axis as usize] = a.1.min(b.1);
        }
        let axes = other.axes() as usize;
        (
            Point::stride(&lows[..axes]).unwrap(),
            Point::stride(&highs[..axes]).unwrap(),
        )
    }
}

/// Whether no lower end passes its upper end.
fn is_ordered(lo: &Point, hi: &Point) -> bool
    requires { length lo.now ≡ length hi.now }
    ensures { IsTrue result ↔ All (λ b. b.0 ≤ b.1) (zip lo.now hi.now) }
{
    for axis in 0..lo.axes() {
        if lo.get(axis) > hi.get(axis) {
            return false;
        }
    }
    true
}

/// The number of points between the ends, where there are at most 2^40.
fn point_count(lo: &Point, hi: &Point) -> Option<u64>
    requires same_axes { length lo.now ≡ length hi.now }
    requires ordered { All (λ b. b.0 ≤ b.1) (zip lo.now hi.now) }
    ensures { SomeIff result (length (points (zip lo.now hi.now)) ≤ 2 ^ 40) (length (points (zip lo.now hi.now))) }
{
    let mut count = 1;
    for axis in 0..lo.axes() {
        let extent = hi.get(axis) - lo.get(axis) + 1;
        if extent > MOST_POINTS / count {
            return None;
        }
        count *= extent;
    }
    Some(count)
}
