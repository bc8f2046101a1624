ghost use Rattle.std.specs.Prelude.{◌≡◌, ◌^◌, ◌<◌, ◌≤◌, All, length, slice_index};
ghost use Rattle.std.specs.Option.{SomeIff};
ghost use Rattle.idx_geom.specs.Point.{IsAxes, IsCoordinates, IsPoint};

use std::marker::Model;

/// A point has at most so many axes.
pub const MAX_AXES: usize = 5;

/// Each coordinate of a point is below it.
const COORDINATE_END: u64 = 1 << 40;

/// A point of a grid of two to five axes, seen as the list of its coordinates, axis 0 first.
#[derive(Clone, Copy, Debug, PartialEq, Eq)]
pub struct Point {
    coordinates: [u64; MAX_AXES],
    axes: u32,
}

impl Model for Point {
    ghost use Rattle.std.specs.Prelude.{ℕ, List, take};
    ghost use Rattle.std.specs.Coded.{coded_list, coded_ℕ};

    ghost Value = { List ℕ };

    ghost coded = { coded_list coded_ℕ };

    ghost use Rattle.idx_geom.specs.PointFields.{IsStored, fields, fields_again};

    ghost view = { λ p. take p.axes p.coordinates };

    ghost invariant = { IsStored };

    ghost inverse = { fields };

    ghost inverse_ok = { fields_again };
}

impl Point {
    /// The point with these coordinates: `None` exactly where they are not two to five, or one of them is 2^40 or
    /// more.
    pub fn new(at: &[u64]) -> Option<Point>
        ensures { SomeIff result (IsCoordinates at.now) at.now }
    {
        Point::up_to(at, COORDINATE_END - 1)
    }

    /// The step of a grid along each axis: `None` exactly where there are not two to five, or one of them is above
    /// 2^40.
    pub fn stride(at: &[u64]) -> Option<Point>
        ensures { SomeIff result (IsPoint at.now) at.now }
    {
        Point::up_to(at, COORDINATE_END)
    }

    /// How many axes the point has, 2 to 5.
    pub fn axes(&self) -> u32
        ensures count { result ≡ length self.now }
        ensures valid { IsPoint self.now }
    {
        self.axes
    }

    /// The coordinate along an axis.
    pub fn get(&self, axis: u32) -> u64
        requires { axis < length self.now }
        ensures value { result ≡ slice_index self.now axis }
        ensures small { result ≤ 2 ^ 40 }
    {
        self.coordinates[axis as usize]
    }

    /// The point with these coordinates, none above the largest that is allowed.
    fn up_to(at: &[u64], largest: u64) -> Option<Point>
        requires { largest ≤ 2 ^ 40 }
        ensures { SomeIff result (IsAxes (length at.now) × All (λ x. x ≤ largest) at.now) at.now }
    {
        if at.len() < 2 || at.len() > MAX_AXES || at.iter().any(|x| *x > largest) {
            return None;
        }
        let mut coordinates = [0; MAX_AXES];
        coordinates[..at.len()].copy_from_slice(at);
        Some(Point {
            coordinates,
            axes: at.len() as u32,
        })
    }
}
