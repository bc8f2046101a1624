ghost use Rattle.std.specs.Prelude.{◌≡◌, ◌<◌, slice_set};

use idx_geom::MAX_AXES;

/// The points of a level that a region has and whose Z addresses begin alike. Along each axis their numbers on the
/// level's grid are those from `first` on and before `end`.
#[derive(Clone, Copy, Debug)]
pub(crate) struct Part {
    /// The first number on each axis.
    pub(crate) first: [u64; MAX_AXES],
    /// The end of the numbers on each axis.
    pub(crate) end: [u64; MAX_AXES],
    /// How many of the lowest binary digits of the numbers on each axis differ.
    pub(crate) left: [u32; MAX_AXES],
}

impl Part {
    /// The part with other numbers on an axis.
    pub(crate) fn with(&self, axis: usize, first: u64, end: u64, left: u32) -> Part
        requires { axis < 5 }
        ensures first { result.first ≡ slice_set self.now.first axis first }
        ensures end { result.end ≡ slice_set self.now.end axis end }
        ensures left { result.left ≡ slice_set self.now.left axis left }
    {
        let mut part = *self;
        part.first[axis] = first;
        part.end[axis] = end;
        part.left[axis] = left;
        part
    }
}
