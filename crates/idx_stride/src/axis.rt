ghost use Rattle.std.specs.Prelude.{◌≡◌, ◌&&◌, ◌<◌, ◌≤◌, ◌+◌, ◌%◌};
ghost use Rattle.idx_stride.specs.Counts.{coarse_coordinates};
ghost use Rattle.idx_stride.specs.Parts.{axis_part};
ghost use Rattle.idx_stride.specs.Places.{is_coarse};
ghost use Rattle.idx_stride.specs.Strides.{IsAxis};

/// The coordinates of a grid along one axis, counted from 0: `count` of them, each `step` bytes behind the one before.
/// Coordinate k lies on the coarser grid where `ratio` divides `phase` + k.
#[derive(Clone, Copy, Debug, PartialEq, Eq)]
pub struct Axis {
    /// The bytes from one coordinate to the next.
    pub step: u64,
    /// How many coordinates there are.
    pub count: u64,
    /// Where the axis begins on the coarser grid, in coordinates.
    pub phase: u64,
    /// How many coordinates one step of the coarser grid has.
    pub ratio: u64,
}

/// An axis of one coordinate, which stands behind the axes of a walk.
pub const NO_AXIS: Axis = Axis {
    step: 0,
    count: 1,
    phase: 0,
    ratio: 1,
};

impl Axis {
    /// Whether this coordinate lies on the coarser grid.
    pub(crate) fn is_coarse(&self, coordinate: u64) -> bool
        requires axis { IsAxis self.now }
        requires within { coordinate < self.now.count }
        ensures { result ≡ is_coarse self.now coordinate }
    {
        (self.phase + coordinate) % self.ratio == 0
    }

    /// Whether this coordinate lies on the coarser grid, where the others of a point do.
    pub(crate) fn stays_coarse(&self, others: bool, coordinate: u64) -> bool
        requires axis { IsAxis self.now }
        requires within { coordinate < self.now.count }
        ensures { result ≡ (others && is_coarse self.now coordinate) }
    {
        others && self.is_coarse(coordinate)
    }

    /// How many coordinates lie on the coarser grid.
    pub(crate) fn coarse_count(&self) -> u64
        requires { IsAxis self.now }
        ensures count { result ≡ coarse_coordinates self.now }
        ensures some { result ≤ self.now.count }
    {
        (self.phase + self.count).div_ceil(self.ratio) - self.phase.div_ceil(self.ratio)
    }

    /// How many coordinates would come before the first coarse one, if there were enough of them.
    pub(crate) fn before_coarse(&self) -> u64
        requires { IsAxis self.now }
        ensures least { result < self.now.ratio }
        ensures coarse { (self.now.phase + result) % self.now.ratio ≡ 0 }
    {
        match self.phase % self.ratio {
            0 => 0,
            behind => self.ratio - behind,
        }
    }

    /// So many coordinates from this one on.
    pub(crate) fn part(&self, from: u64, count: u64) -> Axis
        requires axis { IsAxis self.now }
        requires within { from + count ≤ self.now.count }
        ensures { result ≡ axis_part self.now from count }
    {
        Axis {
            step: self.step,
            count,
            phase: self.phase + from,
            ratio: self.ratio,
        }
    }
}
