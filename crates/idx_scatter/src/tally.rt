ghost use Rattle.std.specs.Prelude.{◌≡◌, ◌≤◌};
ghost use Rattle.idx_scatter.specs.Legs.{place_by};

use crate::side::Earlier;

/// What comes before a row of a region's points, or before a point: on the strides of the finest level that is asked
/// for, and on those of the levels before the coarsest one, if there are any.
#[derive(Clone, Copy)]
pub(crate) struct Tally {
    pub(crate) fine: Earlier,
    pub(crate) coarse: Earlier,
}

impl Tally {
    /// The place of the point in the answer: how many points that are asked for come before it.
    #[inline(always)]
    pub(crate) fn place(&self) -> usize
        requires { self.now.coarse.count ≤ self.now.fine.count }
        ensures { result ≡ place_by self.now }
    {
        (self.fine.count - self.coarse.count) as usize
    }
}
