ghost use Rattle.std.specs.Prelude.{◌≡◌, ℕ, ◌+◌, ◌*◌, ◌≤◌, IfSome};
ghost use Rattle.idx_scatter.specs.Legs.{Fits, later, place_by, tally_at};

use crate::side::{NO_SIDE, Side, before_in_row};
use crate::tally::Tally;

/// The coordinates of a lane along an axis of a region, and what they count for the place in the answer. The first one
/// is `here`, counted from the lower end, and each other one lies `step` behind the one before.
#[derive(Clone, Copy)]
pub(crate) struct Leg {
    /// The axis with the strides of the finest level that is asked for.
    pub(crate) fine: Side,
    /// The axis with the strides of the levels before the coarsest one that is asked for.
    pub(crate) coarse: Side,
    pub(crate) here: u64,
    pub(crate) step: u64,
}

/// A leg of no axis.
pub(crate) const NO_LEG: Leg = Leg {
    fine: NO_SIDE,
    coarse: NO_SIDE,
    here: 0,
    step: 0,
};

impl Leg {
    /// What comes before the row, or the point, at the coordinate of number `k`, from what comes before the row that it
    /// is a part of.
    #[inline(always)]
    pub(crate) fn at(&self, rows: &Tally, k: usize) -> Tally
        requires { Fits self.now rows.now k }
        ensures { result ≡ tally_at self.now rows.now k }
    {
        let here = self.here + k as u64 * self.step;
        Tally {
            fine: before_in_row(&self.fine, &rows.fine, here),
            coarse: before_in_row(&self.coarse, &rows.coarse, here),
        }
    }

    /// How many places the points of a row lie apart in the answer, where they all lie equally far apart: always where
    /// no point of the row lies on the coarser strides.
    pub(crate) fn more_each(&self, rows: &Tally) -> Option<usize>
        requires { Fits self.now rows.now 0 }
        ensures { IfSome result (λ more. (k : ℕ) →
            tally_at self.now rows.now k ≡ later (k * more) (tally_at self.now rows.now 0)) }
    {
        let more = self.step >> self.fine.shift;
        if rows.fine.lies && !rows.coarse.lies && more << self.fine.shift == self.step {
            Some(more as usize)
        } else {
            None
        }
    }

    /// How many places the rows at the coordinates of this leg lie apart in the answer, and the points of each row,
    /// which are those of the faster leg, where they all lie equally far apart.
    pub(crate) fn paces(&self, faster: &Leg, rows: &Tally) -> Option<(usize, usize)>
        requires rows { Fits self.now rows.now 0 }
        requires row { Fits faster.now (tally_at self.now rows.now 0) 0 }
        ensures { IfSome result (λ paces. (j k : ℕ) →
            (tally_at faster.now (tally_at self.now rows.now 0) 0).coarse.count ≤
            (tally_at faster.now (tally_at self.now rows.now 0) 0).fine.count →
            place_by (tally_at faster.now (tally_at self.now rows.now j) k) ≡
            place_by (tally_at faster.now (tally_at self.now rows.now 0) 0) + j * paces.0 + k * paces.1) }
    {
        let along = faster.more_each(&self.at(rows, 0))?;
        let across = self
            .more_each(rows)?
            .checked_mul(faster.fine.whole as usize)?;
        Some((across, along))
    }
}
