//! Where the points of a run of addresses of one level lie: a run is halved by the next digit of their Z addresses, and
//! the box in which its points lie is halved with it.
ghost use Rattle.std.specs.Prelude.{◌≡◌, ℕ, ◌+◌, ◌-◌, ◌*◌, ◌^◌, ◌<◌, ◌≤◌, false, List, length, slice_index, true};
ghost use Rattle.idx_geom.specs.Region.{LiesIn, upper_ends};
ghost use Rattle.idx_hz.specs.Mask.{HasAddress, IsMask};
ghost use Rattle.idx_grid.specs.LevelGrid.{first_of, strides};
ghost use Rattle.idx_check.specs.Cell.{AreEndsOf, HaveAxes, IsAround, IsCell, IsHeld};
ghost use Rattle.idx_check.specs.Wanted.{is_address_of};

use idx_geom::{MAX_AXES, Point, Region};
use idx_grid::grid_up_to;
use idx_hz::Mask;

/// A box, and a level of which the points in it are looked for.
#[derive(Clone, Copy)]
pub(crate) struct Level {
    /// The dataset's mask.
    pub(crate) mask: Mask,
    /// The box.
    pub(crate) region: Region,
    /// Its lower ends.
    pub(crate) lo: Point,
    /// Its upper ends.
    pub(crate) hi: Point,
    /// How far apart the points of the level lie along each axis.
    pub(crate) step: Point,
}

/// A run of 2^`bits` addresses of one level, and where its points lie: along each axis from `first` on and before `end`,
/// steps of the level apart.
#[derive(Clone, Copy)]
pub(crate) struct Cell {
    /// How many bits the place of an address in the run has.
    pub(crate) bits: u32,
    /// With how many digits the Z addresses of all points of the run begin alike.
    pub(crate) digits: u32,
    /// A 1, and then these digits; it counts runs of so many addresses.
    pub(crate) number: u64,
    /// The first coordinate on each axis.
    pub(crate) first: [u64; MAX_AXES],
    /// The coordinate one step behind the last on each axis.
    pub(crate) end: [u64; MAX_AXES],
}

/// Which points of a cell lie in a box.
#[derive(Clone, Copy)]
pub(crate) enum Side {
    /// All of them.
    Inside,
    /// None of them.
    Outside,
    /// It cannot be told.
    Across,
}

impl Level {
    /// The cell of a run of 2^bits addresses. The number of the run is a 1 and then so many digits, and `first` the lowest
    /// point of the level's grid.
    pub(crate) fn cell_of(&self, first: &Point, bits: u32, digits: u32, number: u64) -> Cell
        requires mask { IsMask self.now.mask }
        requires address { HasAddress self.now.mask (upper_ends self.now.region) }
        requires within { bits + digits < length self.now.mask }
        requires from { 2 ^ digits ≤ number }
        requires to { number < 2 ^ (digits + 1) }
        requires ends { AreEndsOf self.now }
        requires step { self.now.step ≡ strides self.now.mask (bits + digits) (length self.now.region) }
        requires first { first.now ≡ first_of self.now.mask (bits + digits + 1) (length self.now.region) }
        ensures cell { IsCell self.now result }
        ensures bits { result.bits ≡ bits }
        ensures digits { result.digits ≡ digits }
        ensures number { result.number ≡ number }
    {
        if digits == 0 {
            return self.whole(first, bits);
        }
        let mut cell = self.cell_of(first, bits + 1, digits - 1, number / 2);
        self.halve(&mut cell, self.mask.axis(digits), number % 2);
        cell
    }

    /// The cell of all addresses of the level.
    fn whole(&self, first: &Point, bits: u32) -> Cell
        requires mask { IsMask self.now.mask }
        requires address { HasAddress self.now.mask (upper_ends self.now.region) }
        requires within { bits < length self.now.mask }
        requires ends { AreEndsOf self.now }
        requires step { self.now.step ≡ strides self.now.mask bits (length self.now.region) }
        requires first { first.now ≡ first_of self.now.mask (bits + 1) (length self.now.region) }
        ensures cell { IsCell self.now result }
        ensures bits { result.bits ≡ bits }
        ensures digits { result.digits ≡ 0 }
        ensures number { result.number ≡ 1 }
    {
        let axes = self.region.axes();
        let size = grid_up_to(&self.mask, axes, 0).step;
        let (mut starts, mut ends) = ([0; MAX_AXES], [0; MAX_AXES]);
        for axis in 0..axes {
            starts[axis as usize] = first.get(axis);
            ends[axis as usize] = first.get(axis) + size.get(axis);
        }
        Cell {
            bits,
            digits: 0,
            number: 1,
            first: starts,
            end: ends,
        }
    }

    /// Makes a cell its half whose next digit, which names an axis, is `bit`.
    pub(crate) fn halve(&self, cell: &mut Cell, axis: u32, bit: u64)
        requires mask { IsMask self.now.mask }
        requires address { HasAddress self.now.mask (upper_ends self.now.region) }
        requires cell { IsCell self.now cell.old }
        requires some { 1 ≤ cell.old.bits }
        requires axis { axis ≡ slice_index self.now.mask cell.old.digits }
        requires bit { bit < 2 }
        ensures cell { IsCell self.now cell.new }
        ensures bits { cell.new.bits ≡ cell.old.bits - 1 }
        ensures digits { cell.new.digits ≡ cell.old.digits + 1 }
        ensures number { cell.new.number ≡ 2 * cell.old.number + bit }
    {
        let axis = axis as usize;
        let width = (cell.end[axis] - cell.first[axis]) / 2;
        let from = cell.first[axis] + bit * width;
        cell.bits -= 1;
        cell.digits += 1;
        cell.number = 2 * cell.number + bit;
        cell.first[axis] = from;
        cell.end[axis] = from + width;
    }

    /// Which points of a cell lie in the box, where that can be told; of a single point it always can. That the box has
    /// none of them is looked for on one axis alone.
    pub(crate) fn side_of(&self, cell: &Cell, axis: u32) -> Side
        requires mask { IsMask self.now.mask }
        requires address { HasAddress self.now.mask (upper_ends self.now.region) }
        requires cell { IsCell self.now cell.now }
        requires axis { axis < length self.now.region }
        requires few { axis < 5 }
        ensures inside { result ≡ Side.Inside → (i : ℕ) → i < 2 ^ cell.now.bits →
            is_address_of self.now.mask self.now.region (cell.now.number * 2 ^ cell.now.bits + i) ≡ true }
        ensures outside { result ≡ Side.Outside → (i : ℕ) → i < 2 ^ cell.now.bits →
            is_address_of self.now.mask self.now.region (cell.now.number * 2 ^ cell.now.bits + i) ≡ false }
        ensures across { result ≡ Side.Across → 1 ≤ cell.now.bits }
    {
        if self.misses(cell, axis) {
            Side::Outside
        } else if self.holds(cell) {
            Side::Inside
        } else if cell.bits == 0 {
            Side::Outside
        } else {
            Side::Across
        }
    }

    /// Whether the box holds the points of a cell, by the first and the last on each axis.
    fn holds(&self, cell: &Cell) -> bool
        requires axes { HaveAxes self.now }
        ensures yes { result ≡ true → IsHeld self.now cell.now }
        ensures no { result ≡ false → IsHeld self.now cell.now → ⊥ }
    {
        for axis in 0..self.lo.axes() {
            let (first, end) = (cell.first[axis as usize], cell.end[axis as usize]);
            if first < self.lo.get(axis) || self.hi.get(axis) + self.step.get(axis) < end {
                return false;
            }
        }
        true
    }

    /// Whether the box has none of the points of a cell, by the first and the last on an axis.
    fn misses(&self, cell: &Cell, axis: u32) -> bool
        requires ends { AreEndsOf self.now }
        requires axes { HaveAxes self.now }
        requires axis { axis < length self.now.region }
        requires few { axis < 5 }
        ensures { result ≡ true → (p : List ℕ) → IsAround self.now cell.now p → LiesIn self.now.region p → ⊥ }
    {
        let (first, end) = (cell.first[axis as usize], cell.end[axis as usize]);
        self.hi.get(axis) < first || end < self.lo.get(axis) + self.step.get(axis)
    }
}
