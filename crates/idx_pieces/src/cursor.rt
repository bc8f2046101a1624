ghost use Rattle.std.specs.Prelude.{◌≡◌, ◌+◌, ◌<◌, ◌≤◌, length};
ghost use Rattle.idx_geom.specs.Region.{points};
ghost use Rattle.idx_pieces.specs.Cursor.{IsCursor, IsPart};

use idx_geom::Region;
use idx_lanes::bounds;

/// A sample of a region that lies in a box: its number among those of the region, and its place in the box.
#[derive(Clone, Copy, Debug)]
pub(crate) struct Cursor {
    /// How many samples stand before it in the region.
    pub(crate) done: u64,
    /// Its place in the box.
    pub(crate) place: u64,
    /// How many samples its row has from it on.
    pub(crate) left: u64,
    /// How many rows its plane has behind its own.
    pub(crate) rows: u64,
    /// How many samples a row of the region has.
    pub(crate) width: u64,
    /// How many samples of the box stand between two rows of a plane of the region.
    pub(crate) gap: u64,
}

impl Cursor {
    /// The cursor at the sample of this number.
    pub(crate) fn at(extent: &Region, region: &Region, number: u64) -> Cursor
        requires within { number < length (points region.now) }
        requires part { IsPart extent.now region.now }
        ensures cursor { IsCursor extent.now region.now result }
        ensures number { result.done ≡ number }
    {
        let p = region.point_at(number);
        let (lo, hi) = bounds(region, 0);
        let (first, last) = bounds(extent, 0);
        let width = hi - lo + 1;
        Cursor {
            done: number,
            place: extent.rank_of(&p),
            left: hi + 1 - p.get(0),
            rows: bounds(region, 1).1 - p.get(1),
            width,
            gap: last - first + 1 - width,
        }
    }

    /// The cursor so many samples on, in its row or at the start of the next one.
    pub(crate) fn advanced(self, extent: &Region, region: &Region, count: u64) -> Cursor
        requires cursor { IsCursor extent.now region.now self }
        requires some { self.done < length (points region.now) }
        requires row { count ≤ self.left }
        ensures cursor { IsCursor extent.now region.now result }
        ensures number { result.done ≡ self.done + count }
        ensures rises { result.done < length (points region.now) → self.place + count ≤ result.place }
    {
        let done = self.done + count;
        if count < self.left {
            return Cursor {
                done,
                place: self.place + count,
                left: self.left - count,
                ..self
            };
        }
        if self.rows > 0 {
            return Cursor {
                done,
                place: self.place + count + self.gap,
                left: self.width,
                rows: self.rows - 1,
                ..self
            };
        }
        if done < region.count() {
            return Cursor::at(extent, region, done);
        }
        Cursor { done, ..self }
    }
}
