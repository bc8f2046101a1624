ghost use Rattle.std.specs.Prelude.{◌≡◌, ℕ, ◌+◌, ◌*◌, ◌%◌, ◌==◌, ◌<◌, ◌≤◌, ◌^◌, All, List, length};
ghost use Rattle.idx_geom.specs.Region.{points};
ghost use Rattle.idx_scatter.specs.Sides.{AreSides, IsBefore, IsSane, count_before, in_row, multiples_in};

/// One axis of a region, and the multiples of a stride on it.
#[derive(Clone, Copy, Debug)]
pub(crate) struct Side {
    /// The lower end.
    pub(crate) lo: u64,
    /// How many coordinates there are.
    pub(crate) extent: u64,
    /// The stride.
    pub(crate) stride: u64,
    /// How many of the coordinates are its multiples.
    pub(crate) whole: u64,
    /// The stride is 2 to this.
    pub(crate) shift: u32,
    /// How many multiples, from 0 on, lie below the lower end.
    pub(crate) below: u64,
}

/// A side of no axis.
pub(crate) const NO_SIDE: Side = Side {
    lo: 0,
    extent: 1,
    stride: 1,
    whole: 0,
    shift: 0,
    below: 0,
};

/// How many points whose coordinates are multiples come before a place, and whether the point there is one.
#[derive(Clone, Copy)]
pub(crate) struct Earlier {
    pub(crate) count: u64,
    pub(crate) lies: bool,
}

impl Side {
    /// How many of the first `count` coordinates are multiples.
    #[inline(always)]
    fn multiples(&self, count: u64) -> u64
        requires sane { IsSane self.now }
        requires within { count ≤ self.now.extent }
        ensures value { result ≡ multiples_in self.now.stride self.now.lo count }
        ensures few { result ≤ count }
    {
        ((self.lo + count + (self.stride - 1)) >> self.shift) - self.below
    }

    /// Whether this coordinate, counted from 0, is a multiple.
    #[inline(always)]
    fn is_multiple(&self, coordinate: u64) -> bool
        requires sane { IsSane self.now }
        requires within { coordinate < self.now.extent }
        ensures { result ≡ ((self.now.lo + coordinate) % self.now.stride == 0) }
    {
        let x = self.lo + coordinate;
        (x >> self.shift) << self.shift == x
    }
}

/// What comes before a place of the points of a region, by the sides of its axes, axis 0 first.
pub(crate) fn before(sides: &[Side], place: u64) -> Earlier
    requires { All IsSane sides.now }
    ensures few { result.count ≤ place }
    ensures value { (s : ℕ → ℕ) (k : ℕ) (bs : List (ℕ × ℕ)) → AreSides s k bs sides.now → place < length (points bs) →
        IsBefore s k bs place result.count result.lies }
{
    match sides {
        [] => Earlier {
            count: 0,
            lies: true,
        },
        [side, slower @ ..] => {
            let rows = before(slower, place / side.extent);
            before_in_row(side, &rows, place % side.extent)
        }
    }
}

/// How many points whose coordinates are multiples there are up to a place, the point there among them.
pub(crate) fn up_to(sides: &[Side], place: u64) -> u64
    requires sane { All IsSane sides.now }
    requires near { place < 2 ^ 40 }
    ensures few { result ≤ place + 1 }
    ensures value { (s : ℕ → ℕ) (k : ℕ) (bs : List (ℕ × ℕ)) → AreSides s k bs sides.now → place < length (points bs) →
        result ≡ count_before s k bs (place + 1) }
{
    let earlier = before(sides, place);
    if earlier.lies {
        earlier.count + 1
    } else {
        earlier.count
    }
}

/// What comes before a place of a row, from what comes before the row.
#[inline(always)]
pub(crate) fn before_in_row(side: &Side, rows: &Earlier, here: u64) -> Earlier
    requires sane { IsSane side.now }
    requires within { here < side.now.extent }
    requires few { side.now.extent * rows.now.count + here < 2 ^ 64 }
    ensures { result ≡ in_row side.now rows.now here }
{
    let all = side.whole * rows.count;
    if rows.lies {
        Earlier {
            count: all + side.multiples(here),
            lies: side.is_multiple(here),
        }
    } else {
        Earlier {
            count: all,
            lies: false,
        }
    }
}
