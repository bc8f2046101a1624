use idx_geom::Region;
use std::marker::Model;

/// The values that the words of `query` stand for.
#[derive(Debug, Drop)]
pub struct QueryWords<'w> {
    /// TIME, the number of the step.
    pub time: u64,
    /// FIELD, the name of the field that is asked for.
    pub field: &'w [u8],
    /// REGION, the box that is asked for, both ends inclusive.
    pub region: Region,
    /// LO, the coarsest level that is asked for.
    pub lo: u32,
    /// HI, the finest level that is asked for.
    pub hi: u32,
    /// How many blocks the cache keeps at most, 1 to 65,536.
    pub cache: u32,
}

impl<'w> Model for QueryWords<'w> {
    ghost use Rattle.idx_words.specs.QueryValue.{QueryValue};

    ghost Value = { QueryValue };

    ghost view = { λ c. record {
      time = c.time;
      field = c.field.now;
      region = c.region;
      lo = c.lo;
      hi = c.hi;
      cache = c.cache;
    } };
}
