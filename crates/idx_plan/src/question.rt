use idx_geom::Region;
use std::marker::Model;

/// A question by the name of its field: the samples of that field of a step at the points of a region, both ends
/// inclusive, whose level is `lo` to `hi`. `Ask` is the same by the number that a dataset gives the field.
#[derive(Debug, Drop)]
pub struct Question<'a> {
    /// The step's number.
    pub time: u64,
    /// The field's name.
    pub field: &'a [u8],
    /// The region.
    pub region: Region,
    /// The coarsest level that is asked for.
    pub lo: u32,
    /// The finest level that is asked for.
    pub hi: u32,
}

impl<'a> Model for Question<'a> {
    ghost use Rattle.idx_plan.specs.QuestionValue.{QuestionValue};

    ghost Value = { QuestionValue };

    ghost view = { λ q. record {
      time = q.time;
      field = q.field.now;
      region = q.region;
      lo = q.lo;
      hi = q.hi;
    } };
}
