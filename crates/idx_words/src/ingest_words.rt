use std::marker::Model;

/// The step that is published while a dataset is served.
#[derive(Debug, Drop)]
pub struct IngestWords<'w> {
    /// STEP, the number of the step.
    pub step: u64,
    /// RAW, the path of the raw volume that becomes it.
    pub raw: &'w [u8],
}

impl<'w> Model for IngestWords<'w> {
    ghost use Rattle.idx_words.specs.ServeValue.{IngestValue};

    ghost Value = { IngestValue };

    ghost view = { λ c. record {
      step = c.step;
      raw = c.raw.now;
    } };
}
