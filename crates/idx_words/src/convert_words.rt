use idx_rowmajor::Layout;
use std::marker::Model;

/// The values that the words of `convert` stand for: the texts as they were given, the step, and the options.
#[derive(Debug, Drop)]
pub struct ConvertWords<'w> {
    /// BOX, the value of `(box)`.
    pub extent: &'w [u8],
    /// FIELDS, the value of `(fields)`.
    pub fields: &'w [u8],
    /// MASK, the value of `(bits)`; `auto` stands for the mask that is guessed of the box.
    pub mask: &'w [u8],
    /// BITS, the value of `(bitsperblock)`.
    pub bits: &'w [u8],
    /// PERFILE, the value of `(blocksperfile)`.
    pub per_file: &'w [u8],
    /// TEMPLATE, the value of `(filename_template)`.
    pub template: &'w [u8],
    /// TIME, the value of `(time)`.
    pub time: &'w [u8],
    /// The number of the step.
    pub step: u64,
    /// How many ranks convert, 1 to 256.
    pub ranks: u32,
    /// The order of the samples of a block.
    pub layout: Layout,
}

impl<'w> Model for ConvertWords<'w> {
    ghost use Rattle.idx_words.specs.ConvertValue.{ConvertValue};

    ghost Value = { ConvertValue };

    ghost view = { λ c. record {
      extent = c.extent.now;
      fields = c.fields.now;
      mask = c.mask.now;
      bits = c.bits.now;
      per_file = c.per_file.now;
      template = c.template.now;
      time = c.time.now;
      step = c.step;
      ranks = c.ranks;
      layout = c.layout;
    } };
}
