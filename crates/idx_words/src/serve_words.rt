use crate::ingest_words::IngestWords;
use std::marker::Model;

/// The values that the words of `serve` stand for.
#[derive(Debug, Drop)]
pub struct ServeWords<'w> {
    /// DATASET, the path of the header file.
    pub dataset: &'w [u8],
    /// ADDRESS, where the server listens.
    pub address: &'w [u8],
    /// How many blocks the cache keeps at most, 1 to 65,536.
    pub cache: u32,
    /// How many workers serve links side by side, 1 to 64.
    pub workers: u32,
    /// After how many links the server ends, from 1; `None` where it does not.
    pub links: Option<u64>,
    /// The step that is published meanwhile, if one is.
    pub ingest: Option<IngestWords<'w>>,
}

impl<'w> Model for ServeWords<'w> {
    ghost use Rattle.idx_words.specs.ServeValue.{ServeValue};

    ghost Value = { ServeValue };

    ghost view = { λ c. record {
      dataset = c.dataset.now;
      address = c.address.now;
      cache = c.cache;
      workers = c.workers;
      links = c.links;
      ingest = c.ingest;
    } };
}
