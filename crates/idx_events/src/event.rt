/// What may happen to the timesteps, the published steps, the block cache and the questions of a dataset.
#[derive(Clone, Copy, Debug, PartialEq, Eq)]
pub enum Event {
    /// A rank gives its part of a piece of a timestep's revision.
    Give {
        /// The timestep.
        time: u64,
        /// Its revision.
        revision: u64,
        /// The rank's number.
        rank: u64,
        /// The piece's id.
        piece: u64,
    },
    /// The samples of a whole piece come to the aggregator of a file.
    Ship {
        /// The timestep.
        time: u64,
        /// Its revision.
        revision: u64,
        /// The piece's id.
        piece: u64,
        /// The file's number.
        file: u64,
    },
    /// The aggregator of a file writes it.
    Write {
        /// The timestep.
        time: u64,
        /// Its revision.
        revision: u64,
        /// The file's number.
        file: u64,
    },
    /// The revision is published, with all of its files.
    Publish {
        /// The timestep.
        time: u64,
        /// Its revision.
        revision: u64,
    },
    /// The revision is given up.
    Abandon {
        /// The timestep.
        time: u64,
        /// Its revision.
        revision: u64,
    },
    /// A question looks for the blocks of its next round in the cache.
    Look {
        /// The question's number.
        query: u64,
    },
    /// A question reads a block of its round that was not found.
    Read {
        /// The question's number.
        query: u64,
        /// The block's number.
        block: u64,
    },
    /// A question puts the blocks that it read into the cache, and ends its round.
    Fill {
        /// The question's number.
        query: u64,
    },
    /// The least recently used blocks of the cache go.
    Evict {
        /// How many.
        count: u64,
    },
    /// A question is answered.
    Answer {
        /// The question's number.
        query: u64,
    },
}
