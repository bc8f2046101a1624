ghost use Rattle.std.specs.Prelude.{◌≡◌};

use crate::Run;
use std::marker::Model;

/// Some runs of samples. Seen as the list of them.
#[derive(Debug, Drop)]
pub struct Runs {
    items: Vec<Run>,
}

impl Model for Runs {
    ghost use Rattle.std.specs.Prelude.{List};
    ghost use Rattle.idx_pieces.specs.declared.run.Run.{Run};

    ghost Value = { List Run };

    ghost view = { λ r. r.items.items };
}

impl Runs {
    /// The runs of a `Vec`. Takes no memory.
    pub fn from_vec(items: Vec<Run>) -> Runs
        ensures { result ≡ items.items }
    {
        Runs { items }
    }

    /// The runs as a `Vec`. Takes no memory.
    pub fn into_vec(self) -> Vec<Run>
        ensures { result.items ≡ self }
    {
        self.items
    }

    /// The runs as a slice.
    pub fn as_slice(&self) -> &[Run]
        ensures { result.now ≡ self.now }
    {
        self.items.as_slice()
    }
}
