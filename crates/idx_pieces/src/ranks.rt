ghost use Rattle.std.specs.Prelude.{◌≡◌};

use std::marker::Model;

/// The numbers of some ranks, from 0. Seen as the list of them.
#[derive(Debug, Drop)]
pub struct Ranks {
    items: Vec<u32>,
}

impl Model for Ranks {
    ghost use Rattle.std.specs.Prelude.{ℕ, List};

    ghost Value = { List ℕ };

    ghost view = { λ r. r.items.items };
}

impl Ranks {
    /// The ranks of a `Vec`. Takes no memory.
    pub fn from_vec(items: Vec<u32>) -> Ranks
        ensures { result ≡ items.items }
    {
        Ranks { items }
    }

    /// The ranks as a `Vec`. Takes no memory.
    pub fn into_vec(self) -> Vec<u32>
        ensures { result.items ≡ self }
    {
        self.items
    }

    /// The ranks as a slice.
    pub fn as_slice(&self) -> &[u32]
        ensures { result.now ≡ self.now }
    {
        self.items.as_slice()
    }
}
