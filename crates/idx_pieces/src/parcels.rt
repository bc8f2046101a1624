ghost use Rattle.std.specs.Prelude.{◌≡◌};

use crate::Parcel;
use std::marker::Model;

/// Some parcels. Seen as the list of them.
#[derive(Debug, Drop)]
pub struct Parcels {
    items: Vec<Parcel>,
}

impl Model for Parcels {
    ghost use Rattle.std.specs.Prelude.{List};
    ghost use Rattle.idx_pieces.specs.declared.parcel.Parcel.{Parcel};

    ghost Value = { List Parcel };

    ghost view = { λ p. p.items.items };
}

impl Parcels {
    /// The parcels of a `Vec`. Takes no memory.
    pub fn from_vec(items: Vec<Parcel>) -> Parcels
        ensures { result ≡ items.items }
    {
        Parcels { items }
    }

    /// The parcels as a `Vec`. Takes no memory.
    pub fn into_vec(self) -> Vec<Parcel>
        ensures { result.items ≡ self }
    {
        self.items
    }

    /// The parcels as a slice.
    pub fn as_slice(&self) -> &[Parcel]
        ensures { result.now ≡ self.now }
    {
        self.items.as_slice()
    }
}
