ghost use Rattle.std.specs.Prelude.{◌≡◌};
ghost use Rattle.std.specs.Borrow.{Lends, sem};
ghost use Rattle.idx_turn.specs.contracts.held.Held.{the_row};

use std::marker::Model;

/// A value that was taken, and must be given back; seen as the value.
pub struct Held<S> {
    pub(crate) value: S,
}

impl<S> Model for Held<S> {
    ghost use Rattle.std.specs.Prelude.{◌≡◌};

    ghost Value = { S };

    ghost view = { λ h. h.value };
}

impl<S> Held<S> {
    /// The value.
    pub fn get(&self) -> &S
        ensures { result.now ≡ self.now }
    {
        &self.value
    }

    /// The value, to be changed.
    pub fn get_mut(&mut self) -> &mut S
        ensures* writes_back { sem 𝓛 (Lends (the_row S.row) S.row self.entry result (λ value. value)) }
        ensures value { result.now ≡ self.old }
    {
        &mut self.value
    }
}
