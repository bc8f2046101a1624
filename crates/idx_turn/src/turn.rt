ghost use Rattle.std.specs.Prelude.{◌≡◌, ℕ, Bool, true, List, Option, Some, None};
ghost use Rattle.idx_outside.specs.Shape.{Shape};
ghost use Rattle.idx_hall.specs.Posts.{Post};
ghost use Rattle.idx_turn.specs.LockId.{LockId};
ghost use Rattle.idx_turn.specs.Stands.{Begins, MadeHolds, MayGive, Stand, stand};

use crate::Held;
use idx_hall::Standing;

/// Gives its value out and takes it back. Each call may wait, and neither refuses.
pub trait Turn<S: Standing> {
    /// Whether it tells the value that it keeps.
    ghost tells: { Bool };

    /// The value, where it is told and not taken.
    ghost kept: { Self → Option S };

    /// The shape of the value, which stays.
    ghost shape: { Self → Shape };

    /// How many blocks the value keeps at most, which stays.
    ghost capacity: { Self → ℕ };

    /// The published steps that it has seen.
    ghost seen: { Self → List Post };

    /// Whether steps may be published in the value while it is out.
    ghost may_add: { Self → Bool };

    /// What the value stood for when it was taken, while it is out.
    ghost given: { Self → Option Stand };

    /// The lock that it takes the value from. One owner alone has none.
    ghost lock: { Self → Option LockId };

    /// How many times the value was taken, modulo 2^64.
    ghost holds: { Self → ℕ };

    /// Takes the value.
    fn take(&mut self) -> Held<S>
        requires { given self.old ≡ None }
        ensures kept { tells ≡ true → kept self.old ≡ Some result }
        ensures value_shape { S.shape result ≡ shape self.old }
        ensures shape { shape self.new ≡ shape self.old }
        ensures value_capacity { S.capacity result ≡ capacity self.old }
        ensures capacity { capacity self.new ≡ capacity self.old }
        ensures begins { Begins (seen self.old) (S.posts result) }
        ensures same { may_add self.old ≡ true → S.posts result ≡ seen self.old }
        ensures seen { seen self.new ≡ S.posts result }
        ensures may_add { may_add self.new ≡ may_add self.old }
        ensures lock { lock self.new ≡ lock self.old }
        ensures held { MadeHolds (holds self.old) (holds self.new) 1 }
        ensures given { given self.new ≡ Some (stand (S.shape result) (S.capacity result) (S.posts result)) };

    /// Takes the value back.
    fn give(&mut self, held: Held<S>)
        requires { MayGive (given self.old) (may_add self.old) (stand (S.shape held) (S.capacity held) (S.posts held)) }
        ensures kept { tells ≡ true → kept self.new ≡ Some held }
        ensures shape { shape self.new ≡ shape self.old }
        ensures capacity { capacity self.new ≡ capacity self.old }
        ensures seen { seen self.new ≡ S.posts held }
        ensures may_add { may_add self.new ≡ may_add self.old }
        ensures lock { lock self.new ≡ lock self.old }
        ensures holds { holds self.new ≡ holds self.old }
        ensures given { given self.new ≡ None };
}
