ghost use Rattle.std.specs.Prelude.{◌≡◌, ◌≢◌, true, Some, None};
ghost use Rattle.idx_turn.specs.SoloValue.{given_unless, latest};
ghost use Rattle.idx_turn.specs.Stands.{MayGive, stand};

use crate::{Held, Turn};
use idx_hall::Standing;
use std::marker::Model;
use std::snapshot::Snapshot;

/// A value with one owner, who tells it and never waits.
#[derive(Drop)]
pub struct Solo<S> {
    kept: Option<S>,
    taken: Snapshot<S>,
    holds: u64,
}

impl<S> Model for Solo<S> {
    ghost use Rattle.idx_turn.specs.SoloValue.{SoloValue, solo};

    ghost Value = { SoloValue S };

    ghost view = { λ s. solo s.kept s.taken.value s.holds };
}

impl<S: Standing> Solo<S> {
    /// The owner of this value. Takes no memory.
    pub fn new(state: S) -> Solo<S>
        ensures kept { result.kept ≡ Some state }
        ensures holds { result.holds ≡ 0 }
    {
        let taken = Snapshot::of(&state);
        Solo {
            kept: Some(state),
            taken,
            holds: 0,
        }
    }

    /// The value, which is not taken. Takes no memory.
    pub fn end(self) -> S
        requires { self.kept ≢ None }
        ensures { self.kept ≡ Some result }
    {
        let Solo { kept, .. } = self;
        match kept {
            Some(state) => state,
            None => unreachable!(),
        }
    }
}

impl<S: Standing + Drop> Turn<S> for Solo<S> {
    ghost tells = { true };

    ghost kept = { λ s. s.kept };

    ghost shape = { λ s. S.shape (latest s.kept s.taken) };

    ghost capacity = { λ s. S.capacity (latest s.kept s.taken) };

    ghost seen = { λ s. S.posts (latest s.kept s.taken) };

    ghost may_add = { λ _. true };

    ghost given = { λ s. given_unless s.kept (stand (S.shape s.taken) (S.capacity s.taken) (S.posts s.taken)) };

    ghost lock = { λ _. None };

    ghost holds = { λ s. s.holds };

    fn take(&mut self) -> Held<S> {
        match self.kept.take() {
            Some(value) => {
                self.taken = Snapshot::of(&value);
                self.holds = self.holds.wrapping_add(1);
                Held { value }
            }
            None => unreachable!(),
        }
    }

    fn give(&mut self, held: Held<S>)
        requires { MayGive (given_unless self.old.kept
            (stand (S.shape self.old.taken) (S.capacity self.old.taken) (S.posts self.old.taken))) true
            (stand (S.shape held) (S.capacity held) (S.posts held)) }
        ensures kept { self.new.kept ≡ Some held }
        ensures holds { self.new.holds ≡ self.old.holds }
    {
        let Held { value } = held;
        self.kept = Some(value);
    }
}
