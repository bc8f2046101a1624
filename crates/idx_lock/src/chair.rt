ghost use Rattle.std.specs.Prelude.{◌≡◌, true, false, Some, None};
ghost use Rattle.crossbeam_queue.specs.Passes.{view};
ghost use Rattle.idx_turn.specs.Stands.{MayGive, stand};
ghost use Rattle.idx_lock.specs.LockRule.{stands};
ghost use Rattle.idx_lock.specs.Seats.{IsPass, Rests, chair_value, given_by, seat_of, seat_value};

use crate::seat_view::SeatView;
use crate::{Seat, TurnLock};
use crossbeam_queue::Pass;
use idx_hall::Standing;
use idx_turn::{Held, Solo, Turn};
use std::marker::Model;
use std::sync::Wait;

/// A seat that takes the value of its lock and gives it back; seen as its seat, whether the value is out with it, and how
/// many times it took the value, modulo 2^64. What is out has an owner here.
pub struct Chair<'a, S: Standing, R: Wait> {
    rt: &'a R,
    lock: &'a TurnLock<S>,
    pass: Pass<S, SeatView>,
    owner: Option<Solo<S>>,
    holds: u64,
}

impl<'a, S: Standing, R: Wait> Model for Chair<'a, S, R> {
    ghost use Rattle.crossbeam_queue.specs.Passes.{view};
    ghost use Rattle.idx_lock.specs.LockRule.{stands};
    ghost use Rattle.idx_lock.specs.Seats.{ChairValue, Sits, chair_value, seat_of, is_out_of};

    ghost Value = { ChairValue };

    ghost view = { λ c. chair_value (seat_of c.pass) (is_out_of c.pass) c.holds };

    ghost invariant = { λ c. Sits (stands S.shape S.capacity S.posts) c.lock.now c.pass c.owner };
}

impl<'a, S: Standing + Drop, R: Wait> Chair<'a, S, R> {
    // A chair that holds nothing yet.
    pub(crate) fn new(rt: &'a R, lock: &'a TurnLock<S>, pass: Pass<S, SeatView>) -> Chair<'a, S, R>
        requires lock { IsPass lock.now pass }
        requires rests { Rests pass }
        ensures { result ≡ chair_value (seat_of pass) false 0 }
    {
        Chair {
            rt,
            lock,
            pass,
            owner: None,
            holds: 0,
        }
    }

    /// The seat again.
    pub fn leave(self) -> Seat<S>
        requires { given_by self ≡ None }
        ensures { result ≡ self.entry.seat }
    {
        let Chair {
            rt: _,
            lock: _,
            pass,
            owner: _,
            holds: _,
        } = self;
        Seat { pass }
    }
}

impl<'a, S: Standing + Drop, R: Wait> Turn<S> for Chair<'a, S, R> {
    ghost tells = { false };

    ghost kept = { λ _. None };

    ghost shape = { λ c. c.seat.seen.shape };

    ghost capacity = { λ c. c.seat.seen.capacity };

    ghost seen = { λ c. c.seat.seen.posts };

    ghost may_add = { λ c. c.seat.writer };

    ghost given = { given_by };

    ghost lock = { λ c. Some c.seat.lock };

    ghost holds = { λ c. c.holds };

    fn take(&mut self) -> Held<S> {
        let value = self.lock.get(self.rt, &mut self.pass);
        let mut owner = Solo::new(value);
        let held = owner.take();
        self.owner = Some(owner);
        self.holds = self.holds.wrapping_add(1);
        held
    }

    // It tells no value, so that `kept` says nothing.
    fn give(&mut self, held: Held<S>)
        requires { MayGive (given_by self.old) self.old.seat.writer
            (stand (S.shape held) (S.capacity held) (S.posts held)) }
        ensures kept { false ≡ true → None ≡ Some held }
        ensures shape { self.new.seat.seen.shape ≡ self.old.seat.seen.shape }
        ensures capacity { self.new.seat.seen.capacity ≡ self.old.seat.seen.capacity }
        ensures given { self.new ≡ chair_value (seat_value self.old.seat.lock
            (stand (S.shape held) (S.capacity held) (S.posts held)) self.old.seat.writer) false self.old.holds }
    {
        match self.owner.take() {
            Some(mut owner) => {
                owner.give(held);
                self.lock.put(self.rt, &mut self.pass, owner.end());
            }
            None => unreachable!(),
        }
    }
}
