//! A turn at a seat of a lock, beside the writer's seat, which evicts and publishes between two rounds.
ghost use Rattle.std.specs.Prelude.{◌≡◌, true, false, None, Some};
ghost use Rattle.idx_turn.specs.Stands.{MayGive, stand};
ghost use Rattle.idx_lock.specs.Seats.{given_by};
ghost use Rattle.idx_test_reading.specs.Beside.{shape_at};
ghost use Rattle.idx_test_reading.specs.Wide.{wide_blocks};

use crate::wide::Wide;
use idx_hall::Hall;
use idx_lock::Chair;
use idx_outside::Blocks;
use idx_turn::{Held, Turn};
use std::sync::{Arc, Wait};

/// A seat that asks, the writer's seat of the same lock, the step that the writer is to publish, before which hold of the seat
/// that asks it evicts and publishes, how many entries it evicted, and how many times the hall was taken at the seat that asks.
pub(crate) struct Beside<'a, R: Wait> {
    chair: Chair<'a, Hall<Wide>, R>,
    writer: Chair<'a, Hall<Wide>, R>,
    next: Option<Arc<Wide>>,
    before: u64,
    evicted: u64,
    holds: u64,
    ghost free: { given_by writer ≡ None },
    ghost adds: { writer.seat.writer ≡ true },
    ghost shaped: { shape_at writer ≡ wide_blocks },
}

impl<'a, R: Wait> Beside<'a, R> {
    /// The two seats, and the step that comes before this hold.
    pub(crate) fn new(
        chair: Chair<'a, Hall<Wide>, R>,
        writer: Chair<'a, Hall<Wide>, R>,
        next: Arc<Wide>,
        before: u64,
    ) -> Beside<'a, R>
        requires free { given_by writer ≡ None }
        requires adds { writer.seat.writer ≡ true }
        requires shape { shape_at writer ≡ wide_blocks }
        ensures chair { result.chair ≡ chair.entry }
    {
        Beside {
            chair,
            writer,
            next: Some(next),
            before,
            evicted: 0,
            holds: 0,
        }
    }

    /// How many entries the writer evicted.
    pub(crate) fn evicted(&self) -> u64 {
        self.evicted
    }

    /// Leaves both seats.
    pub(crate) fn end(self)
        requires { given_by self.chair ≡ None }
    {
        let Beside {
            chair,
            writer,
            next: _next,
            before: _before,
            evicted: _evicted,
            holds: _holds,
        } = self;
        let _seat = chair.leave();
        let _writer = writer.leave();
    }
}

/// Evicts all cached blocks, and publishes a step behind the newest one of its time, in two holds. How many entries went.
fn evict_and_publish<T: Turn<Hall<Wide>>>(turn: &mut T, step: Arc<Wide>) -> u64
    requires given { T.given turn.old ≡ None }
    requires adds { T.may_add turn.old ≡ true }
    requires shape { T.shape turn.old ≡ wide_blocks }
    ensures given { T.given turn.new ≡ None }
    ensures adds { T.may_add turn.new ≡ true }
    ensures shape { T.shape turn.new ≡ T.shape turn.old }
{
    let evicted = evict(turn);
    publish(turn, step);
    evicted
}

/// Evicts all cached blocks, in one hold. How many entries went.
fn evict<T: Turn<Hall<Wide>>>(turn: &mut T) -> u64
    requires given { T.given turn.old ≡ None }
    ensures given { T.given turn.new ≡ None }
    ensures adds { T.may_add turn.new ≡ T.may_add turn.old }
    ensures shape { T.shape turn.new ≡ T.shape turn.old }
{
    let mut held = turn.take();
    let evicted = held.get_mut().evict(u64::MAX);
    turn.give(held);
    evicted
}

/// Publishes a step behind the newest one of its time, in one hold.
fn publish<T: Turn<Hall<Wide>>>(turn: &mut T, step: Arc<Wide>)
    requires given { T.given turn.old ≡ None }
    requires adds { T.may_add turn.old ≡ true }
    requires shape { T.shape turn.old ≡ wide_blocks }
    ensures given { T.given turn.new ≡ None }
    ensures adds { T.may_add turn.new ≡ true }
    ensures shape { T.shape turn.new ≡ T.shape turn.old }
{
    let mut held = turn.take();
    let hall = held.get_mut();
    let after = hall.newest(step.time());
    let _ = hall.publish(step, after);
    turn.give(held);
}

impl<R: Wait> Turn<Hall<Wide>> for Beside<'_, R> {
    ghost tells = { false };

    ghost kept = { λ _. None };

    ghost shape = { λ s. s.chair.seat.seen.shape };

    ghost capacity = { λ s. s.chair.seat.seen.capacity };

    ghost seen = { λ s. s.chair.seat.seen.posts };

    ghost may_add = { λ s. s.chair.seat.writer };

    ghost given = { λ s. given_by s.chair };

    ghost lock = { λ s. Some s.chair.seat.lock };

    ghost holds = { λ s. s.chair.holds };

    fn take(&mut self) -> Held<Hall<Wide>> {
        self.holds = self.holds.wrapping_add(1);
        if self.holds == self.before
            && let Some(step) = self.next.take()
        {
            self.evicted = evict_and_publish(&mut self.writer, step);
        }
        self.chair.take()
    }

    fn give(&mut self, held: Held<Hall<Wide>>)
        requires { MayGive (given_by self.old.chair) self.old.chair.seat.writer
            (stand held.shape held.cache.cap held.board) }
        ensures kept { false ≡ true → None ≡ Some held }
        ensures shape { self.new.chair.seat.seen.shape ≡ self.old.chair.seat.seen.shape }
        ensures capacity { self.new.chair.seat.seen.capacity ≡ self.old.chair.seat.seen.capacity }
        ensures seen { self.new.chair.seat.seen.posts ≡ held.board }
        ensures may_add { self.new.chair.seat.writer ≡ self.old.chair.seat.writer }
        ensures lock { Some self.new.chair.seat.lock ≡ Some self.old.chair.seat.lock }
        ensures holds { self.new.chair.holds ≡ self.old.chair.holds }
        ensures given { given_by self.new.chair ≡ None }
    {
        self.chair.give(held);
    }
}
