ghost use Rattle.std.specs.Prelude.{◌≡◌, ◌<◌, true, false, Some, IfOk, IfErr};
ghost use Rattle.crossbeam_queue.specs.Passes.{view};
ghost use Rattle.idx_lock.specs.LockRule.{MayPush, Took, gave, stands};
ghost use Rattle.idx_lock.specs.Seats.{IsPass, Joined, chair_value, seat_value};

use crate::rule::{Giving, OneWriter, Seats, Taking};
use crate::seat_view::SeatView;
use crate::{Chair, Seat};
use crossbeam_queue::{Pass, RuledArrayQueue};
use idx_hall::Standing;
use idx_outside::NoMemory;
use std::alloc::Global;
use std::marker::Model;
use std::sync::Wait;
use std::thread;

/// How often a seat asks for the value before it lets other threads run.
const TRIES: u32 = 16;

/// The lock round a value that its seats take in turn; seen as which lock it is. It serves fewer than 2^62 holds: then a
/// call waits for ever.
#[derive(Drop)]
pub struct TurnLock<S: Standing> {
    queue: RuledArrayQueue<S, SeatView, OneWriter>,
}

impl<S: Standing> Model for TurnLock<S> {
    ghost use Rattle.std.specs.Prelude.{◌≡◌};
    ghost use Rattle.crossbeam_queue.specs.Passes.{ruled_capacity};
    ghost use Rattle.idx_turn.specs.LockId.{LockId};
    ghost use Rattle.idx_lock.specs.Seats.{lock_of};

    ghost Value = { LockId };

    ghost view = { λ l. lock_of l.queue.table.shared.table_id };

    ghost invariant = { λ l. ruled_capacity l.queue ≡ 1 };
}

impl<S: Standing + Drop> TurnLock<S> {
    /// A lock round this value, and the seat of its writer, which has seen all of it. The value comes back where there is
    /// no memory.
    pub fn new(alloc: Global, state: S) -> Result<(TurnLock<S>, Seat<S>), (S, NoMemory)>
        ensures opened { IfOk result (λ made.
            made.1 ≡ seat_value made.0 (stands S.shape S.capacity S.posts state) true) }
        ensures refused { IfErr result (λ refused. refused.0 ≡ state) }
    {
        match RuledArrayQueue::ruled(alloc, 1) {
            Ok((queue, mut pass)) => match queue.try_push_as::<Giving>(&mut pass, state) {
                Ok(()) => Ok((TurnLock { queue }, Seat { pass })),
                Err(state) => Err((state, NoMemory)),
            },
            Err(_) => Err((state, NoMemory)),
        }
    }

    /// A new seat, which has seen what the old one has and is not the writer. Takes no memory.
    #[tactic(auto, using(crate::proofs::Rules::splits))]
    pub fn split(&self, seat: &mut Seat<S>) -> Seat<S>
        requires { seat.old.lock ≡ self.now }
        ensures old { seat.new ≡ seat.old }
        ensures new { result ≡ seat_value self.now seat.old.seen false }
    {
        Seat {
            pass: self.queue.another::<Seats>(&mut seat.pass),
        }
    }

    /// Makes the two seats one, which has seen the longer of the two lists, and is the writer where either was. Takes no
    /// memory.
    #[tactic(auto, using(crate::proofs::Rules::joins, crate::proofs::Joining::made_one))]
    pub fn join(&self, seat: &mut Seat<S>, other: Seat<S>)
        requires seat { seat.old.lock ≡ self.now }
        requires other { other.lock ≡ self.now }
        ensures { Joined seat.old other seat.new }
    {
        let Seat { pass } = other;
        self.queue.absorb::<Seats>(&mut seat.pass, pass);
        self.queue.learn_as::<Seats>(&mut seat.pass);
    }

    /// The seat as one that takes and gives.
    pub fn chair<'a, R: Wait>(&'a self, rt: &'a R, seat: Seat<S>) -> Chair<'a, S, R>
        requires { seat.lock ≡ self.now }
        ensures { result ≡ chair_value seat false 0 }
    {
        let Seat { pass } = seat;
        Chair::new(rt, self, pass)
    }

    // Waits for the value.
    pub(crate) fn get<R: Wait>(&self, rt: &R, pass: &mut Pass<S, SeatView>) -> S
        requires { IsPass self.now pass.old }
        ensures pass { IsPass self.now pass.new }
        ensures took { Took (stands S.shape S.capacity S.posts) (view pass.old) result (view pass.new) }
    {
        let mut tries = 0;
        for _ in rt.forever() {
            if let Some(value) = self.queue.pop_as::<Taking, R>(rt, pass) {
                return value;
            }
            tries = yield_at_times(tries);
        }
        unreachable!()
    }

    // Puts the value into the queue, which is empty, since the seat holds the value.
    pub(crate) fn put<R: Wait>(&self, rt: &R, pass: &mut Pass<S, SeatView>, value: S)
        requires pass { IsPass self.now pass.old }
        requires may { MayPush (stands S.shape S.capacity S.posts) (view pass.old) value }
        ensures pass { IsPass self.now pass.new }
        ensures gave { view pass.new ≡ gave (stands S.shape S.capacity S.posts) (view pass.old) value }
    {
        match self.queue.push_as::<Giving, R>(rt, pass, value) {
            Ok(()) => {}
            Err(_) => unreachable!(),
        }
    }
}

/// Lets other threads run after every few tries, and counts them.
fn yield_at_times(tries: u32) -> u32
    ensures { result < 16 }
{
    let made = tries.saturating_add(1);
    if made < TRIES {
        made
    } else {
        thread::yield_now();
        0
    }
}
