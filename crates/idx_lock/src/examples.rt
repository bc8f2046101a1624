//! What two seats of one lock do in two threads, where the writer publishes.
ghost use Rattle.std.specs.Prelude.{◌≡◌, ◌+◌, ◌≤◌, ◌++◌, ◌∷◌, [], true, length, MatchBool, IfOk};
ghost use Rattle.idx_turn.specs.Examples.{bare_post};
ghost use Rattle.idx_turn.specs.Stands.{Begins};
ghost use Rattle.idx_lock.specs.Seats.{IsLater};

use crate::{Seat, TurnLock};
use idx_hall::Standing;
use idx_outside::NoMemory;
use idx_turn::{Steps, count, publish, take_and_give};
use std::alloc::Global;
use std::sync::Wait;
use std::thread::{Threads, join};

/// Publishes a step at the writer's seat where there is room for it.
pub fn publish_at<R: Wait>(
    rt: &R,
    lock: &TurnLock<Steps>,
    seat: Seat<Steps>,
    time: u64,
) -> (bool, Seat<Steps>)
    requires lock { seat.lock ≡ lock.now }
    requires writer { seat.writer ≡ true }
    ensures lock { result.1.lock ≡ lock.now }
    ensures writer { result.1.writer ≡ true }
    ensures seen { MatchBool result.0 (result.1.seen.posts ≡ seat.seen.posts ++ bare_post time ∷ [])
        (result.1.seen.posts ≡ seat.seen.posts) }
{
    let mut chair = lock.chair(rt, seat);
    let published = publish(&mut chair, time);
    (published, chair.leave())
}

/// How many steps are published now, at any seat, which has seen them then.
pub fn count_at<R: Wait>(rt: &R, lock: &TurnLock<Steps>, seat: Seat<Steps>) -> (usize, Seat<Steps>)
    requires { seat.lock ≡ lock.now }
    ensures lock { result.1.lock ≡ lock.now }
    ensures count { result.0 ≡ length result.1.seen.posts }
    ensures begins { Begins seat.seen.posts result.1.seen.posts }
{
    let mut chair = lock.chair(rt, seat);
    let count = count(&mut chair);
    (count, chair.leave())
}

/// One thread publishes a step at the writer's seat, and another counts the steps at a second seat meanwhile. When the
/// seats have met, the next take at the second finds the step, and no more. Tells both counts.
pub fn publish_beside_count<R: Threads + Wait + Sync>(
    rt: &R,
    alloc: Global,
    steps: Steps,
    time: u64,
) -> Result<(usize, usize), NoMemory>
    ensures before { IfOk result (λ counts. length steps.steps.items ≤ counts.0) }
    ensures at_most { IfOk result (λ counts. counts.0 ≤ length steps.steps.items + 1) }
    ensures after { IfOk result (λ counts. counts.1 ≡ length steps.steps.items + 1) }
{
    let (lock, mut seat) = match TurnLock::new(alloc, steps) {
        Ok(made) => made,
        Err((_, fault)) => return Err(fault),
    };
    let other = lock.split(&mut seat);
    let (first, second) = join(
        rt,
        || -> (bool, Seat<Steps>)
            requires { (seat.lock ≡ lock) × (seat.writer ≡ true) }
            ensures { (result.1.lock ≡ lock) × (result.1.writer ≡ true)
                × MatchBool result.0 (result.1.seen.posts ≡ seat.seen.posts ++ bare_post time ∷ [])
                (result.1.seen.posts ≡ seat.seen.posts) }
        { publish_at(rt, &lock, seat, time) },
        || -> (usize, Seat<Steps>)
            requires { other.lock ≡ lock }
            ensures { (result.1.lock ≡ lock) × (result.0 ≡ length result.1.seen.posts)
                × Begins other.seen.posts result.1.seen.posts }
        { count_at(rt, &lock, other) },
    );
    let (published, mut seat) = first;
    let (before, other) = second;
    lock.join(&mut seat, other);
    let other = lock.split(&mut seat);
    let (after, other) = count_at(rt, &lock, other);
    lock.join(&mut seat, other);
    if published {
        Ok((before, after))
    } else {
        Err(NoMemory)
    }
}

/// Takes a value and gives it back as it is, at this seat and at a second one, in two threads. The writer has seen all of
/// it then as before.
pub fn take_at_two<S: Standing + Send + Drop, R: Threads + Wait + Sync>(
    rt: &R,
    lock: &TurnLock<S>,
    seat: Seat<S>,
) -> Seat<S>
    requires { seat.lock ≡ lock.now }
    ensures lock { result.lock ≡ lock.now }
    ensures begins { Begins seat.seen.posts result.seen.posts }
    ensures writer { result.writer ≡ seat.writer }
    ensures same { seat.writer ≡ true → result.seen.posts ≡ seat.seen.posts }
{
    let mut seat = seat;
    let other = lock.split(&mut seat);
    let (mut seat, other) = join(
        rt,
        || -> Seat<S>
            requires { seat.lock ≡ lock.now }
            ensures { IsLater seat result }
        { take_at(rt, lock, seat) },
        || -> Seat<S>
            requires { other.lock ≡ lock.now }
            ensures { IsLater other result }
        { take_at(rt, lock, other) },
    );
    lock.join(&mut seat, other);
    seat
}

/// Takes the value at a seat and gives it back as it is.
pub fn take_at<S: Standing + Drop, R: Wait>(rt: &R, lock: &TurnLock<S>, seat: Seat<S>) -> Seat<S>
    requires { seat.lock ≡ lock.now }
    ensures { IsLater seat result }
{
    let mut chair = lock.chair(rt, seat);
    take_and_give(&mut chair);
    chair.leave()
}
