//! What holds at every Turn, and at the one of an owner.
ghost use Rattle.std.specs.Prelude.{◌≡◌, ◌≤◌, ◌++◌, ◌∷◌, [], true, None, MatchBool, length, nat_eq, if◌then◌else◌};
ghost use Rattle.idx_turn.specs.Examples.{bare_post};
ghost use Rattle.idx_turn.specs.Stands.{Begins, MadeHolds};

use crate::{Solo, Step, Steps, Turn};
use idx_hall::Standing;

/// Takes the value and gives it back as it is. Where the value is told it stays, and where steps may be published none
/// came in between; else there may be more of them than were seen before.
pub fn take_and_give<S: Standing, T: Turn<S>>(turn: &mut T)
    requires { T.given turn.old ≡ None }
    ensures kept { T.tells ≡ true → T.kept turn.new ≡ T.kept turn.old }
    ensures same { T.may_add turn.old ≡ true → T.seen turn.new ≡ T.seen turn.old }
    ensures begins { Begins (T.seen turn.old) (T.seen turn.new) }
    ensures shape { T.shape turn.new ≡ T.shape turn.old }
    ensures capacity { T.capacity turn.new ≡ T.capacity turn.old }
    ensures may_add { T.may_add turn.new ≡ T.may_add turn.old }
    ensures lock { T.lock turn.new ≡ T.lock turn.old }
    ensures holds { MadeHolds (T.holds turn.old) (T.holds turn.new) 1 }
    ensures given { T.given turn.new ≡ None }
{
    let held = turn.take();
    turn.give(held);
}

/// Has the values of two Turns out at once, and gives each back to its own.
pub fn one_and_other<S: Standing, T: Turn<S>, U: Turn<S>>(one: &mut T, other: &mut U)
    requires one { T.given one.old ≡ None }
    requires other { U.given other.old ≡ None }
    ensures kept_one { T.tells ≡ true → T.kept one.new ≡ T.kept one.old }
    ensures kept_other { U.tells ≡ true → U.kept other.new ≡ U.kept other.old }
    ensures holds_one { MadeHolds (T.holds one.old) (T.holds one.new) 1 }
    ensures holds_other { MadeHolds (U.holds other.old) (U.holds other.new) 1 }
    ensures given_one { T.given one.new ≡ None }
    ensures given_other { U.given other.new ≡ None }
{
    let first = one.take();
    let second = other.take();
    one.give(first);
    other.give(second);
}

/// Publishes a step where there is room for it, be there one of its time or not.
pub fn publish<T: Turn<Steps>>(turn: &mut T, time: u64) -> bool
    requires given { T.given turn.old ≡ None }
    requires may_add { T.may_add turn.old ≡ true }
    ensures seen { MatchBool result (T.seen turn.new ≡ T.seen turn.old ++ bare_post time ∷ [])
        (T.seen turn.new ≡ T.seen turn.old) }
    ensures shape { T.shape turn.new ≡ T.shape turn.old }
    ensures capacity { T.capacity turn.new ≡ T.capacity turn.old }
    ensures may_add { T.may_add turn.new ≡ T.may_add turn.old }
    ensures lock { T.lock turn.new ≡ T.lock turn.old }
    ensures holds { MadeHolds (T.holds turn.old) (T.holds turn.new) 1 }
    ensures given { T.given turn.new ≡ None }
{
    let mut held = turn.take();
    let published = held.get_mut().steps.push(Step::new(time)).is_ok();
    turn.give(held);
    published
}

/// Publishes a step and, where there was room for it, a later one of the same time, which stands behind it. Tells how
/// many were published.
pub fn publish_again<T: Turn<Steps>>(turn: &mut T, time: u64) -> u64
    requires given { T.given turn.old ≡ None }
    requires may_add { T.may_add turn.old ≡ true }
    ensures none { result ≡ 0 → T.seen turn.new ≡ T.seen turn.old }
    ensures one { result ≡ 1 → T.seen turn.new ≡ T.seen turn.old ++ bare_post time ∷ [] }
    ensures both { result ≡ 2 → T.seen turn.new ≡ (T.seen turn.old ++ bare_post time ∷ []) ++ bare_post time ∷ [] }
    ensures few { result ≤ 2 }
    ensures holds { MadeHolds (T.holds turn.old) (T.holds turn.new) (if nat_eq result 0 then 1 else 2) }
    ensures given { T.given turn.new ≡ None }
{
    if !publish(turn, time) {
        return 0;
    }
    if publish(turn, time) { 2 } else { 1 }
}

/// How many steps are published now.
pub fn count<T: Turn<Steps>>(turn: &mut T) -> usize
    requires { T.given turn.old ≡ None }
    ensures count { result ≡ length (T.seen turn.new) }
    ensures begins { Begins (T.seen turn.old) (T.seen turn.new) }
    ensures kept { T.tells ≡ true → T.kept turn.new ≡ T.kept turn.old }
    ensures same { T.may_add turn.old ≡ true → T.seen turn.new ≡ T.seen turn.old }
    ensures shape { T.shape turn.new ≡ T.shape turn.old }
    ensures capacity { T.capacity turn.new ≡ T.capacity turn.old }
    ensures may_add { T.may_add turn.new ≡ T.may_add turn.old }
    ensures lock { T.lock turn.new ≡ T.lock turn.old }
    ensures holds { MadeHolds (T.holds turn.old) (T.holds turn.new) 1 }
    ensures given { T.given turn.new ≡ None }
{
    let held = turn.take();
    let count = held.get().steps.len();
    turn.give(held);
    count
}

/// One owner's value is the same after it was taken and given back.
pub fn alone<S: Standing + Drop>(state: S) -> S
    ensures { result ≡ state }
{
    let mut solo = Solo::new(state);
    let held = solo.take();
    solo.give(held);
    solo.end()
}
