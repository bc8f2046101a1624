ghost use Rattle.std.specs.Prelude.{◌≡◌, ◌++◌, ◌∷◌, [], true, None, IfOk, OnErr, OnOk, length};
ghost use Rattle.std.specs.Arc.{arc_value};
ghost use Rattle.idx_hall.specs.Posts.{post_of};
ghost use Rattle.idx_turn.specs.Stands.{MadeHolds};

use idx_hall::Hall;
use idx_lock::{Seat, TurnLock};
use idx_outside::{Blocks, NoMemory};
use idx_turn::Turn;
use std::alloc::Global;
use std::sync::{Arc, Wait};

/// Publishes a step at the writer's seat, behind all others and as the newest of its time, in one hold, and answers its
/// number. After a refusal there is none more.
pub(crate) fn publish_at<E: Blocks + Drop, H: Wait>(
    rt: &H,
    alloc: Global,
    lock: &TurnLock<Hall<E>>,
    seat: Seat<Hall<E>>,
    edition: E,
) -> (Seat<Hall<E>>, Result<u64, NoMemory>)
    requires lock { seat.lock ≡ lock.now }
    requires writer { seat.writer ≡ true }
    requires shape { E.shape edition ≡ seat.seen.shape }
    ensures number { IfOk result.1 (λ number. number ≡ length seat.seen.posts) }
    ensures published { OnOk result.1 (result.0.seen.posts ≡ seat.seen.posts
        ++ post_of seat.seen.shape (E.time edition) (E.has edition) (E.stored edition) ∷ []) }
    ensures kept { OnErr result.1 (result.0.seen.posts ≡ seat.seen.posts) }
    ensures lock { result.0.lock ≡ lock.now }
    ensures writer { result.0.writer ≡ true }
    ensures shape { result.0.seen.shape ≡ seat.seen.shape }
{
    let Ok(edition) = Arc::new(alloc, edition) else {
        return (seat, Err(NoMemory));
    };
    let mut chair = lock.chair(rt, seat);
    let published = publish_newest(&mut chair, edition);
    (chair.leave(), published)
}

/// Publishes a step behind all others, as the newest of its time, in one hold, and answers its number. After a refusal
/// there is none more.
pub(crate) fn publish_newest<E: Blocks + Drop, T: Turn<Hall<E>>>(
    turn: &mut T,
    edition: Arc<E>,
) -> Result<u64, NoMemory>
    requires given { T.given turn.old ≡ None }
    requires may_add { T.may_add turn.old ≡ true }
    requires shape { E.shape (arc_value edition) ≡ T.shape turn.old }
    ensures number { IfOk result (λ number. number ≡ length (T.seen turn.old)) }
    ensures published { OnOk result (T.seen turn.new ≡ T.seen turn.old ++ post_of (T.shape turn.old)
        (E.time (arc_value edition)) (E.has (arc_value edition)) (E.stored (arc_value edition)) ∷ []) }
    ensures kept { OnErr result (T.seen turn.new ≡ T.seen turn.old) }
    ensures shape { T.shape turn.new ≡ T.shape turn.old }
    ensures may_add { T.may_add turn.new ≡ T.may_add turn.old }
    ensures lock { T.lock turn.new ≡ T.lock turn.old }
    ensures holds { MadeHolds (T.holds turn.old) (T.holds turn.new) 1 }
    ensures given { T.given turn.new ≡ None }
{
    let mut held = turn.take();
    let hall = held.get_mut();
    let after = hall.newest(edition.time());
    let published = hall.publish(edition, after);
    turn.give(held);
    match published {
        Ok(number) => Ok(number),
        Err(_) => Err(NoMemory),
    }
}
