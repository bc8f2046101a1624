ghost use Rattle.std.specs.Prelude.{◌≡◌, true, IfOk};

use super::*;
use idx_turn::{Step, Steps, count, publish, take_and_give};
use std::test::*;

/// A lock round one step, and its writer's seat.
fn one_step(rt: &HostRuntime) -> Result<(TurnLock<Steps>, Seat<Steps>), Fail>
    ensures lock { IfOk result (λ made. made.1.lock ≡ made.0) }
    ensures writer { IfOk result (λ made. made.1.writer ≡ true) }
{
    let steps = Steps {
        blocks: 3,
        steps: vec![in rt.alloc(); Step::new(4)]?,
    };
    match TurnLock::new(rt.alloc(), steps) {
        Ok(made) => Ok(made),
        Err(_) => Err(Fail::from("no memory")),
    }
}

#[test]
fn the_second_seat_finds_both_steps(rt: HostRuntime) -> Result<(), Fail> {
    let (lock, seat) = one_step(&rt)?;
    let mut seat = take_at_two(&rt, &lock, seat);
    let other = lock.split(&mut seat);
    let mut first = lock.chair(&rt, seat);
    let mut second = lock.chair(&rt, other);
    take_and_give(&mut first);
    let before = count(&mut second);
    let published = publish(&mut first, 5);
    let after = count(&mut second);
    let mut seat = first.leave();
    lock.join(&mut seat, second.leave());
    assert!(rt; published);
    assert_eq!(rt; before, 1);
    assert_eq!(rt; after, 2);
    Ok(())
}

#[test]
fn two_threads_take_in_turn(rt: HostRuntime) -> Result<(), Fail> {
    let steps = Steps {
        blocks: 3,
        steps: vec![in rt.alloc(); Step::new(4)]?,
    };
    let Ok((before, after)) = publish_beside_count(&rt, rt.alloc(), steps, 5) else {
        return Err(Fail::from("no memory"));
    };
    assert!(rt; before == 1 || before == 2);
    assert_eq!(rt; after, 2);
    Ok(())
}
