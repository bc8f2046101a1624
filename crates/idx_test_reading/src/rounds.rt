//! A question in two rounds, during which the writer's seat evicts and publishes.
ghost use Rattle.std.specs.Prelude.{◌≡◌, IfOk, None, true};
ghost use Rattle.idx_test_reading.specs.Wide.{wide_blocks};

use crate::beside::Beside;
use crate::wide::{Wide, all_absent, ask, hall_of};
use idx_hall::Hall;
use idx_lock::{Seat, TurnLock};
use idx_outside::NoMemory;
use idx_query::Report;
use idx_turn::Turn;
use std::alloc::Global;
use std::process::Abort;
use std::sync::{Arc, Wait};
use std::test::Fail;

/// The lock of a hall with the step of time 0 and room for one cached block, and its writer's seat.
fn seats_of(
    alloc: Global,
    rt: &impl Abort,
) -> Result<(TurnLock<Hall<Wide>>, Seat<Hall<Wide>>), Fail>
    ensures lock { IfOk result (λ made. made.1.lock ≡ made.0) }
    ensures writer { IfOk result (λ made. made.1.writer ≡ true) }
    ensures shape { IfOk result (λ made. made.1.seen.shape ≡ wide_blocks) }
{
    match TurnLock::new(alloc, hall_of(alloc, rt, 1)?) {
        Ok(made) => Ok(made),
        Err((_hall, NoMemory)) => Err(Fail::from(NoMemory)),
    }
}

/// The report of a question for the points from one to another.
fn report_of<T: Turn<Hall<Wide>>>(
    alloc: Global,
    rt: &impl Abort,
    turn: &mut T,
    ends: (u64, u64),
) -> Report
    requires shape { T.shape turn.old ≡ wide_blocks }
    requires given { T.given turn.old ≡ None }
    ensures shape { T.shape turn.new ≡ wide_blocks }
    ensures given { T.given turn.new ≡ None }
{
    ask(alloc, rt, turn, ends).ok().expect(rt, "an answer")
}

/// Nine points, which need the blocks 0, 1, 2, 3, 5 and 6, and so two rounds; and the one of them that needs block 6 alone.
const NINE: (u64, u64) = (4_194_300, 4_194_308);

const ONE: (u64, u64) = (4_194_305, 4_194_305);

/// The report of a question in two rounds, before which hold of the seat that asks the writer evicts and publishes, and how many
/// blocks go then.
fn beside_a_writer<R: Abort + Wait>(
    rt: &R,
    alloc: Global,
    before: u64,
) -> Result<(Report, u64), Fail> {
    let next = Arc::new(alloc, Wide { time: 0 })?;
    let (lock, mut writer) = seats_of(alloc, rt)?;
    let seat = lock.split(&mut writer);
    let mut beside = Beside::new(lock.chair(rt, seat), lock.chair(rt, writer), next, before);
    let report = report_of(alloc, rt, &mut beside, NINE);
    let evicted = beside.evicted();
    let later = report_of(alloc, rt, &mut beside, ONE);
    beside.end();
    assert!(rt; later == all_absent(1, 1));
    Ok((report, evicted))
}

#[test]
fn all_rounds_are_of_the_first_step(rt: HostRuntime) -> Result<(), Fail> {
    assert!(rt; beside_a_writer(&rt, rt.alloc(), 2)? == (all_absent(0, 6), 0));
    Ok(())
}

#[test]
fn another_seat_may_evict_and_publish_between_two_rounds(rt: HostRuntime) -> Result<(), Fail> {
    assert!(rt; beside_a_writer(&rt, rt.alloc(), 3)? == (all_absent(0, 6), 1));
    Ok(())
}
