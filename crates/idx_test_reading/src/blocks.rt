//! Blocks that fall out of the cache, and questions without memory.
ghost use Rattle.std.specs.Prelude.{◌≡◌, ◌≢◌, ◌≤◌, IfOk, None};
ghost use Rattle.idx_hall.specs.Examples.{key_at};
ghost use Rattle.idx_turn.specs.SoloValue.{latest};
ghost use Rattle.idx_test_reading.specs.Wide.{wide_blocks};

use crate::wide::{Wide, all_absent, ask, hall_of};
use idx_hall::{Hall, Key, Looked};
use idx_query::{QueryFault, Report};
use idx_turn::Solo;
use std::alloc::Global;
use std::process::Abort;
use std::test::Fail;

/// The point whose sample is in block 0, and one whose sample is in block 6.
const IN_0: (u64, u64) = (0, 0);

const IN_6: (u64, u64) = (4_194_305, 4_194_305);

/// Asks a hall for a point.
fn ask_hall(
    alloc: Global,
    rt: &impl Abort,
    hall: Hall<Wide>,
    point: (u64, u64),
) -> (Result<Report, QueryFault>, Hall<Wide>)
    requires { hall.shape ≡ wide_blocks }
    ensures { result.1.shape ≡ wide_blocks }
{
    let mut solo = Solo::new(hall);
    let answer = ask_solo(alloc, rt, &mut solo, point);
    (answer, solo.end())
}

/// Asks an owned hall for a point.
fn ask_solo(
    alloc: Global,
    rt: &impl Abort,
    solo: &mut Solo<Hall<Wide>>,
    point: (u64, u64),
) -> Result<Report, QueryFault>
    requires kept { solo.old.kept ≢ None }
    requires shape { (latest solo.old.kept solo.old.taken).shape ≡ wide_blocks }
    ensures kept { solo.new.kept ≢ None }
    ensures shape { (latest solo.new.kept solo.new.taken).shape ≡ wide_blocks }
{
    ask(alloc, rt, solo, point)
}

/// A hall with room for so many blocks, of which block 0 was asked and then block 6, and whether both were answered.
fn hall_asked(alloc: Global, rt: &impl Abort, room: u32) -> Result<(bool, Hall<Wide>), Fail>
    requires some { 1 ≤ room }
    requires few { room ≤ 65536 }
    ensures { IfOk result (λ asked. asked.1.shape ≡ wide_blocks) }
{
    let hall = hall_of(alloc, rt, room)?;
    let (first, hall) = ask_hall(alloc, rt, hall, IN_0);
    let (second, hall) = ask_hall(alloc, rt, hall, IN_6);
    Ok((first.is_ok() && second.is_ok(), hall))
}

/// Whether block 0 is the first to go out of the cache of a hall, so that it is not found any more.
fn goes_first(alloc: Global, rt: &impl Abort, mut hall: Hall<Wide>) -> bool
    requires { hall.shape ≡ wide_blocks }
{
    let gone = hall.evict(1);
    let (again, _hall) = ask_hall(alloc, rt, hall, IN_0);
    gone == 1 && again == Ok(all_absent(0, 1))
}

/// Whether a question for block 0 finds it in the cache of a hall, or ends for want of memory before it has looked: then
/// that block is still the first to go.
fn finds_or_has_not_looked(alloc: Global, rt: &impl Abort, hall: Hall<Wide>) -> bool
    requires { hall.shape ≡ wide_blocks }
{
    match ask_hall(alloc, rt, hall, IN_0) {
        (Ok(report), _) => report.hits == 1,
        (Err(QueryFault::NoMemory), hall) => goes_first(alloc, rt, hall),
        (Err(_), _) => false,
    }
}

/// To be tried with each allocation failing in turn.
#[test]
fn want_of_memory_comes_before_the_look(rt: HostRuntime) -> Result<(), Fail> {
    let (asked, hall) = hall_asked(rt.alloc(), &rt, 2)?;
    assert!(rt; asked);
    assert!(rt; finds_or_has_not_looked(rt.alloc(), &rt, hall));
    Ok(())
}

/// The key of a block of the step of time 0.
fn key(block: u64) -> Key
    ensures { result ≡ key_at 0 block }
{
    Key {
        time: 0,
        field: 0,
        block,
    }
}

/// How many spare blocks a look at a block brings.
fn spare_brought(alloc: Global, hall: &mut Hall<Wide>, block: u64) -> Result<usize, Fail>
    ensures { hall.new.shape ≡ hall.old.shape }
{
    let mut looked = Looked::new(alloc, 1)?;
    let _ = hall.look(0, &[key(block)], &mut looked)?;
    Ok(looked.take_spare().len())
}

/// Asks a hall for block 0, evicts nothing, and tells how many spare blocks a look at block 6 brings then.
fn spare_behind_an_eviction(alloc: Global, rt: &impl Abort, hall: Hall<Wide>) -> Result<usize, Fail>
    requires { hall.shape ≡ wide_blocks }
{
    let (_answer, mut hall) = ask_hall(alloc, rt, hall, IN_0);
    assert!(rt; hall.evict(0) == 0);
    spare_brought(alloc, &mut hall, 6)
}

#[test]
fn what_fell_out_comes_with_a_look_that_misses(rt: HostRuntime) -> Result<(), Fail> {
    let (_asked, mut hall) = hall_asked(rt.alloc(), &rt, 1)?;
    assert!(rt; spare_brought(rt.alloc(), &mut hall, 6)? == 0);
    assert!(rt; spare_brought(rt.alloc(), &mut hall, 0)? == 1);
    assert!(rt; spare_brought(rt.alloc(), &mut hall, 0)? == 0);
    assert!(rt; spare_behind_an_eviction(rt.alloc(), &rt, hall)? == 0);
    Ok(())
}

#[test]
fn what_somebody_still_reads_does_not_come(rt: HostRuntime) -> Result<(), Fail> {
    let hall = hall_of(rt.alloc(), &rt, 1)?;
    let (_answer, mut hall) = ask_hall(rt.alloc(), &rt, hall, IN_0);
    let mut reading = Looked::new(rt.alloc(), 1)?;
    let _ = hall.look(0, &[key(0)], &mut reading)?;
    let (_answer, mut hall) = ask_hall(rt.alloc(), &rt, hall, IN_6);
    assert!(rt; spare_brought(rt.alloc(), &mut hall, 0)? == 0);
    reading.clear();
    assert!(rt; spare_brought(rt.alloc(), &mut hall, 0)? == 1);
    Ok(())
}
