//! Two workers, one of which is held where it has finished something until the other has.
ghost use Rattle.std.specs.Prelude.{◌≡◌, ◌≤◌, IfOk, vec_len};

use crate::stage::{Stage, stage_of};
use idx_memory::{HoldGate, MemDoor, MemLink, MemReader};
use idx_outside::{Bytes, FreeGate, GatePlace, NoMemory};
use idx_workers::serve;
use std::alloc::Global;
use std::process::Abort;
use std::sync::Wait;
use std::test::Fail;
use std::thread::Threads;

/// For so many turns a worker is held at most.
pub(crate) const TURNS: u64 = 1_000_000;

/// Where a worker is held that gathers a step.
static PLACES: [GatePlace; 3] = [GatePlace::Parcelled, GatePlace::Shipped, GatePlace::Sealed];

/// A head that asks for all of the step 0.
static WHOLE: &[u8] = b"GET /mod_visus?action=boxquery&dataset=v&box=0+3+0+3 HTTP/1.1\r\n\r\n";

/// Whether a gate held a worker until the other one came.
pub(crate) fn held_one(gate: &HoldGate) -> bool {
    gate.saw_both() && !gate.met_limit()
}

#[test]
fn two_workers_gather_beside_each_other(rt: HostRuntime) -> Result<(), Fail> {
    for &place in &PLACES {
        for (held, other) in [(0, 1), (1, 0)] {
            let gate = HoldGate::new(held, place, other, place, TURNS);
            let _stage = stage_of(&rt, rt.alloc(), &gate)?;
            assert!(rt; held_one(&gate), "worker {held}");
        }
    }
    Ok(())
}

/// A door of one link, which asks for all of the step 0.
fn door_of(alloc: Global) -> Result<MemDoor, NoMemory> {
    let link = MemLink::new(
        Bytes::from_slice(alloc, WHOLE)?,
        Vec::new(alloc),
        Vec::new(alloc),
    );
    let mut links = Vec::new(alloc);
    links.push(link)?;
    Ok(MemDoor::new(links, Vec::new(alloc)))
}

/// Two such doors, and two readers.
fn two_of_each(alloc: Global) -> Result<(Vec<MemDoor>, Vec<MemReader>), NoMemory>
    ensures doors { IfOk result (λ made. 2 ≤ vec_len made.0) }
    ensures readers { IfOk result (λ made. 2 ≤ vec_len made.1) }
{
    let mut doors = Vec::new(alloc);
    doors.push(door_of(alloc)?)?;
    doors.push(door_of(alloc)?)?;
    let mut readers = Vec::new(alloc);
    readers.push(MemReader::new(Vec::new(alloc)))?;
    readers.push(MemReader::new(Vec::new(alloc)))?;
    Ok((doors, readers))
}

/// How many links and heads two workers answer at such doors, and how many reads they make.
fn served_by_two<R: Threads + Wait + Sync + Abort>(
    rt: &R,
    alloc: Global,
    gate: &HoldGate,
) -> Result<(u64, u64, u64), Fail> {
    let Stage {
        site,
        lock,
        mut writer,
    } = stage_of(rt, alloc, &FreeGate)?;
    let seat = lock.split(&mut writer);
    let (mut doors, mut readers) = two_of_each(alloc)?;
    let (_seat, summary) = serve(
        rt,
        alloc,
        &site,
        &lock,
        seat,
        &mut doors,
        &mut readers,
        2,
        gate,
    );
    let reads = readers
        .iter()
        .map(MemReader::reads)
        .fold(0u64, u64::saturating_add);
    Ok((summary.links, summary.replies, reads))
}

#[test]
fn two_workers_share_what_either_reads(rt: HostRuntime) -> Result<(), Fail> {
    for (held, other) in [(0, 1), (1, 0)] {
        let gate = HoldGate::new(held, GatePlace::Accepted, other, GatePlace::Answered, TURNS);
        assert!(rt; served_by_two(&rt, rt.alloc(), &gate)? == (2, 2, 4));
        assert!(rt; held_one(&gate), "worker {held}");
    }
    Ok(())
}
