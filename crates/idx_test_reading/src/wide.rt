//! A step of eight large blocks, and questions about the row that it is of.
ghost use Rattle.std.specs.Prelude.{◌≡◌, ◌<◌, ◌≤◌, IfOk, None, false, length};
ghost use Rattle.idx_layout.specs.Shape.{shape_of};
ghost use Rattle.idx_test_reading.specs.Wide.{wide_blocks};

use idx_geom::{Point, Region};
use idx_hall::Hall;
use idx_header::Header;
use idx_memory::{MemLeaf, MemReader};
use idx_outside::{Blocks, Bytes, Fetched, Outage, Reader};
use idx_plan::Ask;
use idx_query::{QueryFault, Report, answer};
use idx_turn::Turn;
use std::alloc::Global;
use std::process::Abort;
use std::sync::Arc;
use std::test::Fail;

/// A row of 2^23 points of sixteen bytes in eight blocks, four of which have 2^26 bytes.
static ROW: &[u8] =
    b"(version)\n6\n(box)\n0 8388607 0 0\n(fields)\na uint8[16]\n(bits)\nV00000000000000000000000\n(bitsperblock)\n20\n(blocksperfile)\n8\n(filename_template)\n./%06x.bin\n(time)\n0 9 time%04d/\n";

/// A step that lacks all of its eight blocks.
#[derive(Drop)]
pub(crate) struct Wide {
    pub(crate) time: u64,
}

impl Blocks for Wide {
    type Leaf = MemLeaf;

    ghost time = { λ s. s.time };

    ghost shape = { λ s. wide_blocks };

    ghost has = { λ s field block. false };

    ghost stored = { λ s. None };

    fn time(&self) -> u64 {
        self.time
    }

    fn fetch<R: Reader<MemLeaf>>(
        &self,
        _reader: &mut R,
        _field: u32,
        _block: u64,
        into: &mut [u8],
    ) -> Result<Fetched, Outage> {
        into.fill(0);
        Ok(Fetched::Absent)
    }
}

/// The header of the row.
#[tactic(auto, using(crate::proofs::ShapeLemmas::shape_one))]
fn header_of(alloc: Global, rt: &impl Abort) -> Header
    ensures field { 0 < length result.fields }
    ensures axes { length result.box ≡ 2 }
    ensures shape { wide_blocks ≡ shape_of result }
{
    let header = Header::read(alloc, ROW).ok().expect(rt, "a header");
    assert!(rt; header.field_count() == 1);
    assert!(rt; header.axes() == 2);
    assert!(rt; header.block_count() == 8);
    assert!(rt; header.block_bytes(0) == 16_777_216);
    header
}

/// A hall with the step of time 0, and room for so many cached blocks.
pub(crate) fn hall_of(alloc: Global, rt: &impl Abort, room: u32) -> Result<Hall<Wide>, Fail>
    requires some { 1 ≤ room }
    requires few { room ≤ 65536 }
    ensures { IfOk result (λ hall. hall.shape ≡ wide_blocks) }
{
    let mut hall = Hall::new(alloc, room, 8, vec![in alloc; 16_777_216]?)?;
    let step = Arc::new(alloc, Wide { time: 0 })?;
    assert!(rt; hall.publish(step, None).is_ok());
    Ok(hall)
}

/// A question at all levels for the points of the row from one to another.
fn question(rt: &impl Abort, ends: (u64, u64)) -> Ask
    ensures field { result.field ≡ 0 }
    ensures axes { length result.region ≡ 2 }
{
    let lo = Point::new(&[ends.0, 0]).expect(rt, "a lower end");
    let hi = Point::new(&[ends.1, 0]).expect(rt, "an upper end");
    let region = Region::new(lo, hi).expect(rt, "a region");
    assert!(rt; region.axes() == 2);
    Ask {
        time: 0,
        field: 0,
        region,
        lo: 0,
        hi: 23,
    }
}

/// Asks a turn for the points of the row from one to another. Nothing is read, and an answer is zeros.
pub(crate) fn ask<T: Turn<Hall<Wide>>>(
    alloc: Global,
    rt: &impl Abort,
    turn: &mut T,
    ends: (u64, u64),
) -> Result<Report, QueryFault>
    requires shape { T.shape turn.old ≡ wide_blocks }
    requires given { T.given turn.old ≡ None }
    ensures shape { T.shape turn.new ≡ wide_blocks }
    ensures given { T.given turn.new ≡ None }
{
    let header = header_of(alloc, rt);
    let mut reader = MemReader::new(Vec::new(alloc));
    let mut out = Bytes::new(alloc);
    let answer = answer(
        alloc,
        &header,
        &question(rt, ends),
        turn,
        &mut reader,
        &mut out,
    );
    assert!(rt; reader.reads() == 0);
    assert!(rt; out.as_slice().iter().all(|byte| *byte == 0));
    answer
}

/// The report where so many blocks are needed and none is cached.
pub(crate) fn all_absent(post: u64, absent: u64) -> Report {
    Report {
        post,
        hits: 0,
        reads: 0,
        absent,
    }
}
