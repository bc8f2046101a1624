//! The blocks of a file in the row-major order of their points.
ghost use Rattle.std.specs.Prelude.{◌≡◌, ◌+◌, ◌*◌, ◌^◌, ◌<◌, ◌≤◌, OnErr, OnOk, length, vec_capacity};
ghost use Rattle.idx_outside.specs.Cause.{Rose, counted};
ghost use Rattle.idx_outside.specs.Contents.{appended};
ghost use Rattle.idx_header.specs.Header.{block_bytes, block_count};
ghost use Rattle.idx_rowmajor.specs.declared.layout.Layout.{Layout};
ghost use Rattle.idx_dock.specs.Content.{runs_in, sample_among, stored_among};
ghost use Rattle.idx_dock.specs.Next.{ArePassed, AreWritable};

use crate::Awaited;
use crate::content::{block_samples, put_some, reset};
use crate::filled::fill_block;
use crate::gathered::put;
use idx_header::Header;
use idx_outside::{Draft, Outage};
use idx_rowmajor::{offset_at, to_rows};

/// Writes a block of a field in row-major order behind what the draft and the buffer have so far, by way of `rows` where
/// that can hold the block. Of each piece so many runs are known to end before the block. `turn` is the piece whose run
/// is probably the next one.
pub(crate) fn put_in_rows<D: Draft>(
    header: &Header,
    file: u64,
    field: u32,
    block: u64,
    awaited: &[Awaited],
    passed: &mut [usize],
    turn: &mut usize,
    rows: &mut Vec<u8>,
    buffer: &mut Vec<u8>,
    draft: &mut D,
) -> Result<(), Outage>
    requires writable { AreWritable header.now file awaited.now }
    requires field { field < length header.now.fields }
    requires exists { block < block_count header.now }
    requires passed { ArePassed header.now field (block * 2 ^ header.now.block_bits) awaited.now passed.old }
    ensures written { OnOk result (appended (D.contents draft.new) buffer.new.items ≡
        appended (appended (D.contents draft.old) buffer.old.items)
        (stored_among Layout.Rows header.now (runs_in awaited.now) field block)) }
    ensures passed { OnOk result
        (ArePassed header.now field ((block + 1) * 2 ^ header.now.block_bits) awaited.now passed.new) }
    ensures quiet { OnOk result (D.faults draft.new ≡ D.faults draft.old) }
    ensures outage { OnErr result (Rose (D.faults draft.old) (D.faults draft.new)) }
    ensures once { OnErr result (D.faults draft.new ≡ counted (D.faults draft.old)) }
    ensures path { D.path draft.new ≡ D.path draft.old }
{
    if header.block_bytes(field) as usize <= rows.capacity() {
        put_turned(
            header, file, field, block, awaited, passed, turn, rows, buffer, draft,
        )
    } else {
        put_by_place(
            header, file, field, block, awaited, passed, turn, buffer, draft,
        )
    }
}

/// The same by way of `rows`, which can hold the block: it is filled in hierarchical order, and its samples change places.
fn put_turned<D: Draft>(
    header: &Header,
    file: u64,
    field: u32,
    block: u64,
    awaited: &[Awaited],
    passed: &mut [usize],
    turn: &mut usize,
    rows: &mut Vec<u8>,
    buffer: &mut Vec<u8>,
    draft: &mut D,
) -> Result<(), Outage>
    requires writable { AreWritable header.now file awaited.now }
    requires field { field < length header.now.fields }
    requires exists { block < block_count header.now }
    requires passed { ArePassed header.now field (block * 2 ^ header.now.block_bits) awaited.now passed.old }
    requires room { block_bytes header.now field ≤ vec_capacity rows.old }
    ensures written { OnOk result (appended (D.contents draft.new) buffer.new.items ≡
        appended (appended (D.contents draft.old) buffer.old.items)
        (stored_among Layout.Rows header.now (runs_in awaited.now) field block)) }
    ensures passed { OnOk result
        (ArePassed header.now field ((block + 1) * 2 ^ header.now.block_bits) awaited.now passed.new) }
    ensures quiet { OnOk result (D.faults draft.new ≡ D.faults draft.old) }
    ensures outage { OnErr result (Rose (D.faults draft.old) (D.faults draft.new)) }
    ensures once { OnErr result (D.faults draft.new ≡ counted (D.faults draft.old)) }
    ensures path { D.path draft.new ≡ D.path draft.old }
{
    fill_block(header, file, field, block, awaited, passed, turn, rows);
    to_rows(header, field, block, rows.as_mut_slice());
    put(rows, buffer, draft)
}

/// The same with no room for the block: sample after sample, each found anew.
fn put_by_place<D: Draft>(
    header: &Header,
    file: u64,
    field: u32,
    block: u64,
    awaited: &[Awaited],
    passed: &mut [usize],
    turn: &mut usize,
    buffer: &mut Vec<u8>,
    draft: &mut D,
) -> Result<(), Outage>
    requires writable { AreWritable header.now file awaited.now }
    requires field { field < length header.now.fields }
    requires exists { block < block_count header.now }
    requires passed { ArePassed header.now field (block * 2 ^ header.now.block_bits) awaited.now passed.old }
    ensures written { OnOk result (appended (D.contents draft.new) buffer.new.items ≡
        appended (appended (D.contents draft.old) buffer.old.items)
        (stored_among Layout.Rows header.now (runs_in awaited.now) field block)) }
    ensures passed { OnOk result
        (ArePassed header.now field ((block + 1) * 2 ^ header.now.block_bits) awaited.now passed.new) }
    ensures quiet { OnOk result (D.faults draft.new ≡ D.faults draft.old) }
    ensures outage { OnErr result (Rose (D.faults draft.old) (D.faults draft.new)) }
    ensures once { OnErr result (D.faults draft.new ≡ counted (D.faults draft.old)) }
    ensures path { D.path draft.new ≡ D.path draft.old }
{
    let samples = block_samples(header);
    for place in 0..samples {
        let address = block * samples + offset_at(header, block, place);
        put_sample(
            header, file, field, address, awaited, passed, turn, buffer, draft,
        )?;
    }
    Ok(())
}

/// Writes the sample of a field at an address behind what the draft and the buffer have so far, whatever was written
/// before it.
fn put_sample<D: Draft>(
    header: &Header,
    file: u64,
    field: u32,
    address: u64,
    awaited: &[Awaited],
    passed: &mut [usize],
    turn: &mut usize,
    buffer: &mut Vec<u8>,
    draft: &mut D,
) -> Result<(), Outage>
    requires writable { AreWritable header.now file awaited.now }
    requires field { field < length header.now.fields }
    requires few { address < 2 ^ 50 }
    requires passed { length passed.old ≡ length awaited.now }
    ensures written { OnOk result (appended (D.contents draft.new) buffer.new.items ≡
        appended (appended (D.contents draft.old) buffer.old.items)
        (sample_among header.now (runs_in awaited.now) field address)) }
    ensures passed { ArePassed header.now field address awaited.now passed.new }
    ensures quiet { OnOk result (D.faults draft.new ≡ D.faults draft.old) }
    ensures outage { OnErr result (Rose (D.faults draft.old) (D.faults draft.new)) }
    ensures once { OnErr result (D.faults draft.new ≡ counted (D.faults draft.old)) }
    ensures path { D.path draft.new ≡ D.path draft.old }
{
    reset(passed);
    let end = address + 1;
    put_some(
        header, file, field, address, end, awaited, passed, turn, buffer, draft,
    )?;
    Ok(())
}
