//! The blocks of a file, as the delivered runs give them.
ghost use Rattle.std.specs.Prelude.{◌≡◌, ◌+◌, ◌-◌, ◌*◌, ◌^◌, ◌<◌, ◌≤◌, [], IfOk, OnErr, OnOk, length, min, replicate, slice_range};
ghost use Rattle.std.specs.List.{flat_map, range_with_len};
ghost use Rattle.idx_outside.specs.Cause.{Rose, counted};
ghost use Rattle.idx_outside.specs.Contents.{appended};
ghost use Rattle.idx_header.specs.Header.{IsHeader, block_count, sample_bytes_of};
ghost use Rattle.idx_pieces.specs.Runs.{IsRun, run_length};
ghost use Rattle.idx_dock.specs.Content.{block_among, field_among, fields_among, file_among, runs_in, sample_among, stored_among};
ghost use Rattle.idx_dock.specs.Next.{ArePassed, AreWritable, end_of};

use crate::Awaited;
use crate::gathered::{flush, put, put_table, put_zeros};
use crate::next::{end_of, next_run};
use crate::rows::put_in_rows;
use idx_header::Header;
use idx_layout::file_blocks;
use idx_outside::{Draft, Outage};
use idx_pieces::Run;
use idx_rowmajor::Layout;

/// Writes the file of the delivered runs, with its blocks in a layout, behind what a draft has so far, by way of an empty
/// buffer. `rows` is for one block at a time.
pub(crate) fn write_file<D: Draft>(
    header: &Header,
    layout: Layout,
    file: u64,
    awaited: &[Awaited],
    passed: &mut [usize],
    rows: &mut Vec<u8>,
    buffer: &mut Vec<u8>,
    draft: &mut D,
) -> Result<(), Outage>
    requires writable { AreWritable header.now file awaited.now }
    requires passed { length passed.old ≡ length awaited.now }
    requires empty { buffer.old.items ≡ [] }
    ensures written { OnOk result (D.contents draft.new ≡
        appended (D.contents draft.old) (file_among layout header.now file (runs_in awaited.now))) }
    ensures quiet { OnOk result (D.faults draft.new ≡ D.faults draft.old) }
    ensures outage { OnErr result (Rose (D.faults draft.old) (D.faults draft.new)) }
    ensures once { OnErr result (D.faults draft.new ≡ counted (D.faults draft.old)) }
    ensures path { D.path draft.new ≡ D.path draft.old }
{
    put_table(header, layout, file, buffer, draft)?;
    put_fields(header, layout, file, awaited, passed, rows, buffer, draft)?;
    flush(buffer, draft)
}

/// Writes the present blocks of all fields behind what the draft and the buffer have so far.
fn put_fields<D: Draft>(
    header: &Header,
    layout: Layout,
    file: u64,
    awaited: &[Awaited],
    passed: &mut [usize],
    rows: &mut Vec<u8>,
    buffer: &mut Vec<u8>,
    draft: &mut D,
) -> Result<(), Outage>
    requires writable { AreWritable header.now file awaited.now }
    requires passed { length passed.old ≡ length awaited.now }
    ensures written { OnOk result (appended (D.contents draft.new) buffer.new.items ≡
        appended (appended (D.contents draft.old) buffer.old.items)
        (fields_among layout header.now file (runs_in awaited.now))) }
    ensures quiet { OnOk result (D.faults draft.new ≡ D.faults draft.old) }
    ensures outage { OnErr result (Rose (D.faults draft.old) (D.faults draft.new)) }
    ensures once { OnErr result (D.faults draft.new ≡ counted (D.faults draft.old)) }
    ensures path { D.path draft.new ≡ D.path draft.old }
{
    for field in 0..header.field_count() {
        put_field(
            header, layout, file, field, awaited, passed, rows, buffer, draft,
        )?;
    }
    Ok(())
}

/// Writes the present blocks of a field behind what the draft and the buffer have so far.
fn put_field<D: Draft>(
    header: &Header,
    layout: Layout,
    file: u64,
    field: u32,
    awaited: &[Awaited],
    passed: &mut [usize],
    rows: &mut Vec<u8>,
    buffer: &mut Vec<u8>,
    draft: &mut D,
) -> Result<(), Outage>
    requires writable { AreWritable header.now file awaited.now }
    requires field { field < length header.now.fields }
    requires passed { length passed.old ≡ length awaited.now }
    ensures written { OnOk result (appended (D.contents draft.new) buffer.new.items ≡
        appended (appended (D.contents draft.old) buffer.old.items)
        (field_among layout header.now file (runs_in awaited.now) field)) }
    ensures quiet { OnOk result (D.faults draft.new ≡ D.faults draft.old) }
    ensures outage { OnErr result (Rose (D.faults draft.old) (D.faults draft.new)) }
    ensures once { OnErr result (D.faults draft.new ≡ counted (D.faults draft.old)) }
    ensures path { D.path draft.new ≡ D.path draft.old }
{
    reset(passed);
    let mut turn = 0;
    for block in file_blocks(header, file) {
        put_stored(
            header, layout, file, field, block, awaited, passed, &mut turn, rows, buffer, draft,
        )?;
    }
    Ok(())
}

/// Writes a block of a field in a layout behind what the draft and the buffer have so far. Of each piece so many runs are
/// known to end before the block. `turn` is the piece whose run is probably the next one.
fn put_stored<D: Draft>(
    header: &Header,
    layout: Layout,
    file: u64,
    field: u32,
    block: u64,
    awaited: &[Awaited],
    passed: &mut [usize],
    turn: &mut usize,
    rows: &mut Vec<u8>,
    buffer: &mut Vec<u8>,
    draft: &mut D,
) -> Result<(), Outage>
    requires writable { AreWritable header.now file awaited.now }
    requires field { field < length header.now.fields }
    requires exists { block < block_count header.now }
    requires passed { ArePassed header.now field (block * 2 ^ header.now.block_bits) awaited.now passed.old }
    ensures written { OnOk result (appended (D.contents draft.new) buffer.new.items ≡
        appended (appended (D.contents draft.old) buffer.old.items)
        (stored_among layout header.now (runs_in awaited.now) field block)) }
    ensures passed { OnOk result
        (ArePassed header.now field ((block + 1) * 2 ^ header.now.block_bits) awaited.now passed.new) }
    ensures quiet { OnOk result (D.faults draft.new ≡ D.faults draft.old) }
    ensures outage { OnErr result (Rose (D.faults draft.old) (D.faults draft.new)) }
    ensures once { OnErr result (D.faults draft.new ≡ counted (D.faults draft.old)) }
    ensures path { D.path draft.new ≡ D.path draft.old }
{
    match layout {
        Layout::Hz => put_block(
            header, file, field, block, awaited, passed, turn, buffer, draft,
        ),
        Layout::Rows => put_in_rows(
            header, file, field, block, awaited, passed, turn, rows, buffer, draft,
        ),
    }
}

/// Of no piece a run is passed.
pub(crate) fn reset(passed: &mut [usize])
    ensures { passed.new ≡ replicate (length passed.old) 0 }
{
    passed.fill(0);
}

/// How many samples a block of a field has.
pub(crate) fn block_samples(header: &Header) -> u64
    ensures value { result ≡ 2 ^ header.now.block_bits }
    ensures few { result ≤ 2 ^ 20 }
    ensures some { 1 ≤ result }
{
    1 << header.bits_per_block()
}

/// The same in hierarchical order.
fn put_block<D: Draft>(
    header: &Header,
    file: u64,
    field: u32,
    block: u64,
    awaited: &[Awaited],
    passed: &mut [usize],
    turn: &mut usize,
    buffer: &mut Vec<u8>,
    draft: &mut D,
) -> Result<(), Outage>
    requires writable { AreWritable header.now file awaited.now }
    requires field { field < length header.now.fields }
    requires exists { block < block_count header.now }
    requires passed { ArePassed header.now field (block * 2 ^ header.now.block_bits) awaited.now passed.old }
    ensures written { OnOk result (appended (D.contents draft.new) buffer.new.items ≡
        appended (appended (D.contents draft.old) buffer.old.items)
        (block_among header.now (runs_in awaited.now) field block)) }
    ensures passed { OnOk result
        (ArePassed header.now field ((block + 1) * 2 ^ header.now.block_bits) awaited.now passed.new) }
    ensures quiet { OnOk result (D.faults draft.new ≡ D.faults draft.old) }
    ensures outage { OnErr result (Rose (D.faults draft.old) (D.faults draft.new)) }
    ensures once { OnErr result (D.faults draft.new ≡ counted (D.faults draft.old)) }
    ensures path { D.path draft.new ≡ D.path draft.old }
{
    let samples = block_samples(header);
    let mut from = block * samples;
    let end = from + samples;
    while from < end {
        from = put_some(
            header, file, field, from, end, awaited, passed, turn, buffer, draft,
        )?;
    }
    Ok(())
}

/// Writes some samples of a field, from an address on and before an end, behind what the draft and the buffer have so
/// far: those up to the end of a run, or up to the next one. The answer is the address behind them.
pub(crate) fn put_some<D: Draft>(
    header: &Header,
    file: u64,
    field: u32,
    from: u64,
    end: u64,
    awaited: &[Awaited],
    passed: &mut [usize],
    turn: &mut usize,
    buffer: &mut Vec<u8>,
    draft: &mut D,
) -> Result<u64, Outage>
    requires writable { AreWritable header.now file awaited.now }
    requires field { field < length header.now.fields }
    requires from { from < end }
    requires end { end ≤ 2 ^ 50 }
    requires passed { ArePassed header.now field from awaited.now passed.old }
    ensures further { IfOk result (λ to. from < to) }
    ensures within { IfOk result (λ to. to ≤ end) }
    ensures written { IfOk result (λ to. appended (D.contents draft.new) buffer.new.items ≡
        appended (appended (D.contents draft.old) buffer.old.items)
        (flat_map (sample_among header.now (runs_in awaited.now) field) (range_with_len from (to - from)))) }
    ensures passed { ArePassed header.now field from awaited.now passed.new }
    ensures quiet { OnOk result (D.faults draft.new ≡ D.faults draft.old) }
    ensures outage { OnErr result (Rose (D.faults draft.old) (D.faults draft.new)) }
    ensures once { OnErr result (D.faults draft.new ≡ counted (D.faults draft.old)) }
    ensures path { D.path draft.new ≡ D.path draft.old }
{
    let Some(run) = next_run(header, file, field, from, awaited, passed, turn) else {
        return put_gap(header, field, from, end, buffer, draft);
    };
    if run.first > from {
        return put_gap(header, field, from, end.min(run.first), buffer, draft);
    }
    put_run(header, file, run, from, end, buffer, draft)
}

/// Writes a run's samples from an address on, up to its end but not past another, behind what the draft and the buffer
/// have so far.
fn put_run<D: Draft>(
    header: &Header,
    file: u64,
    run: &Run,
    from: u64,
    end: u64,
    buffer: &mut Vec<u8>,
    draft: &mut D,
) -> Result<u64, Outage>
    requires valid { IsHeader header.now }
    requires exists { file < block_count header.now }
    requires run { IsRun header.now file run.now }
    requires begun { run.now.first ≤ from }
    requires left { from < end_of header.now run.now }
    requires from { from < end }
    ensures to { IfOk result (λ to. to ≡ min (end_of header.now run.now) end) }
    ensures written { IfOk result (λ to. appended (D.contents draft.new) buffer.new.items ≡
        appended (appended (D.contents draft.old) buffer.old.items)
        (slice_range run.now.bytes (sample_bytes_of header.now run.now.field * (from - run.now.first))
        (sample_bytes_of header.now run.now.field * (to - run.now.first)))) }
    ensures quiet { OnOk result (D.faults draft.new ≡ D.faults draft.old) }
    ensures outage { OnErr result (Rose (D.faults draft.old) (D.faults draft.new)) }
    ensures once { OnErr result (D.faults draft.new ≡ counted (D.faults draft.old)) }
    ensures path { D.path draft.new ≡ D.path draft.old }
{
    let size = header.sample_bytes(run.field);
    let to = end_of(header, file, run).min(end);
    let first = (size * (from - run.first)) as usize;
    let behind = (size * (to - run.first)) as usize;
    put(&run.bytes.as_slice()[first..behind], buffer, draft)?;
    Ok(to)
}

/// Writes zeros for the samples of a field from an address on and before another.
fn put_gap<D: Draft>(
    header: &Header,
    field: u32,
    from: u64,
    to: u64,
    buffer: &mut Vec<u8>,
    draft: &mut D,
) -> Result<u64, Outage>
    requires field { field < length header.now.fields }
    requires from { from ≤ to }
    requires few { to ≤ 2 ^ 50 }
    ensures to { IfOk result (λ at. at ≡ to) }
    ensures written { OnOk result (appended (D.contents draft.new) buffer.new.items ≡
        appended (appended (D.contents draft.old) buffer.old.items)
        (replicate (sample_bytes_of header.now field * (to - from)) 0)) }
    ensures quiet { OnOk result (D.faults draft.new ≡ D.faults draft.old) }
    ensures outage { OnErr result (Rose (D.faults draft.old) (D.faults draft.new)) }
    ensures once { OnErr result (D.faults draft.new ≡ counted (D.faults draft.old)) }
    ensures path { D.path draft.new ≡ D.path draft.old }
{
    put_zeros(header.sample_bytes(field) * (to - from), buffer, draft)?;
    Ok(to)
}
