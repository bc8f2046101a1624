//! A block in hierarchical order, as the delivered runs give it, in memory that has room for it.
ghost use Rattle.std.specs.Prelude.{◌≡◌, ◌+◌, ◌-◌, ◌*◌, ◌^◌, ◌<◌, ◌≤◌, ◌++◌, length, min, replicate, slice_range, vec_capacity, vec_len};
ghost use Rattle.std.specs.List.{flat_map, range_with_len};
ghost use Rattle.idx_header.specs.Header.{IsHeader, block_bytes, block_count, sample_bytes_of};
ghost use Rattle.idx_pieces.specs.Runs.{IsRun};
ghost use Rattle.idx_dock.specs.Content.{block_among, runs_in, sample_among};
ghost use Rattle.idx_dock.specs.Next.{ArePassed, AreWritable, end_of};

use crate::Awaited;
use crate::content::block_samples;
use crate::gathered::{gather, gather_zeros};
use crate::next::{end_of, next_run};
use idx_header::Header;
use idx_pieces::Run;

/// Puts a block of a field in the place of what `bytes` holds, which can hold it. Of each piece so many runs are known to
/// end before the block. `turn` is the piece whose run is probably the next one.
pub(crate) fn fill_block(
    header: &Header,
    file: u64,
    field: u32,
    block: u64,
    awaited: &[Awaited],
    passed: &mut [usize],
    turn: &mut usize,
    bytes: &mut Vec<u8>,
)
    requires writable { AreWritable header.now file awaited.now }
    requires field { field < length header.now.fields }
    requires exists { block < block_count header.now }
    requires passed { ArePassed header.now field (block * 2 ^ header.now.block_bits) awaited.now passed.old }
    requires room { block_bytes header.now field ≤ vec_capacity bytes.old }
    ensures filled { bytes.new.items ≡ block_among header.now (runs_in awaited.now) field block }
    ensures len { vec_len bytes.new ≡ block_bytes header.now field }
    ensures passed { ArePassed header.now field ((block + 1) * 2 ^ header.now.block_bits) awaited.now passed.new }
{
    bytes.clear();
    let samples = block_samples(header);
    let mut from = block * samples;
    let end = from + samples;
    while from < end {
        from = fill_some(header, file, field, from, end, awaited, passed, turn, bytes);
    }
}

/// Appends some samples of a field, from an address on and before an end, up to which there is room: those up to the end
/// of a run, or up to the next one. The answer is the address behind them.
fn fill_some(
    header: &Header,
    file: u64,
    field: u32,
    from: u64,
    end: u64,
    awaited: &[Awaited],
    passed: &mut [usize],
    turn: &mut usize,
    bytes: &mut Vec<u8>,
) -> u64
    requires writable { AreWritable header.now file awaited.now }
    requires field { field < length header.now.fields }
    requires from { from < end }
    requires end { end ≤ 2 ^ 50 }
    requires passed { ArePassed header.now field from awaited.now passed.old }
    requires room { vec_len bytes.old + sample_bytes_of header.now field * (end - from) ≤ vec_capacity bytes.old }
    ensures further { from < result }
    ensures within { result ≤ end }
    ensures filled { bytes.new.items ≡ bytes.old.items
        ++ flat_map (sample_among header.now (runs_in awaited.now) field) (range_with_len from (result - from)) }
    ensures len { vec_len bytes.new ≡ vec_len bytes.old + sample_bytes_of header.now field * (result - from) }
    ensures room { vec_capacity bytes.old ≤ vec_capacity bytes.new }
    ensures passed { ArePassed header.now field from awaited.now passed.new }
{
    let Some(run) = next_run(header, file, field, from, awaited, passed, turn) else {
        return fill_gap(header, field, from, end, bytes);
    };
    if run.first > from {
        return fill_gap(header, field, from, end.min(run.first), bytes);
    }
    fill_run(header, file, run, from, end, bytes)
}

/// Appends a run's samples from an address on, up to its end but not past another, up to which there is room.
fn fill_run(header: &Header, file: u64, run: &Run, from: u64, end: u64, bytes: &mut Vec<u8>) -> u64
    requires valid { IsHeader header.now }
    requires exists { file < block_count header.now }
    requires run { IsRun header.now file run.now }
    requires begun { run.now.first ≤ from }
    requires left { from < end_of header.now run.now }
    requires from { from < end }
    requires room { vec_len bytes.old + sample_bytes_of header.now run.now.field * (end - from) ≤
        vec_capacity bytes.old }
    ensures to { result ≡ min (end_of header.now run.now) end }
    ensures filled { bytes.new.items ≡ bytes.old.items
        ++ slice_range run.now.bytes (sample_bytes_of header.now run.now.field * (from - run.now.first))
        (sample_bytes_of header.now run.now.field * (result - run.now.first)) }
    ensures len { vec_len bytes.new ≡ vec_len bytes.old + sample_bytes_of header.now run.now.field * (result - from) }
    ensures room { vec_capacity bytes.old ≤ vec_capacity bytes.new }
{
    let size = header.sample_bytes(run.field);
    let to = end_of(header, file, run).min(end);
    let first = (size * (from - run.first)) as usize;
    let behind = (size * (to - run.first)) as usize;
    gather(&run.bytes.as_slice()[first..behind], bytes);
    to
}

/// Appends zeros for the samples of a field from an address on and before another.
fn fill_gap(header: &Header, field: u32, from: u64, to: u64, bytes: &mut Vec<u8>) -> u64
    requires field { field < length header.now.fields }
    requires from { from ≤ to }
    requires few { to ≤ 2 ^ 50 }
    requires room { vec_len bytes.old + sample_bytes_of header.now field * (to - from) ≤ vec_capacity bytes.old }
    ensures to { result ≡ to }
    ensures filled { bytes.new.items ≡ bytes.old.items
        ++ replicate (sample_bytes_of header.now field * (to - from)) 0 }
    ensures len { vec_len bytes.new ≡ vec_len bytes.old + sample_bytes_of header.now field * (to - from) }
    ensures room { vec_capacity bytes.old ≤ vec_capacity bytes.new }
{
    let count = header.sample_bytes(field) * (to - from);
    gather_zeros(count as usize, bytes);
    to
}
