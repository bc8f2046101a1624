//! Bytes that are gathered in a buffer before a draft takes them.
ghost use Rattle.std.specs.Prelude.{◌≡◌, ◌+◌, ◌*◌, ◌^◌, ◌<◌, ◌≤◌, [], ◌++◌, OnErr, OnOk, length, replicate, vec_capacity, vec_len};
ghost use Rattle.std.specs.List.{flat_map};
ghost use Rattle.idx_outside.specs.Cause.{Rose, counted};
ghost use Rattle.idx_outside.specs.Contents.{appended};
ghost use Rattle.idx_header.specs.Header.{block_count};
ghost use Rattle.idx_layout.specs.Files.{rows_of_file};
ghost use Rattle.idx_layout.specs.OfHeader.{placing_of};
ghost use Rattle.idx_table.specs.Row.{row_bytes};

use idx_header::Header;
use idx_layout::file_rows;
use idx_outside::{Draft, Outage};
use idx_rowmajor::Layout;
use idx_table::{ROW_BYTES, Row, write_row};

/// So many bytes are written as they are.
const LARGE: usize = 1 << 16;

/// So many zeros are written in one call.
const ZEROS: usize = 1 << 10;

/// Writes bytes behind what the draft and the buffer have so far: where they are few and the buffer can hold them, they
/// are gathered there.
pub(crate) fn put<D: Draft>(bytes: &[u8], buffer: &mut Vec<u8>, draft: &mut D) -> Result<(), Outage>
    ensures written { OnOk result (appended (D.contents draft.new) buffer.new.items ≡
        appended (appended (D.contents draft.old) buffer.old.items) bytes.now) }
    ensures quiet { OnOk result (D.faults draft.new ≡ D.faults draft.old) }
    ensures outage { OnErr result (Rose (D.faults draft.old) (D.faults draft.new)) }
    ensures once { OnErr result (D.faults draft.new ≡ counted (D.faults draft.old)) }
    ensures path { D.path draft.new ≡ D.path draft.old }
{
    if bytes.len() >= LARGE || bytes.len() > buffer.capacity() {
        put_many(bytes, buffer, draft)
    } else {
        put_few(bytes, buffer, draft)
    }
}

/// The same of bytes that the buffer can hold, which are gathered: where they do not fit what is left of it, it is
/// written first.
fn put_few<D: Draft>(bytes: &[u8], buffer: &mut Vec<u8>, draft: &mut D) -> Result<(), Outage>
    requires few { length bytes.now ≤ vec_capacity buffer.old }
    ensures written { OnOk result (appended (D.contents draft.new) buffer.new.items ≡
        appended (appended (D.contents draft.old) buffer.old.items) bytes.now) }
    ensures quiet { OnOk result (D.faults draft.new ≡ D.faults draft.old) }
    ensures outage { OnErr result (Rose (D.faults draft.old) (D.faults draft.new)) }
    ensures once { OnErr result (D.faults draft.new ≡ counted (D.faults draft.old)) }
    ensures path { D.path draft.new ≡ D.path draft.old }
{
    if bytes.len() > buffer.capacity() - buffer.len() {
        flush(buffer, draft)?;
    }
    gather(bytes, buffer);
    Ok(())
}

/// The same of many bytes, which are written as they are.
fn put_many<D: Draft>(bytes: &[u8], buffer: &mut Vec<u8>, draft: &mut D) -> Result<(), Outage>
    ensures written { OnOk result (appended (D.contents draft.new) buffer.new.items ≡
        appended (appended (D.contents draft.old) buffer.old.items) bytes.now) }
    ensures quiet { OnOk result (D.faults draft.new ≡ D.faults draft.old) }
    ensures outage { OnErr result (Rose (D.faults draft.old) (D.faults draft.new)) }
    ensures once { OnErr result (D.faults draft.new ≡ counted (D.faults draft.old)) }
    ensures path { D.path draft.new ≡ D.path draft.old }
{
    flush(buffer, draft)?;
    draft.append(bytes)
}

/// Writes what the buffer has.
pub(crate) fn flush<D: Draft>(buffer: &mut Vec<u8>, draft: &mut D) -> Result<(), Outage>
    ensures written { OnOk result (D.contents draft.new ≡ appended (D.contents draft.old) buffer.old.items) }
    ensures empty { OnOk result (vec_len buffer.new ≡ 0) }
    ensures nothing { OnOk result (buffer.new.items ≡ []) }
    ensures room { vec_capacity buffer.old ≤ vec_capacity buffer.new }
    ensures quiet { OnOk result (D.faults draft.new ≡ D.faults draft.old) }
    ensures outage { OnErr result (Rose (D.faults draft.old) (D.faults draft.new)) }
    ensures once { OnErr result (D.faults draft.new ≡ counted (D.faults draft.old)) }
    ensures path { D.path draft.new ≡ D.path draft.old }
{
    draft.append(buffer)?;
    buffer.clear();
    Ok(())
}

/// Appends bytes for which the buffer has room.
pub(crate) fn gather(bytes: &[u8], buffer: &mut Vec<u8>)
    requires { vec_len buffer.old + length bytes.now ≤ vec_capacity buffer.old }
    ensures items { buffer.new.items ≡ buffer.old.items ++ bytes.now }
    ensures len { vec_len buffer.new ≡ vec_len buffer.old + length bytes.now }
    ensures room { vec_capacity buffer.old ≤ vec_capacity buffer.new }
{
    let Ok(()) = buffer.extend_from_slice(bytes) else {
        unreachable!()
    };
}

/// Appends so many zeros for which the buffer has room.
pub(crate) fn gather_zeros(count: usize, buffer: &mut Vec<u8>)
    requires { vec_len buffer.old + count ≤ vec_capacity buffer.old }
    ensures items { buffer.new.items ≡ buffer.old.items ++ replicate count 0 }
    ensures len { vec_len buffer.new ≡ vec_len buffer.old + count }
    ensures room { vec_capacity buffer.old ≤ vec_capacity buffer.new }
{
    let Ok(()) = buffer.resize(buffer.len() + count, 0) else {
        unreachable!()
    };
}

/// Writes so many zeros behind what the draft and the buffer have so far.
pub(crate) fn put_zeros<D: Draft>(
    count: u64,
    buffer: &mut Vec<u8>,
    draft: &mut D,
) -> Result<(), Outage>
    ensures written { OnOk result (appended (D.contents draft.new) buffer.new.items ≡
        appended (appended (D.contents draft.old) buffer.old.items) (replicate count 0)) }
    ensures quiet { OnOk result (D.faults draft.new ≡ D.faults draft.old) }
    ensures outage { OnErr result (Rose (D.faults draft.old) (D.faults draft.new)) }
    ensures once { OnErr result (D.faults draft.new ≡ counted (D.faults draft.old)) }
    ensures path { D.path draft.new ≡ D.path draft.old }
{
    put_copies(&[0; ZEROS], count, buffer, draft)
}

/// The same, out of some zeros.
fn put_copies<D: Draft>(
    zeros: &[u8],
    count: u64,
    buffer: &mut Vec<u8>,
    draft: &mut D,
) -> Result<(), Outage>
    requires zeros { zeros.now ≡ replicate (length zeros.now) 0 }
    requires some { 0 < length zeros.now }
    ensures written { OnOk result (appended (D.contents draft.new) buffer.new.items ≡
        appended (appended (D.contents draft.old) buffer.old.items) (replicate count 0)) }
    ensures quiet { OnOk result (D.faults draft.new ≡ D.faults draft.old) }
    ensures outage { OnErr result (Rose (D.faults draft.old) (D.faults draft.new)) }
    ensures once { OnErr result (D.faults draft.new ≡ counted (D.faults draft.old)) }
    ensures path { D.path draft.new ≡ D.path draft.old }
{
    let mut left = count;
    while left > 0 {
        let some = left.min(zeros.len() as u64);
        put(&zeros[..some as usize], buffer, draft)?;
        left -= some;
    }
    Ok(())
}

/// Writes the table of a file, whose blocks stand in a layout, behind what the draft and the buffer have so far: forty
/// bytes of 0, and for each field a row for each of its block places.
pub(crate) fn put_table<D: Draft>(
    header: &Header,
    layout: Layout,
    file: u64,
    buffer: &mut Vec<u8>,
    draft: &mut D,
) -> Result<(), Outage>
    requires exists { file < block_count header.now }
    ensures written { OnOk result (appended (D.contents draft.new) buffer.new.items ≡
        appended (appended (D.contents draft.old) buffer.old.items)
        (replicate 40 0 ++ flat_map row_bytes (rows_of_file layout (placing_of header.now) file))) }
    ensures quiet { OnOk result (D.faults draft.new ≡ D.faults draft.old) }
    ensures outage { OnErr result (Rose (D.faults draft.old) (D.faults draft.new)) }
    ensures once { OnErr result (D.faults draft.new ≡ counted (D.faults draft.old)) }
    ensures path { D.path draft.new ≡ D.path draft.old }
{
    put(&[0; ROW_BYTES], buffer, draft)?;
    for row in file_rows(header, layout, file) {
        put_row(&row, buffer, draft)?;
    }
    Ok(())
}

/// Writes the bytes of a row behind what the draft and the buffer have so far.
fn put_row<D: Draft>(row: &Row, buffer: &mut Vec<u8>, draft: &mut D) -> Result<(), Outage>
    ensures written { OnOk result (appended (D.contents draft.new) buffer.new.items ≡
        appended (appended (D.contents draft.old) buffer.old.items) (row_bytes row.now)) }
    ensures quiet { OnOk result (D.faults draft.new ≡ D.faults draft.old) }
    ensures outage { OnErr result (Rose (D.faults draft.old) (D.faults draft.new)) }
    ensures once { OnErr result (D.faults draft.new ≡ counted (D.faults draft.old)) }
    ensures path { D.path draft.new ≡ D.path draft.old }
{
    let mut bytes = [0; ROW_BYTES];
    write_row(row, &mut bytes);
    put(&bytes, buffer, draft)
}
