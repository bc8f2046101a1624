//! Ranges of files that have changed, or are gone, since they were opened.
ghost use Rattle.std.specs.Prelude.{OnOk};
ghost use Rattle.std.specs.Io.Cursor.{cursor_inner};
ghost use Rattle.idx_real.specs.Placed.{StandsAt};

use super::*;
use std::io::Cursor;

/// Bytes in memory, of which the contract of files of the system says all.
fn read_in_memory(cursor: &mut Cursor<&[u8]>, at: u64, into: &mut [u8]) -> Result<(), Reason>
    ensures { OnOk result (StandsAt (cursor_inner cursor.old).now at into.new) }
{
    read_range(cursor, at, into)
}

#[test]
fn bytes_in_memory_are_read_by_places(rt: HostRuntime) {
    let mut cursor = Cursor::new([1u8, 2, 3].as_slice());
    let mut into = [0u8; 2];
    assert!(rt; read_in_memory(&mut cursor, 1, &mut into).is_ok());
    assert!(rt; into == [2, 3]);
}

fn source(rt: &HostRuntime, path: &str) -> Result<FileSource<HostRuntime>, NoMemory> {
    let path = String::from_str(rt.alloc(), path)?;
    Ok(FileSource::new(rt.clone()?, path))
}

/// Three bytes of a file from a place on; none where the call failed.
fn three_bytes(file: &mut FileSource<HostRuntime>, at: u64) -> Option<[u8; 3]> {
    let mut into = [0u8; 3];
    file.read_at(at, &mut into).ok().map(|()| into)
}

fn reaches(file: &mut FileSource<HostRuntime>, at: u64) -> bool {
    file.read_at(at, &mut []).is_ok()
}

/// Places in a file of five bytes, with three bytes from there on.
static RANGES: [(u64, Option<[u8; 3]>); 4] = [
    (2, Some([3, 4, 5])),
    (0, Some([1, 2, 3])),
    (3, None),
    (u64::MAX, None),
];

#[test]
fn an_open_file_is_read_up_to_its_end_also_where_its_path_is_gone(
    rt: HostRuntime,
) -> Result<(), Fail> {
    fs::write(&rt, "short.raw", [1u8, 2, 3, 4, 5].as_slice())?;
    let mut file = source(&rt, "short.raw")?;
    assert!(rt; file.len().ok() == Some(5));
    fs::remove_file(&rt, "short.raw")?;
    for &(at, want) in &RANGES {
        assert!(rt; three_bytes(&mut file, at) == want);
    }
    assert!(rt; reaches(&mut file, 5) && !reaches(&mut file, 6));
    Ok(())
}

#[test]
fn a_file_that_has_shrunk_is_a_fault(rt: HostRuntime) -> Result<(), Fail> {
    fs::write(&rt, "shrunk.raw", [1u8, 2, 3].as_slice())?;
    let mut file = source(&rt, "shrunk.raw")?;
    assert!(rt; three_bytes(&mut file, 0).is_some());
    fs::write(&rt, "shrunk.raw", [9u8].as_slice())?;
    assert!(rt; three_bytes(&mut file, 0).is_none());
    fs::remove_file(&rt, "shrunk.raw")?;
    let want = "shrunk.raw: the range that was asked for passes the end of the file";
    assert!(rt; is_text(rt.alloc(), file.last_fault(), want));
    Ok(())
}

/// Two bytes of the finished file at this path; none where the call failed.
fn two_bytes(
    alloc: Global,
    reader: &mut FileReader<HostRuntime>,
    path: &str,
    at: u64,
) -> Option<[u8; 2]> {
    let mut into = [0u8; 2];
    let leaf = FileLeaf::new(String::from_str(alloc, path).ok()?, 2);
    reader.read_at(&leaf, at, &mut into).ok().map(|()| into)
}

/// Places of two files and of one that is not there, in the order of their reads, with two bytes from there on.
static PLACES: [(&str, u64, Option<[u8; 2]>); 6] = [
    ("one.raw", 1, Some([2, 3])),
    ("two.raw", 1, Some([5, 6])),
    ("two.raw", 0, Some([4, 5])),
    ("not.raw", 0, None),
    ("one.raw", 0, Some([1, 2])),
    ("one.raw", 2, None),
];

#[test]
fn finished_files_are_read_by_places(rt: HostRuntime) -> Result<(), Fail> {
    fs::write(&rt, "one.raw", [1u8, 2, 3].as_slice())?;
    fs::write(&rt, "two.raw", [4u8, 5, 6].as_slice())?;
    let mut reader = FileReader::new(rt.clone()?, rt.alloc());
    for &(path, at, want) in &PLACES {
        assert!(rt; two_bytes(rt.alloc(), &mut reader, path, at) == want);
    }
    fs::remove_file(&rt, "one.raw")?;
    fs::remove_file(&rt, "two.raw")?;
    let want = "one.raw: the range that was asked for passes the end of the file";
    assert!(rt; is_text(rt.alloc(), reader.last_fault(), want));
    Ok(())
}
