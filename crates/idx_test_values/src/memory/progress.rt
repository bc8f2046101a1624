//! A bay and a reader in memory that tell a line how much of a step is written or read.
ghost use Rattle.std.specs.Prelude.{◌≡◌, [], IfOk};

use super::{bytes_of, file_front, one_file, save};
use idx_memory::{MemBay, MemReader};
use idx_outside::{Bay, BayFault, Bytes, NoMemory};
use idx_progress::{Line, Progress, Tally, WatchedBay, WatchedReader, write_progress};
use std::alloc::{AllocError, Global};
use std::test::Fail;

/// The header of a dataset of two files a step, each with a table of 120 bytes and two blocks of 4 bytes.
const TWO_FILES: &[u8] =
    b"(version)\n6\n(box)\n0 3 0 3\n(fields)\na uint8\n(bits)\nV0101\n(bitsperblock)\n2\n\
    (blocksperfile)\n2\n(filename_template)\n./%01x.bin\n(time)\n0 9 time%04d/\n";

/// A bay without a header and without files, whose first draft fails at this call.
fn empty_bay(alloc: Global, draft_fails: u64) -> Result<MemBay, Fail>
    ensures { IfOk result (λ bay. bay.files ≡ []) }
{
    let drafts = vec![in alloc; vec![in alloc; draft_fails]?]?;
    Ok(MemBay::new(Bytes::new(alloc), Vec::new(alloc), Vec::new(alloc), drafts))
}

/// What is told of a step of one file of two bytes that is saved, and how that ended. This call of its draft fails.
fn told(
    rt: &HostRuntime,
    text: &[u8],
    fails: u64,
) -> Result<(Progress, Result<(), BayFault>), Fail> {
    let alloc = rt.alloc();
    let line = Line::begin(alloc, *rt, rt.stderr()).ok_or(NoMemory)?;
    let mut bay = WatchedBay::new(alloc, empty_bay(alloc, fails)?, line.share(), None);
    let result = save(alloc, &mut bay, text, &[116, 47, 48], &[1, 2]);
    Ok((line.progress(), result))
}

/// So much of two files, of 256 bytes in all.
fn of_two_files(sealed: u64, written: u64) -> Progress {
    Progress {
        files: 2,
        bytes: 256,
        sealed,
        written,
    }
}

#[test]
fn a_watched_bay_tells_what_is_written(rt: HostRuntime) -> Result<(), Fail> {
    let failed = Err(BayFault::Outage);
    let unknown = Progress {
        files: 0,
        bytes: 0,
        ..of_two_files(1, 2)
    };
    for (text, fails, want) in [
        (TWO_FILES, 9, (of_two_files(1, 2), Ok(()))),
        (TWO_FILES, 1, (of_two_files(0, 0), failed)),
        (TWO_FILES, 2, (of_two_files(0, 2), failed)),
        (b"text", 9, (unknown, Ok(()))),
    ] {
        assert!(rt; told(&rt, text, fails)? == want);
    }
    Ok(())
}

/// What is told of the two bytes of a file that is looked for and read, and whether they were. This read fails.
fn told_of_reading(rt: &HostRuntime, fails: u64) -> Result<(Progress, bool), Fail> {
    let alloc = rt.alloc();
    let line = Line::begin(alloc, *rt, rt.stderr()).ok_or(NoMemory)?;
    let text = bytes_of(alloc, TWO_FILES)?;
    let files = MemBay::new(text, one_file(alloc)?, Vec::new(alloc), Vec::new(alloc));
    let mut bay = WatchedBay::new(alloc, files, line.share(), None);
    let mut reader = WatchedReader::new(MemReader::new(vec![in alloc; fails]?), line.share());
    let mut into = Bytes::new(alloc);
    bay.header(&mut into)?;
    let read = file_front(&mut bay, &mut reader, &[116, 47, 48]).is_ok();
    Ok((line.progress(), read))
}

#[test]
fn a_watched_reader_tells_what_is_read(rt: HostRuntime) -> Result<(), Fail> {
    assert!(rt; told_of_reading(&rt, 2)? == (of_two_files(1, 2), true));
    assert!(rt; told_of_reading(&rt, 1)? == (of_two_files(1, 0), false));
    Ok(())
}

#[test]
fn a_line_is_due_ten_times_a_second(rt: HostRuntime) {
    let tally = Tally::new();
    for (millis, want) in [
        (99, false),
        (100, true),
        (199, false),
        (350, true),
        (351, false),
    ] {
        assert!(rt; tally.is_due(millis) == want);
    }
}

/// The line that says so, after half a second.
fn line_of(alloc: Global, progress: Progress) -> Result<Bytes, AllocError> {
    let mut line = Vec::new(alloc);
    let _ = write_progress(&mut line, progress, 500);
    Ok(Bytes::from_vec(line))
}

#[test]
fn a_line_says_how_far_a_conversion_is(rt: HostRuntime) -> Result<(), Fail> {
    let known = Progress {
        files: 8,
        bytes: 512 << 20,
        sealed: 3,
        written: 192 << 20,
    };
    let unknown = Progress { files: 0, ..known };
    let want = b"\r  3 of 8 files, 192 of 512 MiB, 384 MiB/s\x1b[K";
    assert!(rt; line_of(rt.alloc(), known)?.as_slice() == want.as_slice());
    let want = b"\r  3 files, 192 MiB, 384 MiB/s\x1b[K";
    assert!(rt; line_of(rt.alloc(), unknown)?.as_slice() == want.as_slice());
    Ok(())
}
