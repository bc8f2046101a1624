//! Runs by two threads that wait for each other.
use crate::meeting::{Meeting, Signs};
use crate::setting::{Forms, HEADER, RAW, bay_of_step, cause_of, empty_bay, holds_step};
use crate::waiting_link::OneLink;
use crate::waiting_reader::WaitingReader;
use crate::waiting_source::WaitingSource;
use idx_commands::Cause;
use idx_memory::MemReader;
use std::alloc::{AllocError, Global};
use std::sync::Wait;
use std::test::Fail;
use std::thread::Threads;

/// The words that ask for the step 0 of the raw volume by two ranks.
const CONVERT: &str =
    "convert|v.idx|r.raw|0 3 0 3|a uint8|V0101|2|2|./%01x.bin|0 9 time%04d/|0|--ranks|2";

/// The words that serve it by two workers.
const SERVE: &str = "serve|v.idx|a|--workers|2";

/// A head that asks for all of the step 0.
const WHOLE: &[u8] = b"GET /mod_visus?action=boxquery&dataset=v&box=0+3+0+3 HTTP/1.1\r\n\r\n";

/// What `convert` goes over out of two raw volumes that meet so.
fn converting<'a>(
    alloc: Global,
    signs: &'a Signs,
    (first, second): (Meeting<'a>, Meeting<'a>),
) -> Result<Forms<'a>, AllocError> {
    let mut forms = Forms::new(alloc, empty_bay(alloc), signs)?;
    forms.raws.push(WaitingSource::new(&RAW, first))?;
    forms.raws.push(WaitingSource::new(&RAW, second))?;
    forms.doors.push(OneLink::new(b"", signs.of_none()))?;
    Ok(forms)
}

#[test]
fn ranks_read_beside_each_other(rt: HostRuntime) -> Result<(), Fail> {
    for first_waits in [true, false] {
        let signs = Signs::new();
        let meetings = (signs.of_first(first_waits), signs.of_second(!first_waits));
        let mut forms = converting(rt.alloc(), &signs, meetings)?;
        assert!(rt; cause_of(&rt, rt.alloc(), CONVERT, &mut forms)? == Some(Cause::Done));
        assert!(rt; holds_step(&forms.bay));
        assert!(rt; !signs.met_limit());
    }
    Ok(())
}

/// What `serve` goes over at two doors with a link each, which meet so, and by a second reader that meets so.
fn serving<'a>(
    alloc: Global,
    signs: &'a Signs,
    (first, second): (Meeting<'a>, Meeting<'a>),
    reading: Meeting<'a>,
) -> Result<Forms<'a>, Fail> {
    let mut forms = Forms::new(alloc, bay_of_step(alloc, HEADER, 0)?, signs)?;
    forms.raws.push(WaitingSource::new(b"", signs.of_none()))?;
    forms.doors.push(OneLink::new(WHOLE, first))?;
    forms.doors.push(OneLink::new(WHOLE, second))?;
    forms.readers.push(WaitingReader::new(MemReader::new(Vec::new(alloc)), reading))?;
    Ok(forms)
}

/// Whether `serve` by two workers ends well, one head is answered at each door, and it writes that.
fn are_answered<T: Threads + Wait + Sync>(
    rt: &T,
    alloc: Global,
    forms: &mut Forms<'_>,
) -> Result<bool, AllocError> {
    let cause = cause_of(rt, alloc, SERVE, forms)?;
    Ok(
        cause == Some(Cause::Done)
            && forms.out.written().as_slice() == b"links 2 replies 2\n".as_slice()
            && forms.doors.iter().all(|door| door.replies() == 1),
    )
}

/// How many reads all readers made.
fn reads(forms: &Forms<'_>) -> u64 {
    forms
        .readers
        .iter()
        .map(WaitingReader::reads)
        .fold(0u64, u64::saturating_add)
}

#[test]
fn workers_serve_beside_each_other_out_of_one_cache(rt: HostRuntime) -> Result<(), Fail> {
    for first_waits in [true, false] {
        let signs = Signs::new();
        let meetings = (signs.of_first(first_waits), signs.of_second(!first_waits));
        let mut forms = serving(rt.alloc(), &signs, meetings, signs.of_none())?;
        assert!(rt; are_answered(&rt, rt.alloc(), &mut forms)?);
        assert!(rt; reads(&forms) == 6, "two tables and four blocks");
        assert!(rt; !signs.met_limit());
    }
    Ok(())
}

/// The second worker's reader waits in its first read until the first worker has answered, whose link waits until that read has
/// begun.
#[test]
fn nothing_is_read_under_a_hold(rt: HostRuntime) -> Result<(), Fail> {
    let signs = Signs::new();
    let meetings = (signs.of_first(true), signs.of_none());
    let mut forms = serving(rt.alloc(), &signs, meetings, signs.of_second(true))?;
    assert!(rt; are_answered(&rt, rt.alloc(), &mut forms)?);
    assert!(rt; !signs.met_limit());
    Ok(())
}
