//! The objects of the outside that a run uses: files, standard output and sockets, as the words name them.
ghost use Rattle.std.specs.Prelude.{◌≡◌, ◌<◌, IfOk, map, string_bytes, vec_len};
ghost use Rattle.idx_words.specs.declared.command.Command.{Command};
ghost use Rattle.idx_words.specs.ConvertValue.{ConvertValue};
ghost use Rattle.idx_words.specs.ServeValue.{ServeValue};
ghost use Rattle.idx_words.specs.Words.{Give};

use crate::announced_door::AnnouncedDoor;
use crate::server_notes::{StdNotes, server_notes, shared_notes};
use crate::work_line::StdLine;
use idx_commands::Cause;
use idx_outside::{Bay, Bytes};
use idx_progress::{NotingDoor, NotingReader, WatchedReader};
use idx_real::{
    Fault, FileReader, FileSource, FolderBay, Patience, SharedListener, Sockets, StdSink, TcpDoor,
};
use idx_report::{
    Notice, WrongFile, dataset_path, door_address, links_of, look_again, ranks_of, raw_path,
    share_of, workers_of,
};
use std::alloc::AllocError;
use std::io::{Stderr, Stdout};
use std::sync::Arc;

/// A door at the address that the words name, which says on standard error where it listens, and why it stops.
pub type StdDoor<R> = AnnouncedDoor<R, FolderBay<HostRuntime>, Stderr>;

/// A reader of a dataset's files, which tells a line on standard error where there is one, and says in a server's notes what
/// it cannot read.
pub type StdReader = WatchedReader<NotingReader<HostRuntime, Stderr>, HostRuntime, Stderr>;

/// The raw volume that the words name, once for each rank that they say, so that each has a place of its own in the file;
/// or one without a path.
pub fn raw_files(
    rt: &HostRuntime,
    words: &[String],
) -> Result<Vec<FileSource<HostRuntime>>, AllocError>
    ensures some { IfOk result (λ raws. 0 < vec_len raws) }
    ensures ranks { (c : ConvertValue) → Give (map string_bytes words.now) (Command.Convert c) →
        IfOk result (λ raws. vec_len raws ≡ c.ranks) }
{
    let ranks = ranks_of(words);
    let mut raws = Vec::with_capacity(rt.alloc(), ranks as usize)?;
    for rank in 0..ranks {
        let path = String::from_str(rt.alloc(), raw_path(words))?;
        raws.push(FileSource::new(rt.clone()?, path))?;
    }
    Ok(raws)
}

/// The dataset that the words name, or one without a path.
pub fn dataset_files(
    rt: &HostRuntime,
    words: &[String],
) -> Result<FolderBay<HostRuntime>, AllocError> {
    let path = String::from_str(rt.alloc(), dataset_path(words))?;
    Ok(FolderBay::new(rt.clone()?, path))
}

/// The text of the header that the words name, where a header is refused: what would do in it can be told by its text.
/// Empty otherwise, and where it cannot be read again.
pub fn refused_header(rt: &HostRuntime, words: &[String], cause: Cause) -> Bytes {
    let mut text = Bytes::new(rt.alloc());
    if let Cause::Header { .. } = cause
        && let Ok(mut files) = dataset_files(rt, words)
    {
        let _read = files.header(&mut text);
    }
    text
}

/// The file that ended a check, looked at again; none where the run ended otherwise, and where it cannot be.
pub fn wrong_file(rt: &HostRuntime, words: &[String], cause: Cause) -> Option<WrongFile> {
    let Cause::NotSame { .. } = cause else {
        return None;
    };
    let mut files = dataset_files(rt, words).ok()?;
    let mut reader = FileReader::new(rt.clone().ok()?, rt.alloc());
    look_again(rt.alloc(), words, cause, &mut files, &mut reader)
}

/// The readers of the dataset's files: one for each worker that the words say. They tell this line, and say in these notes
/// what they cannot read.
pub fn file_readers(
    rt: &HostRuntime,
    words: &[String],
    line: &Option<StdLine>,
    notes: &Option<StdNotes>,
) -> Result<Vec<StdReader>, AllocError>
    ensures some { IfOk result (λ readers. 0 < vec_len readers) }
    ensures workers { (v : ServeValue) → Give (map string_bytes words.now) (Command.Serve v) →
        IfOk result (λ readers. vec_len readers ≡ v.workers) }
{
    let workers = workers_of(words);
    let mut readers = Vec::with_capacity(rt.alloc(), workers as usize)?;
    for worker in 0..workers {
        let reader = FileReader::new(rt.clone()?, rt.alloc());
        let reader = NotingReader::new(reader, shared_notes(notes));
        readers.push(WatchedReader::new(reader, shared(line)))?;
    }
    Ok(readers)
}

/// A line, for another one that tells it.
fn shared(line: &Option<StdLine>) -> Option<StdLine> {
    match line {
        Some(line) => line.share(),
        None => None,
    }
}

/// The doors at the address that the words name, one for each worker that they say. They share what listens there, and
/// hand out as many links in all as the words say. The first says where it listens.
pub fn tcp_doors<R: Sockets>(
    rt: &HostRuntime,
    sockets: R,
    words: &[String],
) -> Result<Vec<StdDoor<R>>, AllocError>
    ensures some { IfOk result (λ doors. 0 < vec_len doors) }
    ensures workers { (v : ServeValue) → Give (map string_bytes words.now) (Command.Serve v) →
        IfOk result (λ doors. vec_len doors ≡ v.workers) }
{
    let address = String::from_str(rt.alloc(), door_address(words))?;
    let shared = Arc::new(rt.alloc(), SharedListener::new(address))?;
    let mut notice = Some(Notice {
        rt: sockets,
        alloc: rt.alloc(),
        shared: Arc::try_clone(&shared)?,
        dataset: String::from_str(rt.alloc(), dataset_path(words))?,
        bay: dataset_files(rt, words)?,
        err: rt.stderr(),
    });
    let workers = workers_of(words);
    let links = links_of(words);
    let notes = server_notes(rt, words);
    let mut doors = Vec::with_capacity(rt.alloc(), workers as usize)?;
    for worker in 0..workers {
        let door = TcpDoor::new(
            sockets,
            Arc::try_clone(&shared)?,
            share_of(links, workers, worker),
            Patience::of_a_server(),
        );
        let door = NotingDoor::new(door, shared_notes(&notes));
        doors.push(AnnouncedDoor::new(notice.take(), door))?;
    }
    Ok(doors)
}

/// Why the call failed that ended a run with this cause, and where.
pub fn last_fault<'o, R: Sockets>(
    cause: Cause,
    raws: &'o [FileSource<HostRuntime>],
    bay: &'o FolderBay<HostRuntime>,
    readers: &'o [StdReader],
    out: &'o StdSink<Stdout>,
    doors: &'o [StdDoor<R>],
) -> Option<Fault<'o>> {
    match cause {
        Cause::RawFault => first_fault(raws),
        Cause::StoreFault => match bay.last_fault() {
            Some(fault) => Some(fault),
            None => first_read_fault(readers),
        },
        Cause::SinkFault => out.last_fault(),
        Cause::DoorFault => first_door_fault(doors),
        _ => None,
    }
}

/// Why a call on a raw volume failed, of the first one of which one did.
fn first_fault<'o>(raws: &'o [FileSource<HostRuntime>]) -> Option<Fault<'o>> {
    for raw in raws {
        if let Some(fault) = raw.last_fault() {
            return Some(fault);
        }
    }
    None
}

/// Why a read of the dataset's files failed, of the first reader of which one did.
fn first_read_fault<'o>(readers: &'o [StdReader]) -> Option<Fault<'o>> {
    for reader in readers {
        if let Some(fault) = reader.reader().last_fault() {
            return Some(fault);
        }
    }
    None
}

/// Why no links could be accepted, at the first door where none could.
fn first_door_fault<'o, R: Sockets>(doors: &'o [StdDoor<R>]) -> Option<Fault<'o>> {
    for door in doors {
        if let Some(fault) = door.last_fault() {
            return Some(fault);
        }
    }
    None
}
