//! What stands where a file of a step is not the writer's, and what is wanted there.
ghost use Rattle.std.specs.Prelude.{◌≡◌, ◌<◌};
ghost use Rattle.idx_header.specs.Header.{block_count};

use idx_check::WrongKind;
use idx_commands::Cause;
use idx_header::Header;
use idx_layout::{file_len, file_rows, table_len};
use idx_outside::{Bay, Bytes, Leaf, Outage, Reader};
use idx_progress::Shown;
use idx_rowmajor::Layout;
use idx_table::{ROW_BYTES, write_row};
use idx_words::{Command, read_words};
use std::alloc::Global;
use std::io::{self, Write};
use std::str;

/// A file of a step that is not the writer's, looked at again at its first wrong place.
#[derive(Drop)]
pub struct WrongFile {
    /// Its path, as it stands beside the header.
    path: Bytes,
    /// The byte that stands at the place; `None` where the file ends there.
    found: Option<u8>,
    /// The byte that the writer writes there; `None` where it writes none.
    wanted: Option<u8>,
}

/// Looks again at the file that ended a check, by asking for the header and for the step, and by reading one byte. `None`
/// where the run ended otherwise, and where the file cannot be looked at again.
pub fn look_again<B: Bay, R: Reader<B::Leaf>>(
    alloc: Global,
    words: &[String],
    cause: Cause,
    bay: &mut B,
    reader: &mut R,
) -> Option<WrongFile>
    ensures header { B.header bay.new ≡ B.header bay.old }
    ensures files { B.files bay.new ≡ B.files bay.old }
    ensures begun { B.begun bay.new ≡ B.begun bay.old }
    ensures changes { B.changes bay.new ≡ B.changes bay.old }
{
    let (time, file, at) = place_of(words, cause)?;
    let header = newest_header(alloc, time, bay)?;
    let path = header.file_name(alloc, time, file).ok()?;
    let found = byte_there(path.as_slice(), at, bay, reader)?;
    let wanted = wanted_at(&header, file, at);
    Some(WrongFile {
        path,
        found,
        wanted,
    })
}

/// The step that a check was asked for, the file that ended it, and the first wrong place of that; `None` where the run
/// ended otherwise.
fn place_of(words: &[String], cause: Cause) -> Option<(u64, u64, u64)> {
    match (read_words(words), cause) {
        (Ok(Command::Check { time }), Cause::NotSame { file, at, .. }) => Some((time, file, at)),
        _ => None,
    }
}

/// The header at the newest revision of a step that stands.
fn newest_header<B: Bay>(alloc: Global, time: u64, bay: &mut B) -> Option<Header>
    ensures header { B.header bay.new ≡ B.header bay.old }
    ensures files { B.files bay.new ≡ B.files bay.old }
    ensures begun { B.begun bay.new ≡ B.begun bay.old }
    ensures changes { B.changes bay.new ≡ B.changes bay.old }
{
    let header = Header::of_bay(alloc, bay).ok()?;
    header.that_stands(alloc, time, bay).ok()?
}

/// The byte at a place of the file of a path, in two steps: `None` where the file cannot be looked at, and no byte where it
/// is not there or has ended.
fn byte_there<B: Bay, R: Reader<B::Leaf>>(
    path: &[u8],
    at: u64,
    bay: &mut B,
    reader: &mut R,
) -> Option<Option<u8>>
    ensures header { B.header bay.new ≡ B.header bay.old }
    ensures files { B.files bay.new ≡ B.files bay.old }
    ensures begun { B.begun bay.new ≡ B.begun bay.old }
    ensures changes { B.changes bay.new ≡ B.changes bay.old }
{
    match bay.leaf(path).ok()? {
        Some(leaf) => byte_at(&leaf, at, reader).ok(),
        None => Some(None),
    }
}

/// The byte of a file at a place; `None` where the file has ended there.
fn byte_at<L: Leaf, R: Reader<L>>(leaf: &L, at: u64, reader: &mut R) -> Result<Option<u8>, Outage> {
    if leaf.len() <= at {
        return Ok(None);
    }
    let mut byte = [0];
    reader.read_at(leaf, at, &mut byte)?;
    Ok(Some(byte[0]))
}

/// The byte that the writer writes at a wrong place of a file: behind the table a zero, since a sample of the box is what
/// it is. `None` where it writes none there.
fn wanted_at(header: &Header, file: u64, at: u64) -> Option<u8> {
    if file >= header.block_count() || at >= file_len(header, file) {
        return None;
    }
    if at >= table_len(header) {
        return Some(0);
    }
    Some(table_byte(header, file, at))
}

/// The byte at a place of a file's table.
fn table_byte(header: &Header, file: u64, at: u64) -> u8
    requires exists { file < block_count header.now }
{
    let unit = ROW_BYTES as u64;
    let mut bytes = [0; ROW_BYTES];
    if let Some(row) = (at / unit).checked_sub(1)
        && let Some(row) = file_rows(header, Layout::Hz, file).nth(row as usize)
    {
        write_row(&row, &mut bytes);
    }
    bytes[(at % unit) as usize]
}

/// Prints which file of a step is not the writer's, from which place on, and what is wanted there.
pub(crate) fn print_wrong_file<W: Write>(
    err: &mut W,
    dataset: &str,
    file: u64,
    at: u64,
    why: WrongKind,
    wrong: Option<&WrongFile>,
) -> io::Result<()> {
    let dataset = Shown(dataset);
    match name_of(wrong) {
        Some(name) => write!(err, "  {dataset}, {}: ", Shown(name))?,
        None => write!(err, "  {dataset}, the file that begins with block {file}: ")?,
    }
    match why {
        WrongKind::Missing => writeln!(err, "it is not there"),
        WrongKind::Extra => writeln!(err, "it should not be there"),
        WrongKind::Byte => print_byte(err, at, wrong),
    }
}

/// The path of a file, where it is known and a text.
fn name_of(wrong: Option<&WrongFile>) -> Option<&str> {
    str::from_utf8(wrong?.path.as_slice()).ok()
}

/// Prints what stands at a place, and what is wanted there.
fn print_byte<W: Write>(err: &mut W, at: u64, wrong: Option<&WrongFile>) -> io::Result<()> {
    let (found, wanted) = match wrong {
        Some(wrong) => (wrong.found, wrong.wanted),
        None => (None, None),
    };
    match (found, wanted) {
        (Some(found), Some(wanted)) => {
            writeln!(
                err,
                "at byte {at} stands {found:02x}, wanted is {wanted:02x}"
            )
        }
        (Some(_), None) => writeln!(err, "it should end at byte {at}"),
        (None, Some(_)) => writeln!(err, "it ends at byte {at}"),
        (None, None) => writeln!(err, "byte {at} is another one than is written"),
    }
}
