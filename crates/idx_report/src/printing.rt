ghost use Rattle.std.specs.Prelude.{◌≡◌, ◌≢◌, OnOk};
ghost use Rattle.std.specs.Process.{exit_status};
ghost use Rattle.std.specs.Io.KnownBytes.{Appends, Keeps};
ghost use Rattle.idx_commands.specs.Cause.{message_of};

use crate::hints::Hints;
use crate::paths::{dataset_path, raw_path};
use crate::plain_words::{plain_table_words, plain_words};
use crate::remedy::print_remedy;
use crate::wrong_file::print_wrong_file;
use idx_commands::{Cause, Done, MAX_ANSWER, MAX_FILE, MAX_VOLUME};
use idx_header::{Header, HeaderKind};
use idx_outside::Bytes;
use idx_progress::Shown;
use idx_table::TableKind;
use idx_words::{Command, read_words};
use std::alloc::Global;
use std::io::Write;
use std::process::ExitCode;
use std::{fmt, io};

/// Prints how a run ended, nothing where all was written, and gives the exit status. Behind the line of the cause stand
/// lines that help: of a fault its place and the system's reason, of wrong words what is expected, of a refused header
/// its place, what is wrong and what would do, of a file that is not the writer's what stands there and what is wanted. A
/// message that cannot be printed changes nothing of how the run ended.
pub fn report<W: Write>(
    alloc: Global,
    err: &mut W,
    done: Done,
    words: &[String],
    hints: Hints<'_>,
) -> ExitCode
    ensures status { exit_status result ≡ done.status }
    ensures silent { done.cause ≡ Cause.Done → Keeps (W.contents err.old) (W.contents err.new) }
{
    if !done.cause.is_done() {
        let _ = print_all(alloc, err, done.cause, words, hints);
    }
    done.exit_code()
}

fn print_all<W: Write>(
    alloc: Global,
    err: &mut W,
    cause: Cause,
    words: &[String],
    hints: Hints<'_>,
) -> io::Result<()> {
    print_cause(err, cause)?;
    print_help(alloc, err, cause, words, &hints)?;
    match hints.fault {
        Some(fault) => writeln!(err, "  {}: {}", Shown(fault.path), fault.reason),
        None => Ok(()),
    }
}

/// Prints the line of a cause.
pub fn print_cause<W: Write>(err: &mut W, cause: Cause) -> io::Result<()>
    ensures { OnOk result (Appends (W.contents err.old) (W.contents err.new) (message_of cause)) }
{
    writeln!(err, "idxtool: {cause}")
}

/// A line that helps, alone or behind the path that it speaks of.
enum Help {
    Alone(&'static str),
    OfRaw(&'static str),
    OfDataset(&'static str),
}

/// Prints what helps against a cause. These lines, and every other behind the first, begin with two spaces.
fn print_help<W: Write>(
    alloc: Global,
    err: &mut W,
    cause: Cause,
    words: &[String],
    hints: &Hints<'_>,
) -> io::Result<()> {
    match cause {
        Cause::Usage { .. } => print_usage(err, words),
        Cause::Header { line, kind } => print_header(alloc, err, words, hints.header, line, kind),
        Cause::NotPublished { .. } => print_not_published(err, words),
        Cause::TooLarge { .. } => print_too_large(err, words),
        Cause::BadTable { file, kind, .. } => print_bad_table(err, words, file, kind),
        Cause::NotSame { file, at, why } => {
            print_wrong_file(err, dataset_path(words), file, at, why, hints.wrong)
        }
        _ => match help_of(cause) {
            Some(Help::Alone(text)) => writeln!(err, "  {text}"),
            Some(Help::OfRaw(text)) => writeln!(err, "  {}: {text}", Shown(raw_path(words))),
            Some(Help::OfDataset(text)) => {
                writeln!(err, "  {}: {text}", Shown(dataset_path(words)))
            }
            None => Ok(()),
        },
    }
}

/// The one line that helps against a cause, where it is always the same.
fn help_of(cause: Cause) -> Option<Help> {
    match cause {
        Cause::RawWrongSize { .. } => Some(Help::OfRaw("not the bytes that these samples take")),
        Cause::AlreadyPublished { .. } => Some(Help::OfDataset(
            "all 256 revisions of the step stand; remove the folder of the last one",
        )),
        Cause::OtherHeader => Some(Help::OfDataset(
            "the header there has other values than these words",
        )),
        Cause::NoStep { .. } => Some(Help::Alone("the step is none of those that TIME gives")),
        Cause::OtherAxes => Some(Help::OfDataset(
            "its box has another number of axes than REGION; idxtool info says its box",
        )),
        Cause::UnknownField => Some(Help::OfDataset(
            "no field has this name; idxtool info lists its fields",
        )),
        Cause::OutsideVolume { .. } => Some(Help::OfDataset(
            "REGION leaves its box on this axis, counted from 0; idxtool info says its box",
        )),
        Cause::BadLevels { .. } => Some(Help::Alone(
            "LO is at most HI, and HI at most the finest level, the last number",
        )),
        _ => None,
    }
}

/// Prints why a step does not stand.
fn print_not_published<W: Write>(err: &mut W, words: &[String]) -> io::Result<()> {
    let path = Shown(dataset_path(words));
    let more = if is_command(words, "check") {
        ", or it has no (time)"
    } else {
        ""
    };
    writeln!(
        err,
        "  {path}: the step has not been written, or is none of its steps{more}"
    )
}

/// Prints how many bytes are too many.
fn print_too_large<W: Write>(err: &mut W, words: &[String]) -> io::Result<()> {
    if is_command(words, "query") {
        writeln!(
            err,
            "  an answer has at most {MAX_ANSWER} bytes: ask for a smaller REGION or a coarser HI"
        )
    } else {
        writeln!(
            err,
            "  a raw volume has at most {MAX_VOLUME} bytes, and a file of a step at most {MAX_FILE}"
        )
    }
}

/// Prints which file is damaged, and how.
fn print_bad_table<W: Write>(
    err: &mut W,
    words: &[String],
    file: u64,
    kind: TableKind,
) -> io::Result<()> {
    let path = Shown(dataset_path(words));
    writeln!(
        err,
        "  {path}, the file that begins with block {file}: {}",
        plain_table_words(kind)
    )
}

/// Prints which word is wrong or missing, and what is expected there.
fn print_usage<W: Write>(err: &mut W, words: &[String]) -> io::Result<()> {
    if let Err(misread) = read_words(words) {
        match words.get(misread.at as usize) {
            Some(word) => writeln!(err, "  word {} is `{}`", misread.at, Shown(word))?,
            None => writeln!(err, "  word {} is missing", misread.at)?,
        }
        writeln!(err, "  expected {}", misread.expected)?;
    }
    if has_box(words) {
        writeln!(err, "  a box is one word: quote it, as \"0 63 0 63\"")?;
    }
    writeln!(err, "  idxtool --help says more")
}

/// Whether the words begin with a command that takes a box.
fn has_box(words: &[String]) -> bool {
    is_command(words, "cut") || is_command(words, "convert") || is_command(words, "query")
}

/// Whether the words begin with this command.
fn is_command(words: &[String], command: &str) -> bool {
    match words.first() {
        Some(name) => name.as_str() == command,
        None => false,
    }
}

/// Prints which header is refused, the one that stands or the one that the words ask for, what is wrong with it, and what
/// would do.
fn print_header<W: Write>(
    alloc: Global,
    err: &mut W,
    words: &[String],
    header: &[u8],
    line: u64,
    kind: HeaderKind,
) -> io::Result<()> {
    match refused_text(alloc, words) {
        Some(text) => {
            let word = word_of_line(line, kind);
            let wrong = plain_words(kind);
            writeln!(err, "  the header of these words, {word}: {wrong}")?;
            print_remedy(alloc, err, text.as_slice(), line, kind)
        }
        None => {
            let wrong = plain_words(kind);
            writeln!(err, "  {}: {wrong}", Shown(dataset_path(words)))?;
            print_remedy(alloc, err, header, line, kind)
        }
    }
}

/// The text of the header that the words ask for, where it is refused.
fn refused_text(alloc: Global, words: &[String]) -> Option<Bytes> {
    match read_words(words) {
        Ok(Command::Convert(asked)) => {
            let text = asked.header_text(alloc).ok()?;
            let refused = Header::read(alloc, text.as_slice()).is_err();
            if refused { Some(text) } else { None }
        }
        _ => None,
    }
}

/// The word of `convert` that stands under the key on this line of the header that is asked for. A key that stands a
/// second time is spelled by one of the texts.
fn word_of_line(line: u64, kind: HeaderKind) -> &'static str {
    match (kind, line) {
        (HeaderKind::DoubleKey, _) => "a text that spells a key",
        (_, 3) => "BOX",
        (_, 5) => "FIELDS",
        (_, 7) => "MASK",
        (_, 9) => "BITS",
        (_, 11) => "PERFILE",
        (_, 13) => "TEMPLATE",
        (_, 15) => "TIME",
        _ => "a text that spells a key",
    }
}
