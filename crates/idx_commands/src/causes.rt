ghost use Rattle.std.specs.Prelude.{◌≡◌, ◌↔◌, IsTrue};
ghost use Rattle.std.specs.Process.{exit_status};
ghost use Rattle.idx_commands.specs.Cause.{status_of};

use crate::kind_text::{kind_text, table_kind_text, wrong_kind_text};
use idx_check::WrongKind;
use idx_header::HeaderKind;
use idx_table::TableKind;
use std::fmt;
use std::process::ExitCode;

/// Why a run ended.
#[derive(Clone, Copy, Debug, PartialEq, Eq)]
pub enum Cause {
    /// All was written.
    Done,
    /// The words are not in the grammar. The word at place `at`, counted from 0, is the first after which no list of the
    /// grammar goes on, or the first that is missing.
    Usage {
        at: u64,
    },
    /// The header that stands or that is asked for is refused: on this line, counted from 1, stands this fault. The line
    /// is 0 where the text is too long.
    Header {
        line: u64,
        kind: HeaderKind,
    },
    /// The raw volume has `found` bytes and not the `want` that are asked for.
    RawWrongSize {
        want: u64,
        found: u64,
    },
    /// The raw volume could not be read.
    RawFault,
    /// The dataset could not be read or written.
    StoreFault,
    /// 256 revisions of the step of this number stand already, and no step has more.
    AlreadyPublished {
        time: u64,
    },
    /// A header stands that does not agree with the one that is asked for.
    OtherHeader,
    /// The step of this number does not stand, or the header lacks it; of `check` also where it has no time.
    NotPublished {
        time: u64,
    },
    /// The region has another number of axes than the dataset.
    OtherAxes,
    /// No field has the name.
    UnknownField,
    /// The region leaves the dataset's box on this axis, the least such.
    OutsideVolume {
        axis: u32,
    },
    /// `lo` passes `hi`, or `hi` passes the finest level, `max`.
    BadLevels {
        lo: u32,
        hi: u32,
        max: u32,
    },
    /// The samples that are asked for, those of a step, or a file of the step take so many bytes, which is too many.
    TooLarge {
        bytes: u64,
    },
    /// The header, that of the words or, of `serve`, the one that stands, lacks the step of this number.
    NoStep {
        time: u64,
    },
    /// The output could not be written.
    SinkFault,
    /// A row of the table of a file is faulty: the first one, in the order of steps, files and rows. The file's number is
    /// that of its first block, and rows are counted from 0.
    BadTable {
        file: u64,
        row: u64,
        kind: TableKind,
    },
    /// There was not enough memory.
    NoMemory,
    /// No links could be accepted, or no further ones.
    DoorFault,
    /// A file of the step is not the writer's, the first one: that of this number, which is that of its first block, from this
    /// place on, counted from the file's beginning.
    NotSame {
        file: u64,
        at: u64,
        why: WrongKind,
    },
}

impl Cause {
    /// Whether all was written.
    pub fn is_done(self) -> bool
        ensures { IsTrue result ↔ (self ≡ Cause.Done) }
    {
        matches!(self, Cause::Done)
    }
}

/// How a run ended: the exit status, and why.
#[derive(Clone, Copy, Debug, PartialEq, Eq)]
pub struct Done {
    /// The exit status.
    pub status: u8,
    /// Why.
    pub cause: Cause,
}

impl Done {
    /// The end with this cause.
    pub fn of(cause: Cause) -> Done
        ensures cause { result.cause ≡ cause }
        ensures status { result.status ≡ status_of cause }
    {
        let status = match cause {
            Cause::Done => 0,
            Cause::Usage { .. } => 1,
            Cause::Header { .. } => 2,
            Cause::RawWrongSize { .. } => 3,
            Cause::RawFault => 4,
            Cause::StoreFault => 5,
            Cause::AlreadyPublished { .. } | Cause::OtherHeader => 6,
            Cause::NotPublished { .. } => 7,
            Cause::OtherAxes
            | Cause::UnknownField
            | Cause::OutsideVolume { .. }
            | Cause::BadLevels { .. }
            | Cause::TooLarge { .. }
            | Cause::NoStep { .. } => 8,
            Cause::SinkFault => 9,
            Cause::BadTable { .. } => 10,
            Cause::NoMemory => 11,
            Cause::DoorFault => 12,
            Cause::NotSame { .. } => 16,
        };
        Done { status, cause }
    }

    /// What the program ends with.
    pub fn exit_code(&self) -> ExitCode
        ensures { exit_status result ≡ self.now.status }
    {
        ExitCode::from(self.status)
    }
}

/// The line that the program prints: nothing where all was written.
impl fmt::Display for Cause {
    ghost use Rattle.std.specs.Prelude.{Some};
    ghost use Rattle.idx_commands.specs.Cause.{line_of};

    ghost output = { λ cause. Some (line_of cause) };

    fn fmt<W: fmt::Write>(&self, f: &mut fmt::Formatter<W>) -> fmt::Result {
        match self {
            Cause::Done => Ok(()),
            Cause::Usage { at } => write!(f, "usage at {at}"),
            Cause::Header { line, kind } => write!(f, "header line {line} {}", kind_text(*kind)),
            Cause::RawWrongSize { want, found } => write!(f, "raw size want {want} found {found}"),
            Cause::RawFault => write!(f, "raw fault"),
            Cause::StoreFault => write!(f, "store fault"),
            Cause::AlreadyPublished { time } => write!(f, "published {time}"),
            Cause::OtherHeader => write!(f, "other header"),
            Cause::NotPublished { time } => write!(f, "not published {time}"),
            Cause::OtherAxes => write!(f, "other axes"),
            Cause::UnknownField => write!(f, "unknown field"),
            Cause::OutsideVolume { axis } => write!(f, "outside axis {axis}"),
            Cause::BadLevels { lo, hi, max } => write!(f, "levels {lo} {hi} {max}"),
            Cause::TooLarge { bytes } => write!(f, "too large {bytes}"),
            Cause::NoStep { time } => write!(f, "no step {time}"),
            Cause::SinkFault => write!(f, "sink fault"),
            Cause::BadTable { file, row, kind } => {
                write!(f, "table file {file} row {row} {}", table_kind_text(*kind))
            }
            Cause::NoMemory => write!(f, "no memory"),
            Cause::DoorFault => write!(f, "door fault"),
            Cause::NotSame { file, at, why } => {
                write!(f, "not same file {file} at {at} {}", wrong_kind_text(*why))
            }
        }
    }
}
