use std::io;
use std::io::ErrorKind;
use thiserror::Error;

/// Why a call on the outside failed.
#[derive(Clone, Copy, Debug, Error)]
pub enum Reason {
    /// The system's own answer.
    #[error("{0}")]
    System(io::Error),
    /// A folder, a pipe, a terminal or a device stands where a file is read.
    #[error("not a regular file")]
    NotRegularFile,
    /// The range that was asked for passes the end of the file.
    #[error("the range that was asked for passes the end of the file")]
    EndsEarly,
    /// Something stands where a step was to be committed or a header to be put.
    #[error("something stands there already")]
    StandsAlready,
    /// A name has bytes that are no text, so that no path can be made of it.
    #[error("the name is no text")]
    NotText,
    /// A file was to be made outside of the step that was begun.
    #[error("the file is not in the step that was begun")]
    OutsideStep,
    /// Another run has the lock of the step.
    #[error("another run is writing this step")]
    AnotherRun,
    /// What was staged was taken away, as by a run on another machine that has no lock in common with this one.
    #[error("another run has taken away what this run staged")]
    Taken,
    /// A file was to be made, or a step to be committed, that was not begun.
    #[error("the step was not begun")]
    NotBegun,
    /// A file was to be committed under another path than it was written for.
    #[error("a file was written for another path")]
    OtherPath,
    /// A text is no socket address.
    #[error("not a socket address, as 127.0.0.1:8080 or [::1]:8080")]
    NotAddress,
    /// The peer of a link sent nothing, or took nothing of what was written, for as long as it may.
    #[error("the peer let the link wait for too long")]
    Silent,
    /// The peer of a link sent its bytes so slowly that no reply could be written in time.
    #[error("the peer sent its bytes too slowly")]
    TooSlow,
    /// The peer of a link took a reply so slowly that it was not written in its time.
    #[error("the peer took the reply too slowly")]
    TakesSlowly,
}

impl Reason {
    /// The system's answer where there is no memory.
    pub(crate) fn no_memory() -> Reason {
        Reason::System(io::Error::from(ErrorKind::OutOfMemory))
    }
}

impl From<io::Error> for Reason {
    ghost use Rattle.idx_real.specs.Faults.{IsReasonOf};

    ghost from_gives = { IsReasonOf };

    fn from(error: io::Error) -> Reason {
        match error.kind() {
            ErrorKind::UnexpectedEof => Reason::EndsEarly,
            _ => Reason::System(error),
        }
    }
}

/// A fault of the outside: where it was, and why. Shown as `PATH: REASON`.
#[derive(Clone, Copy, Debug, Error)]
#[error("{path}: {reason}")]
pub struct Fault<'a> {
    /// The path, or the name of a stream.
    pub path: &'a str,
    /// What the system or the file said.
    pub reason: Reason,
}
