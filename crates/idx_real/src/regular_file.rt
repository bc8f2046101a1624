//! Regular files: how one is opened, and how its front is read.
ghost use Rattle.std.specs.Prelude.{◌≡◌, take, IfSome, IfOk};

use crate::Reason;
use idx_outside::NoMemory;
use std::alloc::Global;
use std::fs;
use std::io::{ErrorKind, Read};
use std::rt::Files;

/// Opens a regular file. The path is looked at first: to open a pipe may wait for a writer.
pub(crate) fn open_regular<R: Files>(rt: &R, path: &str) -> Result<R::File, Reason> {
    if !fs::metadata(rt, path)?.is_file() {
        return Err(Reason::NotRegularFile);
    }
    Ok(fs::open(rt, path)?)
}

/// Opens a regular file; `None` where there is none of this path.
pub(crate) fn open_if_there<R: Files>(rt: &R, path: &str) -> Result<Option<R::File>, Reason> {
    match open_regular(rt, path) {
        Ok(file) => Ok(Some(file)),
        Err(Reason::System(error)) if error.kind() == ErrorKind::NotFound => Ok(None),
        Err(reason) => Err(reason),
    }
}

/// The bytes of the file, or so many first ones of it where it has more. What lies behind them is not read.
pub(crate) fn front<F: Read + Drop>(
    alloc: Global,
    file: F,
    most: u64,
) -> Result<Result<Vec<u8>, Reason>, NoMemory>
    ensures { IfOk result (λ found. IfOk found (λ text. IfSome (F.remaining file)
        (λ bytes. text.items ≡ take most bytes))) }
{
    let mut text = Vec::new(alloc);
    match file.take(most).read_to_end(&mut text) {
        Ok(_) => Ok(Ok(text)),
        Err(error) if error.kind() == ErrorKind::OutOfMemory => Err(NoMemory),
        Err(error) => Ok(Err(Reason::from(error))),
    }
}
