use crate::tally::{Progress, Tally};
use std::alloc::Global;
use std::io::{self, Write};
use std::sync::Arc;
use std::time::{Clock, Instant};

/// A line on a terminal that says how far a conversion or a check is, and is written anew over itself at most ten times a
/// second. All that write or read a step have it.
#[derive(Drop)]
pub struct Line<R: Clock + Copy, W: Write + Copy> {
    tally: Arc<Tally, Global>,
    alloc: Global,
    rt: R,
    err: W,
    since: Instant,
}

impl<R: Clock + Copy, W: Write + Copy> Line<R, W> {
    /// A conversion or a check that begins now. `None` where there is no clock, or no memory.
    pub fn begin(alloc: Global, rt: R, err: W) -> Option<Line<R, W>> {
        let since = Instant::now(&rt).ok()?;
        Some(Line {
            tally: Arc::new(alloc, Tally::new()).ok()?,
            alloc,
            rt,
            err,
            since,
        })
    }

    /// The same line, for another one that writes or reads the step.
    pub fn share(&self) -> Option<Line<R, W>> {
        Some(Line {
            tally: Arc::try_clone(&self.tally).ok()?,
            alloc: self.alloc,
            rt: self.rt,
            err: self.err,
            since: self.since,
        })
    }

    /// What it was told so far.
    pub fn progress(&self) -> Progress {
        self.tally.progress()
    }

    /// So many files there are in all, with so many bytes.
    pub fn expect(&self, files: u64, bytes: u64) {
        self.tally.expect(files, bytes);
    }

    /// So many bytes more are written or read.
    pub fn add_bytes(&self, count: u64) {
        self.tally.add_bytes(count);
        self.show();
    }

    /// A file more is sealed, or was found.
    pub fn add_file(&self) {
        self.tally.add_file();
        self.show();
    }

    /// Writes the line where it is due. One that cannot be written changes nothing.
    fn show(&self) {
        let Ok(passed) = self.since.elapsed(&self.rt) else {
            return;
        };
        let millis = u64::try_from(passed.as_millis()).unwrap_or(u64::MAX);
        if self.tally.is_due(millis) {
            let mut line = Vec::new(self.alloc);
            let _ = write_progress(&mut line, self.progress(), millis);
            let mut err = self.err;
            let _ = err.write_all(line.as_slice());
        }
    }
}

/// Writes over the line that stands how far a conversion or a check is, so many milliseconds after it began.
pub fn write_progress<W: Write>(out: &mut W, progress: Progress, millis: u64) -> io::Result<()> {
    let Progress {
        files,
        bytes,
        sealed,
        written,
    } = progress;
    let (done, rate) = (mib(written), mib(each_second(written, millis)));
    if files == 0 {
        write!(out, "\r  {sealed} files, {done} MiB, {rate} MiB/s\x1b[K")
    } else {
        let all = mib(bytes);
        write!(
            out,
            "\r  {sealed} of {files} files, {done} of {all} MiB, {rate} MiB/s\x1b[K"
        )
    }
}

/// How many whole MiB so many bytes have.
fn mib(bytes: u64) -> u64 {
    bytes >> 20
}

/// How many bytes a second these are, written in so many milliseconds.
fn each_second(bytes: u64, millis: u64) -> u64 {
    bytes.saturating_mul(1000) / millis.max(1)
}
