//! The line that says on a terminal what is being done, as long as it is done.
use idx_progress::Shown;
use std::io::{self, Write};

/// Takes the line away. One that cannot be taken away stays.
pub fn clear_work<W: Write>(err: &mut W) {
    let _ = err.write_all(b"\r\x1b[K");
}

/// Writes which volume is converted into which dataset, by how many ranks.
pub fn write_work<W: Write>(out: &mut W, raw: &str, dataset: &str, ranks: u32) -> io::Result<()> {
    let (raw, dataset) = (Shown(raw), Shown(dataset));
    write!(out, "  converting {raw} into {dataset}, {ranks} ranks")
}

/// Writes which step of a dataset is checked.
pub fn write_check<W: Write>(out: &mut W, dataset: &str, step: u64) -> io::Result<()> {
    let dataset = Shown(dataset);
    write!(out, "  checking step {step} of {dataset}")
}
