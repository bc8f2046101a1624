//! The places of standard input, output and error.
use std::fs::{self, File};

/// Takes the places of standard input, output and error where these are closed, as long as what it gives is kept. There
/// nothing can be read or written. Else the next file or connection would take such a place, and a line that is meant for
/// standard error would go into it.
pub fn hold_standard_places(rt: &HostRuntime) -> (Option<File>, Option<File>, Option<File>) {
    (open_nothing(rt), open_nothing(rt), open_nothing(rt))
}

/// The first place that is free.
fn open_nothing(rt: &HostRuntime) -> Option<File> {
    fs::open(rt, "/dev/null").ok()
}
