//! What the system does at a moment that no run of the program can choose.
use idx_outside::{Bay, Draft, Leaf, NoMemory, Reader, Sink, Source};
use idx_real::*;
use std::alloc::Global;
use std::test::Fail;
use std::{fs, io};

mod files;
mod folders;
mod refusing;
mod sinks;
mod sockets;
mod watched;

/// The folder of the header file at this path.
fn folder(rt: &HostRuntime, path: &str) -> Result<FolderBay<HostRuntime>, NoMemory> {
    let path = String::from_str(rt.alloc(), path)?;
    Ok(FolderBay::new(rt.clone()?, path))
}

/// Whether this is the text of a fault, or of none. A star in it stands for any text.
fn is_text(alloc: Global, fault: Option<Fault<'_>>, want: &str) -> bool {
    match fault {
        Some(fault) => match format!(in alloc; "{fault}") {
            Ok(text) => is_like(text.as_str(), want),
            Err(_) => false,
        },
        None => want.is_empty(),
    }
}

fn is_like(text: &str, want: &str) -> bool {
    match want.split_once('*') {
        Some((front, end)) => text.starts_with(front) && text.ends_with(end),
        None => text == want,
    }
}

/// How many files and folders are in a folder; none where it is not there.
fn count_in(rt: &HostRuntime, folder: &str) -> usize {
    match fs::read_dir(rt, folder) {
        Ok(entries) => entries.count(),
        Err(_) => 0,
    }
}
