//! Names that no other run has, and that no run has twice.
use crate::Reason;
use crate::regular_file::{front, open_regular};
use std::alloc::Global;
use std::random::RandomSource;
use std::rt::Files;

/// Where Linux tells the machine's name.
const MACHINE: &str = "/proc/sys/kernel/hostname";

/// The link of Linux to the process's own number.
const PROCESS: &str = "/proc/self";

/// How many bytes of the machine's name are read at most: Linux has no longer ones.
const MACHINE_READ: u64 = 64;

/// A path in a folder that no other run has: the machine's name, the process's number and 16 random bytes. The first two
/// tell a reader whose it is, and are left out where the system does not tell them.
pub(crate) fn fresh_path<R: Files + RandomSource>(
    rt: &R,
    alloc: Global,
    folder: &str,
) -> Result<String, Reason> {
    let mut random = [0u8; 16];
    rt.fill_bytes(&mut random)?;
    let random = u128::from_le_bytes(random);
    let owner = owner(rt, alloc).unwrap_or(String::new(alloc));
    match format!(in alloc; "{folder}/{owner}{random:032x}") {
        Ok(path) => Ok(path),
        Err(_) => Err(Reason::no_memory()),
    }
}

/// The machine's name and the process's number, each with a dash behind it.
fn owner<R: Files>(rt: &R, alloc: Global) -> Option<String> {
    let process = rt.read_link(alloc, PROCESS).ok()?.into_string();
    let machine = front(alloc, open_regular(rt, MACHINE).ok()?, MACHINE_READ)
        .ok()?
        .ok()?;
    let machine = str::from_utf8(machine.as_slice()).ok()?.trim_end();
    if !is_plain(machine) || !is_plain(process.as_str()) {
        return None;
    }
    format!(in alloc; "{machine}-{process}-").ok()
}

/// Whether a text has letters, digits, dashes and dots alone.
fn is_plain(text: &str) -> bool {
    text.bytes().all(|byte| byte.is_ascii_alphanumeric() || byte == b'-' || byte == b'.')
}
