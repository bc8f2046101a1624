//! File systems that say at once where there is no room for bytes.
use crate::regular_file::{front, open_regular};
use std::alloc::Global;
use std::fs;
use std::os::unix::fs::MetadataExt;
use std::rt::Files;

/// Where Linux lists what is mounted.
const MOUNTS: &str = "/proc/self/mountinfo";

/// How many bytes of that list are read at most.
const MOUNTS_READ: u64 = 1 << 22;

/// File systems on this machine's own disks and in its memory, by Linux's names: a write is refused there where there is
/// no room for its bytes. Others, as those of a network, may take them and refuse them later.
const LOCAL: [&str; 14] = [
    "bcachefs", "btrfs", "ext2", "ext3", "ext4", "f2fs", "jfs", "nilfs2", "overlay", "ramfs",
    "reiserfs", "tmpfs", "xfs", "zfs",
];

/// Whether the file system of a folder may refuse bytes that it has taken. So it is where the system does not tell
/// which it is.
pub(crate) fn refuses_late<R: Files>(rt: &R, alloc: Global, folder: &str) -> bool {
    match (fs::metadata(rt, folder), mounts(rt, alloc)) {
        (Ok(metadata), Some(mounts)) => match str::from_utf8(mounts.as_slice()) {
            Ok(mounts) => !is_local(mounts, Device::of(metadata.dev())),
            Err(_) => true,
        },
        _ => true,
    }
}

/// What is mounted.
fn mounts<R: Files>(rt: &R, alloc: Global) -> Option<Vec<u8>> {
    front(alloc, open_regular(rt, MOUNTS).ok()?, MOUNTS_READ)
        .ok()?
        .ok()
}

/// A device, by its two numbers.
#[derive(Clone, Copy, PartialEq, Eq)]
struct Device {
    major: u64,
    minor: u64,
}

impl Device {
    /// Of the number that the system gives for both: 12 bits of the major one stand above the lowest 8 of the minor one.
    fn of(number: u64) -> Device {
        Device {
            major: ((number >> 32) & 0xffff_f000) | ((number >> 8) & 0xfff),
            minor: ((number >> 12) & 0xffff_ff00) | (number & 0xff),
        }
    }

    /// Of a text, as `254:0`.
    fn of_text(text: &str) -> Option<Device> {
        let (major, minor) = text.split_once(':')?;
        Some(Device {
            major: major.parse().ok()?,
            minor: minor.parse().ok()?,
        })
    }
}

/// Whether the list has this device with the name of a local file system.
fn is_local(mounts: &str, device: Device) -> bool {
    mounts.lines().any(|mount| is_local_mount(mount, device))
}

/// The same of a line: the device is its third word, and the file system the first word behind a single dash.
fn is_local_mount(mount: &str, device: Device) -> bool {
    let Some((place, system)) = mount.split_once(" - ") else {
        return false;
    };
    let is_there = match place.split(' ').nth(2) {
        Some(number) => Device::of_text(number) == Some(device),
        None => false,
    };
    match system.split(' ').next() {
        Some(name) => is_there && LOCAL.contains(&name),
        None => false,
    }
}
