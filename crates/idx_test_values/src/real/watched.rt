//! A runtime in which another run does something at a chosen moment.
use super::*;
use std::alloc::Allocator;
use std::fs::{File, Metadata, OpenOptions};
use std::random::RandomSource;
use std::rt::Files;
use std::sync::atomic::{AtomicU64, Ordering};

/// The file that says that a run is writing the step, and the folder in which it is staged.
const LOCK: &str = "seized/t0.lock";

const SHARED: &str = "seized/t0.part";

/// What another run does.
#[derive(Clone, Copy, Debug, PartialEq, Eq)]
enum Other {
    /// Another file stands in the place of the lock file each time that it was opened.
    Relocks,
    /// Takes the first name of a run's own folder, and removes the folder of all before the second one is made.
    TakesNames,
}

/// The files of the system, and the other run.
#[derive(Drop)]
struct Watched<'a> {
    rt: &'a HostRuntime,
    other: Other,
    /// How many names of a run's own folder were tried.
    names: AtomicU64,
}

impl Watched<'_> {
    /// What the other run does before a folder of this path is made.
    fn seize(&self, path: &str) -> io::Result<()> {
        if self.other != Other::TakesNames || !path.starts_with("seized/t0.part/") {
            return Ok(());
        }
        match self.names.fetch_add(1, Ordering::SeqCst) {
            0 => self.rt.create_dir(path),
            1 => self.rt.remove_dir_all(self.rt.alloc(), SHARED),
            _ => Ok(()),
        }
    }
}

impl RandomSource for Watched<'_> {
    fn fill_bytes(&self, buf: &mut [u8]) -> io::Result<()> {
        self.rt.fill_bytes(buf)
    }
}

impl Files for Watched<'_> {
    type File = File;

    type Dir = <HostRuntime as Files>::Dir;

    fn open_file(&self, how: &OpenOptions, path: &str) -> io::Result<File> {
        let file = self.rt.open_file(how, path)?;
        if self.other == Other::Relocks && path == LOCK {
            self.rt.remove_file(path)?;
            fs::write(self.rt, path, b"".as_slice())?;
        }
        Ok(file)
    }

    fn open_dir(&self, path: &str) -> io::Result<<HostRuntime as Files>::Dir> {
        self.rt.open_dir(path)
    }

    fn metadata(&self, path: &str) -> io::Result<Metadata> {
        self.rt.metadata(path)
    }

    fn symlink_metadata(&self, path: &str) -> io::Result<Metadata> {
        self.rt.symlink_metadata(path)
    }

    fn copy(&self, from: &str, to: &str) -> io::Result<u64> {
        self.rt.copy(from, to)
    }

    fn rename(&self, from: &str, to: &str) -> io::Result<()> {
        self.rt.rename(from, to)
    }

    fn hard_link(&self, from: &str, to: &str) -> io::Result<()> {
        self.rt.hard_link(from, to)
    }

    fn remove_file(&self, path: &str) -> io::Result<()> {
        self.rt.remove_file(path)
    }

    fn create_dir(&self, path: &str) -> io::Result<()> {
        self.seize(path)?;
        self.rt.create_dir(path)
    }

    fn remove_dir(&self, path: &str) -> io::Result<()> {
        self.rt.remove_dir(path)
    }

    fn remove_dir_all<B: Allocator>(&self, alloc: B, path: &str) -> io::Result<()> {
        self.rt.remove_dir_all(alloc, path)
    }
}

/// Whether a step is begun while another run does this, and else why not; then how many folders are staged.
fn begins(rt: &HostRuntime, other: Other, fault: &str) -> Result<(bool, usize), NoMemory> {
    let path = String::from_str(rt.alloc(), "seized/set.idx")?;
    let names = AtomicU64::new(0);
    let mut bay = FolderBay::new(Watched { rt, other, names }, path);
    let begun = bay.begin_step(b"t0").is_ok();
    let told = is_text(rt.alloc(), bay.last_fault(), fault);
    Ok((told && begun == fault.is_empty(), count_in(rt, SHARED)))
}

#[test]
fn a_lock_file_that_is_exchanged_before_it_is_locked_is_another_runs(
    rt: HostRuntime,
) -> Result<(), Fail> {
    let want = "seized/t0.lock: another run is writing this step";
    assert!(rt; begins(&rt, Other::Relocks, want)? == (true, 0));
    fs::remove_dir_all(&rt, "seized")?;
    Ok(())
}

#[test]
fn a_name_that_is_taken_gives_another_also_where_the_folder_of_all_goes(
    rt: HostRuntime,
) -> Result<(), Fail> {
    assert!(rt; begins(&rt, Other::TakesNames, "")? == (true, 1));
    assert!(rt; count_in(&rt, "seized") == 0);
    fs::remove_dir_all(&rt, "seized")?;
    Ok(())
}
