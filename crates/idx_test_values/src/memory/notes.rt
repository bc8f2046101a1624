//! What a server says while it runs.
use idx_progress::{Naming, Note, NotedPaths};
use idx_real::{Fault, Reason};
use std::alloc::AllocError;
use std::test::Fail;

#[test]
fn a_note_is_one_line(rt: HostRuntime) -> Result<(), Fail> {
    let fault = Fault {
        path: "a\nb",
        reason: Reason::NotRegularFile,
    };
    for (note, want) in [
        (
            Note::CannotRead(fault),
            "  cannot read a\\nb: not a regular file",
        ),
        (
            Note::More,
            "  cannot read further files, which are not named",
        ),
        (
            Note::WorkerEnded(fault),
            "  a worker thread has ended: a\\nb: not a regular file",
        ),
        (
            Note::Published("time\t7"),
            "  published the step in time\\t7",
        ),
    ] {
        let text = format!(in rt.alloc(); "{note}")?;
        assert!(rt; text.as_str() == want);
    }
    Ok(())
}

/// How many of so many paths are named, each in its turn.
fn named(rt: &HostRuntime, paths: &NotedPaths, count: u32) -> Result<u32, AllocError> {
    let mut named = 0u32;
    for number in 0..count {
        let path = format!(in rt.alloc(); "{number}")?;
        if paths.note(path.as_str()) == Naming::Name {
            named = named.saturating_add(1);
        }
    }
    Ok(named)
}

#[test]
fn each_path_is_named_once_and_so_many_at_most(rt: HostRuntime) -> Result<(), Fail> {
    let paths = NotedPaths::new(rt.alloc())?;
    for (count, want) in [(2, 2), (2, 0), (64, 62), (64, 0)] {
        assert!(rt; named(&rt, &paths, count)? == want);
    }
    for want in [Naming::More, Naming::Nothing] {
        assert!(rt; paths.note("one more") == want);
    }
    Ok(())
}
