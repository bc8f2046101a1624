//! A listener that refuses at first, the links that it gives then, which take a part of a piece at a time, and a clock that goes
//! on by itself.
use super::*;
use idx_outside::Link;
use std::io::{Read, Write};
use std::net::{OpenListener, OpenStream, SocketAddr};
use std::sync::atomic::{AtomicU64, Ordering};
use std::time::{Clock, Duration};

/// A clock that goes on by a second whenever it is read, and by each sleep.
#[derive(Clone, Copy)]
struct Stepping<'a> {
    millis: &'a AtomicU64,
}

impl Clock for Stepping<'_> {
    fn monotonic(&self) -> io::Result<Duration> {
        Ok(Duration::from_millis(self.millis.fetch_add(1_000, Ordering::SeqCst)))
    }

    fn since_1970(&self) -> io::Result<Duration> {
        Ok(Duration::from_secs(0))
    }

    fn sleep(&self, duration: Duration) {
        let millis = u64::try_from(duration.as_millis()).unwrap_or(u64::MAX);
        self.millis.fetch_add(millis, Ordering::SeqCst);
    }
}

/// A stream that takes so many bytes at once.
#[derive(Drop)]
struct Taking<'a> {
    part: usize,
    taken: &'a AtomicU64,
}

impl Read for Taking<'_> {
    fn read(&mut self, _into: &mut [u8]) -> io::Result<usize> {
        Ok(0)
    }
}

impl Write for Taking<'_> {
    fn write(&mut self, piece: &[u8]) -> io::Result<usize> {
        let count = piece.len().min(self.part);
        self.taken.fetch_add(count as u64, Ordering::SeqCst);
        Ok(count)
    }

    fn flush(&mut self) -> io::Result<()> {
        Ok(())
    }
}

impl OpenStream for Taking<'_> {
    fn set_nodelay(&self, _nodelay: bool) -> io::Result<()> {
        Ok(())
    }

    fn set_read_timeout(&self, _time: Option<Duration>) -> io::Result<()> {
        Ok(())
    }

    fn set_write_timeout(&self, _time: Option<Duration>) -> io::Result<()> {
        Ok(())
    }
}

/// A listener that answers so many calls with this error of the system, and gives then streams that take so many bytes at
/// once.
#[derive(Drop)]
struct Refusing<'a> {
    code: i32,
    calls: &'a AtomicU64,
    refused: u64,
    part: usize,
    taken: &'a AtomicU64,
    peer: SocketAddr,
}

impl<'a> OpenListener for Refusing<'a> {
    type Stream = Taking<'a>;

    fn accept(&self) -> io::Result<(Taking<'a>, SocketAddr)> {
        if self.calls.fetch_add(1, Ordering::SeqCst) < self.refused {
            return Err(io::Error::from_raw_os_error(self.code));
        }
        let stream = Taking {
            part: self.part,
            taken: self.taken,
        };
        Ok((stream, self.peer))
    }
}

/// How long a server waits for connections, and for the write of a piece and of each MiB of it.
fn patience(refusals: u64, piece: u64) -> Patience {
    Patience {
        refusals: Duration::from_millis(refusals),
        piece: Duration::from_millis(piece),
        ..Patience::of_a_server()
    }
}

/// The text of a reason, or none.
fn text_of<T: Drop>(alloc: Global, found: Result<T, Reason>) -> Result<String, Fail> {
    match found {
        Ok(_) => Ok(String::new(alloc)),
        Err(reason) => Ok(format!(in alloc; "{reason}")?),
    }
}

/// How many milliseconds a door waits, and why it gives up, where it does, while the system refuses so often.
fn waits_for(alloc: Global, code: i32, refused: u64, refusals: u64) -> Result<(u64, String), Fail> {
    let (millis, calls, taken) = (AtomicU64::new(0), AtomicU64::new(0), AtomicU64::new(0));
    let listener = Refusing {
        code,
        calls: &calls,
        refused,
        part: 1,
        taken: &taken,
        peer: peer()?,
    };
    let clock = Stepping { millis: &millis };
    let why = text_of(alloc, accept_link(clock, &listener, patience(refusals, 0)))?;
    let read = if why.is_empty() { 1_000 } else { 0 };
    Ok((millis.load(Ordering::SeqCst).saturating_sub(read), why))
}

fn peer() -> Result<SocketAddr, Fail> {
    match "127.0.0.1:1".parse::<SocketAddr>() {
        Ok(address) => Ok(address),
        Err(_) => Err(Fail::from("no address")),
    }
}

/// An error of the system, how often it comes, the bound of the pauses in milliseconds, how long they are all together, and
/// why the door gives up, where it does.
static REFUSALS: [(i32, u64, u64, u64, &str); 6] = [
    (24, 3, 60_000, 70, ""),
    (100, 9, 60_000, 3_270, ""),
    (103, 5, 60_000, 0, ""),
    (24, 900, 25, 25, "Too many open files (os error 24)"),
    (
        101,
        900,
        60_000,
        60_000,
        "Network is unreachable (os error 101)",
    ),
    (22, 1, 60_000, 0, "Invalid argument (os error 22)"),
];

#[test]
fn errors_that_pass_are_waited_for(rt: HostRuntime) -> Result<(), Fail> {
    for &(code, refused, bound, millis, reason) in &REFUSALS {
        let (waited, why) = waits_for(rt.alloc(), code, refused, bound)?;
        assert!(rt; waited == millis && why.as_str() == reason);
    }
    Ok(())
}

/// How many bytes of a piece are taken in so many milliseconds for it and each MiB of it, where a second passes with each
/// part.
fn takes_of(alloc: Global, part: usize, count: usize, piece: u64) -> Result<u64, Fail> {
    let (millis, calls, taken) = (AtomicU64::new(0), AtomicU64::new(0), AtomicU64::new(0));
    let listener = Refusing {
        code: 0,
        calls: &calls,
        refused: 0,
        part,
        taken: &taken,
        peer: peer()?,
    };
    let clock = Stepping { millis: &millis };
    let Ok(mut link) = accept_link(clock, &listener, patience(0, piece)) else {
        return Err(Fail::from("no link"));
    };
    let bytes = vec![in alloc; 7u8; count]?;
    let whole = link.write(bytes.as_slice()).is_ok();
    let found = taken.load(Ordering::SeqCst);
    if whole == (found == count as u64) {
        Ok(found)
    } else {
        Err(Fail::from("a piece was taken in part, or failed whole"))
    }
}

/// How many bytes are taken at once, how many a piece has, and how many of them are taken in five seconds and five more for each
/// MiB.
static PARTS: [(usize, usize, u64); 5] = [
    (10, 50, 50),
    (10, 100, 50),
    (1 << 18, 1 << 22, 1 << 22),
    (1 << 17, 1 << 22, 5 << 17),
    (1 << 23, 1 << 22, 1 << 22),
];

#[test]
fn a_piece_is_written_in_its_time(rt: HostRuntime) -> Result<(), Fail> {
    for &(part, count, taken) in &PARTS {
        assert!(rt; takes_of(rt.alloc(), part, count, 5_000)? == taken);
    }
    Ok(())
}
