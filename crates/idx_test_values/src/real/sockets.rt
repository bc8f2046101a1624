//! Doors and their links over the loopback. The backlog takes a connection before it is accepted, so one thread is both
//! peers.
use super::*;
use idx_outside::{Door, Link};
use std::io::Write;
use std::net::{Net, SocketAddr, TcpStream};
use std::sync::atomic::{AtomicU64, Ordering};
use std::sync::{Arc, Wait};
use std::time::{Clock, Duration};

/// A door at a free port, and a peer that waits there.
fn door_and_peer<R: Sockets>(
    rt: &R,
    alloc: Global,
    patience: Patience,
) -> Result<(TcpDoor<R>, TcpStream), Fail> {
    let address = String::from_str(alloc, "127.0.0.1:0")?;
    let shared = Arc::new(alloc, SharedListener::new(address))?;
    let peer = TcpStream::connect(rt, shared.bind(rt)?)?;
    Ok((TcpDoor::new(*rt, shared, None, patience), peer))
}

fn next_link<D: Door>(door: &mut D) -> Result<D::Link, Fail>
where
    D::Link: Drop,
{
    match door.accept() {
        Ok(Some(link)) => Ok(link),
        Ok(None) => Err(Fail::from("no link is to come")),
        Err(outage) => Err(Fail::from(outage)),
    }
}

/// Writes a piece, and tells whether it was taken.
fn gives<L: Link>(link: &mut L, piece: &[u8]) -> bool {
    link.write(piece).is_ok()
}

/// Reads once, and tells how many bytes came; none where that failed.
fn takes<L: Link>(link: &mut L) -> Option<usize> {
    let mut into = [0u8; 8];
    link.read(&mut into).ok()
}

/// Whether a link has one fault, for this reason.
fn failed_for<R: Clock + Drop>(alloc: Global, link: &TcpLink<TcpStream, R>, reason: &str) -> bool {
    let Some(found) = link.last_fault() else {
        return false;
    };
    match format!(in alloc; "{found}") {
        Ok(text) => link.faults() == 1 && text.as_str() == reason,
        Err(_) => false,
    }
}

const SILENT: &str = "the peer let the link wait for too long";

const SLOW: &str = "the peer sent its bytes too slowly";

const TAKES_SLOWLY: &str = "the peer took the reply too slowly";

/// How a link waits in vain for a silent peer, how many bytes it writes before that, and why it ends. A tenth of a second
/// of silence ends it, also while its peer takes nothing, or a tenth of a second from one reply to the next, or a
/// thousandth of a second for a piece and for each MiB of it.
static VAIN: [((u64, u64, u64), usize, &str); 4] = [
    ((100, 60_000, 60_000), 0, SILENT),
    ((100, 60_000, 60_000), 1 << 25, SILENT),
    ((3_600_000, 100, 60_000), 0, SLOW),
    ((100, 60_000, 1), 1 << 25, TAKES_SLOWLY),
];

/// Whether a link of a door has one fault for this reason since its peer is silent, or takes nothing of a long piece.
fn waits_in_vain<R: Sockets>(
    alloc: Global,
    door: &mut TcpDoor<R>,
    count: usize,
    reason: &str,
) -> Result<bool, Fail> {
    let mut link = next_link(door)?;
    let piece = vec![in alloc; 7u8; count]?;
    let goes_on = if count == 0 {
        takes(&mut link).is_some()
    } else {
        gives(&mut link, piece.as_slice())
    };
    Ok(!goes_on && failed_for(alloc, &link, reason))
}

#[test]
fn a_link_ends_whose_peer_lets_it_wait(rt: HostRuntime) -> Result<(), Fail> {
    for &((silence, turn, piece), count, reason) in &VAIN {
        let patience = Patience {
            silence: Duration::from_millis(silence),
            turn: Duration::from_millis(turn),
            piece: Duration::from_millis(piece),
            ..Patience::of_a_server()
        };
        let (mut door, _peer) = door_and_peer(&rt, rt.alloc(), patience)?;
        assert!(rt; waits_in_vain(rt.alloc(), &mut door, count, reason)?);
    }
    Ok(())
}

/// Writes again and again, until a write fails.
fn gives_until_refused<L: Link>(link: &mut L) -> bool {
    for _ in 0..100 {
        if !gives(link, b"piece") {
            return true;
        }
    }
    false
}

/// Whether a link of a door has one fault once its peer is gone, which the system tells in two ways.
fn fails_once<R: Sockets>(
    alloc: Global,
    door: &mut TcpDoor<R>,
    peer: TcpStream,
) -> Result<bool, Fail> {
    let mut link = next_link(door)?;
    drop(peer);
    let refused = gives_until_refused(&mut link);
    let is_known = failed_for(alloc, &link, "Broken pipe (os error 32)")
        || failed_for(alloc, &link, "Connection reset by peer (os error 104)");
    Ok(refused && is_known)
}

#[test]
fn a_peer_that_is_gone_is_a_fault(rt: HostRuntime) -> Result<(), Fail> {
    let (mut door, peer) = door_and_peer(&rt, rt.alloc(), Patience::of_a_server())?;
    assert!(rt; fails_once(rt.alloc(), &mut door, peer)?);
    Ok(())
}

/// The system with a clock that goes on by a second whenever it is read, and fails at this second.
#[derive(Clone, Copy)]
struct Ticking<'a, R: Copy> {
    rt: R,
    seconds: &'a AtomicU64,
    fails_at: Option<u64>,
}

impl<R: Net + Copy> Net for Ticking<'_, R> {
    type Stream = R::Stream;

    type Listener = R::Listener;

    fn bind(&self, address: SocketAddr) -> io::Result<R::Listener> {
        self.rt.bind(address)
    }

    fn connect(&self, address: SocketAddr) -> io::Result<R::Stream> {
        self.rt.connect(address)
    }
}

impl<R: Copy> Clock for Ticking<'_, R> {
    fn monotonic(&self) -> io::Result<Duration> {
        let second = self.seconds.fetch_add(1, Ordering::SeqCst);
        if self.fails_at == Some(second) {
            return Err(io::Error::from(io::ErrorKind::Other));
        }
        Ok(Duration::from_secs(second))
    }

    fn since_1970(&self) -> io::Result<Duration> {
        Ok(Duration::from_secs(0))
    }
}

impl<R: Wait + Copy> Wait for Ticking<'_, R> {}

/// How often a byte a second comes in time after a reply, at most a hundred times.
fn bytes_in_time<L: Link>(link: &mut L, peer: &mut TcpStream) -> Result<u32, Fail> {
    peer.write_all(b"x")?;
    if takes(link) != Some(1) || !gives(link, b"reply") {
        return Err(Fail::from("no first byte"));
    }
    for count in 0..100 {
        peer.write_all(b"x")?;
        if takes(link).is_none() {
            return Ok(count);
        }
    }
    Ok(100)
}

/// Whether a peer that sends a byte a second is too slow once a minute is over.
fn is_too_slow<R: Sockets>(
    alloc: Global,
    door: &mut TcpDoor<R>,
    peer: &mut TcpStream,
) -> Result<bool, Fail> {
    let mut link = next_link(door)?;
    Ok(bytes_in_time(&mut link, peer)? == 59 && failed_for(alloc, &link, SLOW))
}

#[test]
fn a_slow_peer_has_a_minute_from_reply_to_reply(rt: HostRuntime) -> Result<(), Fail> {
    let seconds = AtomicU64::new(0);
    let ticking = Ticking {
        rt,
        seconds: &seconds,
        fails_at: None,
    };
    let (mut door, mut peer) = door_and_peer(&ticking, rt.alloc(), Patience::of_a_server())?;
    assert!(rt; is_too_slow(rt.alloc(), &mut door, &mut peer)?);
    Ok(())
}

/// Whether a door passes over a peer whose connection cannot begin, and gives the one behind it.
fn passes_over<R: Sockets>(rt: &R, door: &mut TcpDoor<R>, peer: &TcpStream) -> Result<bool, Fail> {
    let mut next = TcpStream::connect(rt, peer.peer_addr()?)?;
    next.write_all(b"next")?;
    let mut link = next_link(door)?;
    Ok(takes(&mut link) == Some(4) && door.faults() == 0)
}

#[test]
fn a_connection_that_cannot_begin_is_passed_over(rt: HostRuntime) -> Result<(), Fail> {
    let seconds = AtomicU64::new(0);
    let ticking = Ticking {
        rt,
        seconds: &seconds,
        fails_at: Some(0),
    };
    let (mut door, peer) = door_and_peer(&ticking, rt.alloc(), Patience::of_a_server())?;
    assert!(rt; passes_over(&ticking, &mut door, &peer)?);
    Ok(())
}
