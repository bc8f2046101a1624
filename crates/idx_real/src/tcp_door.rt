ghost use Rattle.std.specs.Prelude.{◌≡◌, ◌↔◌, ◌<◌, None, Some, IsSome, IsNone, IsOk, is_ok, IfSome, IfOk, OnOk, OnErr, option_map, if◌then◌else◌};
ghost use Rattle.std.specs.Arc.{arc_value};
ghost use Rattle.idx_outside.specs.Cause.{counted, NeverFalls, Rose};
ghost use Rattle.idx_real.specs.DoorState.{one_less};
ghost use Rattle.idx_real.specs.Faults.{no_faults};
ghost use Rattle.idx_real.specs.LinkState.{most_read};

use crate::fault_log::FaultLog;
use crate::pauses::{Pauses, passes};
use crate::{Fault, Patience, Reason, SharedListener, Sockets, TcpLink};
use idx_outside::{Door, Outage, Served};
use std::alloc::Global;
use std::io::{self, ErrorKind, Read, Write};
use std::marker::Model;
use std::net::{OpenListener, OpenStream, TcpListener, TcpStream};
use std::sync::Arc;
use std::thread;
use std::time::Clock;

/// How many answers of the system other than a connection are passed over at most in one call.
const MOST_PASSED_OVER: u32 = 1_000;

/// A door over TCP, of which nothing is known. It listens at an address that other doors may share. A contract sees the
/// bytes of the address, how many links it still hands out, and the faults.
///
/// Each is one fault: what is no socket address, one that cannot be listened at, as where another program does, and an
/// answer of the system to `accept` other than a connection. A connection that its peer gave up meanwhile is passed
/// over; an answer that passes by itself, as that of too many open files, is a fault only where it comes for as long as the
/// door's patience lasts.
#[derive(Drop)]
pub struct TcpDoor<R: Sockets> {
    rt: R,
    shared: Arc<SharedListener, Global>,
    listener: Option<TcpListener>,
    left: Option<u64>,
    patience: Patience,
    log: FaultLog,
}

impl<R: Sockets> Model for TcpDoor<R> {
    ghost use Rattle.std.specs.Arc.{arc_value};
    ghost use Rattle.idx_real.specs.DoorState.{DoorState};

    ghost Value = { DoorState };

    ghost view = { λ s. record { address = arc_value s.shared; left = s.left; faults = s.log } };
}

impl<R: Sockets> TcpDoor<R> {
    /// A door that hands out `links` connections, or, at `None`, as many as come. Opens nothing yet and takes no
    /// memory.
    pub fn new(
        rt: R,
        shared: Arc<SharedListener, Global>,
        links: Option<u64>,
        patience: Patience,
    ) -> TcpDoor<R>
        ensures { result ≡ record { address = arc_value shared; left = links; faults = no_faults } }
    {
        TcpDoor {
            rt,
            shared,
            listener: None,
            left: links,
            patience,
            log: FaultLog::new(),
        }
    }

    /// The last fault, with the address and the reason; `None` exactly where no fault was counted.
    pub fn last_fault(&self) -> Option<Fault<'_>>
        ensures path { IfSome result (λ fault. fault.path.now ≡ self.now.address) }
        ensures reason { option_map (λ fault. fault.reason) result ≡ self.now.faults.last }
        ensures some { IsSome result ↔ (0 < self.now.faults.count) }
    {
        let path = self.shared.address();
        self.log.last().map(|reason| Fault { path, reason })
    }

    /// The next connection.
    fn next(&mut self) -> Result<TcpLink<TcpStream, R>, Reason>
        ensures fresh { IfOk result (λ link. link.faults ≡ no_faults) }
        ensures unread { IfOk result (λ link. link.left ≡ most_read) }
        ensures same { self.new ≡ self.old }
    {
        let listener = opened(&self.rt, &self.shared, &mut self.listener)?;
        accept_link(self.rt, listener, self.patience)
    }

    /// Whether the address is listened at.
    pub fn listens(&self) -> bool {
        self.shared.listens()
    }
}

impl<R: Sockets> Door for TcpDoor<R> {
    type Link = TcpLink<TcpStream, R>;

    ghost told = { λ _. None };

    ghost faults = { λ s. s.faults.count };

    fn accept(&mut self) -> Result<Option<TcpLink<TcpStream, R>>, Outage>
        ensures none { IfOk result (λ next. IsNone next ↔ (self.old.left ≡ Some 0)) }
        ensures ended { self.old.left ≡ Some 0 → IsOk result }
        ensures fresh { IfOk result (λ next. IfSome next (λ link. link.faults ≡ no_faults)) }
        ensures unread { IfOk result (λ next. IfSome next (λ link. link.left ≡ most_read)) }
        ensures address { self.new.address ≡ self.old.address }
        ensures left { self.new.left ≡ (if is_ok result then one_less self.old.left else self.old.left) }
        ensures quiet { OnOk result (self.new.faults ≡ self.old.faults) }
        ensures err { OnErr result (self.new.faults.count ≡ counted self.old.faults.count) }
        ensures count { NeverFalls self.old.faults.count self.new.faults.count }
        ensures cause { OnErr result (Rose self.old.faults.count self.new.faults.count) }
    {
        if self.left == Some(0) {
            return Ok(None);
        }
        let found = self.next();
        let link = self.log.answer(found)?;
        self.left = self.left.map(|count| count.saturating_sub(1));
        Ok(Some(link))
    }

    /// Shuts the write side, and drops the link and its entries.
    fn finish(&mut self, link: TcpLink<TcpStream, R>, _served: Vec<Served>)
        ensures { self.new ≡ self.old }
    {
        link.end();
    }

    fn faults(&self) -> u64 {
        self.log.faults()
    }
}

/// The door's own handle of the listener, which is opened if it is not open yet.
fn opened<'l, R: Sockets>(
    rt: &R,
    shared: &SharedListener,
    listener: &'l mut Option<TcpListener>,
) -> Result<&'l TcpListener, Reason> {
    match listener {
        Some(listener) => Ok(listener),
        None => Ok(listener.insert(shared.handle(rt)?)),
    }
}

/// The next connection of a listener that its peer has not given up. Answers of the system that pass by themselves are
/// waited for, a little longer each time, as long as the patience lasts.
pub fn accept_link<L: OpenListener, R: Clock + Copy>(
    rt: R,
    listener: &L,
    patience: Patience,
) -> Result<TcpLink<L::Stream, R>, Reason>
where
    L::Stream: Read + Write + OpenStream + Drop,
    ensures fresh { IfOk result (λ link. link.faults ≡ no_faults) }
    ensures unread { IfOk result (λ link. link.left ≡ most_read) }
{
    let mut pauses = Pauses::within(patience.refusals);
    let mut given_up = io::Error::from(ErrorKind::ConnectionAborted);
    for _ in 0..MOST_PASSED_OVER {
        match listener.accept() {
            Ok((stream, _)) => match TcpLink::begin(rt, stream, patience) {
                Ok(link) => return Ok(link),
                Err(error) => given_up = error,
            },
            Err(error) => {
                pass_over(&rt, &mut pauses, error)?;
                given_up = error;
            }
        }
    }
    Err(Reason::System(given_up))
}

/// Passes over what the system said in place of a connection: at once where a peer gave it up, after a pause where it passes
/// by itself and a pause is left. Anything else is why the call fails.
fn pass_over<R: Clock>(rt: &R, pauses: &mut Pauses, error: io::Error) -> Result<(), Reason> {
    if error.kind() == ErrorKind::ConnectionAborted {
        return Ok(());
    }
    if passes(&error)
        && let Some(pause) = pauses.next()
    {
        thread::sleep(rt, pause);
        return Ok(());
    }
    Err(Reason::from(error))
}
