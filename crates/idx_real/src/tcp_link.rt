ghost use Rattle.std.specs.Prelude.{◌≡◌, ◌↔◌, ◌+◌, ◌*◌, ◌/◌, ◌^◌, ◌<◌, ◌≤◌, None, Ok, IsSome, IfOk, OnOk, OnErr, false, min, nat_eq, length, take};
ghost use Rattle.std.specs.Duration.{as_nanos, max_nanos};
ghost use Rattle.std.specs.Io.KnownBytes.{Appends, ReadConsumes};
ghost use Rattle.idx_outside.specs.Cause.{counted, NeverFalls, Rose};
ghost use Rattle.idx_real.specs.Faults.{no_faults};
ghost use Rattle.idx_real.specs.LinkState.{most_read, ReadsAsBefore};

use crate::fault_log::FaultLog;
use crate::{Patience, Reason};
use idx_outside::{Link, Outage};
use std::io::{self, ErrorKind, Read, Write};
use std::marker::Model;
use std::net::{OpenStream, Shutdown};
use std::time::{Clock, Duration, Instant};

/// How many bytes of a link are read at most; behind them its input ends. Whoever serves a link keeps the targets of its
/// heads as long as it lasts, so this bounds the memory that a peer can take.
const MOST_READ: usize = 8 * 1024 * 1024;

/// About how many bytes are dropped at most of what a peer still sends at the end: with the last piece it may be up to 4,095
/// more.
const MOST_DROPPED: usize = 65_536;

/// How many bytes a MiB has.
const MIB: usize = 1024 * 1024;

/// How often a read or a write is made again at most that a signal interrupted.
const MOST_INTERRUPTED: u32 = 1_000;

/// A connection over TCP, of which nothing is known. Pieces are sent at once, each in its time. Its input ends where its peer
/// ends it, and behind 8 MiB. A contract sees the stream, how much is still read of it, whether it has ended, how long a
/// read waits and the faults.
///
/// Each is one fault: a peer that is gone, one that lets the link wait longer than its patience or takes a piece too slowly,
/// and any other answer of the system to a read or a write but bytes and the end of the input.
#[derive(Drop)]
pub struct TcpLink<S: Read + Write + OpenStream + Drop, R: Clock + Drop> {
    rt: R,
    stream: S,
    patience: Patience,
    /// How long a read waits, as the system was told.
    waits: Duration,
    /// When the last piece was written, or the link began.
    since: Instant,
    /// How many bytes are still read at most.
    left: usize,
    /// Whether the stream has ended.
    ended: bool,
    log: FaultLog,
}

impl<S: Read + Write + OpenStream + Drop, R: Clock + Drop> Model for TcpLink<S, R> {
    ghost use Rattle.idx_real.specs.LinkState.{LinkState};

    ghost Value = { LinkState S };

    ghost view = { λ s. record {
      stream = s.stream;
      left = s.left;
      ended = s.ended;
      waits = s.waits;
      faults = s.log;
    } };
}

impl<S: Read + Write + OpenStream + Drop, R: Clock + Drop> TcpLink<S, R> {
    /// A connection that begins now.
    pub(crate) fn begin(rt: R, stream: S, patience: Patience) -> io::Result<TcpLink<S, R>>
        ensures { IfOk result (λ link. link ≡ record {
          stream = stream;
          left = most_read;
          ended = false;
          waits = patience.silence;
          faults = no_faults;
        }) }
    {
        stream.set_nodelay(true)?;
        stream.set_read_timeout(Some(patience.silence))?;
        stream.set_write_timeout(Some(patience.silence))?;
        let since = Instant::now(&rt)?;
        Ok(TcpLink {
            rt,
            stream,
            patience,
            waits: patience.silence,
            since,
            left: MOST_READ,
            ended: false,
            log: FaultLog::new(),
        })
    }

    /// Why the last fault came; `None` exactly where there was none.
    pub fn last_fault(&self) -> Option<Reason>
        ensures reason { result ≡ self.now.faults.last }
        ensures some { IsSome result ↔ (0 < self.now.faults.count) }
    {
        self.log.last()
    }

    /// Ends the connection. Where the stream has not ended and no fault was counted, the write side is shut first, and
    /// what the peer still sends is read and dropped, up to a limit and for no longer than its time, so that the last
    /// piece is not lost to a reset.
    pub(crate) fn end(mut self) {
        if self.ended || self.log.faults() > 0 || self.stream.shutdown(Shutdown::Write).is_err() {
            return;
        }
        let mut piece = [0u8; 4096];
        let mut left = MOST_DROPPED;
        for _ in 0..MOST_DROPPED {
            match self.read_in_time(&mut piece) {
                Ok(count) if 0 < count && count < left => left -= count,
                _ => return,
            }
        }
    }

    /// The time until the next piece has to be written.
    fn time_left(&self) -> Result<Duration, Reason> {
        let spent = self.since.elapsed(&self.rt)?;
        match self.patience.turn.checked_sub(spent) {
            Some(left) if !left.is_zero() => Ok(left),
            _ => Err(Reason::TooSlow),
        }
    }

    /// Lets a read wait so long and no longer.
    fn wait_at_most(&mut self, time: Duration) -> Result<(), Reason>
        ensures waits { OnOk result (self.new ≡ record self.old { waits = time }) }
        ensures refused { OnErr result (self.new ≡ self.old) }
    {
        if self.waits != time {
            self.stream.set_read_timeout(Some(time))?;
            self.waits = time;
        }
        Ok(())
    }

    /// Reads once, for no longer than the peer has time.
    fn read_in_time(&mut self, into: &mut [u8]) -> Result<usize, Reason>
        requires { 0 < length into.old }
        ensures within { IfOk result (λ n. n ≤ length into.old) }
        ensures read { ReadConsumes (S.remaining self.old.stream) (S.remaining self.new.stream) result into.new }
        ensures ended { IfOk result (λ n. self.new.ended ≡ nat_eq n 0) }
        ensures not_ended { OnErr result (self.new.ended ≡ self.old.ended) }
        ensures left { self.new.left ≡ self.old.left }
        ensures faults { self.new.faults ≡ self.old.faults }
    {
        let left = self.time_left()?;
        let silence = self.patience.silence;
        self.wait_at_most(left.min(silence))?;
        let late = if left < silence {
            Reason::TooSlow
        } else {
            Reason::Silent
        };
        match read_once(&mut self.stream, into) {
            Ok(count) => {
                self.ended = count == 0;
                Ok(count)
            }
            Err(error) => Err(reason_of(error, late)),
        }
    }

    /// Reads once, no more than may still be read.
    fn read_allowed(&mut self, into: &mut [u8]) -> Result<usize, Reason>
        requires some { 0 < length into.old }
        requires allowed { 0 < self.old.left }
        ensures within { IfOk result (λ n. n ≤ length into.old) }
        ensures read { ReadConsumes (S.remaining self.old.stream) (S.remaining self.new.stream) result into.new }
        ensures ended { IfOk result (λ n. self.new.ended ≡ nat_eq n 0) }
        ensures not_ended { OnErr result (self.new.ended ≡ self.old.ended) }
        ensures left { IfOk result (λ n. self.new.left + n ≡ self.old.left) }
        ensures kept { OnErr result (self.new.left ≡ self.old.left) }
        ensures faults { self.new.faults ≡ self.old.faults }
    {
        let most = into.len().min(self.left);
        let count = self.read_in_time(&mut into[..most])?;
        self.left -= count;
        Ok(count)
    }

    /// Writes the whole piece in its time, and begins the time to the next.
    fn write_whole(&mut self, piece: &[u8]) -> Result<(), Reason>
        ensures taken { OnOk result (Appends (S.contents self.old.stream) (S.contents self.new.stream) piece.now) }
        ensures input { ReadsAsBefore self.old self.new }
        ensures faults { self.new.faults ≡ self.old.faults }
    {
        write_in_time(&self.rt, &mut self.stream, self.patience.piece, piece)?;
        self.since = Instant::now(&self.rt)?;
        Ok(())
    }
}

impl<S: Read + Write + OpenStream + Drop, R: Clock + Drop> Link for TcpLink<S, R> {
    ghost incoming = { λ _. None };

    ghost written = { λ _. None };

    ghost readings = { λ _. None };

    ghost faults = { λ s. s.faults.count };

    fn read(&mut self, into: &mut [u8]) -> Result<usize, Outage>
        requires { 0 < length into.old }
        ensures within { IfOk result (λ n. n ≤ length into.old) }
        ensures read { 0 < self.old.left
            → ReadConsumes (S.remaining self.old.stream) (S.remaining self.new.stream) result into.new }
        ensures over { self.old.left ≡ 0 → (result ≡ Ok 0) × (self.new ≡ self.old) }
        ensures left { IfOk result (λ n. self.new.left + n ≡ self.old.left) }
        ensures kept { OnErr result (self.new.left ≡ self.old.left) }
        ensures ended { 0 < self.old.left → IfOk result (λ n. self.new.ended ≡ nat_eq n 0) }
        ensures not_ended { OnErr result (self.new.ended ≡ self.old.ended) }
        ensures quiet { OnOk result (self.new.faults ≡ self.old.faults) }
        ensures err { OnErr result (self.new.faults.count ≡ counted self.old.faults.count) }
        ensures count { NeverFalls self.old.faults.count self.new.faults.count }
        ensures cause { OnErr result (Rose self.old.faults.count self.new.faults.count) }
    {
        if self.left == 0 {
            return Ok(0);
        }
        let found = self.read_allowed(into);
        self.log.answer(found)
    }

    fn write(&mut self, piece: &[u8]) -> Result<(), Outage>
        ensures taken { OnOk result (Appends (S.contents self.old.stream) (S.contents self.new.stream) piece.now) }
        ensures input { ReadsAsBefore self.old self.new }
        ensures quiet { OnOk result (self.new.faults ≡ self.old.faults) }
        ensures err { OnErr result (self.new.faults.count ≡ counted self.old.faults.count) }
        ensures count { NeverFalls self.old.faults.count self.new.faults.count }
        ensures cause { OnErr result (Rose self.old.faults.count self.new.faults.count) }
    {
        let taken = self.write_whole(piece);
        self.log.answer(taken)
    }

    fn faults(&self) -> u64 {
        self.log.faults()
    }
}

/// Reads once, and again where a signal interrupted the call.
fn read_once<S: Read>(stream: &mut S, into: &mut [u8]) -> io::Result<usize>
    ensures within { IfOk result (λ n. n ≤ length into.old) }
    ensures read { ReadConsumes (S.remaining stream.old) (S.remaining stream.new) result into.new }
{
    for again in 0..MOST_INTERRUPTED {
        match stream.read(into) {
            Err(error) if error.kind() == ErrorKind::Interrupted => {}
            ended => return ended,
        }
    }
    Err(io::Error::from(ErrorKind::Interrupted))
}

/// Writes the whole piece, for no longer than this time and as long again for each whole MiB of it that is taken.
fn write_in_time<S: Write, R: Clock>(
    rt: &R,
    stream: &mut S,
    each: Duration,
    piece: &[u8],
) -> Result<(), Reason>
    ensures taken { OnOk result (Appends (S.contents stream.old) (S.contents stream.new) piece.now) }
{
    let since = Instant::now(rt)?;
    let mut rest = piece;
    for part in 0..=piece.len() {
        if rest.is_empty() {
            return Ok(());
        }
        let count = write_once(stream, rest)?;
        rest = &rest[count..];
        in_time(rt, since, each, piece, rest)?;
    }
    Err(Reason::System(io::Error::from(ErrorKind::WriteZero)))
}

/// Whether there is time for the rest of a piece; for nothing there always is.
fn in_time<R: Clock>(
    rt: &R,
    since: Instant,
    each: Duration,
    piece: &[u8],
    rest: &[u8],
) -> Result<(), Reason> {
    let written = piece.len().saturating_sub(rest.len());
    if !rest.is_empty() && time_to_write(each, written) <= since.elapsed(rt)? {
        return Err(Reason::TakesSlowly);
    }
    Ok(())
}

/// How long the write of a piece may take of which so many bytes are taken.
fn time_to_write(each: Duration, written: usize) -> Duration
    ensures { written / 1_048_576 + 1 < 2 ^ 32
        → as_nanos result ≡ min (as_nanos each * (written / 1_048_576 + 1)) max_nanos }
{
    match u32::try_from(written / MIB + 1) {
        Ok(times) => each.saturating_mul(times),
        Err(_) => Duration::MAX,
    }
}

/// Writes once, and again where a signal interrupted the call: one byte at least.
fn write_once<S: Write>(stream: &mut S, piece: &[u8]) -> Result<usize, Reason>
    ensures within { IfOk result (λ n. n ≤ length piece.now) }
    ensures taken { IfOk result (λ n. Appends (S.contents stream.old) (S.contents stream.new) (take n piece.now)) }
{
    for again in 0..MOST_INTERRUPTED {
        match stream.write(piece) {
            Ok(0) => return Err(Reason::System(io::Error::from(ErrorKind::WriteZero))),
            Ok(count) => return Ok(count),
            Err(error) if error.kind() == ErrorKind::Interrupted => {}
            Err(error) => return Err(reason_of(error, Reason::Silent)),
        }
    }
    Err(Reason::System(io::Error::from(ErrorKind::Interrupted)))
}

/// Why a call failed, where it is late for this reason once its time is over.
fn reason_of(error: io::Error, late: Reason) -> Reason {
    match error.kind() {
        ErrorKind::WouldBlock | ErrorKind::TimedOut => late,
        _ => Reason::System(error),
    }
}
