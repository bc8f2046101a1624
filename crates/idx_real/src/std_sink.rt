ghost use Rattle.std.specs.Prelude.{◌≡◌, ◌↔◌, ◌<◌, None, IsSome, IfSome, option_map, codes, OnOk, OnErr};
ghost use Rattle.std.specs.Io.KnownBytes.{Appends};
ghost use Rattle.idx_real.specs.Faults.{no_faults};
ghost use Rattle.idx_outside.specs.Cause.{counted, NeverFalls, Rose};

use crate::fault_log::FaultLog;
use crate::{Fault, Reason};
use idx_outside::{Outage, Sink};
use std::io::Write;
use std::marker::Model;

/// Standard output, or another writer of std, as a sink, of which nothing is known. Each piece is written and flushed. A
/// contract sees the writer and the faults.
///
/// A write that fails, as to a pipe that nobody reads, and a flush that fails are each one fault.
#[derive(Drop)]
pub struct StdSink<W: Write + Drop> {
    out: W,
    log: FaultLog,
}

impl<W: Write + Drop> Model for StdSink<W> {
    ghost use Rattle.idx_real.specs.SinkState.{SinkState};

    ghost Value = { SinkState W };

    ghost view = { λ s. record { out = s.out; faults = s.log } };
}

impl<W: Write + Drop> StdSink<W> {
    /// As `StdSink::new(rt.stdout())`. Writes nothing yet and takes no memory.
    pub fn new(out: W) -> StdSink<W>
        ensures { result ≡ record { out = out; faults = no_faults } }
    {
        StdSink {
            out,
            log: FaultLog::new(),
        }
    }

    /// The last fault, with the reason; `None` exactly where no fault was counted. Its path is `standard output`.
    pub fn last_fault(&self) -> Option<Fault<'_>>
        ensures path { IfSome result (λ fault. fault.path.now ≡ codes "standard output") }
        ensures reason { option_map (λ fault. fault.reason) result ≡ self.now.faults.last }
        ensures some { IsSome result ↔ (0 < self.now.faults.count) }
    {
        let path = "standard output";
        self.log.last().map(|reason| Fault { path, reason })
    }
}

impl<W: Write + Drop> Sink for StdSink<W> {
    ghost contents = { λ _. None };

    ghost faults = { λ s. s.faults.count };

    fn write(&mut self, piece: &[u8]) -> Result<(), Outage>
        ensures taken { OnOk result (Appends (W.contents self.old.out) (W.contents self.new.out) piece.now) }
        ensures quiet { OnOk result (self.new.faults ≡ self.old.faults) }
        ensures err { OnErr result (self.new.faults.count ≡ counted self.old.faults.count) }
        ensures count { NeverFalls self.old.faults.count self.new.faults.count }
        ensures cause { OnErr result (Rose self.old.faults.count self.new.faults.count) }
    {
        let taken = write_and_flush(&mut self.out, piece);
        self.log.answer(taken)
    }

    fn faults(&self) -> u64 {
        self.log.faults()
    }
}

// std's `write_all` gives the writer all that is left at each of its calls.
fn write_and_flush<W: Write>(out: &mut W, piece: &[u8]) -> Result<(), Reason>
    ensures { OnOk result (Appends (W.contents out.old) (W.contents out.new) piece.now) }
{
    out.write_all(piece)?;
    Ok(out.flush()?)
}
