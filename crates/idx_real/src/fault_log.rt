ghost use Rattle.std.specs.Prelude.{◌≡◌, ◌↔◌, ◌<◌, None, Some, Ok, IsSome, IsErr, IfOk, IfErr, OnErr};
ghost use Rattle.idx_real.specs.Faults.{no_faults};
ghost use Rattle.idx_outside.specs.Cause.{counted, NeverFalls, Rose};

use crate::Reason;
use idx_outside::Outage;
use std::marker::Model;

/// How many faults an object of the outside counted, and why the last one came.
#[derive(Drop)]
pub(crate) struct FaultLog {
    faults: u64,
    last: Option<Reason>,
}

impl Model for FaultLog {
    ghost use Rattle.std.specs.Prelude.{◌↔◌, ◌<◌, IsSome};
    ghost use Rattle.idx_real.specs.Faults.{Faults};

    ghost Value = { Faults };

    ghost view = { λ l. record { count = l.faults; last = l.last } };

    ghost invariant = { λ l. IsSome l.last ↔ (0 < l.faults) };
}

impl FaultLog {
    /// No fault yet.
    pub(crate) fn new() -> FaultLog
        ensures { result ≡ no_faults }
    {
        FaultLog {
            faults: 0,
            last: None,
        }
    }

    /// Hands on what a call found. Where the call failed, that is one fault, and its reason is kept.
    pub(crate) fn answer<T: Drop>(&mut self, found: Result<T, Reason>) -> Result<T, Outage>
        ensures ok { IfOk found (λ value. (result ≡ Ok value) × (self.new ≡ self.old)) }
        ensures err { IfErr found (λ reason. IsErr result
            × (self.new ≡ record { count = counted self.old.count; last = Some reason })) }
        ensures cause { OnErr result (Rose self.old.count self.new.count) }
        ensures count { NeverFalls self.old.count self.new.count }
    {
        match found {
            Ok(value) => Ok(value),
            Err(reason) => Err(self.fault(reason)),
        }
    }

    /// Counts a fault, and keeps its reason.
    pub(crate) fn fault(&mut self, reason: Reason) -> Outage
        ensures state { self.new ≡ record { count = counted self.old.count; last = Some reason } }
        ensures cause { Rose self.old.count self.new.count }
        ensures count { NeverFalls self.old.count self.new.count }
    {
        self.faults = self.faults.saturating_add(1);
        self.last = Some(reason);
        Outage
    }

    pub(crate) fn faults(&self) -> u64
        ensures { result ≡ self.now.count }
    {
        self.faults
    }

    /// Why the last fault came; `None` exactly where there was none.
    pub(crate) fn last(&self) -> Option<Reason>
        ensures value { result ≡ self.now.last }
        ensures some { IsSome result ↔ (0 < self.now.count) }
    {
        self.last
    }
}
