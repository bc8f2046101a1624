ghost use Rattle.std.specs.Prelude.{◌≡◌, ◌↔◌, IsErr, IfOk, OnOk, OnErr, is_ok};
ghost use Rattle.idx_outside.specs.Cause.{counted, NeverFalls, Rose};
ghost use Rattle.idx_memory.specs.Memory.{untouched, NextFails, after_call};

use idx_outside::{NoMemory, Outage};
use std::alloc::Global;
use std::marker::Model;

/// Which calls of a form in memory are to fail, and how many calls and faults there were.
#[derive(Drop)]
pub(crate) struct FaultScript {
    fails: Vec<u64>,
    calls: u64,
    faults: u64,
}

impl Model for FaultScript {
    ghost use Rattle.idx_memory.specs.Memory.{FaultState};

    ghost Value = { FaultState };

    ghost view = { λ s. record { fails = s.fails.items; calls = s.calls; faults = s.faults } };
}

impl FaultScript {
    /// `fails` are the numbers of the calls that are to fail, from 1.
    pub(crate) fn new(fails: Vec<u64>) -> FaultScript
        ensures { result ≡ untouched fails.items }
    {
        FaultScript {
            fails,
            calls: 0,
            faults: 0,
        }
    }

    pub(crate) fn copy(&self, alloc: Global) -> Result<FaultScript, NoMemory>
        ensures { IfOk result (λ script. script ≡ self.now) }
    {
        Ok(FaultScript {
            fails: Vec::from_slice(alloc, self.fails.as_slice())?,
            calls: self.calls,
            faults: self.faults,
        })
    }

    /// Counts a call, and a fault where this call is to fail.
    pub(crate) fn call(&mut self) -> Result<(), Outage>
        ensures fails { IsErr result ↔ NextFails self.old }
        ensures state { self.new ≡ after_call (is_ok result) self.old }
        ensures count { NeverFalls self.old.faults self.new.faults }
        ensures quiet { OnOk result (self.new.faults ≡ self.old.faults) }
        ensures cause { OnErr result (Rose self.old.faults self.new.faults) }
    {
        self.calls = self.calls.saturating_add(1);
        if self.fails.contains(&self.calls) {
            self.faults = self.faults.saturating_add(1);
            return Err(Outage);
        }
        Ok(())
    }

    /// Counts a fault of a call that was counted already.
    pub(crate) fn fault(&mut self) -> Outage
        ensures state { self.new ≡ record self.old { faults = counted self.old.faults } }
        ensures cause { Rose self.old.faults self.new.faults }
    {
        self.faults = self.faults.saturating_add(1);
        Outage
    }

    pub(crate) fn faults(&self) -> u64
        ensures { result ≡ self.now.faults }
    {
        self.faults
    }
}
