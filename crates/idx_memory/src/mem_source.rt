ghost use Rattle.std.specs.Prelude.{◌≡◌, ◌↔◌, ◌+◌, ◌≤◌, length, take, drop, Some, IsErr, is_ok, IfOk, OnOk, OnErr};
ghost use Rattle.idx_outside.specs.Cause.{NeverFalls, Rose};
ghost use Rattle.idx_memory.specs.Memory.{untouched, more, NextFails, after_call};

use crate::fault_script::FaultScript;
use crate::range::copy_range;
use idx_outside::{Bytes, Outage, Source};
use std::marker::Model;

/// A source in memory, whose bytes are known. Its calls `len` and `read_at` are numbered from 1, and those whose
/// numbers were given fail; no other call does.
#[derive(Drop)]
pub struct MemSource {
    bytes: Bytes,
    asked: u64,
    script: FaultScript,
}

impl Model for MemSource {
    ghost use Rattle.idx_memory.specs.Memory.{SourceState};

    ghost Value = { SourceState };

    ghost view = { λ s. record { bytes = s.bytes; asked = s.asked; script = s.script } };
}

impl MemSource {
    /// `fails` are the numbers of the calls that are to fail, from 1. Takes no memory.
    pub fn new(bytes: Bytes, fails: Vec<u64>) -> MemSource
        ensures { result ≡ record { bytes = bytes; asked = 0; script = untouched fails.items } }
    {
        MemSource {
            bytes,
            asked: 0,
            script: FaultScript::new(fails),
        }
    }

    /// How many bytes were asked for, modulo 2^64.
    pub fn asked(&self) -> u64
        ensures { result ≡ self.now.asked }
    {
        self.asked
    }
}

impl Source for MemSource {
    ghost contents = { λ s. Some s.bytes };

    ghost asked = { λ s. s.asked };

    ghost faults = { λ s. s.script.faults };

    fn len(&mut self) -> Result<u64, Outage>
        ensures length { IfOk result (λ n. n ≡ length self.old.bytes) }
        ensures fails { IsErr result ↔ NextFails self.old.script }
        ensures state { self.new ≡ record self.old { script = after_call (is_ok result) self.old.script } }
        ensures count { NeverFalls self.old.script.faults self.new.script.faults }
        ensures quiet { OnOk result (self.new.script.faults ≡ self.old.script.faults) }
        ensures cause { OnErr result (Rose self.old.script.faults self.new.script.faults) }
    {
        self.script.call()?;
        Ok(self.bytes.len() as u64)
    }

    fn read_at(&mut self, at: u64, into: &mut [u8]) -> Result<(), Outage>
        requires { at + length into.old ≤ length self.old.bytes }
        ensures read { OnOk result (into.new ≡ take (length into.old) (drop at self.old.bytes)) }
        ensures fails { IsErr result ↔ NextFails self.old.script }
        ensures state { self.new ≡ record self.old {
          asked = more self.old.asked (length into.old);
          script = after_call (is_ok result) self.old.script;
        } }
        ensures count { NeverFalls self.old.script.faults self.new.script.faults }
        ensures quiet { OnOk result (self.new.script.faults ≡ self.old.script.faults) }
        ensures cause { OnErr result (Rose self.old.script.faults self.new.script.faults) }
    {
        self.asked = self.asked.wrapping_add(into.len() as u64);
        self.script.call()?;
        copy_range(self.bytes.as_slice(), at, into);
        Ok(())
    }

    fn faults(&self) -> u64 {
        self.script.faults()
    }
}
