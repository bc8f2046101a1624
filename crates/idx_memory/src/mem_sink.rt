ghost use Rattle.std.specs.Prelude.{◌≡◌, ◌++◌, [], Some, IsErr, IsOk, is_ok, OnOk, OnErr, if◌then◌else◌};
ghost use Rattle.idx_outside.specs.Cause.{NeverFalls, Rose};
ghost use Rattle.idx_memory.specs.Memory.{untouched, NextFails, after_call};

use crate::fault_script::FaultScript;
use idx_outside::{Bytes, Outage, Sink};
use std::marker::Model;

/// A sink in memory, of which is known what was written. Its calls `write` are numbered from 1, and those whose
/// numbers were given fail, as do those that find no memory. A call that fails appends nothing.
#[derive(Drop)]
pub struct MemSink {
    bytes: Bytes,
    script: FaultScript,
}

impl Model for MemSink {
    ghost use Rattle.idx_memory.specs.Memory.{MemState};

    ghost Value = { MemState };

    ghost view = { λ s. record { bytes = s.bytes; script = s.script } };
}

impl MemSink {
    /// `fails` are the numbers of the calls that are to fail, from 1. The allocator is that of `fails`. Takes no
    /// memory.
    pub fn new(fails: Vec<u64>) -> MemSink
        ensures { result ≡ record { bytes = []; script = untouched fails.items } }
    {
        MemSink {
            bytes: Bytes::new(*fails.allocator()),
            script: FaultScript::new(fails),
        }
    }

    /// The bytes that were written.
    pub fn written(&self) -> &Bytes
        ensures { result.now ≡ self.now.bytes }
    {
        &self.bytes
    }
}

impl Sink for MemSink {
    ghost contents = { λ s. Some s.bytes };

    ghost faults = { λ s. s.script.faults };

    fn write(&mut self, piece: &[u8]) -> Result<(), Outage>
        ensures fails { NextFails self.old.script → IsErr result }
        ensures state { self.new ≡ record {
          bytes = (if is_ok result then self.old.bytes ++ piece.now else self.old.bytes);
          script = after_call (is_ok result) self.old.script;
        } }
        ensures count { NeverFalls self.old.script.faults self.new.script.faults }
        ensures quiet { OnOk result (self.new.script.faults ≡ self.old.script.faults) }
        ensures cause { OnErr result (Rose self.old.script.faults self.new.script.faults) }
    {
        self.script.call()?;
        match self.bytes.append(piece) {
            Ok(()) => Ok(()),
            Err(_) => Err(self.script.fault()),
        }
    }

    fn faults(&self) -> u64 {
        self.script.faults()
    }
}
