ghost use Rattle.std.specs.Prelude.{◌≡◌, ◌↔◌, ◌+◌, ◌≤◌, length, take, drop, IsErr, is_ok, OnOk, OnErr};
ghost use Rattle.idx_outside.specs.Cause.{NeverFalls, Rose};
ghost use Rattle.idx_memory.specs.Memory.{untouched, no_reads, after_read, NextFails, after_call};

use crate::MemLeaf;
use crate::fault_script::FaultScript;
use crate::range::copy_range;
use crate::reads::Reads;
use idx_outside::{Outage, Reader};
use std::marker::Model;

/// A reader of leaves in memory. Its calls `read_at` are numbered from 1, and those whose numbers were given fail; no
/// other does.
#[derive(Drop)]
pub struct MemReader {
    reads: Reads,
    script: FaultScript,
}

impl Model for MemReader {
    ghost use Rattle.idx_memory.specs.Memory.{ReaderState};

    ghost Value = { ReaderState };

    ghost view = { λ s. record { reads = s.reads; script = s.script } };
}

impl MemReader {
    /// `fails` are the numbers of the calls that are to fail, from 1. Takes no memory.
    pub fn new(fails: Vec<u64>) -> MemReader
        ensures { result ≡ record { reads = no_reads; script = untouched fails.items } }
    {
        MemReader {
            reads: Reads::new(),
            script: FaultScript::new(fails),
        }
    }

    /// How many calls of `read_at` were made, modulo 2^64.
    pub fn reads(&self) -> u64
        ensures { result ≡ self.now.reads.calls }
    {
        self.reads.calls()
    }

    /// How many bytes were asked for, modulo 2^64.
    pub fn asked(&self) -> u64
        ensures { result ≡ self.now.reads.bytes }
    {
        self.reads.bytes()
    }
}

impl Reader<MemLeaf> for MemReader {
    ghost faults = { λ s. s.script.faults };

    ghost reads = { λ s. s.reads.calls };

    ghost asked = { λ s. s.reads.bytes };

    fn read_at(&mut self, leaf: &MemLeaf, at: u64, into: &mut [u8]) -> Result<(), Outage>
        requires { at + length into.old ≤ length leaf.now.bytes }
        ensures read { OnOk result (into.new ≡ take (length into.old) (drop at leaf.now.bytes)) }
        ensures fails { IsErr result ↔ NextFails self.old.script }
        ensures state { self.new ≡ record {
          reads = after_read (length into.old) self.old.reads;
          script = after_call (is_ok result) self.old.script;
        } }
        ensures count { NeverFalls self.old.script.faults self.new.script.faults }
        ensures quiet { OnOk result (self.new.script.faults ≡ self.old.script.faults) }
        ensures cause { OnErr result (Rose self.old.script.faults self.new.script.faults) }
    {
        self.reads.add(into.len());
        self.script.call()?;
        copy_range(leaf.bytes().as_slice(), at, into);
        Ok(())
    }

    fn faults(&self) -> u64 {
        self.script.faults()
    }
}
