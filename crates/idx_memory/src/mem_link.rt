ghost use Rattle.std.specs.Prelude.{◌≡◌, ◌↔◌, ◌<◌, ◌++◌, [], All, Some, length, take, drop, IsErr, is_ok, IfOk, OnOk, OnErr, if◌then◌else◌};
ghost use Rattle.idx_outside.specs.Cause.{NeverFalls, Rose};
ghost use Rattle.idx_memory.specs.Links.{given, after_reading, unread, with_reading};
ghost use Rattle.idx_memory.specs.Memory.{untouched, NextFails, after_call};

use crate::fault_script::FaultScript;
use crate::input::Input;
use http_server::Log;
use idx_outside::{Bytes, Link, NoMemory, Outage};
use std::alloc::Global;
use std::marker::Model;

/// A link in memory, whose input and output are known. Its calls `read` and `write` are numbered from 1, and those
/// whose numbers were given fail, as does a `write` that finds no memory. A `read` that fails gives nothing, and a
/// `write` that fails appends nothing.
#[derive(Drop)]
pub struct MemLink {
    input: Input,
    written: Bytes,
    readings: Log<Input, Bytes>,
    script: FaultScript,
}

impl Model for MemLink {
    ghost use Rattle.std.specs.Prelude.{map};
    ghost use Rattle.idx_outside.specs.Input.{reading_of};
    ghost use Rattle.idx_memory.specs.Links.{LinkState};

    ghost Value = { LinkState };

    ghost view = { λ s. record {
      input = s.input;
      written = s.written;
      readings = map (λ r. reading_of r.0.bytes r.1) s.readings.items;
      script = s.script;
    } };
}

impl MemLink {
    /// Each read gives as many bytes as the next of `pieces` says, less where they do not fit or the input ends first;
    /// what did not fit comes with the next read. Once `pieces` are used up a read gives what fits. `fails` are the
    /// numbers of the calls that are to fail, from 1. The allocator is that of `fails`. Takes no memory.
    pub fn new(input: Bytes, pieces: Vec<u64>, fails: Vec<u64>) -> MemLink
        requires { All (λ piece. 0 < piece) pieces.items }
        ensures { result ≡ record {
          input = record { bytes = input; pieces = pieces.items };
          written = [];
          readings = [];
          script = untouched fails.items;
        } }
    {
        MemLink {
            input: Input::new(input, pieces),
            written: Bytes::new(*fails.allocator()),
            readings: Log::new(),
            script: FaultScript::new(fails),
        }
    }

    /// The bytes that were written.
    pub fn written(&self) -> &Bytes
        ensures { result.now ≡ self.now.written }
    {
        &self.written
    }

    /// The same link, of which is not told when it was read.
    pub(crate) fn copy(&self, alloc: Global) -> Result<MemLink, NoMemory>
        ensures { IfOk result (λ link. link ≡ unread self.now) }
    {
        Ok(MemLink {
            input: self.input.copy(alloc)?,
            written: Bytes::from_slice(alloc, self.written.as_slice())?,
            readings: Log::new(),
            script: self.script.copy(alloc)?,
        })
    }
}

impl Link for MemLink {
    ghost incoming = { λ s. Some s.input.bytes };

    ghost written = { λ s. Some s.written };

    ghost readings = { λ s. Some s.readings };

    ghost faults = { λ s. s.script.faults };

    fn read(&mut self, into: &mut [u8]) -> Result<usize, Outage>
        requires { 0 < length into.old }
        ensures count { IfOk result (λ n. n ≡ given self.old.input (length into.old)) }
        ensures read { IfOk result (λ n. into.new ≡ take n self.old.input.bytes ++ drop n into.old) }
        ensures end { IfOk result (λ n. n ≡ 0 → self.old.input.bytes ≡ []) }
        ensures held { OnErr result (into.new ≡ into.old) }
        ensures fails { IsErr result ↔ NextFails self.old.script }
        ensures state { self.new ≡ record self.old {
          input = (if is_ok result then after_reading (length into.old) self.old.input else self.old.input);
          readings = with_reading self.old;
          script = after_call (is_ok result) self.old.script;
        } }
        ensures never_falls { NeverFalls self.old.script.faults self.new.script.faults }
        ensures quiet { OnOk result (self.new.script.faults ≡ self.old.script.faults) }
        ensures cause { OnErr result (Rose self.old.script.faults self.new.script.faults) }
    {
        self.readings = self.readings.and(&self.input, &self.written);
        self.script.call()?;
        Ok(self.input.read(into))
    }

    fn write(&mut self, piece: &[u8]) -> Result<(), Outage>
        ensures fails { NextFails self.old.script → IsErr result }
        ensures state { self.new ≡ record self.old {
          written = (if is_ok result then self.old.written ++ piece.now else self.old.written);
          script = after_call (is_ok result) self.old.script;
        } }
        ensures count { NeverFalls self.old.script.faults self.new.script.faults }
        ensures quiet { OnOk result (self.new.script.faults ≡ self.old.script.faults) }
        ensures cause { OnErr result (Rose self.old.script.faults self.new.script.faults) }
    {
        self.script.call()?;
        match self.written.append(piece) {
            Ok(()) => Ok(()),
            Err(_) => Err(self.script.fault()),
        }
    }

    fn faults(&self) -> u64 {
        self.script.faults()
    }
}
