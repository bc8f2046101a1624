ghost use Rattle.std.specs.Prelude.{◌≡◌, ◌↔◌, ◌++◌, [], Some, IsErr, is_ok, IfOk, IfErr, OnOk, OnErr, if◌then◌else◌};
ghost use Rattle.idx_outside.specs.Cause.{NeverFalls, Rose, counted};
ghost use Rattle.idx_memory.specs.Memory.{untouched, NextFails, after_call};

use crate::MemLeaf;
use crate::fault_script::FaultScript;
use idx_outside::{Bytes, Draft, Outage};
use std::marker::Model;

/// A draft in memory, whose bytes are known. Its calls `append` and `seal` are numbered from 1, and those whose numbers
/// were given to its bay fail, as does an `append` that finds no memory. An `append` that fails appends nothing.
pub struct MemDraft {
    bytes: Bytes,
    path: Bytes,
    script: FaultScript,
}

impl Model for MemDraft {
    ghost use Rattle.idx_memory.specs.Memory.{DraftState};

    ghost Value = { DraftState };

    ghost view = { λ s. record { bytes = s.bytes; path = s.path; script = s.script } };
}

impl MemDraft {
    pub(crate) fn new(path: Bytes, fails: Vec<u64>) -> MemDraft
        ensures { result ≡ record { bytes = []; path = path; script = untouched fails.items } }
    {
        MemDraft {
            bytes: Bytes::new(*fails.allocator()),
            path,
            script: FaultScript::new(fails),
        }
    }

    /// Ends the draft, and tells how many faults it counted.
    pub(crate) fn end(self) -> u64
        ensures { result ≡ self.script.faults }
    {
        let faults = self.script.faults();
        let MemDraft {
            bytes: _bytes,
            path: _path,
            script: _script,
        } = self;
        faults
    }
}

impl Draft for MemDraft {
    type Leaf = MemLeaf;

    ghost contents = { λ s. Some s.bytes };

    ghost path = { λ s. Some s.path };

    ghost faults = { λ s. s.script.faults };

    fn append(&mut self, piece: &[u8]) -> Result<(), Outage>
        ensures fails { NextFails self.old.script → IsErr result }
        ensures state { self.new ≡ record self.old {
          bytes = (if is_ok result then self.old.bytes ++ piece.now else self.old.bytes);
          script = after_call (is_ok result) self.old.script;
        } }
        ensures count { NeverFalls self.old.script.faults self.new.script.faults }
        ensures quiet { OnOk result (self.new.script.faults ≡ self.old.script.faults) }
        ensures once { OnErr result (self.new.script.faults ≡ counted self.old.script.faults) }
        ensures cause { OnErr result (Rose self.old.script.faults self.new.script.faults) }
    {
        self.script.call()?;
        match self.bytes.append(piece) {
            Ok(()) => Ok(()),
            Err(_) => Err(self.script.fault()),
        }
    }

    fn seal(mut self) -> Result<MemLeaf, (MemDraft, Outage)>
        ensures fails { IsErr result ↔ NextFails self.script }
        ensures sealed { IfOk result (λ leaf. leaf
            ≡ record { bytes = self.bytes; path = Some self.path; faults = self.script.faults }) }
        ensures state { IfErr result (λ back. back.0
            ≡ record self { script = after_call (is_ok result) self.script }) }
        ensures once { IfErr result (λ back. back.0.script.faults ≡ counted self.script.faults) }
        ensures cause { IfErr result (λ back. Rose self.script.faults back.0.script.faults) }
    {
        match self.script.call() {
            Ok(()) => {
                let faults = self.script.faults();
                let MemDraft {
                    bytes,
                    path,
                    script: _script,
                } = self;
                Ok(MemLeaf::at(path, bytes, faults))
            }
            Err(outage) => Err((self, outage)),
        }
    }

    fn faults(&self) -> u64 {
        self.script.faults()
    }
}
