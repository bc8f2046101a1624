ghost use Rattle.std.specs.Prelude.{◌≡◌, ◌↔◌, ◌++◌, [], map, drop, nat_lt, Some, None, refl, IsTrue, IsErr, is_ok, IfOk, IfErr, OnOk, OnErr, IsErrOf, MatchOption, if◌then◌else◌};
ghost use Rattle.std.specs.Option.{option_map};
ghost use Rattle.idx_outside.specs.Calls.{counts_none, last_failed};
ghost use Rattle.idx_outside.specs.Cause.{counted, NeverFalls, Rose, OnlyWhereRose};
ghost use Rattle.idx_outside.specs.Files.{HasStep, file_at, LiesIn, AllLieIn, leaf_files};
ghost use Rattle.idx_memory.specs.Memory.{file_at_path, untouched, more, NextFails, after_call, after_retire, next_draft};

use crate::fault_script::FaultScript;
use crate::files::{files_of_leaves, has_folder, leaf_of, take_next};
use crate::{MemDraft, MemLeaf};
use idx_outside::{Bay, BayCall, BayFault, Bytes, MemFile, Outage};
use std::alloc::Global;
use std::marker::Model;

/// A bay in memory, of which all is known. Its calls that can answer `Outage` are numbered from 1, and those whose
/// numbers were given fail; so does a `set_header` or `begin_step` that finds no memory, and no other call. A call that
/// fails changes nothing but the counts.
#[derive(Drop)]
pub struct MemBay {
    header: Bytes,
    files: Vec<MemFile>,
    begun: Option<Bytes>,
    changes: u64,
    failed: Option<BayCall>,
    drafts: Vec<Vec<u64>>,
    script: FaultScript,
}

impl Model for MemBay {
    ghost use Rattle.std.specs.Prelude.{map};
    ghost use Rattle.idx_memory.specs.Memory.{BayState};

    ghost Value = { BayState };

    ghost view = { λ s. record {
      header = s.header;
      files = s.files.items;
      begun = s.begun;
      changes = s.changes;
      failed = s.failed;
      drafts = map (λ fails. fails.items) s.drafts.items;
      script = s.script;
    } };
}

impl MemBay {
    /// An empty header is none. `fails` are the numbers of the calls that are to fail, from 1, and `drafts` has such a
    /// list for each draft, in the order in which they are made. A draft for which none is left never fails. Takes no
    /// memory.
    pub fn new(header: Bytes, files: Vec<MemFile>, fails: Vec<u64>, drafts: Vec<Vec<u64>>) -> MemBay
        ensures { result ≡ record {
          header = header;
          files = files.items;
          begun = None;
          changes = 0;
          failed = None;
          drafts = map (λ fails. fails.items) drafts.items;
          script = untouched fails.items;
        } }
    {
        MemBay {
            header,
            files,
            begun: None,
            changes: 0,
            failed: None,
            drafts,
            script: FaultScript::new(fails),
        }
    }

    /// The header's text.
    pub fn header_text(&self) -> &Bytes
        ensures { result.now ≡ self.now.header }
    {
        &self.header
    }

    /// The committed files, in the order in which they were committed.
    pub fn committed(&self) -> &Vec<MemFile>
        ensures { result.now.items ≡ self.now.files }
    {
        &self.files
    }

    /// The folder that was last begun.
    pub fn begun(&self) -> Option<&Bytes>
        ensures { option_map (λ folder. folder.now) result ≡ self.now.begun }
    {
        self.begun.as_ref()
    }

    /// How many calls were made that change the bay, modulo 2^64.
    pub fn changes(&self) -> u64
        ensures { result ≡ self.now.changes }
    {
        self.changes
    }

    /// The call that counted the last fault.
    pub fn failed(&self) -> Option<BayCall>
        ensures { result ≡ self.now.failed }
    {
        self.failed
    }

    fn alloc(&self) -> Global {
        *self.files.allocator()
    }

    /// Counts a call.
    fn call(&mut self, call: BayCall) -> Result<(), Outage>
        ensures fails { IsErr result ↔ NextFails self.old.script }
        ensures state { self.new ≡ record self.old {
          failed = last_failed call (is_ok result) self.old.failed;
          script = after_call (is_ok result) self.old.script;
        } }
        ensures quiet { OnOk result (self.new.script.faults ≡ self.old.script.faults) }
        ensures cause { OnErr result (Rose self.old.script.faults self.new.script.faults) }
    {
        let counted = self.script.call();
        if counted.is_err() {
            self.failed = Some(call);
        }
        counted
    }

    /// Counts a fault of a call that was counted already.
    fn fault(&mut self, call: BayCall) -> Outage
        ensures state { self.new ≡ record self.old {
          failed = Some call;
          script = record self.old.script { faults = counted self.old.script.faults };
        } }
        ensures cause { Rose self.old.script.faults self.new.script.faults }
    {
        self.failed = Some(call);
        self.script.fault()
    }

    /// Counts a call that changes the bay.
    fn change(&mut self, call: BayCall) -> Result<(), Outage>
        ensures fails { IsErr result ↔ NextFails self.old.script }
        ensures state { self.new ≡ record self.old {
          changes = more self.old.changes 1;
          failed = last_failed call (is_ok result) self.old.failed;
          script = after_call (is_ok result) self.old.script;
        } }
        ensures quiet { OnOk result (self.new.script.faults ≡ self.old.script.faults) }
        ensures cause { OnErr result (Rose self.old.script.faults self.new.script.faults) }
    {
        self.changes = self.changes.wrapping_add(1);
        self.call(call)
    }
}

impl Bay for MemBay {
    type Leaf = MemLeaf;

    type Draft = MemDraft;

    ghost header = { λ s. Some s.header };

    ghost files = { λ s. Some s.files };

    ghost admits = { λ s path. MatchOption s.begun ⊥ (λ folder. LiesIn folder path) };

    ghost begun = { λ s. s.begun };

    ghost changes = { λ s. s.changes };

    ghost failed = { λ s. s.failed };

    ghost faults = { λ s. s.script.faults };

    fn header(&mut self, into: &mut Bytes) -> Result<(), BayFault>
        ensures text { OnOk result (into.new ≡ into.old ++ self.old.header) }
        ensures refused { OnErr result (into.new ≡ into.old) }
        ensures fails { IsErrOf result BayFault.Outage ↔ NextFails self.old.script }
        ensures state { self.new ≡ record self.old {
          failed = last_failed BayCall.Header (counts_none result) self.old.failed;
          script = after_call (counts_none result) self.old.script;
        } }
        ensures count { NeverFalls self.old.script.faults self.new.script.faults }
        ensures quiet { OnOk result (self.new.script.faults ≡ self.old.script.faults) }
        ensures no_memory { IsErrOf result BayFault.NoMemory → self.new.script.faults ≡ self.old.script.faults }
        ensures cause { OnlyWhereRose result BayFault.Outage self.old.script.faults self.new.script.faults }
    {
        self.call(BayCall::Header)?;
        into.append(self.header.as_slice())?;
        Ok(())
    }

    fn set_header(&mut self, text: &[u8]) -> Result<(), Outage>
        ensures fails { NextFails self.old.script → IsErr result }
        ensures state { self.new ≡ record self.old {
          header = (if is_ok result then text.now else self.old.header);
          changes = more self.old.changes 1;
          failed = last_failed BayCall.SetHeader (is_ok result) self.old.failed;
          script = after_call (is_ok result) self.old.script;
        } }
        ensures count { NeverFalls self.old.script.faults self.new.script.faults }
        ensures quiet { OnOk result (self.new.script.faults ≡ self.old.script.faults) }
        ensures cause { OnErr result (Rose self.old.script.faults self.new.script.faults) }
    {
        self.change(BayCall::SetHeader)?;
        match Bytes::from_slice(self.alloc(), text) {
            Ok(text) => {
                self.header = text;
                Ok(())
            }
            Err(_) => Err(self.fault(BayCall::SetHeader)),
        }
    }

    fn has_step(&mut self, folder: &[u8]) -> Result<bool, Outage>
        ensures stands { IfOk result (λ stands. IsTrue stands ↔ HasStep folder.now self.old.files) }
        ensures fails { IsErr result ↔ NextFails self.old.script }
        ensures state { self.new ≡ record self.old {
          failed = last_failed BayCall.HasStep (is_ok result) self.old.failed;
          script = after_call (is_ok result) self.old.script;
        } }
        ensures count { NeverFalls self.old.script.faults self.new.script.faults }
        ensures quiet { OnOk result (self.new.script.faults ≡ self.old.script.faults) }
        ensures cause { OnErr result (Rose self.old.script.faults self.new.script.faults) }
    {
        self.call(BayCall::HasStep)?;
        Ok(has_folder(self.files.as_slice(), folder))
    }

    fn begin_step(&mut self, folder: &[u8]) -> Result<(), Outage>
        ensures fails { NextFails self.old.script → IsErr result }
        ensures state { self.new ≡ record self.old {
          begun = (if is_ok result then Some folder.now else self.old.begun);
          changes = more self.old.changes 1;
          failed = last_failed BayCall.BeginStep (is_ok result) self.old.failed;
          script = after_call (is_ok result) self.old.script;
        } }
        ensures count { NeverFalls self.old.script.faults self.new.script.faults }
        ensures quiet { OnOk result (self.new.script.faults ≡ self.old.script.faults) }
        ensures cause { OnErr result (Rose self.old.script.faults self.new.script.faults) }
    {
        self.change(BayCall::BeginStep)?;
        match Bytes::from_slice(self.alloc(), folder) {
            Ok(folder) => {
                self.begun = Some(folder);
                Ok(())
            }
            Err(_) => Err(self.fault(BayCall::BeginStep)),
        }
    }

    fn create(&mut self, path: &[u8]) -> Result<MemDraft, BayFault>
        ensures empty { IfOk result (λ draft. draft
            ≡ record { bytes = []; path = path.now; script = untouched (next_draft self.old.drafts) }) }
        ensures fails { IsErrOf result BayFault.Outage ↔ NextFails self.old.script }
        ensures state { self.new ≡ record self.old {
          drafts = (if is_ok result then drop 1 self.old.drafts else self.old.drafts);
          changes = more self.old.changes 1;
          failed = last_failed BayCall.Create (counts_none result) self.old.failed;
          script = after_call (counts_none result) self.old.script;
        } }
        ensures count { NeverFalls self.old.script.faults self.new.script.faults }
        ensures quiet { OnOk result (self.new.script.faults ≡ self.old.script.faults) }
        ensures no_memory { IsErrOf result BayFault.NoMemory → self.new.script.faults ≡ self.old.script.faults }
        ensures cause { OnlyWhereRose result BayFault.Outage self.old.script.faults self.new.script.faults }
    {
        self.change(BayCall::Create)?;
        let path = Bytes::from_slice(self.alloc(), path)?;
        Ok(MemDraft::new(path, take_next(&mut self.drafts)))
    }

    fn leaf(&mut self, path: &[u8]) -> Result<Option<MemLeaf>, BayFault>
        ensures found { IfOk result (λ found. found
            ≡ option_map (file_at_path path.now) (file_at path.now self.old.files)) }
        ensures fails { IsErrOf result BayFault.Outage ↔ NextFails self.old.script }
        ensures state { self.new ≡ record self.old {
          failed = last_failed BayCall.Leaf (counts_none result) self.old.failed;
          script = after_call (counts_none result) self.old.script;
        } }
        ensures count { NeverFalls self.old.script.faults self.new.script.faults }
        ensures quiet { OnOk result (self.new.script.faults ≡ self.old.script.faults) }
        ensures no_memory { IsErrOf result BayFault.NoMemory → self.new.script.faults ≡ self.old.script.faults }
        ensures cause { OnlyWhereRose result BayFault.Outage self.old.script.faults self.new.script.faults }
    {
        self.call(BayCall::Leaf)?;
        let found = leaf_of(self.alloc(), self.files.as_slice(), path)?;
        Ok(found)
    }

    fn commit(&mut self, folder: &[u8], leaves: &Vec<(Bytes, MemLeaf)>) -> Result<(), BayFault>
        ensures fails { IsErrOf result BayFault.Outage ↔ NextFails self.old.script }
        ensures state { self.new ≡ record self.old {
          files = (if is_ok result
              then self.old.files ++ leaf_files (λ leaf. Some leaf.bytes) folder.now leaves.now.items
              else self.old.files);
          changes = more self.old.changes 1;
          failed = last_failed BayCall.Commit (counts_none result) self.old.failed;
          script = after_call (counts_none result) self.old.script;
        } }
        ensures count { NeverFalls self.old.script.faults self.new.script.faults }
        ensures quiet { OnOk result (self.new.script.faults ≡ self.old.script.faults) }
        ensures no_memory { IsErrOf result BayFault.NoMemory → self.new.script.faults ≡ self.old.script.faults }
        ensures cause { OnlyWhereRose result BayFault.Outage self.old.script.faults self.new.script.faults }
    {
        self.change(BayCall::Commit)?;
        let mut files = files_of_leaves(self.alloc(), folder, leaves)?;
        self.files.append(&mut files)?;
        Ok(())
    }

    fn retire(&mut self, draft: MemDraft)
        ensures state { self.new ≡ record self.old {
          changes = more self.old.changes 1;
          failed = (if nat_lt 0 draft.script.faults then Some BayCall.Retire else self.old.failed);
          script = after_retire draft.script.faults self.old.script;
        } }
        ensures count { NeverFalls self.old.script.faults self.new.script.faults }
    {
        self.changes = self.changes.wrapping_add(1);
        if draft.end() > 0 {
            let _outage = self.fault(BayCall::Retire);
        }
    }

    fn faults(&self) -> u64 {
        self.script.faults()
    }

    ghost leaves_tell = { λ _ _ _. refl };
}
