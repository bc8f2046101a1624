ghost use Rattle.std.specs.Prelude.{◌≡◌, ◌↔◌, ◌++◌, None, Ok, IsOk, IsTrue, OnOk, OnErr, IfOk, IfErr, ⊤};
ghost use Rattle.std.specs.Option.{option_map};
ghost use Rattle.idx_outside.specs.Files.{HasStep, file_at};
ghost use Rattle.idx_memory.specs.Memory.{more, kept_whole};

use crate::files::{copy_of, has_folder};
use crate::{SureDraft, SureLeaf};
use idx_outside::{Bay, BayFault, Bytes, MemFile, Outage};
use std::alloc::Global;
use std::marker::Model;

/// A bay in memory, of which nothing is told and no call of which is ever an `Outage`. It answers from the header and
/// the files that it was made with, and drops what is written. A contract also sees how many calls changed it, modulo 2^64.
#[derive(Drop)]
pub struct SureBay {
    header: Bytes,
    files: Vec<MemFile>,
    changes: u64,
}

impl Model for SureBay {
    ghost use Rattle.idx_memory.specs.Memory.{BayContents};

    ghost Value = { BayContents };

    ghost view = { λ s. record { header = s.header; files = s.files.items; changes = s.changes } };
}

impl SureBay {
    /// An empty header is none. Takes no memory.
    pub fn new(header: Bytes, files: Vec<MemFile>) -> SureBay
        ensures { result ≡ record { header = header; files = files.items; changes = 0 } }
    {
        SureBay {
            header,
            files,
            changes: 0,
        }
    }

    /// Counts a call that changes the bay.
    fn change(&mut self)
        ensures { self.new ≡ record self.old { changes = more self.old.changes 1 } }
    {
        self.changes = self.changes.wrapping_add(1);
    }

    fn alloc(&self) -> Global {
        *self.files.allocator()
    }
}

impl Bay for SureBay {
    type Leaf = SureLeaf;

    type Draft = SureDraft;

    ghost header = { λ _. None };

    ghost files = { λ _. None };

    ghost admits = { λ _ _. ⊤ };

    ghost begun = { λ _. None };

    ghost changes = { λ s. s.changes };

    ghost failed = { λ _. None };

    ghost faults = { λ _. 0 };

    fn header(&mut self, into: &mut Bytes) -> Result<(), BayFault>
        ensures text { OnOk result (into.new ≡ into.old ++ self.old.header) }
        ensures refused { OnErr result (into.new ≡ into.old) }
        ensures sure { IfErr result (λ fault. fault ≡ BayFault.NoMemory) }
        ensures same { self.new ≡ self.old }
    {
        into.append(self.header.as_slice())?;
        Ok(())
    }

    fn set_header(&mut self, _text: &[u8]) -> Result<(), Outage>
        ensures sure { IsOk result }
        ensures change { self.new ≡ record self.old { changes = more self.old.changes 1 } }
    {
        self.change();
        Ok(())
    }

    fn has_step(&mut self, folder: &[u8]) -> Result<bool, Outage>
        ensures sure { IsOk result }
        ensures stands { IfOk result (λ stands. IsTrue stands ↔ HasStep folder.now self.old.files) }
        ensures same { self.new ≡ self.old }
    {
        Ok(has_folder(self.files.as_slice(), folder))
    }

    fn begin_step(&mut self, _folder: &[u8]) -> Result<(), Outage>
        ensures sure { IsOk result }
        ensures change { self.new ≡ record self.old { changes = more self.old.changes 1 } }
    {
        self.change();
        Ok(())
    }

    fn create(&mut self, _path: &[u8]) -> Result<SureDraft, BayFault>
        ensures empty { result ≡ Ok 0 }
        ensures change { self.new ≡ record self.old { changes = more self.old.changes 1 } }
    {
        self.change();
        Ok(SureDraft::new(self.alloc()))
    }

    fn leaf(&mut self, path: &[u8]) -> Result<Option<SureLeaf>, BayFault>
        ensures found { IfOk result (λ found. found ≡ option_map kept_whole (file_at path.now self.old.files)) }
        ensures sure { IfErr result (λ fault. fault ≡ BayFault.NoMemory) }
        ensures same { self.new ≡ self.old }
    {
        let found = copy_of(self.alloc(), self.files.as_slice(), path)?;
        Ok(found.map(SureLeaf::new))
    }

    fn commit(&mut self, _folder: &[u8], _leaves: &Vec<(Bytes, SureLeaf)>) -> Result<(), BayFault>
        ensures sure { IsOk result }
        ensures change { self.new ≡ record self.old { changes = more self.old.changes 1 } }
    {
        self.change();
        Ok(())
    }

    fn retire(&mut self, draft: SureDraft)
        ensures { self.new ≡ record self.old { changes = more self.old.changes 1 } }
    {
        self.change();
        draft.end();
    }

    fn faults(&self) -> u64 {
        0
    }

    ghost leaves_tell = { λ _ _ told. cc };
}
