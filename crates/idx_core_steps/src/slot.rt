ghost use Rattle.std.specs.Prelude.{◌≡◌, option_copied, Contains, IfOk, None, OnErr, OnOk, is_some, not};
ghost use Rattle.idx_layout.specs.OfHeader.{placing_of};
ghost use Rattle.idx_layout.specs.Placing.{file_numbers};
ghost use Rattle.idx_dock.specs.Dock.{IsDock, awaited_at, missing};
ghost use Rattle.idx_core_deliver.specs.Deliver.{HasTaken};
ghost use Rattle.idx_core_steps.specs.Steps.{CanTake, fresh_slot, sealed_slot};

use crate::SealedFile;
use idx_core_deliver::deliver_piece;
use idx_core_forms::{HeldLeaf, seal_dock};
use idx_core_layers::Division;
use idx_dock::Dock;
use idx_header::Header;
use idx_memory::SureSource;
use idx_outside::{Bytes, NoMemory};
use idx_pieces::Piece;
use std::alloc::Global;
use std::marker::Model;

/// A file of a revision: its aggregator, and the written file once there is one.
#[derive(Drop)]
pub struct Slot {
    dock: Dock,
    sealed: Option<SealedFile>,
}

impl Model for Slot {
    ghost use Rattle.idx_core_steps.specs.Steps.{SlotValue};

    ghost Value = { SlotValue };

    ghost view = { λ s. record { dock = s.dock; sealed = s.sealed } };
}

impl Slot {
    /// The slot of a file to which nothing was shipped.
    pub(crate) fn new(alloc: Global, below: &Division, file: u64) -> Result<Slot, NoMemory>
        requires { Contains (file_numbers (placing_of below.now.header)) file }
        ensures { IfOk result (λ slot. slot ≡ fresh_slot below.now file) }
    {
        Ok(Slot {
            dock: Dock::new(alloc, below.header(), below.pieces(), file)?,
            sealed: None,
        })
    }

    /// The number of the file.
    pub fn file(&self) -> u64
        ensures value { result ≡ self.now.dock.file }
        ensures valid { IsDock self.now.dock }
    {
        self.dock.file()
    }

    /// The file with its name, once it was written.
    pub fn sealed(&self) -> Option<&SealedFile>
        ensures { option_copied result ≡ self.now.sealed }
    {
        self.sealed.as_ref()
    }

    /// Whether the file was written.
    pub(crate) fn is_sealed(&self) -> bool
        ensures { result ≡ is_some self.now.sealed }
    {
        self.sealed.is_some()
    }

    /// Whether the aggregator awaits a piece.
    pub(crate) fn awaits(&self, piece: u64) -> bool
        ensures { result ≡ is_some (awaited_at self.now.dock piece) }
    {
        self.dock.has_piece(piece).is_some()
    }

    /// Whether all samples of the file came.
    pub(crate) fn is_whole(&self) -> bool
        ensures { result ≡ not (is_some (missing self.now.dock)) }
    {
        self.dock.missing().is_none()
    }

    /// The file is written, under its name of a timestep at the header's revision. At `NoMemory` nothing has changed.
    pub(crate) fn seal(&mut self, alloc: Global, header: &Header, time: u64) -> Result<(), NoMemory>
        requires { missing self.old.dock ≡ None }
        ensures ok { OnOk result (self.new ≡ sealed_slot header.now time self.old) }
        ensures err { OnErr result (self.new ≡ self.old) }
    {
        let name = header.file_name(alloc, time, self.dock.file())?;
        let leaf = seal_dock(alloc, &self.dock)?;
        self.sealed = Some(SealedFile::new(name, leaf));
        Ok(())
    }

    /// The written file once more, with its bytes in the same place, if there is one.
    pub(crate) fn written(&self, alloc: Global) -> Result<Option<(Bytes, HeldLeaf)>, NoMemory>
        ensures { IfOk result (λ file. file ≡ self.now.sealed) }
    {
        match &self.sealed {
            Some(file) => Ok(Some(file.copy(alloc)?)),
            None => Ok(None),
        }
    }

    /// The samples of a piece come out of a raw volume, whose bytes stay. At `NoMemory` nothing has changed.
    pub(crate) fn take(
        &mut self,
        alloc: Global,
        raw: &mut SureSource,
        header: &Header,
        piece: &Piece,
    ) -> Result<(), NoMemory>
        requires { CanTake header.now raw.old.bytes piece.now self.old.dock }
        ensures taken { OnOk result
            (HasTaken header.now raw.old.bytes piece.now.id self.old.dock self.new.dock) }
        ensures sealed { self.new.sealed ≡ self.old.sealed }
        ensures kept { OnErr result (self.new ≡ self.old) }
        ensures raw { raw.new.bytes ≡ raw.old.bytes }
        ensures before { IsDock self.old.dock }
        ensures after { IsDock self.new.dock }
    {
        let _before = self.dock.file();
        let taken = deliver_piece(alloc, raw, header, piece, &mut self.dock);
        let _after = self.dock.file();
        taken
    }
}
