ghost use Rattle.std.specs.Prelude.{◌≡◌, ◌&&◌, nat_eq, not, IfOk, OnErr, OnOk, is_some, map, true};
ghost use Rattle.std.specs.List.{filter_map, list_all, list_any, position};
ghost use Rattle.idx_layout.specs.OfHeader.{placing_of};
ghost use Rattle.idx_layout.specs.Placing.{file_numbers};
ghost use Rattle.idx_dock.specs.Dock.{awaited_at};
ghost use Rattle.idx_events.specs.Lists.{has_pair};
ghost use Rattle.idx_events.specs.Setting.{Setting};
ghost use Rattle.idx_events.specs.Start.{new_volume};
ghost use Rattle.idx_events.specs.World.{is_staged};
ghost use Rattle.idx_events.specs.Volumes.{all_gave, can_give, can_publish, can_ship, can_write, is_later, is_of, seal, sealed_files, ship};
ghost use Rattle.idx_core_layers.specs.Division.{layers_of};
ghost use Rattle.idx_core_steps.specs.Steps.{AreSlots, HasAllFiles, abandoned_step, fresh_slot, given_step, published_step, volume_of};

use crate::Slot;
use crate::pairs::{all_with_piece, contains_pair, contains_rank};
use crate::phases::{is_published, is_staged};
use idx_core_forms::HeldLeaf;
use idx_core_layers::Division;
use idx_events::Phase;
use idx_layout::files;
use idx_memory::SureSource;
use idx_outside::{Bytes, NoMemory};
use std::alloc::Global;
use std::marker::Model;

/// A revision of a timestep that is written.
#[derive(Drop)]
pub struct Step {
    time: u64,
    revision: u64,
    raw: SureSource,
    phase: Phase,
    given: Vec<(u64, u64)>,
    shipped: Vec<(u64, u64)>,
    slots: Vec<Slot>,
}

impl Model for Step {
    ghost use Rattle.idx_core_steps.specs.Steps.{StepValue};

    ghost Value = { StepValue };

    ghost view = { λ v. record {
      time = v.time;
      revision = v.revision;
      raw = v.raw.bytes;
      phase = v.phase;
      given = v.given.items;
      shipped = v.shipped.items;
      slots = v.slots.items;
    } };
}

impl Step {
    /// A revision of a timestep of which nothing was given yet, out of the raw bytes of its volume.
    pub fn new(
        alloc: Global,
        below: &Division,
        time: u64,
        revision: u64,
        raw: Bytes,
    ) -> Result<Step, NoMemory>
        ensures volume { IfOk result (λ step.
            volume_of step ≡ new_volume (layers_of below.now) time revision raw) }
        ensures slots { IfOk result (AreSlots below.now) }
    {
        Ok(Step {
            time,
            revision,
            raw: SureSource::new(raw),
            phase: Phase::Staged,
            given: Vec::new(alloc),
            shipped: Vec::new(alloc),
            slots: fresh_slots(alloc, below)?,
        })
    }

    /// Its timestep.
    pub fn time(&self) -> u64
        ensures { result ≡ self.now.time }
    {
        self.time
    }

    /// The number of the revision.
    pub fn revision(&self) -> u64
        ensures { result ≡ self.now.revision }
    {
        self.revision
    }

    /// How far it is.
    pub fn phase(&self) -> Phase
        ensures { result ≡ self.now.phase }
    {
        self.phase
    }

    /// Its files, rising; none once it was given up.
    pub fn slots(&self) -> &[Slot]
        ensures { result.now ≡ self.now.slots }
    {
        &self.slots
    }

    /// Whether it is this revision of this timestep.
    pub(crate) fn is_of(&self, time: u64, revision: u64) -> bool
        ensures { result ≡ is_of time revision (volume_of self.now) }
    {
        self.time == time && self.revision == revision
    }

    /// Whether it is a published revision of the timestep, later than this one.
    pub(crate) fn is_later(&self, time: u64, revision: u64) -> bool
        ensures { result ≡ is_later time revision (volume_of self.now) }
    {
        is_published(self.phase) && self.time == time && revision < self.revision
    }

    /// Whether a rank may give its part of a piece.
    #[tactic(auto, unfolding(idx_core_model::specs::Layers::setting_of))]
    pub(crate) fn can_give(&self, below: &Division, rank: u64, piece: u64) -> bool
        ensures { result ≡ can_give (layers_of below.now) rank piece (volume_of self.now) }
    {
        is_staged(self.phase)
            && contains_rank(below.ranks_of(piece), rank)
            && !contains_pair(&self.given, rank, piece)
    }

    /// A rank gave its part of a piece. At `NoMemory` nothing has changed.
    pub(crate) fn give(&mut self, rank: u64, piece: u64) -> Result<(), NoMemory>
        ensures ok { OnOk result (self.new ≡ given_step rank piece self.old) }
        ensures err { OnErr result (self.new ≡ self.old) }
    {
        self.given.push((rank, piece))?;
        Ok(())
    }

    /// Whether a piece may be shipped to a file.
    pub(crate) fn can_ship(&self, below: &Division, piece: u64, file: u64) -> bool
        requires slots { AreSlots below.now self.now }
        requires files { HasAllFiles below.now self.now }
        ensures { result ≡ can_ship (layers_of below.now) piece file (volume_of self.now) }
    {
        if !is_staged(self.phase) {
            return false;
        }
        match slot_at(&self.slots, file) {
            None => false,
            Some(i) => can_come(
                below,
                &self.given,
                &self.shipped,
                &self.slots[i],
                piece,
                file,
            ),
        }
    }

    /// A piece is shipped to a file, which may be: its samples come. At `NoMemory` nothing has changed.
    pub(crate) fn ship(
        &mut self,
        alloc: Global,
        below: &Division,
        piece: u64,
        file: u64,
    ) -> Result<(), NoMemory>
        requires slots { AreSlots below.now self.old }
        requires files { HasAllFiles below.now self.old }
        requires whole { (layers_of below.now).valid_raw self.old.raw ≡ true }
        requires enabled { can_ship (layers_of below.now) piece file (volume_of self.old) ≡ true }
        ensures ok { OnOk result (volume_of self.new ≡ ship (layers_of below.now) piece file (volume_of self.old)) }
        ensures slots { OnOk result (AreSlots below.now self.new) }
        ensures err { OnErr result (self.new ≡ self.old) }
    {
        let header = below.header();
        let Some(i) = slot_at(&self.slots, file) else {
            unreachable!()
        };
        let Some(given) = below.piece(piece) else {
            unreachable!()
        };
        let many = self.shipped.len();
        self.shipped.push((piece, file))?;
        match self.slots[i].take(alloc, &mut self.raw, header, given) {
            Ok(()) => Ok(()),
            Err(NoMemory) => {
                self.shipped.truncate(many);
                Err(NoMemory)
            }
        }
    }

    /// Whether a file may be written.
    pub(crate) fn can_write(&self, below: &Division, file: u64) -> bool
        requires slots { AreSlots below.now self.now }
        requires files { HasAllFiles below.now self.now }
        ensures { result ≡ can_write (layers_of below.now) file (volume_of self.now) }
    {
        if !is_staged(self.phase) {
            return false;
        }
        match slot_at(&self.slots, file) {
            None => false,
            Some(i) => self.slots[i].is_whole() && !any_sealed(&self.slots, file),
        }
    }

    /// A file is written, which may be. At `NoMemory` nothing has changed.
    pub(crate) fn seal(
        &mut self,
        alloc: Global,
        below: &Division,
        file: u64,
    ) -> Result<(), NoMemory>
        requires slots { AreSlots below.now self.old }
        requires files { HasAllFiles below.now self.old }
        requires step { (layers_of below.now).valid_step self.old.time self.old.revision ≡ true }
        requires enabled { can_write (layers_of below.now) file (volume_of self.old) ≡ true }
        ensures ok { OnOk result (volume_of self.new ≡ seal (layers_of below.now) file (volume_of self.old)) }
        ensures slots { OnOk result (AreSlots below.now self.new) }
        ensures err { OnErr result (self.new ≡ self.old) }
    {
        let header = below.header().at_revision(alloc, self.revision as u32)?;
        let Some(i) = slot_at(&self.slots, file) else {
            unreachable!()
        };
        self.slots[i].seal(alloc, &header, self.time)?;
        Ok(())
    }

    /// Whether all its files were written, and it is neither published nor given up: it may be published, unless a later
    /// revision of the timestep was.
    pub fn can_publish(&self) -> bool
        ensures { (s : Setting) → result ≡ can_publish s (volume_of self.now) }
    {
        is_staged(self.phase) && all_sealed(&self.slots)
    }

    /// The files that were written, rising, with their names.
    pub fn written_files(&self, alloc: Global) -> Result<Vec<(Bytes, HeldLeaf)>, NoMemory>
        ensures { IfOk result (λ files. files.items ≡ sealed_files (volume_of self.now).slots) }
    {
        let files = files_of(alloc, &self.slots)?;
        Ok(files)
    }

    /// It is published from now on.
    pub fn publish(&mut self)
        ensures { self.new ≡ published_step self.old }
    {
        self.phase = Phase::Published;
    }

    /// Whether it may be given up.
    pub(crate) fn can_abandon(&self) -> bool
        ensures { result ≡ is_staged self.now.phase }
    {
        is_staged(self.phase)
    }

    /// It is given up from now on, with all that came.
    pub(crate) fn abandon(&mut self)
        ensures { self.new ≡ abandoned_step self.old }
    {
        self.phase = Phase::Abandoned;
        self.slots.clear();
    }
}

/// The slots of all files, rising, to which nothing was shipped.
fn fresh_slots(alloc: Global, below: &Division) -> Result<Vec<Slot>, NoMemory>
    ensures { IfOk result (λ slots.
        slots.items ≡ map (fresh_slot below.now) (file_numbers (placing_of below.now.header))) }
{
    let mut slots = Vec::new(alloc);
    for file in files(below.header()) {
        slots.push(Slot::new(alloc, below, file)?)?;
    }
    Ok(slots)
}

/// Whether each file was written.
fn all_sealed(slots: &[Slot]) -> bool
    ensures { result ≡ list_all (λ slot. is_some slot.sealed) slots.now }
{
    slots.iter().all(|slot| slot.is_sealed())
}

/// Whether all ranks of a piece gave their parts.
#[tactic(auto, unfolding(idx_core_model::specs::Layers::setting_of))]
fn ranks_gave(below: &Division, given: &[(u64, u64)], piece: u64) -> bool
    ensures { result ≡ all_gave (layers_of below.now) given.now piece }
{
    all_with_piece(below.ranks_of(piece), given, piece)
}

/// Whether all ranks of a piece gave their parts, and the aggregator of a file awaits it, to which it was not shipped.
fn can_come(
    below: &Division,
    given: &[(u64, u64)],
    shipped: &[(u64, u64)],
    slot: &Slot,
    piece: u64,
    file: u64,
) -> bool
    ensures { result ≡ (all_gave (layers_of below.now) given.now piece &&
        (is_some (awaited_at slot.now.dock piece) && not (has_pair (piece, file) shipped.now))) }
{
    ranks_gave(below, given, piece) && slot.awaits(piece) && !contains_pair(shipped, piece, file)
}

/// The place of the slot of a file.
fn slot_at(slots: &[Slot], file: u64) -> Option<usize>
    ensures { result ≡ position (λ slot. nat_eq slot.dock.file file) slots.now }
{
    slots.iter().position(|slot| slot.file() == file)
}

/// Whether a file was written.
fn any_sealed(slots: &[Slot], file: u64) -> bool
    ensures { result ≡ list_any (λ slot. nat_eq slot.dock.file file && is_some slot.sealed) slots.now }
{
    slots
        .iter()
        .any(|slot| slot.file() == file && slot.is_sealed())
}

/// The written files of slots, with their names.
fn files_of(alloc: Global, slots: &[Slot]) -> Result<Vec<(Bytes, HeldLeaf)>, NoMemory>
    ensures { IfOk result (λ files. files.items ≡ filter_map (λ slot. slot.sealed) slots.now) }
{
    let mut files = Vec::new(alloc);
    for slot in slots {
        if let Some(file) = slot.written(alloc)? {
            files.push(file)?;
        }
    }
    Ok(files)
}
