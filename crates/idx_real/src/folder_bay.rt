ghost use Rattle.std.specs.Prelude.{◌≡◌, ◌↔◌, ◌<◌, ◌+◌, ◌%◌, ◌^◌, None, Some, Ok, Err, ⊤, IsSome, IsErr, IsOkAnd, string_bytes, option_map, IfSome, IfOk, OnOk, OnErr, IsErrOf, IsTrue, IsFalse, true, false, ◌||◌, is_ok, is_some, length};
ghost use Rattle.std.specs.Option.{unwrap_or};
ghost use Rattle.idx_outside.specs.Calls.{counts_none, last_failed};
ghost use Rattle.idx_outside.specs.Cause.{counted, NeverFalls, Rose, OnlyWhereRose};
ghost use Rattle.idx_real.specs.Faults.{no_faults};
ghost use Rattle.idx_real.specs.FolderState.{failed_at, InStep, are_of_their_paths};
ghost use Rattle.idx_real.specs.Front.{AppendsFront};

use crate::fault_log::FaultLog;
use crate::header_file::put_new;
use crate::refusal::Refusal;
use crate::regular_file::{front, open_if_there};
use crate::stage::{Stage, drop_left};
use crate::step_folder::{
    LOCK, PART, are_of_their_paths, beside, create_file, folder_above, folder_of, is_folder,
    later_revision, length_if_there, make_folders, rename_new,
};
use crate::{Fault, FileDraft, FileLeaf, Lockable, Reason};
use idx_outside::{Bay, BayCall, BayFault, Bytes, NoMemory, Outage};
use std::alloc::Global;
use std::fs;
use std::marker::Model;
use std::random::RandomSource;
use std::rt::Files;

/// How many bytes of a header file are read at most: one more than a header may have, so that whoever reads the text
/// sees that it is too long.
pub const HEADER_READ: u64 = 65_537;

/// The folder of a header file as a bay, of which nothing is known. A contract sees the header file's path, the folder
/// last begun and the faults.
///
/// A step of folder F is staged in `F.part/NAME` beside it, with a NAME that no other run has, and that folder is renamed
/// at `commit`. No call makes it twice, and what a run drops it first renames: so a step that is committed is whole and of
/// one run, also where runs have no lock in common. The file `F.lock`, locked from `begin_step` to `commit`, lets a second
/// run fail at once. A bay that is let go drops what it staged. What a run that was killed leaves is never read, and the
/// next `begin_step` of F, or of a later revision, drops it. A header is written under a name of its own, and put where
/// none stands; where the very same text stands already, it is as good as put.
///
/// Each call of the system that fails is one fault, but for what is not there where a call asks whether it is. So are
/// what is no regular file where a file is read, what stands already where a step is committed, another text where a
/// header is put, a step that another run is writing, one that is committed and was not begun, a file outside of the step
/// that was begun, a folder of its own that another run has taken away, a name that is no text, and want of memory in a
/// call that cannot answer it.
pub struct FolderBay<R: Files + RandomSource + Drop> {
    rt: R,
    path: String,
    begun: Option<String>,
    /// Where the step that was begun is staged, until it is committed.
    held: Option<Stage<R::File>>,
    changes: u64,
    call: Option<BayCall>,
    failed: Option<String>,
    log: FaultLog,
}

/// The paths of a file of a step: where it is staged, and where it stands once it is committed.
#[derive(Drop)]
struct Places {
    staged: String,
    path: String,
}

impl<R: Files + RandomSource + Drop> Model for FolderBay<R> {
    ghost use Rattle.std.specs.Prelude.{string_bytes, option_map, is_some};
    ghost use Rattle.idx_real.specs.FolderState.{FolderState};

    ghost Value = { FolderState };

    ghost view = { λ s. record {
      path = string_bytes s.path;
      begun = option_map string_bytes s.begun;
      held = is_some s.held;
      changes = s.changes;
      call = s.call;
      failed = option_map string_bytes s.failed;
      faults = s.log;
    } };
}

impl<R: Files + RandomSource + Drop> FolderBay<R> {
    /// `path` is the header file's. Opens nothing yet and takes no memory.
    pub fn new(rt: R, path: String) -> FolderBay<R>
        ensures { result ≡ record { path = string_bytes path; begun = None; held = false; changes = 0; call = None; failed = None; faults = no_faults } }
    {
        FolderBay {
            rt,
            path,
            begun: None,
            held: None,
            changes: 0,
            call: None,
            failed: None,
            log: FaultLog::new(),
        }
    }

    /// The last fault, with the path and the reason; `None` exactly where no fault was counted.
    pub fn last_fault(&self) -> Option<Fault<'_>>
        ensures path { IfSome result (λ fault. fault.path.now ≡ unwrap_or self.now.failed self.now.path) }
        ensures reason { option_map (λ fault. fault.reason) result ≡ self.now.faults.last }
        ensures some { IsSome result ↔ (0 < self.now.faults.count) }
    {
        let path = match &self.failed {
            Some(path) => path.as_str(),
            None => self.path.as_str(),
        };
        self.log.last().map(|reason| Fault { path, reason })
    }

    fn alloc(&self) -> Global {
        *self.path.allocator()
    }

    /// Counts a call that changes the bay.
    fn change(&mut self)
        ensures { self.new ≡ record self.old { changes = (self.old.changes + 1) % 2 ^ 64 } }
    {
        self.changes = self.changes.wrapping_add(1);
    }

    /// Counts a fault of a call at a path; at the header file's where there is none.
    fn fault(&mut self, call: BayCall, place: Option<String>, reason: Reason) -> Outage
        ensures state { self.new ≡ failed_at call (option_map string_bytes place) reason self.old }
        ensures cause { Rose self.old.faults.count self.new.faults.count }
    {
        self.call = Some(call);
        self.failed = place;
        self.log.fault(reason)
    }

    /// Hands on what a call found. Where it was refused, that is one fault.
    fn answer<T>(&mut self, call: BayCall, found: Result<T, Refusal>) -> Result<T, Outage>
        ensures value { IfOk found (λ value. result ≡ Ok value) }
        ensures refused { OnErr found (IsErr result) }
        ensures ok { OnOk result (self.new ≡ self.old) }
        ensures path { self.new.path ≡ self.old.path }
        ensures begun { self.new.begun ≡ self.old.begun }
        ensures held { self.new.held ≡ self.old.held }
        ensures changes { self.new.changes ≡ self.old.changes }
        ensures call { self.new.call ≡ last_failed call (is_ok result) self.old.call }
        ensures err { OnErr result (self.new.faults.count ≡ counted self.old.faults.count) }
        ensures count { NeverFalls self.old.faults.count self.new.faults.count }
        ensures cause { OnErr result (Rose self.old.faults.count self.new.faults.count) }
    {
        match found {
            Ok(value) => Ok(value),
            Err(Refusal { place, reason }) => Err(self.fault(call, place, reason)),
        }
    }

    /// Where this name stands beside the header file.
    fn place(&self, name: &str, end: &str) -> Result<String, NoMemory> {
        beside(self.alloc(), self.path.as_str(), name, end)
    }

    /// The same, where the name is text and there is memory.
    fn place_if_text(&self, name: &[u8]) -> Option<String> {
        match str::from_utf8(name) {
            Ok(name) => self.place(name, "").ok(),
            Err(_) => None,
        }
    }

    /// Where a file of the step that was begun is staged, and where it stands once it is committed.
    fn places(&self, path: &[u8]) -> Result<Result<Places, Reason>, NoMemory>
        ensures { ¬ (InStep self.now.begun path.now) → result ≡ Ok (Err Reason.OutsideStep) }
    {
        match folder_of(&self.begun, path) {
            Some(folder) => self.places_in(folder, path),
            None => Ok(Err(Reason::OutsideStep)),
        }
    }

    /// The same of a folder in which the path lies.
    fn places_in(&self, folder: &str, path: &[u8]) -> Result<Result<Places, Reason>, NoMemory>
        requires { length folder.now < length path.now }
    {
        let rest = &path[folder.len() + 1..];
        let (Ok(path), Ok(rest)) = (str::from_utf8(path), str::from_utf8(rest)) else {
            return Ok(Err(Reason::NotText));
        };
        let Some(stage) = &self.held else {
            return Ok(Err(Reason::NotBegun));
        };
        let own = stage.own();
        Ok(Ok(Places {
            staged: format!(in self.alloc(); "{own}/{rest}")?,
            path: self.place(path, "")?,
        }))
    }

    /// Makes the folders above a path.
    fn make_above(&self, path: &str) -> Result<(), Refusal> {
        let folder = folder_above(path);
        match make_folders(&self.rt, folder) {
            Ok(()) => Ok(()),
            Err(reason) => Err(Refusal {
                place: String::from_str(self.alloc(), folder).ok(),
                reason,
            }),
        }
    }
}

impl<R: Files + RandomSource + Drop> FolderBay<R> {
    /// Whether the step that was begun, and is not committed, is this one.
    fn has_begun(&self, folder: &str) -> bool
        ensures begun { IsTrue result → self.now.begun ≡ Some folder.now }
        ensures held { IsTrue result → IsTrue self.now.held }
    {
        match &self.begun {
            Some(begun) if begun.as_str() == folder => self.held.is_some(),
            _ => false,
        }
    }

    /// Keeps what is staged, and gives up what was.
    fn keep(&mut self, stage: Stage<R::File>)
        ensures { self.new ≡ record self.old { held = true } }
    {
        if let Some(last) = self.held.replace(stage) {
            last.give_up(&self.rt, self.alloc());
        }
    }

    /// Lets the step go that was committed.
    fn let_go(&mut self)
        ensures { self.new ≡ record self.old { held = false } }
    {
        if let Some(stage) = self.held.take() {
            stage.end(&self.rt);
        }
    }

    /// Gives the staged folder of the step that was begun its own name.
    fn rename_step(
        &self,
        folder: &str,
        place: &str,
        leaves: &Vec<(Bytes, FileLeaf)>,
    ) -> Result<(), Reason>
        ensures begun { OnOk result (self.now.begun ≡ Some folder.now) }
        ensures held { OnOk result (IsTrue self.now.held) }
        ensures paths { OnOk result (IsTrue (are_of_their_paths leaves.now.items)) }
    {
        if !are_of_their_paths(leaves) {
            return Err(Reason::OtherPath);
        }
        match &self.held {
            Some(stage) if self.has_begun(folder) => rename_new(&self.rt, stage.own(), place),
            _ => Err(Reason::NotBegun),
        }
    }

    /// The same of a step by its name.
    fn rename_named(
        &self,
        folder: &[u8],
        leaves: &Vec<(Bytes, FileLeaf)>,
    ) -> Result<Result<(), Refusal>, NoMemory>
        ensures begun { IfOk result (λ renamed. OnOk renamed (self.now.begun ≡ Some folder.now)) }
        ensures held { IfOk result (λ renamed. OnOk renamed (IsTrue self.now.held)) }
        ensures paths { IfOk result (λ renamed. OnOk renamed (IsTrue (are_of_their_paths leaves.now.items))) }
    {
        let folder = match text_of(folder) {
            Ok(folder) => folder,
            Err(reason) => return Ok(Err(Refusal::from(reason))),
        };
        let place = self.place(folder, "")?;
        match self.rename_step(folder, place.as_str(), leaves) {
            Ok(()) => Ok(Ok(())),
            Err(reason) => Ok(Err(Refusal::at(place, reason))),
        }
    }
}

impl<R: Files + RandomSource + Drop> FolderBay<R> {
    /// Makes the folders above the header file, and puts its text where no header stands.
    fn put_header(&self, text: &[u8]) -> Result<(), Refusal>
    where
        R::File: Lockable,
    {
        let path = self.path.as_str();
        self.make_above(path)?;
        Ok(put_new(&self.rt, self.alloc(), path, text)?)
    }

    /// Whether the folder of this name is there.
    fn has_folder(&self, folder: &[u8]) -> Result<bool, Refusal> {
        let place = self.place(text_of(folder)?, "")?;
        match is_folder(&self.rt, place.as_str()) {
            Ok(stands) => Ok(stands),
            Err(reason) => Err(Refusal::at(place, reason)),
        }
    }

    /// The committed file of this path; `None` where there is none.
    fn find_leaf(&self, path: &[u8]) -> Result<Result<Option<FileLeaf>, Refusal>, NoMemory> {
        match text_of(path) {
            Ok(name) => Ok(leaf_at(&self.rt, self.place(name, "")?)),
            Err(reason) => Ok(Err(Refusal::from(reason))),
        }
    }

    /// Makes a file of the step that was begun.
    fn make_file(&self, path: &[u8]) -> Result<Result<FileDraft<R::File>, Refusal>, NoMemory>
        ensures new { IfOk result (λ made. IfOk made (λ draft. draft.faults ≡ no_faults)) }
        ensures outside { ¬ (InStep self.now.begun path.now) → IsOkAnd result (λ made. IsErr made) }
    {
        match self.places(path)? {
            Ok(places) => Ok(self.make_file_at(places)),
            Err(reason) => Ok(Err(Refusal {
                place: self.place_if_text(path),
                reason,
            })),
        }
    }

    /// Makes a file at these places.
    fn make_file_at(&self, places: Places) -> Result<FileDraft<R::File>, Refusal>
        ensures { IfOk result (λ draft. draft.faults ≡ no_faults) }
    {
        let Some(stage) = &self.held else {
            return Err(Refusal::at(places.staged, Reason::NotBegun));
        };
        match create_file(&self.rt, stage.own(), places.staged.as_str()) {
            Ok(file) => Ok(FileDraft::new(file, places.staged, places.path, stage.is_late())),
            Err(reason) => Err(Refusal::at(places.staged, reason)),
        }
    }
}

impl<R: Files + RandomSource + Drop> FolderBay<R>
where
    R::File: Lockable,
{
    /// Stages a step.
    fn stage_at(&self, shared: String, lock: String) -> Result<Stage<R::File>, Refusal> {
        self.make_above(shared.as_str())?;
        Stage::begin(&self.rt, self.alloc(), shared, lock)
    }

    /// The same by the name of its folder, which is given back.
    fn stage_step(&self, folder: &str) -> Result<(String, Stage<R::File>), Refusal>
        ensures { IfOk result (λ step. string_bytes step.0 ≡ folder.now) }
    {
        let shared = self.place(folder, PART)?;
        let lock = self.place(folder, LOCK)?;
        match String::from_str(self.alloc(), folder) {
            Ok(begun) => Ok((begun, self.stage_at(shared, lock)?)),
            Err(_) => Err(Refusal::at(shared, Reason::no_memory())),
        }
    }

    /// Drops what this bay staged of the step that it has begun, and stages it anew.
    fn stage_again(&mut self) -> Result<(), Refusal>
        ensures { self.new ≡ self.old }
    {
        let alloc = self.alloc();
        match &mut self.held {
            Some(stage) => stage.begin_again(&self.rt, alloc),
            None => Ok(()),
        }
    }

    /// Stages a step, which is then the one that was begun.
    fn begin_staged(&mut self, folder: &[u8]) -> Result<(), Refusal>
        ensures ok { OnOk result (self.new ≡ record self.old { begun = Some folder.now; held = true }) }
        ensures err { OnErr result (self.new ≡ self.old) }
    {
        let folder = text_of(folder)?;
        if self.has_begun(folder) {
            return self.stage_again();
        }
        let (begun, stage) = self.stage_step(folder)?;
        self.drop_earlier(folder);
        self.keep(stage);
        self.begun = Some(begun);
        Ok(())
    }

    /// Drops what was staged of the earlier revisions of a step. What cannot be dropped is no fault.
    fn drop_earlier(&self, folder: &str) {
        if let Some((step, later)) = later_revision(folder) {
            let _dropped = self.drop_revision(step, "");
            for revision in 1..later {
                let _dropped = self.drop_numbered(step, revision);
            }
        }
    }

    /// The same of one revision behind the first.
    fn drop_numbered(&self, step: &str, revision: u8) -> Result<(), NoMemory> {
        let end = format!(in self.alloc(); ".r{revision}")?;
        self.drop_revision(step, end.as_str())
    }

    /// The same of a revision whose name has this end.
    fn drop_revision(&self, step: &str, end: &str) -> Result<(), NoMemory> {
        let folder = self.place(step, end)?;
        let shared = format!(in self.alloc(); "{folder}{PART}")?;
        let lock = format!(in self.alloc(); "{folder}{LOCK}")?;
        drop_left(&self.rt, self.alloc(), shared.as_str(), lock.as_str());
        Ok(())
    }
}

impl<R: Files + RandomSource + Drop> Drop for FolderBay<R> {
    /// What is staged and not committed is dropped.
    fn drop(self) {
        let FolderBay {
            rt,
            path,
            begun: _begun,
            held,
            changes: _changes,
            call: _call,
            failed: _failed,
            log: _log,
        } = self;
        if let Some(stage) = held {
            stage.give_up(&rt, *path.allocator());
        }
    }
}

/// The name as text.
fn text_of(name: &[u8]) -> Result<&str, Reason>
    ensures { IfOk result (λ text. text.now ≡ name.now) }
{
    match str::from_utf8(name) {
        Ok(text) => Ok(text),
        Err(_) => Err(Reason::NotText),
    }
}

/// The committed file at this place; `None` where there is none.
fn leaf_at<R: Files>(rt: &R, place: String) -> Result<Option<FileLeaf>, Refusal> {
    match length_if_there(rt, place.as_str()) {
        Ok(Some(len)) => Ok(Some(FileLeaf::new(place, len))),
        Ok(None) => Ok(None),
        Err(reason) => Err(Refusal::at(place, reason)),
    }
}

impl<R: Files + RandomSource + Drop> Bay for FolderBay<R>
where
    R::File: Lockable,
{
    type Leaf = FileLeaf;

    type Draft = FileDraft<R::File>;

    ghost header = { λ _. None };

    ghost files = { λ _. None };

    ghost admits = { λ _ _. ⊤ };

    ghost begun = { λ _. None };

    ghost changes = { λ s. s.changes };

    ghost failed = { λ s. s.call };

    ghost faults = { λ s. s.faults.count };

    /// Reads the header file anew at each call, and at most `HEADER_READ` bytes of it.
    fn header(&mut self, into: &mut Bytes) -> Result<(), BayFault>
        ensures text { OnOk result (AppendsFront R.File.remaining 65537 into.old into.new) }
        ensures refused { OnErr result (into.new ≡ into.old) }
        ensures path { self.new.path ≡ self.old.path }
        ensures begun { self.new.begun ≡ self.old.begun }
        ensures held { self.new.held ≡ self.old.held }
        ensures failed { IsErrOf result BayFault.Outage → self.new.failed ≡ None }
        ensures quiet { OnOk result (self.new.faults ≡ self.old.faults) }
        ensures no_memory { IsErrOf result BayFault.NoMemory → self.new.faults ≡ self.old.faults }
        ensures outage { IsErrOf result BayFault.Outage → self.new.faults.count ≡ counted self.old.faults.count }
        ensures changes { self.new.changes ≡ self.old.changes }
        ensures call { self.new.call ≡ last_failed BayCall.Header (counts_none result) self.old.call }
        ensures count { NeverFalls self.old.faults.count self.new.faults.count }
        ensures cause { OnlyWhereRose result BayFault.Outage self.old.faults.count self.new.faults.count }
    {
        let file = match open_if_there(&self.rt, self.path.as_str()) {
            Ok(Some(file)) => file,
            Ok(None) => return Ok(()),
            Err(reason) => return Err(self.fault(BayCall::Header, None, reason).into()),
        };
        match front(self.alloc(), file, HEADER_READ)? {
            Ok(text) => Ok(into.append(text.as_slice())?),
            Err(reason) => Err(self.fault(BayCall::Header, None, reason).into()),
        }
    }

    /// Makes the folders above the header file, writes beside it and links it to its name, where no header stands or
    /// this one does, as where another run has put it. An empty file is none.
    fn set_header(&mut self, text: &[u8]) -> Result<(), Outage>
        ensures path { self.new.path ≡ self.old.path }
        ensures begun { self.new.begun ≡ self.old.begun }
        ensures held { self.new.held ≡ self.old.held }
        ensures quiet { OnOk result (self.new.faults ≡ self.old.faults) }
        ensures err { OnErr result (self.new.faults.count ≡ counted self.old.faults.count) }
        ensures changes { self.new.changes ≡ (self.old.changes + 1) % 2 ^ 64 }
        ensures call { self.new.call ≡ last_failed BayCall.SetHeader (is_ok result) self.old.call }
        ensures count { NeverFalls self.old.faults.count self.new.faults.count }
        ensures cause { OnErr result (Rose self.old.faults.count self.new.faults.count) }
    {
        self.change();
        let put = self.put_header(text);
        self.answer(BayCall::SetHeader, put)
    }

    /// True exactly where the step's folder is there and is a folder.
    fn has_step(&mut self, folder: &[u8]) -> Result<bool, Outage>
        ensures path { self.new.path ≡ self.old.path }
        ensures begun { self.new.begun ≡ self.old.begun }
        ensures held { self.new.held ≡ self.old.held }
        ensures quiet { OnOk result (self.new.faults ≡ self.old.faults) }
        ensures err { OnErr result (self.new.faults.count ≡ counted self.old.faults.count) }
        ensures changes { self.new.changes ≡ self.old.changes }
        ensures call { self.new.call ≡ last_failed BayCall.HasStep (is_ok result) self.old.call }
        ensures count { NeverFalls self.old.faults.count self.new.faults.count }
        ensures cause { OnErr result (Rose self.old.faults.count self.new.faults.count) }
    {
        let stands = self.has_folder(folder);
        self.answer(BayCall::HasStep, stands)
    }

    /// Makes a folder of its own for the step's files and those above it, and drops what other runs left of the step and of
    /// its earlier revisions. Where another run has the step's lock, that is a fault.
    fn begin_step(&mut self, folder: &[u8]) -> Result<(), Outage>
        ensures path { self.new.path ≡ self.old.path }
        ensures begun { OnOk result (self.new.begun ≡ Some folder.now) }
        ensures held { OnOk result (IsTrue self.new.held) }
        ensures refused { OnErr result (self.new.begun ≡ self.old.begun) }
        ensures kept { OnErr result (self.new.held ≡ self.old.held) }
        ensures quiet { OnOk result (self.new.faults ≡ self.old.faults) }
        ensures err { OnErr result (self.new.faults.count ≡ counted self.old.faults.count) }
        ensures changes { self.new.changes ≡ (self.old.changes + 1) % 2 ^ 64 }
        ensures call { self.new.call ≡ last_failed BayCall.BeginStep (is_ok result) self.old.call }
        ensures count { NeverFalls self.old.faults.count self.new.faults.count }
        ensures cause { OnErr result (Rose self.old.faults.count self.new.faults.count) }
    {
        self.change();
        let begun = self.begin_staged(folder);
        self.answer(BayCall::BeginStep, begun)
    }

    fn create(&mut self, path: &[u8]) -> Result<FileDraft<R::File>, BayFault>
        ensures new { IfOk result (λ draft. draft.faults ≡ no_faults) }
        ensures outside { ¬ (InStep self.old.begun path.now) → IsErrOf result BayFault.Outage }
        ensures path { self.new.path ≡ self.old.path }
        ensures begun { self.new.begun ≡ self.old.begun }
        ensures held { self.new.held ≡ self.old.held }
        ensures quiet { OnOk result (self.new.faults ≡ self.old.faults) }
        ensures no_memory { IsErrOf result BayFault.NoMemory → self.new.faults ≡ self.old.faults }
        ensures outage { IsErrOf result BayFault.Outage → self.new.faults.count ≡ counted self.old.faults.count }
        ensures changes { self.new.changes ≡ (self.old.changes + 1) % 2 ^ 64 }
        ensures call { self.new.call ≡ last_failed BayCall.Create (counts_none result) self.old.call }
        ensures count { NeverFalls self.old.faults.count self.new.faults.count }
        ensures cause { OnlyWhereRose result BayFault.Outage self.old.faults.count self.new.faults.count }
    {
        self.change();
        let made = self.make_file(path)?;
        Ok(self.answer(BayCall::Create, made)?)
    }

    fn leaf(&mut self, path: &[u8]) -> Result<Option<FileLeaf>, BayFault>
        ensures path { self.new.path ≡ self.old.path }
        ensures begun { self.new.begun ≡ self.old.begun }
        ensures held { self.new.held ≡ self.old.held }
        ensures quiet { OnOk result (self.new.faults ≡ self.old.faults) }
        ensures no_memory { IsErrOf result BayFault.NoMemory → self.new.faults ≡ self.old.faults }
        ensures outage { IsErrOf result BayFault.Outage → self.new.faults.count ≡ counted self.old.faults.count }
        ensures changes { self.new.changes ≡ self.old.changes }
        ensures call { self.new.call ≡ last_failed BayCall.Leaf (counts_none result) self.old.call }
        ensures count { NeverFalls self.old.faults.count self.new.faults.count }
        ensures cause { OnlyWhereRose result BayFault.Outage self.old.faults.count self.new.faults.count }
    {
        let found = self.find_leaf(path)?;
        Ok(self.answer(BayCall::Leaf, found)?)
    }

    /// Gives the step's folder its name, and lets its lock go. Where something stands there already, a file was written for
    /// another path, the step was not begun, or another run has taken away what was staged, that is a fault.
    fn commit(&mut self, folder: &[u8], leaves: &Vec<(Bytes, FileLeaf)>) -> Result<(), BayFault>
        ensures begun_step { OnOk result (self.old.begun ≡ Some folder.now) }
        ensures was_held { OnOk result (IsTrue self.old.held) }
        ensures let_go { OnOk result (IsFalse self.new.held) }
        ensures kept { OnErr result (self.new.held ≡ self.old.held) }
        ensures paths { OnOk result (IsTrue (are_of_their_paths leaves.now.items)) }
        ensures path { self.new.path ≡ self.old.path }
        ensures begun { self.new.begun ≡ self.old.begun }
        ensures quiet { OnOk result (self.new.faults ≡ self.old.faults) }
        ensures no_memory { IsErrOf result BayFault.NoMemory → self.new.faults ≡ self.old.faults }
        ensures outage { IsErrOf result BayFault.Outage → self.new.faults.count ≡ counted self.old.faults.count }
        ensures changes { self.new.changes ≡ (self.old.changes + 1) % 2 ^ 64 }
        ensures call { self.new.call ≡ last_failed BayCall.Commit (counts_none result) self.old.call }
        ensures count { NeverFalls self.old.faults.count self.new.faults.count }
        ensures cause { OnlyWhereRose result BayFault.Outage self.old.faults.count self.new.faults.count }
    {
        self.change();
        let renamed = self.rename_named(folder, leaves)?;
        self.answer(BayCall::Commit, renamed)?;
        self.let_go();
        Ok(())
    }

    /// Removes the staged file. That it cannot be removed is no fault: the next `begin_step` of its folder drops it.
    fn retire(&mut self, draft: FileDraft<R::File>)
        ensures rose { 0 < draft.faults.count → self.new.faults.count ≡ counted self.old.faults.count }
        ensures same { draft.faults.count ≡ 0
            → self.new ≡ record self.old { changes = (self.old.changes + 1) % 2 ^ 64 } }
        ensures call { 0 < draft.faults.count → self.new.call ≡ Some BayCall.Retire }
        ensures path { self.new.path ≡ self.old.path }
        ensures begun { self.new.begun ≡ self.old.begun }
        ensures held { self.new.held ≡ self.old.held }
        ensures changes { self.new.changes ≡ (self.old.changes + 1) % 2 ^ 64 }
        ensures count { NeverFalls self.old.faults.count self.new.faults.count }
    {
        self.change();
        let (staged, reason) = draft.end();
        let _removed = fs::remove_file(&self.rt, staged.as_str());
        if let Some(reason) = reason {
            let _outage = self.fault(BayCall::Retire, Some(staged), reason);
        }
    }

    fn faults(&self) -> u64 {
        self.log.faults()
    }

    ghost leaves_tell = { λ _ _ told. cc };
}
