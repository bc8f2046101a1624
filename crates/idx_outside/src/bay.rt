ghost use Rattle.std.specs.Prelude.{◌≡◌, ◌↔◌, ◌⊎◌, ℕ, ◌<◌, ◌+◌, ◌%◌, ◌^◌, ◌++◌, [], List, Option, None, Some, IsSome, IsTrue, IfSome, IfOk, OnOk, OnErr, IsErrOf, is_ok, vec_len};
ghost use Rattle.std.specs.Io.{StartsWith};
ghost use Rattle.std.specs.Option.{ForSome};
ghost use Rattle.idx_outside.specs.Calls.{counts_none, last_failed};
ghost use Rattle.idx_outside.specs.Cause.{MeetsOnce, NeverFalls, Rose, OnlyWhereRose};
ghost use Rattle.idx_outside.specs.Files.{retold, added, known_with, HasStep, LiesIn, AllLieIn, AllNamed, StillAdmits, file_at, stored_at, leaf_files};
ghost use Rattle.idx_outside.specs.declared.bay_call.BayCall.{BayCall};
ghost use Rattle.idx_outside.specs.declared.mem_file.MemFile.{MemFile};

use crate::{BayCall, BayFault, Bytes, Draft, Leaf, Outage};

/// Where a dataset stands: its header, beside the files of its steps.
///
/// A step is written so: `begin_step`, then a `create` for each of its files, whose drafts are filled and sealed, and
/// then one `commit` of all of them. A draft that is given up is handed to `retire`.
///
/// A call that answers `Outage` has counted a fault of this bay, and no other call has, but for `retire`.
pub trait Bay {
    /// A committed file, or one that can be committed.
    type Leaf: Leaf;

    /// A file that is being written.
    type Draft: Draft<Leaf = Self::Leaf>;

    /// The header's text, where it is known. Where no header stands it is empty.
    ghost header: { Self → Option (List ℕ) };

    /// The committed files, where they are known.
    ghost files: { Self → Option (List MemFile) };

    /// A draft of this path may be made: where the files are known, it lies in the folder that was last begun.
    ghost admits: { Self → List ℕ → Type 0 };

    /// The folder that was last begun, known where the files are.
    ghost begun: { Self → Option (List ℕ) };

    /// How many calls were made that change the bay, also those that failed, modulo 2^64: `set_header`, `begin_step`,
    /// `create`, `commit` and `retire`.
    ghost changes: { Self → ℕ };

    /// The call that counted the last fault.
    ghost failed: { Self → Option BayCall };

    /// How many faults were counted. The count stands still at `u64::MAX`.
    ghost faults: { Self → ℕ };

    /// Appends the header's text to `into`, nothing where no header stands. After a refusal `into` is as it was.
    fn header(&mut self, into: &mut Bytes) -> Result<(), BayFault>
        ensures text { OnOk result (IfSome (header self.old) (λ text. into.new ≡ into.old ++ text)) }
        ensures appends { OnOk result (StartsWith into.new into.old) }
        ensures refused { OnErr result (into.new ≡ into.old) }
        ensures header { header self.new ≡ header self.old }
        ensures files { files self.new ≡ files self.old }
        ensures admits { StillAdmits admits self.old self.new }
        ensures begun { begun self.new ≡ begun self.old }
        ensures changes { changes self.new ≡ changes self.old }
        ensures failed { failed self.new ≡ last_failed BayCall.Header (counts_none result) (failed self.old) }
        ensures count { NeverFalls (faults self.old) (faults self.new) }
        ensures once { MeetsOnce (faults self.old) (faults self.new) }
        ensures quiet { OnOk result (faults self.new ≡ faults self.old) }
        ensures no_memory { IsErrOf result BayFault.NoMemory → faults self.new ≡ faults self.old }
        ensures cause { OnlyWhereRose result BayFault.Outage (faults self.old) (faults self.new) };

    /// Puts the header's text. After `Outage` the old or the new text stands.
    fn set_header(&mut self, text: &[u8]) -> Result<(), Outage>
        ensures text { OnOk result (header self.new ≡ retold (header self.old) text.now) }
        ensures refused { OnErr result ((header self.new ≡ header self.old)
            ⊎ (header self.new ≡ retold (header self.old) text.now)) }
        ensures files { files self.new ≡ files self.old }
        ensures admits { StillAdmits admits self.old self.new }
        ensures begun { begun self.new ≡ begun self.old }
        ensures changes { changes self.new ≡ (changes self.old + 1) % 2 ^ 64 }
        ensures failed { failed self.new ≡ last_failed BayCall.SetHeader (is_ok result) (failed self.old) }
        ensures count { NeverFalls (faults self.old) (faults self.new) }
        ensures once { MeetsOnce (faults self.old) (faults self.new) }
        ensures quiet { OnOk result (faults self.new ≡ faults self.old) }
        ensures cause { OnErr result (Rose (faults self.old) (faults self.new)) };

    /// Whether a committed step has this folder.
    fn has_step(&mut self, folder: &[u8]) -> Result<bool, Outage>
        ensures stands { IfOk result (λ stands. IfSome (files self.old)
            (λ files. IsTrue stands ↔ HasStep folder.now files)) }
        ensures header { header self.new ≡ header self.old }
        ensures files { files self.new ≡ files self.old }
        ensures admits { StillAdmits admits self.old self.new }
        ensures begun { begun self.new ≡ begun self.old }
        ensures changes { changes self.new ≡ changes self.old }
        ensures failed { failed self.new ≡ last_failed BayCall.HasStep (is_ok result) (failed self.old) }
        ensures count { NeverFalls (faults self.old) (faults self.new) }
        ensures once { MeetsOnce (faults self.old) (faults self.new) }
        ensures quiet { OnOk result (faults self.new ≡ faults self.old) }
        ensures cause { OnErr result (Rose (faults self.old) (faults self.new)) };

    /// Drops whatever was staged for this folder, which is then the folder last begun. After `Outage` that is the one
    /// that it was.
    fn begin_step(&mut self, folder: &[u8]) -> Result<(), Outage>
        ensures begun { OnOk result ((path : List ℕ) → LiesIn folder.now path → admits self.new path) }
        ensures refused { OnErr result (StillAdmits admits self.old self.new) }
        ensures header { header self.new ≡ header self.old }
        ensures files { files self.new ≡ files self.old }
        ensures folder { OnOk result (begun self.new ≡ known_with (files self.old) folder.now) }
        ensures kept { OnErr result (begun self.new ≡ begun self.old) }
        ensures changes { changes self.new ≡ (changes self.old + 1) % 2 ^ 64 }
        ensures failed { failed self.new ≡ last_failed BayCall.BeginStep (is_ok result) (failed self.old) }
        ensures count { NeverFalls (faults self.old) (faults self.new) }
        ensures once { MeetsOnce (faults self.old) (faults self.new) }
        ensures quiet { OnOk result (faults self.new ≡ faults self.old) }
        ensures cause { OnErr result (Rose (faults self.old) (faults self.new)) };

    /// An empty draft of this path, in the folder last begun, without a fault.
    fn create(&mut self, path: &[u8]) -> Result<Self::Draft, BayFault>
        requires { admits self.old path.now }
        ensures empty { IfOk result (λ draft. Self.Draft.contents draft ≡ known_with (files self.old) []) }
        ensures path { IfOk result (λ draft. Self.Draft.path draft ≡ known_with (files self.old) path.now) }
        ensures unfailed { IfOk result (λ draft. Self.Draft.faults draft ≡ 0) }
        ensures header { header self.new ≡ header self.old }
        ensures files { files self.new ≡ files self.old }
        ensures admits { StillAdmits admits self.old self.new }
        ensures begun { begun self.new ≡ begun self.old }
        ensures changes { changes self.new ≡ (changes self.old + 1) % 2 ^ 64 }
        ensures failed { failed self.new ≡ last_failed BayCall.Create (counts_none result) (failed self.old) }
        ensures count { NeverFalls (faults self.old) (faults self.new) }
        ensures once { MeetsOnce (faults self.old) (faults self.new) }
        ensures quiet { OnOk result (faults self.new ≡ faults self.old) }
        ensures no_memory { IsErrOf result BayFault.NoMemory → faults self.new ≡ faults self.old }
        ensures cause { OnlyWhereRose result BayFault.Outage (faults self.old) (faults self.new) };

    /// The committed file of this path; `None` where there is none.
    fn leaf(&mut self, path: &[u8]) -> Result<Option<Self::Leaf>, BayFault>
        ensures found { IfOk result (λ found. IfSome found
            (λ leaf. Self.Leaf.contents leaf ≡ stored_at path.now (files self.old))) }
        ensures path { IfOk result (λ found. IfSome found
            (λ leaf. Self.Leaf.path leaf ≡ known_with (files self.old) path.now)) }
        ensures none { IfOk result (λ found. IfSome (files self.old)
            (λ files. (found ≡ None) ↔ (file_at path.now files ≡ None))) }
        ensures header { header self.new ≡ header self.old }
        ensures files { files self.new ≡ files self.old }
        ensures admits { StillAdmits admits self.old self.new }
        ensures begun { begun self.new ≡ begun self.old }
        ensures changes { changes self.new ≡ changes self.old }
        ensures failed { failed self.new ≡ last_failed BayCall.Leaf (counts_none result) (failed self.old) }
        ensures count { NeverFalls (faults self.old) (faults self.new) }
        ensures once { MeetsOnce (faults self.old) (faults self.new) }
        ensures quiet { OnOk result (faults self.new ≡ faults self.old) }
        ensures no_memory { IsErrOf result BayFault.NoMemory → faults self.new ≡ faults self.old }
        ensures cause { OnlyWhereRose result BayFault.Outage (faults self.old) (faults self.new) };

    /// Makes all leaves, one at least, stand at once under their paths, as the files of a step. A leaf that tells its path
    /// is given with that path. After a refusal they stand wholly or not at all, and after `NoMemory` not at all.
    fn commit(&mut self, folder: &[u8], leaves: &Vec<(Bytes, Self::Leaf)>) -> Result<(), BayFault>
        requires some { 0 < vec_len leaves.now }
        requires new { ForSome (files self.old) (λ files. ¬ (HasStep folder.now files)) }
        requires within { ForSome (files self.old) (λ _. AllLieIn folder.now leaves.now.items) }
        requires named { AllNamed Self.Leaf.path leaves.now.items }
        ensures stands { OnOk result (files self.new
            ≡ added (files self.old) (leaf_files Self.Leaf.contents folder.now leaves.now.items)) }
        ensures whole { OnErr result ((files self.new ≡ files self.old) ⊎ (files self.new
            ≡ added (files self.old) (leaf_files Self.Leaf.contents folder.now leaves.now.items))) }
        ensures none { IsErrOf result BayFault.NoMemory → files self.new ≡ files self.old }
        ensures header { header self.new ≡ header self.old }
        ensures admits { StillAdmits admits self.old self.new }
        ensures begun { begun self.new ≡ begun self.old }
        ensures changes { changes self.new ≡ (changes self.old + 1) % 2 ^ 64 }
        ensures failed { failed self.new ≡ last_failed BayCall.Commit (counts_none result) (failed self.old) }
        ensures count { NeverFalls (faults self.old) (faults self.new) }
        ensures once { MeetsOnce (faults self.old) (faults self.new) }
        ensures quiet { OnOk result (faults self.new ≡ faults self.old) }
        ensures no_memory { IsErrOf result BayFault.NoMemory → faults self.new ≡ faults self.old }
        ensures cause { OnlyWhereRose result BayFault.Outage (faults self.old) (faults self.new) };

    /// Takes a draft that is given up, and counts a fault exactly where the draft has counted some. Takes no memory.
    fn retire(&mut self, draft: Self::Draft)
        ensures rose { 0 < Self.Draft.faults draft → Rose (faults self.old) (faults self.new) }
        ensures same { Self.Draft.faults draft ≡ 0 → faults self.new ≡ faults self.old }
        ensures count { NeverFalls (faults self.old) (faults self.new) }
        ensures once { MeetsOnce (faults self.old) (faults self.new) }
        ensures header { header self.new ≡ header self.old }
        ensures files { files self.new ≡ files self.old }
        ensures begun { begun self.new ≡ begun self.old }
        ensures changes { changes self.new ≡ (changes self.old + 1) % 2 ^ 64 }
        ensures failed { 0 < Self.Draft.faults draft → failed self.new ≡ Some BayCall.Retire }
        ensures unfailed { Self.Draft.faults draft ≡ 0 → failed self.new ≡ failed self.old }
        ensures admits { StillAdmits admits self.old self.new };

    /// How many faults were counted.
    fn faults(&self) -> u64
        ensures { result ≡ faults self.now };

    /// A bay that tells its files has leaves that tell their bytes.
    ghost leaves_tell: { (bay : Self) (leaf : Self.Leaf) → IsSome (files bay) → IsSome (Self.Leaf.contents leaf) };
}
