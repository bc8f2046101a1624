ghost use Rattle.std.specs.Prelude.{◌≡◌, ◌++◌, ◌<◌, ℕ, IfErr, IfOk, OnOk, length, map};
ghost use Rattle.idx_outside.specs.Cause.{NeverFalls};
ghost use Rattle.idx_outside.specs.Files.{StillAdmits, known_files, shown};
ghost use Rattle.idx_header.specs.Names.{file_name};
ghost use Rattle.idx_gather.specs.Gather.{IsStoreFault, LeavesFailed};
ghost use Rattle.idx_gather.specs.States.{AreFull};
ghost use Rattle.idx_seal.specs.Files.{dock_file};
ghost use Rattle.idx_seal.specs.Rows.{MeetsOnceOrRow};

use crate::docks::look_over;
use crate::{Docking, GatherFault, Opening};
use idx_outside::{Bay, Gate, Leaf};
use idx_seal::seal_docks;
use std::alloc::Global;
use std::thread::Threads;

impl<L: Leaf> Docking<L> {
    /// Writes the files of the window in the step's layout, with as many workers as there are ranks, and seals them. After
    /// a refusal every draft was given up.
    pub fn seal<B: Bay<Leaf = L>, G: Gate, R: Threads + Sync>(
        self,
        rt: &R,
        alloc: Global,
        bay: &mut B,
        gate: &G,
    ) -> Result<Opening<L>, GatherFault>
    where
        B::Draft: Send,
        L: Send,
        requires full { AreFull self.docks.items }
        requires admits { (file : ℕ) → B.admits bay.old (file_name self.opening.header self.opening.step file) }
        ensures same_header { IfOk result (λ opening. opening.header ≡ self.opening.header) }
        ensures same_step { IfOk result (λ opening. opening.step ≡ self.opening.step) }
        ensures same_ranks { IfOk result (λ opening. opening.ranks ≡ self.opening.ranks) }
        ensures same_room { IfOk result (λ opening. opening.room ≡ self.opening.room) }
        ensures same_layout { IfOk result (λ opening. opening.layout ≡ self.opening.layout) }
        ensures same_pieces { IfOk result (λ opening. opening.pieces ≡ self.opening.pieces) }
        ensures same_files { IfOk result (λ opening. opening.files ≡ self.opening.files) }
        ensures more { IfOk result (λ opening. length self.opening.leaves.items < length opening.leaves.items) }
        ensures leaves { IfOk result (λ opening. shown L.contents opening.leaves.items ≡
            shown L.contents self.opening.leaves.items
            ++ known_files (B.files bay.old)
            (map (dock_file self.opening.layout self.opening.header self.opening.step) self.docks.items)) }
        ensures cause { IfErr result (IsStoreFault (B.faults bay.old) (B.faults bay.new)) }
        ensures files { B.files bay.new ≡ B.files bay.old }
        ensures header { B.header bay.new ≡ B.header bay.old }
        ensures begun { B.begun bay.new ≡ B.begun bay.old }
        ensures still { StillAdmits B.admits bay.old bay.new }
        ensures failed { LeavesFailed (B.files bay.old) (B.files bay.new) (B.failed bay.old) (B.failed bay.new) result }
        ensures count { NeverFalls (B.faults bay.old) (B.faults bay.new) }
        ensures once { MeetsOnceOrRow (B.failed bay.new) self.opening.ranks (B.faults bay.old) (B.faults bay.new) }
        ensures quiet { OnOk result (B.faults bay.new ≡ B.faults bay.old) }
    {
        let Docking {
            mut opening,
            docks,
            done: _done,
            left: _left,
        } = self;
        look_over(&docks);
        let sealed = seal_docks(
            rt,
            alloc,
            &opening.header,
            opening.step,
            docks,
            opening.layout,
            opening.ranks,
            bay,
            gate,
        );
        match sealed {
            Ok(mut leaves) => match opening.leaves.append(&mut leaves) {
                Ok(()) => Ok(opening),
                Err(_) => Err(GatherFault::NoMemory),
            },
            Err(fault) => Err(GatherFault::of_bay(fault, bay)),
        }
    }
}
