//! Drafts that are given up.
ghost use Rattle.std.specs.Prelude.{◌≡◌, ◌+◌, ◌≤◌, vec_len};
ghost use Rattle.std.specs.List.{sum_by};
ghost use Rattle.idx_outside.specs.Cause.{MeetsOnce};
ghost use Rattle.idx_seal.specs.Bay.{GivesUp, Keeps};
ghost use Rattle.idx_seal.specs.Jobs.{faults_of};

use crate::job::Job;
use crate::written::Written;
use idx_outside::Bay;

/// Hands all drafts of a row back to their bay, in the order of the files. Sealed files are dropped. Takes no memory.
pub(crate) fn give_all_up<B: Bay>(bay: &mut B, jobs: Vec<Job<B::Draft, B::Leaf>>)
    ensures counted { GivesUp (sum_by (faults_of B.Draft.faults) jobs.items) (B.faults bay.old) (B.faults bay.new)
        (B.failed bay.old) (B.failed bay.new) }
    ensures kept { Keeps B.header B.files B.begun B.admits B.faults bay.old bay.new }
    ensures few { B.faults bay.new ≤ B.faults bay.old + vec_len jobs }
{
    let mut left = jobs.into_iter();
    'jobs: while let Some(job) = left.next() {
        give_up(bay, job);
    }
    left.destroy_empty();
}

/// Hands the draft of a file back to its bay, if there is one.
fn give_up<B: Bay>(bay: &mut B, job: Job<B::Draft, B::Leaf>)
    ensures counted { GivesUp (faults_of B.Draft.faults job) (B.faults bay.old) (B.faults bay.new)
        (B.failed bay.old) (B.failed bay.new) }
    ensures kept { Keeps B.header B.files B.begun B.admits B.faults bay.old bay.new }
    ensures once { MeetsOnce (B.faults bay.old) (B.faults bay.new) }
{
    let Job {
        path: _path,
        layout: _layout,
        file,
    } = job;
    match file {
        Some(Written::Open(_dock, draft)) => bay.retire(draft),
        Some(Written::Failed(draft)) => bay.retire(draft),
        Some(Written::Sealed(_leaf)) => {}
        None => {}
    }
}
