//! Revisions of a step: each writing of it is one more, counted from 0.
ghost use Rattle.std.specs.Prelude.{◌≡◌, ◌≤◌, IfOk, IfSome, IsSome, None, Ok, Some};
ghost use Rattle.idx_header.specs.Header.{IsHeader, at_revision};
ghost use Rattle.idx_header.specs.Revisions.{AsksSteps, IsRevisionOf, header_that_stands, header_to_write, next_revision, stands_at};

use crate::Header;
use crate::copy::copy_at;
use idx_outside::{Bay, BayFault, NoMemory};
use std::alloc::Global;

/// A step has at most so many revisions.
const MAX_REVISIONS: u32 = 256;

impl Header {
    /// The revision of the steps that the header's names are of, 0 to 255. A header that was read is at revision 0.
    pub fn revision(&self) -> u32
        ensures value { result ≡ self.now.revision }
        ensures few { result ≤ 255 }
        ensures valid { IsHeader self.now }
    {
        self.revision
    }

    /// The header at a revision of its steps.
    pub fn at_revision(&self, alloc: Global, r: u32) -> Result<Header, NoMemory>
        requires timed { IsSome self.now.steps }
        requires few { r ≤ 255 }
        ensures { IfOk result (λ header. header ≡ at_revision r self.now) }
    {
        copy_at(alloc, self, r)
    }

    /// How many revisions of a step stand, counted from revision 0 up to the first that does not: the revision that is
    /// written next. At most 256; 1 where the header has no time, and then nothing is asked.
    pub fn next_revision<B: Bay>(
        &self,
        alloc: Global,
        step: u64,
        bay: &mut B,
    ) -> Result<u32, BayFault>
        ensures next { IfOk result (λ r. IfSome (B.files bay.old) (λ files. r ≡ next_revision self.now step files)) }
        ensures few { IfOk result (λ r. r ≤ 256) }
        ensures untimed { self.now.steps ≡ None → (result ≡ Ok 1) × (bay.new ≡ bay.old) }
        ensures asks { AsksSteps B.header B.files B.admits B.begun B.changes B.failed B.faults bay.old bay.new result }
    {
        if self.steps.is_none() {
            return Ok(1);
        }
        for revision in 0..MAX_REVISIONS {
            if !self.stands_at(alloc, step, revision, bay)? {
                return Ok(revision);
            }
        }
        Ok(MAX_REVISIONS)
    }

    /// The header at the revision of a step that is written next. `None` exactly where 256 revisions stand.
    pub fn to_write<B: Bay>(
        &self,
        alloc: Global,
        step: u64,
        bay: &mut B,
    ) -> Result<Option<Header>, BayFault>
        requires timed { IsSome self.now.steps }
        ensures next { IfOk result (λ found. IfSome (B.files bay.old)
            (λ files. found ≡ header_to_write self.now step files)) }
        ensures revised { IfOk result (λ found. IfSome found (IsRevisionOf self.now)) }
        ensures asks { AsksSteps B.header B.files B.admits B.begun B.changes B.failed B.faults bay.old bay.new result }
    {
        let next = self.next_revision(alloc, step, bay)?;
        if next >= MAX_REVISIONS {
            return Ok(None);
        }
        Ok(Some(copy_at(alloc, self, next)?))
    }

    /// The header at the newest revision of a step that stands. `None` exactly where none stands. Where the header has no
    /// time it is an equal header, and nothing is asked.
    pub fn that_stands<B: Bay>(
        &self,
        alloc: Global,
        step: u64,
        bay: &mut B,
    ) -> Result<Option<Header>, BayFault>
        ensures newest { IfOk result (λ found. IfSome (B.files bay.old)
            (λ files. found ≡ header_that_stands self.now step files)) }
        ensures revised { IfOk result (λ found. IfSome found (IsRevisionOf self.now)) }
        ensures untimed { self.now.steps ≡ None → IfOk result (λ found. found ≡ Some self.now) × (bay.new ≡ bay.old) }
        ensures asks { AsksSteps B.header B.files B.admits B.begun B.changes B.failed B.faults bay.old bay.new result }
    {
        let next = self.next_revision(alloc, step, bay)?;
        if next == 0 {
            return Ok(None);
        }
        Ok(Some(copy_at(alloc, self, next - 1)?))
    }

    /// Whether a step at a revision stands. Where the header has no time, revision 0 alone does.
    fn stands_at<B: Bay>(
        &self,
        alloc: Global,
        step: u64,
        revision: u32,
        bay: &mut B,
    ) -> Result<bool, BayFault>
        ensures stands { IfOk result (λ stands. IfSome (B.files bay.old)
            (λ files. stands ≡ stands_at self.now step files revision)) }
        ensures asks { AsksSteps B.header B.files B.admits B.begun B.changes B.failed B.faults bay.old bay.new result }
    {
        let Some(folder) = self.folder_at(alloc, step, revision)? else {
            return Ok(revision == 0);
        };
        match bay.has_step(folder.as_slice()) {
            Ok(stands) => Ok(stands),
            Err(_) => Err(BayFault::Outage),
        }
    }
}
