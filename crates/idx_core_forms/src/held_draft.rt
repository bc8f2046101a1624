ghost use Rattle.std.specs.Prelude.{◌≡◌, ◌++◌, None, Some, IfErr, IfOk, OnErr, OnOk, is_ok, if◌then◌else◌};
ghost use Rattle.idx_outside.specs.Cause.{NeverFalls, Rose, counted};
ghost use Rattle.idx_core_forms.specs.Held.{empty_draft, failed};

use crate::HeldLeaf;
use idx_outside::{Bytes, Draft, Outage};
use std::alloc::Global;
use std::marker::Model;
use std::sync::Arc;

/// A file that is being written into memory, whose bytes are known. A call fails where there is no memory, and then
/// changes nothing but the count of faults. Once a call failed each `seal` fails, so that no file lacks a piece.
/// Unlike other drafts it may be dropped.
#[derive(Drop)]
pub struct HeldDraft {
    alloc: Global,
    bytes: Bytes,
    faults: u64,
}

impl Model for HeldDraft {
    ghost use Rattle.idx_core_forms.specs.Held.{DraftValue};

    ghost Value = { DraftValue };

    ghost view = { λ s. record { bytes = s.bytes; faults = s.faults } };
}

impl HeldDraft {
    /// A draft without bytes. Takes no memory.
    pub fn new(alloc: Global) -> HeldDraft
        ensures { result ≡ empty_draft }
    {
        HeldDraft {
            alloc,
            bytes: Bytes::new(alloc),
            faults: 0,
        }
    }
}

impl Draft for HeldDraft {
    type Leaf = HeldLeaf;

    ghost contents = { λ s. Some s.bytes };

    ghost path = { λ _. None };

    ghost faults = { λ s. s.faults };

    fn append(&mut self, piece: &[u8]) -> Result<(), Outage>
        ensures state { self.new ≡ (if is_ok result then record self.old { bytes = self.old.bytes ++ piece.now }
            else failed self.old) }
        ensures count { NeverFalls self.old.faults self.new.faults }
        ensures quiet { OnOk result (self.new.faults ≡ self.old.faults) }
        ensures once { OnErr result (self.new.faults ≡ counted self.old.faults) }
        ensures cause { OnErr result (Rose self.old.faults self.new.faults) }
    {
        match self.bytes.append(piece) {
            Ok(()) => Ok(()),
            Err(_) => {
                self.faults = self.faults.saturating_add(1);
                Err(Outage)
            }
        }
    }

    fn seal(self) -> Result<HeldLeaf, (HeldDraft, Outage)>
        ensures sealed { IfOk result (λ leaf. leaf ≡ self.bytes) }
        ensures unfailed { IfOk result (λ _. self.faults ≡ 0) }
        ensures state { IfErr result (λ back. back.0 ≡ failed self) }
        ensures once { IfErr result (λ back. back.0.faults ≡ counted self.faults) }
        ensures cause { IfErr result (λ back. Rose self.faults back.0.faults) }
    {
        let HeldDraft {
            alloc,
            bytes,
            faults,
        } = self;
        if faults > 0 {
            return Err((failed_draft(alloc, bytes, faults), Outage));
        }
        match Arc::new(alloc, bytes) {
            Ok(bytes) => Ok(HeldLeaf::new(bytes)),
            Err(refused) => Err((failed_draft(alloc, refused.value, faults), Outage)),
        }
    }

    fn faults(&self) -> u64 {
        self.faults
    }
}

/// The draft of these bytes and faults, with one fault more.
fn failed_draft(alloc: Global, bytes: Bytes, faults: u64) -> HeldDraft
    ensures state { result ≡ record { bytes = bytes; faults = counted faults } }
    ensures cause { Rose faults result.faults }
{
    HeldDraft {
        alloc,
        bytes,
        faults: faults.saturating_add(1),
    }
}
