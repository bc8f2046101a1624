ghost use Rattle.std.specs.Prelude.{◌≡◌, ◌≢◌, ◌⊎◌, IfErr, IfOk, IfSome, Ok};
ghost use Rattle.idx_outside.specs.Calls.{last_failed};
ghost use Rattle.idx_outside.specs.declared.bay_call.BayCall.{BayCall};
ghost use Rattle.idx_header.specs.HeaderOf.{header_of};
ghost use Rattle.idx_header.specs.OfBay.{IsAskedRefusal, IsTextRefusal, OnlyAsks, asked_quietly};

use crate::{Header, HeaderFault, HeaderKind, HeaderRefusal};
use idx_outside::{Bay, BayFault, Bytes};
use std::alloc::Global;

/// The text of the header of a bay, empty where none stands.
pub(crate) fn bay_text<B: Bay>(alloc: Global, bay: &mut B) -> Result<Bytes, HeaderRefusal>
    ensures text { IfOk result (λ text. IfSome (B.header bay.old) (λ known. known ≡ text)) }
    ensures refused { IfErr result (IsAskedRefusal (B.faults bay.old) (B.faults bay.new)) }
    ensures asks { OnlyAsks B.header B.files B.admits B.faults bay.old bay.new result }
    ensures begun { B.begun bay.new ≡ B.begun bay.old }
    ensures changes { B.changes bay.new ≡ B.changes bay.old }
    ensures failed { B.failed bay.new ≡ last_failed BayCall.Header (asked_quietly result) (B.failed bay.old) }
{
    let mut text = Bytes::new(alloc);
    match bay.header(&mut text) {
        Ok(()) => Ok(text),
        Err(BayFault::Outage) => Err(HeaderRefusal::Outage),
        Err(BayFault::NoMemory) => Err(HeaderRefusal::NoMemory),
    }
}

/// The header of a text, or why the text gives none.
pub(crate) fn read_text(alloc: Global, text: &[u8]) -> Result<Header, HeaderRefusal>
    ensures ok { IfOk result (λ header. header_of text.now ≡ Ok header) }
    ensures refused { IfErr result (IsTextRefusal text.now) }
{
    match Header::read(alloc, text) {
        Ok(header) => Ok(header),
        Err(fault) => Err(refusal_of(fault)),
    }
}

/// Why a bay gives no header whose text has this fault.
fn refusal_of(fault: HeaderFault) -> HeaderRefusal
    ensures { ((fault.kind ≡ HeaderKind.NoMemory) × (result ≡ HeaderRefusal.NoMemory))
        ⊎ ((fault.kind ≢ HeaderKind.NoMemory) × (result ≡ HeaderRefusal.Fault fault.line fault.kind)) }
{
    match fault.kind {
        HeaderKind::NoMemory => HeaderRefusal::NoMemory,
        kind => HeaderRefusal::Fault {
            line: fault.line,
            kind,
        },
    }
}
