ghost use Rattle.std.specs.Prelude.{◌≡◌, ◌↔◌, [], IfErr, IfOk, IfSome, IsTrue, OnOk, ℕ};
ghost use Rattle.idx_convert.specs.Convert.{Suits};
ghost use Rattle.idx_convert.specs.Known.{Known};
ghost use Rattle.idx_convert.specs.Stages.{IsStop, OnlyLooks, with_bay};

use crate::ConvertFault;
use idx_header::Header;
use idx_outside::Bay;
use std::alloc::Global;

/// Whether no header stands; one that stands agrees with this one. Nothing else has a part in the cause of a refusal.
pub(crate) fn check_standing<B: Bay>(
    alloc: Global,
    header: &Header,
    bay: &mut B,
) -> Result<bool, ConvertFault>
    ensures suits { OnOk result (IfSome (B.header bay.old) (Suits header.now)) }
    ensures none { IfOk result (λ none. IfSome (B.header bay.old) (λ text. IsTrue none ↔ (text ≡ []))) }
    ensures cause { (step : ℕ) (k : Known) → IfErr result (IsStop header.now step
        (with_bay (B.header bay.old) (B.files bay.old) (B.failed bay.new) (B.faults bay.old) (B.faults bay.new) k)) }
    ensures looks { OnlyLooks B.header B.files B.begun B.changes B.failed B.admits B.faults bay.old bay.new result }
{
    match Header::standing(alloc, bay)? {
        None => Ok(true),
        Some(standing) => {
            if standing.agrees(header) {
                Ok(false)
            } else {
                Err(ConvertFault::OtherHeader)
            }
        }
    }
}
