ghost use Rattle.std.specs.Prelude.{◌≡◌, ◌≢◌, IfErr, IfOk, Some, None, All, false};
ghost use Rattle.idx_text.specs.Sections.{IsTextSection};
ghost use Rattle.idx_fields.specs.Fields.{AreFields};
ghost use Rattle.idx_header.specs.Header.{IsTextField};
ghost use Rattle.idx_header.specs.Faults.{first_of};
ghost use Rattle.idx_header.specs.HeaderOf.{fields_faults, fields_of_header};
ghost use Rattle.idx_header.specs.Keys.{lacks_key};

use crate::key::Key;
use crate::keys::standing;
use crate::{HeaderFault, HeaderKind};
use idx_fields::{Fields, FieldsFault};
use idx_text::Section;
use std::alloc::Global;

/// The fields of their key.
#[tactic(auto, unfolding(idx_fields::specs::Fields::fields_of))]
pub(crate) fn read_fields(alloc: Global, sections: &[Section]) -> Result<Fields, HeaderFault>
    requires whole { lacks_key sections.now ≡ false }
    requires texts { All IsTextSection sections.now }
    ensures valid { IfOk result AreFields }
    ensures texts { IfOk result (λ fs. All IsTextField fs) }
    ensures ok { IfOk result (λ fs. (first_of (fields_faults sections.now) ≡ None) × (fs ≡ fields_of_header sections.now)) }
    ensures err { IfErr result (λ f. f.kind ≢ HeaderKind.NoMemory → first_of (fields_faults sections.now) ≡ Some f) }
{
    let fields = standing(sections, Key::Fields);
    match Fields::read(alloc, fields.value.as_slice()) {
        Ok(list) => Ok(list),
        Err(FieldsFault::BadField) => Err(HeaderFault::on(fields.line, HeaderKind::BadField)),
        Err(FieldsFault::OverLimit) => Err(HeaderFault::on(fields.line, HeaderKind::OverLimit)),
        Err(FieldsFault::NoMemory) => Err(HeaderFault::no_memory()),
    }
}
