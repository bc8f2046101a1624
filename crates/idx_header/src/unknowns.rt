ghost use Rattle.std.specs.Prelude.{◌≡◌, ◌∷◌, ◌++◌, [], IfOk, OnOk, All};
ghost use Rattle.idx_text.specs.Sections.{IsTextSection};
ghost use Rattle.idx_header.specs.Header.{IsUnknown};
ghost use Rattle.idx_header.specs.HeaderOf.{unknown_in};

use crate::Unknown;
use crate::keys::is_known;
use idx_outside::{Bytes, NoMemory};
use idx_text::Section;
use std::alloc::Global;

/// The keys that have no effect, with their values, in their order.
#[tactic(auto, unfolding(crate::specs::Keys::unknown_sections))]
pub(crate) fn read_unknowns(alloc: Global, sections: &[Section]) -> Result<Vec<Unknown>, NoMemory>
    requires { All IsTextSection sections.now }
    ensures value { IfOk result (λ unknown. unknown.items ≡ unknown_in sections.now) }
    ensures valid { IfOk result (λ unknown. All IsUnknown unknown.items) }
{
    let mut unknown = Vec::new(alloc);
    for section in sections {
        add_unknown(alloc, &mut unknown, section)?;
    }
    Ok(unknown)
}

/// Appends the key of a section where it is one that has no effect.
#[tactic(auto, unfolding(crate::specs::Keys::unknown_sections))]
fn add_unknown(alloc: Global, unknown: &mut Vec<Unknown>, section: &Section) -> Result<(), NoMemory>
    ensures { OnOk result (unknown.new.items ≡ unknown.old.items ++ unknown_in (section.now ∷ [])) }
{
    if is_known(section) {
        return Ok(());
    }
    let next = Unknown {
        key: Bytes::from_slice(alloc, section.key.as_slice())?,
        value: Bytes::from_slice(alloc, section.value.as_slice())?,
    };
    unknown.push(next)?;
    Ok(())
}
