ghost use Rattle.std.specs.Prelude.{◌≡◌, ◌≢◌, ◌<◌, ◌≤◌, IfErr, IfOk, Some, None, length, false};
ghost use Rattle.idx_names.specs.Template.{Fits, IsTemplate};
ghost use Rattle.idx_header.specs.Faults.{first_of, number_in, last_file_number};
ghost use Rattle.idx_header.specs.HeaderOf.{template_faults, template_in, mask_of_header};
ghost use Rattle.idx_header.specs.Keys.{lacks_key, section_at};

use crate::key::Key;
use crate::keys::standing;
use crate::{HeaderFault, HeaderKind};
use idx_names::Template;
use idx_text::Section;
use std::alloc::Global;

/// The template of its key, which has room for the number of the last file.
pub(crate) fn read_template(
    alloc: Global,
    sections: &[Section],
    last_file: u64,
) -> Result<Template, HeaderFault>
    requires whole { lacks_key sections.now ≡ false }
    requires last { last_file ≡ last_file_number (length (mask_of_header sections.now))
        (number_in (section_at Key.BitsPerBlock sections.now)) (number_in (section_at Key.BlocksPerFile sections.now)) }
    ensures ok { IfOk result (λ t. (first_of (template_faults sections.now) ≡ None)
        × (t ≡ template_in (section_at Key.FilenameTemplate sections.now)) × Fits t last_file) }
    ensures valid { IfOk result IsTemplate }
    ensures err { IfErr result (λ f. f.kind ≢ HeaderKind.NoMemory → first_of (template_faults sections.now) ≡ Some f) }
{
    let section = standing(sections, Key::FilenameTemplate);
    let Some(template) = Template::read(alloc, section.value.as_slice())? else {
        return Err(HeaderFault::on(section.line, HeaderKind::BadTemplate));
    };
    if !template.fits(last_file) {
        return Err(HeaderFault::on(section.line, HeaderKind::TemplateTooSmall));
    }
    Ok(template)
}

/// The number of the file of the last block: its first block.
pub(crate) fn last_file_of(digits: u32, block_bits: u32, per_file: u64) -> u64
    requires digits { digits ≤ 40 }
    requires bits { block_bits ≤ digits }
    requires some { 0 < per_file }
    ensures { result ≡ last_file_number digits block_bits per_file }
{
    let last = (1 << (digits - block_bits)) - 1;
    last - last % per_file
}
