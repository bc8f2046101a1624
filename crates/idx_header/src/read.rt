ghost use Rattle.std.specs.Prelude.{◌≡◌, ◌≢◌, ◌<◌, ◌≤◌, ◌^◌, IfErr, IfOk, Some, None, Ok, Err, All, List, length, false};
ghost use Rattle.idx_text.specs.Lines.{lines};
ghost use Rattle.idx_text.specs.Sections.{sections, IsTextSection};
ghost use Rattle.idx_header.specs.Faults.{first_of};
ghost use Rattle.idx_header.specs.Header.{IsHeader};
ghost use Rattle.idx_header.specs.HeaderOf.{header_in, header_of, text_faults, value_faults};
ghost use Rattle.idx_header.specs.Keys.{lacks_key};

use crate::blocks::{read_block_bits, read_blocks_per_file};
use crate::field_list::read_fields;
use crate::keys::check_keys;
use crate::space::read_space;
use crate::template::{last_file_of, read_template};
use crate::time::read_time;
use crate::unknowns::read_unknowns;
use crate::version::check_version;
use crate::{Header, HeaderFault, HeaderKind};
use idx_text::{Document, Section, TextFault};
use std::alloc::Global;

/// A header has at most so many bytes.
pub(crate) const MAX_TEXT: usize = 65_536;

/// The header of a text, or the first fault.
pub(crate) fn read_header(alloc: Global, text: &[u8]) -> Result<Header, HeaderFault>
    ensures ok { IfOk result (λ header. header_of text.now ≡ Ok header) }
    ensures fault { IfErr result (λ fault. fault.kind ≢ HeaderKind.NoMemory → header_of text.now ≡ Err fault) }
    ensures valid { IfOk result IsHeader }
{
    let document = read_document(alloc, text)?;
    check_keys(&document)?;
    read_values(alloc, &document.sections)
}

/// The keys of a text with their values.
fn read_document(alloc: Global, text: &[u8]) -> Result<Document, HeaderFault>
    ensures ok { IfOk result (λ d. first_of (text_faults text.now) ≡ None) }
    ensures lines { IfOk result (λ d. d.lines ≡ length (lines text.now)) }
    ensures few { IfOk result (λ d. d.lines < 2 ^ 63) }
    ensures sections { IfOk result (λ d. d.sections.items ≡ sections text.now) }
    ensures texts { IfOk result (λ d. All IsTextSection d.sections.items) }
    ensures fault { IfErr result (λ f. f.kind ≢ HeaderKind.NoMemory → first_of (text_faults text.now) ≡ Some f) }
{
    if text.len() > MAX_TEXT {
        return Err(HeaderFault::on(0, HeaderKind::OverLimit));
    }
    match Document::read(alloc, text) {
        Ok(document) => Ok(document),
        Err(TextFault::NotText { line }) => Err(HeaderFault::on(line, HeaderKind::NotText)),
        Err(TextFault::NoMemory) => Err(HeaderFault::no_memory()),
    }
}

/// The header of these keys and values.
fn read_values(alloc: Global, sections: &[Section]) -> Result<Header, HeaderFault>
    requires whole { lacks_key sections.now ≡ false }
    requires texts { All IsTextSection sections.now }
    ensures ok { IfOk result (λ h. (first_of (value_faults sections.now) ≡ None) × (h ≡ header_in sections.now)) }
    ensures valid { IfOk result IsHeader }
    ensures fault { IfErr result (λ f. f.kind ≢ HeaderKind.NoMemory → first_of (value_faults sections.now) ≡ Some f) }
{
    check_version(sections)?;
    let space = read_space(sections)?;
    let fields = read_fields(alloc, sections)?;
    let block_bits = read_block_bits(sections, &space.mask, &fields)?;
    let blocks_per_file = read_blocks_per_file(sections, &fields)?;
    let last_file = last_file_of(space.mask.len(), block_bits, blocks_per_file);
    let template = read_template(alloc, sections, last_file)?;
    let steps = read_time(alloc, sections)?;
    let unknown = read_unknowns(alloc, sections)?;
    Ok(Header {
        region: space.region,
        mask: space.mask,
        fields,
        block_bits,
        blocks_per_file,
        template,
        steps,
        unknown,
        revision: 0,
    })
}
