ghost use Rattle.std.specs.Prelude.{◌≡◌, ◌≢◌, ◌<◌, ◌^◌, MatchOption, IfErr, OnOk, Some, None, List, take, length};
ghost use Rattle.std.specs.List.{list_any};
ghost use Rattle.idx_text.specs.declared.section.Section.{Section};
ghost use Rattle.idx_header.specs.Faults.{first_of};
ghost use Rattle.idx_header.specs.HeaderOf.{key_faults};
ghost use Rattle.idx_header.specs.Keys.{has_key, is_known, is_known_key, is_missing, lacks_key, repeated, section_at, section_of};

use crate::key::Key;
use crate::{HeaderFault, HeaderKind};
use idx_text::{Document, Section};

/// The known keys that no header lacks.
const NEEDED: [Key; 7] = [
    Key::Version,
    Key::Box,
    Key::Fields,
    Key::Bits,
    Key::BitsPerBlock,
    Key::BlocksPerFile,
    Key::FilenameTemplate,
];

/// Refuses a text in which a known key stands twice, or one but the time does not stand.
pub(crate) fn check_keys(document: &Document) -> Result<(), HeaderFault>
    requires { document.now.lines < 2 ^ 63 }
    ensures ok { OnOk result (first_of (key_faults document.now.lines document.now.sections.items) ≡ None) }
    ensures err { IfErr result (λ f. first_of (key_faults document.now.lines document.now.sections.items) ≡ Some f) }
{
    if let Some(section) = first_repeat(&document.sections) {
        return Err(HeaderFault::on(section.line, HeaderKind::DoubleKey));
    }
    if lacks_key(&document.sections) {
        return Err(HeaderFault::on(document.lines + 1, HeaderKind::MissingKey));
    }
    Ok(())
}

/// Where a key stands first.
#[tactic(auto, unfolding(crate::specs::Keys::section_of))]
pub(crate) fn section_of(sections: &[Section], key: Key) -> Option<&Section>
    ensures { MatchOption result (section_of key sections.now ≡ None) (λ s. section_of key sections.now ≡ Some s.now) }
{
    for section in sections {
        if has_key(section, key.text()) {
            return Some(section);
        }
    }
    None
}

/// The first section whose known key stood before.
#[tactic(auto, unfolding(crate::specs::Keys::repeated))]
fn first_repeat(sections: &[Section]) -> Option<&Section>
    ensures { MatchOption result (repeated sections.now ≡ None) (λ s. repeated sections.now ≡ Some s.now) }
{
    for (i, section) in sections.iter().enumerate() {
        if is_known(section) && stands_among(&sections[..i], section.key.as_slice()) {
            return Some(section);
        }
    }
    None
}

/// Whether a key stands in some of the sections.
fn stands_among(sections: &[Section], key: &[u8]) -> bool
    ensures { result ≡ list_any (has_key key.now) sections.now }
{
    sections.iter().any(|section| has_key(section, key))
}

/// Whether a section has a known key.
pub(crate) fn is_known(section: &Section) -> bool
    ensures { result ≡ is_known section.now }
{
    is_known_key(section.key.as_slice())
}

/// Whether a text is that of a known key.
fn is_known_key(text: &[u8]) -> bool
    ensures { result ≡ is_known_key text.now }
{
    text == Key::Version.text()
        || text == Key::Box.text()
        || text == Key::Fields.text()
        || text == Key::Bits.text()
        || text == Key::BitsPerBlock.text()
        || text == Key::BlocksPerFile.text()
        || text == Key::FilenameTemplate.text()
        || text == Key::Time.text()
}

/// Whether some known key but the time does not stand.
fn lacks_key(sections: &[Section]) -> bool
    ensures { result ≡ lacks_key sections.now }
{
    NEEDED
        .iter()
        .any(|key| section_of(sections, *key).is_none())
}

/// Whether a section has this key.
fn has_key(section: &Section, key: &[u8]) -> bool
    ensures { result ≡ has_key key.now section.now }
{
    section.key.as_slice() == key
}

/// Where a key stands that no header lacks.
pub(crate) fn standing(sections: &[Section], key: Key) -> &Section
    requires { section_of key sections.now ≢ None }
    ensures { result.now ≡ section_at key sections.now }
{
    match section_of(sections, key) {
        Some(section) => section,
        None => unreachable!(),
    }
}
