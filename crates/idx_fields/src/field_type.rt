//! Types of fields: read from a word, and written.
ghost use Rattle.std.specs.Prelude.{◌≡◌, ◌==◌, ◌++◌, false, true, not, find, Some, option_and_then, MatchOption, OnOk};
ghost use Rattle.std.specs.List.{list_any, before_first, after_first, position};
ghost use Rattle.idx_fields.specs.Base.{base_of, base_text};
ghost use Rattle.std.specs.Str.{bytes_eq};
ghost use Rattle.idx_fields.specs.FieldType.{before_closing, canonical_type, count_of, type_of, type_with};

use crate::base::Base;
use idx_outside::{Bytes, NoMemory};
use idx_text::{read_number, write_number};

/// The type that a word spells: its base, and how many numbers of it a sample has. `None` exactly where it spells none.
pub(crate) fn read_type(word: &[u8]) -> Option<(Base, u64)>
    ensures { result ≡ type_of word.now }
{
    if let Some((count, base)) = split_at(word, b'*') {
        return type_with(read_base(base), read_count(count));
    }
    if let Some((base, count)) = split_at(word, b'[') {
        return type_with(read_base(base), read_closed(count));
    }
    type_with(read_base(word), Some(1))
}

/// What stands before the first byte of this kind, and what stands behind it.
fn split_at(word: &[u8], mark: u8) -> Option<(&[u8], &[u8])>
    ensures { MatchOption result (list_any (λ b. b == mark) word.now ≡ false) (λ parts.
        (list_any (λ b. b == mark) word.now ≡ true) × (parts.0.now ≡ before_first (λ b. b == mark) word.now)
        × (parts.1.now ≡ after_first (λ b. b == mark) word.now)) }
{
    let place = place_of(word, mark)?;
    Some((&word[..place], &word[place + 1..]))
}

/// The place of the first byte of this kind.
fn place_of(word: &[u8], mark: u8) -> Option<usize>
    ensures { result ≡ position (λ b. b == mark) word.now }
{
    word.iter().position(|byte| *byte == mark)
}

/// The type of this base and this count, if both are there.
fn type_with(base: Option<Base>, count: Option<u64>) -> Option<(Base, u64)>
    ensures { result ≡ type_with base count }
{
    Some((base?, count?))
}

/// The base of this name.
#[tactic(auto, unfolding(crate::specs::Base::base_of))]
fn read_base(word: &[u8]) -> Option<Base>
    ensures { result ≡ base_of word.now }
{
    first_named(&Base::ALL, word)
}

/// The first of these bases that has this name.
fn first_named(bases: &[Base], word: &[u8]) -> Option<Base>
    ensures { result ≡ find (λ base. bytes_eq (base_text base) word.now) bases.now }
{
    bases.iter().copied().find(|base| base.text() == word)
}

/// The number from 1 that a word spells.
fn read_count(word: &[u8]) -> Option<u64>
    ensures { result ≡ count_of word.now }
{
    match read_number(word) {
        Some(0) | None => None,
        Some(count) => Some(count),
    }
}

/// The number from 1 that a word spells before its last byte, a `]`.
fn read_closed(word: &[u8]) -> Option<u64>
    ensures { result ≡ option_and_then count_of (before_closing word.now) }
{
    let [count @ .., last] = word else {
        return None;
    };
    if *last != b']' {
        return None;
    }
    read_count(count)
}

/// Appends the canonical type. At `NoMemory` some of it may have been appended.
pub(crate) fn append_type(base: Base, count: u64, out: &mut Bytes) -> Result<(), NoMemory>
    ensures { OnOk result (out.new ≡ out.old ++ canonical_type base count) }
{
    out.append(base.text())?;
    if is_written(count) {
        out.push(b'[')?;
        write_number(count, out)?;
        out.push(b']')?;
    }
    Ok(())
}

/// Whether a count stands behind its base: it is not 1.
fn is_written(count: u64) -> bool
    ensures { result ≡ not (count == 1) }
{
    count != 1
}
