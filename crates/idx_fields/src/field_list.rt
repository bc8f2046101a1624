//! Lists of fields: read from a text, and tried against the rules of lists.
ghost use Rattle.std.specs.Prelude.{◌≡◌, ◌<◌, ◌≢◌, ℕ, None, Some, length, map, nat_le, IsErrOf, IfOk, IfSome, IfNone, IsTrue, ◌↔◌};
ghost use Rattle.std.specs.List.{list_all, slice_split};
ghost use Rattle.idx_fields.specs.Field.{field_at, field_of, is_plus, sample_bytes};
ghost use Rattle.idx_fields.specs.Fields.{Agree, all_fields, are_distinct, are_within_limits, names_of};

use crate::fields_fault::FieldsFault;
use crate::stored_field::StoredField;
use idx_outside::NoMemory;
use std::alloc::Global;
use std::collections::BTreeSet;

/// There are at most so many fields.
const MAX_FIELDS: usize = 64;

/// A sample has at most so many bytes.
const MAX_SAMPLE: u64 = 64;

/// The fields of the parts of a text between two `+`. `BadField` exactly where one of them is none.
pub(crate) fn read_parts(alloc: Global, text: &[u8]) -> Result<Vec<StoredField>, FieldsFault>
    ensures ok { IfOk result (λ fields. all_fields (map field_of (slice_split is_plus text.now)) ≡ Some fields.items) }
    ensures bad { IsErrOf result FieldsFault.BadField →
        all_fields (map field_of (slice_split is_plus text.now)) ≡ None }
    ensures within { ¬ IsErrOf result FieldsFault.OverLimit }
{
    let mut fields = Vec::new(alloc);
    for part in text.split(|byte| *byte == b'+') {
        fields.push(StoredField::read(alloc, part)?)?;
    }
    Ok(fields)
}

/// Whether no name stands twice.
pub(crate) fn are_distinct(alloc: Global, fields: &[StoredField]) -> Result<bool, NoMemory>
    ensures { IfOk result (λ distinct. distinct ≡ are_distinct (names_of fields.now)) }
{
    let mut names = BTreeSet::new(alloc);
    for field in fields {
        if !names.insert(field.name.as_slice())? {
            return Ok(false);
        }
    }
    Ok(true)
}

/// Whether there are at most 64 fields, each of at most 64 bytes a sample.
pub(crate) fn are_within_limits(fields: &[StoredField]) -> bool
    ensures { result ≡ are_within_limits fields.now }
{
    fields.len() <= MAX_FIELDS && have_small_samples(fields)
}

/// Whether a sample of each field has at most 64 bytes.
fn have_small_samples(fields: &[StoredField]) -> bool
    ensures { result ≡ list_all (λ f. nat_le (sample_bytes f) 64) fields.now }
{
    fields.iter().all(|field| has_small_sample(field))
}

/// Whether a sample of the field has at most 64 bytes.
fn has_small_sample(field: &StoredField) -> bool
    ensures { result ≡ nat_le (sample_bytes field.now) 64 }
{
    field.count <= MAX_SAMPLE / field.base.bytes()
}

/// The place of the first field of this name.
pub(crate) fn first_named(fields: &[StoredField], name: &[u8]) -> Option<usize>
    ensures some { IfSome result (λ i. (i < length fields.now) × ((field_at fields.now i).name ≡ name.now)) }
    ensures none { IfNone result ((i : ℕ) → i < length fields.now → (field_at fields.now i).name ≢ name.now) }
{
    fields
        .iter()
        .position(|field| field.name.as_slice() == name)
}

/// Whether the names, bases and counts are equal in order.
pub(crate) fn all_agree(these: &[StoredField], those: &[StoredField]) -> bool
    ensures { IsTrue result ↔ Agree these.now those.now }
{
    if these.len() != those.len() {
        return false;
    }
    for (i, this) in these.iter().enumerate() {
        if !this.agrees(&those[i]) {
            return false;
        }
    }
    true
}

/// Copies of these fields.
pub(crate) fn copies(alloc: Global, fields: &[StoredField]) -> Result<Vec<StoredField>, NoMemory>
    ensures { IfOk result (λ copies. copies.items ≡ fields.now) }
{
    let mut copies = Vec::new(alloc);
    for field in fields {
        copies.push(field.copy(alloc)?)?;
    }
    Ok(copies)
}
