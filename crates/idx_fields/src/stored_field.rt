ghost use Rattle.std.specs.Prelude.{◌≡◌, ◌↔◌, ◌++◌, None, Some, IsTrue, IsErrOf, IfOk, OnOk};
ghost use Rattle.idx_text.specs.Numbers.{runs};
ghost use Rattle.idx_fields.specs.Field.{field_of, field_text, spaced};
ghost use Rattle.idx_fields.specs.Fields.{identity};

use crate::base::Base;
use crate::field_type::{append_type, read_type};
use crate::fields_fault::FieldsFault;
use crate::words::first_word;
use idx_outside::{Bytes, NoMemory};
use std::alloc::Global;
use std::marker::Model;

/// A name has at most so many bytes.
const MAX_NAME: usize = 255;

/// A field as it is kept.
#[derive(Debug, Drop)]
pub(crate) struct StoredField {
    pub(crate) name: Bytes,
    pub(crate) base: Base,
    pub(crate) count: u64,
    pub(crate) attributes: Vec<Bytes>,
}

impl Model for StoredField {
    ghost use Rattle.idx_fields.specs.Field.{Field};

    ghost Value = { Field };

    ghost view = { λ f. record {
      name = f.name;
      base = f.base;
      count = f.count;
      attributes = f.attributes.items;
    } };
}

impl StoredField {
    /// The field that a part of a header's value spells. `BadField` exactly where it spells none.
    pub(crate) fn read(alloc: Global, part: &[u8]) -> Result<StoredField, FieldsFault>
        ensures ok { IfOk result (λ field. field_of part.now ≡ Some field) }
        ensures bad { IsErrOf result FieldsFault.BadField → field_of part.now ≡ None }
        ensures within { ¬ IsErrOf result FieldsFault.OverLimit }
    {
        let Some((name, rest)) = first_word(part) else {
            return Err(FieldsFault::BadField);
        };
        let Some((word, rest)) = first_word(rest) else {
            return Err(FieldsFault::BadField);
        };
        if name.len() > MAX_NAME {
            return Err(FieldsFault::BadField);
        }
        let Some((base, count)) = read_type(word) else {
            return Err(FieldsFault::BadField);
        };
        Ok(StoredField {
            name: Bytes::from_slice(alloc, name)?,
            base,
            count,
            attributes: words(alloc, rest)?,
        })
    }

    /// Whether the names, the bases and the counts are equal.
    pub(crate) fn agrees(&self, other: &StoredField) -> bool
        ensures { IsTrue result ↔ (identity self.now ≡ identity other.now) }
    {
        self.name == other.name && self.base == other.base && self.count == other.count
    }

    /// The field as it is written.
    pub(crate) fn text(&self, alloc: Global) -> Result<Bytes, NoMemory>
        ensures { IfOk result (λ text. text ≡ field_text self.now) }
    {
        let mut text = Bytes::from_slice(alloc, self.name.as_slice())?;
        text.push(b' ')?;
        append_type(self.base, self.count, &mut text)?;
        append_spaced(&self.attributes, &mut text)?;
        Ok(text)
    }

    /// An equal field.
    pub(crate) fn copy(&self, alloc: Global) -> Result<StoredField, NoMemory>
        ensures { IfOk result (λ copy. copy ≡ self.now) }
    {
        Ok(StoredField {
            name: Bytes::from_slice(alloc, self.name.as_slice())?,
            base: self.base,
            count: self.count,
            attributes: copies(alloc, &self.attributes)?,
        })
    }
}

/// The words of a text.
fn words(alloc: Global, text: &[u8]) -> Result<Vec<Bytes>, NoMemory>
    ensures { IfOk result (λ words. words.items ≡ runs text.now) }
{
    let mut words = Vec::new(alloc);
    let mut left = text;
    while let Some((word, rest)) = first_word(left) {
        words.push(Bytes::from_slice(alloc, word)?)?;
        left = rest;
    }
    Ok(words)
}

/// Copies of these words.
fn copies(alloc: Global, words: &[Bytes]) -> Result<Vec<Bytes>, NoMemory>
    ensures { IfOk result (λ copies. copies.items ≡ words.now) }
{
    let mut copies = Vec::new(alloc);
    for word in words {
        copies.push(Bytes::from_slice(alloc, word.as_slice())?)?;
    }
    Ok(copies)
}

/// Appends the words with a space before each.
fn append_spaced(words: &[Bytes], out: &mut Bytes) -> Result<(), NoMemory>
    ensures { OnOk result (out.new ≡ out.old ++ spaced words.now) }
{
    for word in words {
        out.push(b' ')?;
        out.append(word.as_slice())?;
    }
    Ok(())
}
