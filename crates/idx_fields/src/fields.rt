ghost use Rattle.std.specs.Prelude.{◌≡◌, ◌≢◌, ◌↔◌, ◌++◌, ℕ, ◌<◌, ◌≤◌, List, length, Some, Ok, Err, IsTrue, IsErrOf, IfOk, IfNone, OnOk, OnErr};
ghost use Rattle.idx_fields.specs.Field.{field_at, field_text, sample_bytes};
ghost use Rattle.idx_fields.specs.FieldType.{canonical_type};
ghost use Rattle.idx_fields.specs.Fields.{AreFields, Agree, fields_of};

use crate::base::Base;
use crate::field_list::{
    all_agree, are_distinct, are_within_limits, copies, first_named, read_parts,
};
use crate::field_type::append_type;
use crate::fields_fault::FieldsFault;
use crate::stored_field::StoredField;
use idx_outside::{Bytes, NoMemory};
use std::alloc::Global;
use std::marker::Model;

/// The fields of a dataset, 1 to 64, in the order of its header: each a name, a type and attribute words. They are
/// seen as the list of their records.
#[derive(Debug, Drop)]
pub struct Fields {
    items: Vec<StoredField>,
}

impl Model for Fields {
    ghost use Rattle.std.specs.Prelude.{List};
    ghost use Rattle.idx_fields.specs.Field.{Field};
    ghost use Rattle.idx_fields.specs.Fields.{AreFields};

    ghost Value = { List Field };

    ghost view = { λ f. f.items.items };

    ghost invariant = { λ f. AreFields f.items.items };
}

impl Fields {
    /// The fields of a text: separated by `+`, each a name, a type and attribute words, separated by blanks
    /// (OpenVisus). `BadField` exactly where a part has no name or no type, a name has more than 255 bytes or stands
    /// twice, or a type is none; else `OverLimit` exactly where there are more than 64 fields or a sample has more than
    /// 64 bytes.
    pub fn read(alloc: Global, text: &[u8]) -> Result<Fields, FieldsFault>
        ensures ok { IfOk result (λ fields. fields_of text.now ≡ Ok fields) }
        ensures valid { IfOk result AreFields }
        ensures bad_field { IsErrOf result FieldsFault.BadField → fields_of text.now ≡ Err FieldsFault.BadField }
        ensures over_limit { IsErrOf result FieldsFault.OverLimit → fields_of text.now ≡ Err FieldsFault.OverLimit }
    {
        let items = read_parts(alloc, text)?;
        if !are_distinct(alloc, &items)? {
            return Err(FieldsFault::BadField);
        }
        if !are_within_limits(&items) {
            return Err(FieldsFault::OverLimit);
        }
        Ok(Fields { items })
    }

    /// How many fields there are, 1 to 64.
    pub fn len(&self) -> u32
        ensures count { result ≡ length self.now }
        ensures valid { AreFields self.now }
    {
        self.items.len() as u32
    }

    /// The name of a field, 1 to 255 bytes; fields are numbered from 0.
    pub fn name(&self, i: u32) -> &[u8]
        requires { i < length self.now }
        ensures { result.now ≡ (field_at self.now i).name }
    {
        self.items[i as usize].name.as_slice()
    }

    /// The base of a field's type.
    pub fn base(&self, i: u32) -> Base
        requires { i < length self.now }
        ensures { result ≡ (field_at self.now i).base }
    {
        self.items[i as usize].base
    }

    /// How many numbers of its base a sample of a field has, from 1.
    pub fn count(&self, i: u32) -> u64
        requires { i < length self.now }
        ensures value { result ≡ (field_at self.now i).count }
        ensures some { 1 ≤ result }
    {
        self.items[i as usize].count
    }

    /// How many bytes a sample of a field has, 1 to 64.
    pub fn sample_bytes(&self, i: u32) -> u64
        requires { i < length self.now }
        ensures value { result ≡ sample_bytes (field_at self.now i) }
        ensures some { 1 ≤ result }
        ensures few { result ≤ 64 }
    {
        self.items[i as usize].count * self.items[i as usize].base.bytes()
    }

    /// The number of the field that has this name. `None` exactly where no field has it.
    pub fn find(&self, name: &[u8]) -> Option<u32>
        ensures some { (i : ℕ) → (result ≡ Some i) ↔ ((i < length self.now) × ((field_at self.now i).name ≡ name.now)) }
        ensures none { IfNone result ((i : ℕ) → i < length self.now → (field_at self.now i).name ≢ name.now) }
    {
        match first_named(&self.items, name) {
            Some(i) => Some(i as u32),
            None => None,
        }
    }

    /// Appends the canonical type of a field: its base, and behind it the count in brackets where that is not 1. At
    /// `NoMemory` the bytes are as they were.
    pub fn write_type(&self, i: u32, out: &mut Bytes) -> Result<(), NoMemory>
        requires { i < length self.now }
        ensures ok { OnOk result
            (out.new ≡ out.old ++ canonical_type (field_at self.now i).base (field_at self.now i).count) }
        ensures err { OnErr result (out.new ≡ out.old) }
    {
        let field = &self.items[i as usize];
        let mut text = Bytes::new(*self.items.allocator());
        append_type(field.base, field.count, &mut text)?;
        out.append(text.as_slice())
    }

    /// Appends a field: its name, its canonical type and its attribute words with one space between. At `NoMemory` the
    /// bytes are as they were.
    pub fn write_field(&self, i: u32, out: &mut Bytes) -> Result<(), NoMemory>
        requires { i < length self.now }
        ensures ok { OnOk result (out.new ≡ out.old ++ field_text (field_at self.now i)) }
        ensures err { OnErr result (out.new ≡ out.old) }
    {
        let text = self.items[i as usize].text(*self.items.allocator())?;
        out.append(text.as_slice())
    }

    /// Equal fields.
    pub fn copy(&self, alloc: Global) -> Result<Fields, NoMemory>
        ensures { IfOk result (λ copy. copy ≡ self.now) }
    {
        Ok(Fields {
            items: copies(alloc, &self.items)?,
        })
    }

    /// Whether the names, bases and counts are equal in order. Attribute words do not count.
    pub fn agrees(&self, other: &Fields) -> bool
        ensures { IsTrue result ↔ Agree self.now other.now }
    {
        all_agree(&self.items, &other.items)
    }
}
