//! What follows of the definitions for what is read and what is written.
ghost use Rattle.std.specs.Prelude.{◌≡◌, ℕ, ◌≤◌, List, ◌∷◌, Bool, true, length, All, Ok};
ghost use Rattle.std.specs.List.{list_all, join_with_byte};
ghost use Rattle.idx_text.specs.Trim.{trimmed};
ghost use Rattle.idx_fields.specs.Field.{Field, IsField, field_text};
ghost use Rattle.idx_fields.specs.Fields.{AreFields, fields_of, fields_lines, fields_text};

/// The fields of a text are 1 to 64 with distinct names, and each has a name, a type and attributes of the right form.
pub fn listed_fields_are_fields()
    ensures { (text : List ℕ) (fields : List Field) → fields_of text ≡ Ok fields → AreFields fields }
{}

/// Fields that are written are read back: in a row, and on lines of their own, which a header's value joins by a space.
pub fn fields_read_back()
    ensures row { (fields : List Field) → AreFields fields → fields_of (fields_text fields) ≡ Ok fields }
    ensures lines { (fields : List Field) → fields_text fields ≡ join_with_byte 32 (fields_lines fields) }
{}

/// A field's text stands on a line: it is not empty, no blank stands at its ends, and what holds of each byte from
/// space to `~` and of each byte of the name and of the attributes holds of each of its bytes. Behind `+` and a space
/// no blank stands at its ends either.
pub fn fields_stand_on_lines()
    ensures some { (field : Field) → IsField field → 1 ≤ length (field_text field) }
    ensures trimmed { (field : Field) → IsField field → trimmed (field_text field) ≡ field_text field }
    ensures further { (field : Field) → IsField field →
        trimmed (43 ∷ 32 ∷ field_text field) ≡ 43 ∷ 32 ∷ field_text field }
    ensures bytes { (test : ℕ → Bool) (field : Field) → IsField field →
        ((b : ℕ) → 32 ≤ b → b ≤ 126 → test b ≡ true) → list_all test field.name ≡ true →
        All (λ word. list_all test word ≡ true) field.attributes → list_all test (field_text field) ≡ true }
{}
