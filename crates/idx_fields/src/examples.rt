//! Worked values of the definitions.
ghost use Rattle.std.specs.Prelude.{◌≡◌, [], ◌∷◌, Some, None, Ok, Err, codes, map};
ghost use Rattle.idx_fields.specs.FieldType.{type_of, canonical_type};
ghost use Rattle.idx_fields.specs.Field.{Field, field_text, sample_bytes};
ghost use Rattle.idx_fields.specs.Fields.{fields_of, fields_text};
ghost use Rattle.idx_fields.specs.Worked.{data_field, pressure, velocity};

use crate::base::Base;
use crate::fields_fault::FieldsFault;

/// Types as they stand in a text, and as they are written.
#[tactic(auto, unfolding(crate::specs::Base::base_of, crate::specs::FieldType::type_of, crate::specs::FieldType::canonical_type, idx_text::specs::Number::number_of,))]
pub fn worked_types()
    ensures base { type_of (codes "uint8") ≡ Some (Base.Uint8, 1) }
    ensures behind { type_of (codes "int16[3]") ≡ Some (Base.Int16, 3) }
    ensures before { type_of (codes "1*float64") ≡ Some (Base.Float64, 1) }
    ensures zeros { type_of (codes "03*float32") ≡ Some (Base.Float32, 3) }
    ensures zero { type_of (codes "float64[0]") ≡ None }
    ensures empty { type_of (codes "uint8[]") ≡ None }
    ensures open { type_of (codes "uint8[3") ≡ None }
    ensures behind_it { type_of (codes "uint8[3]x") ≡ None }
    ensures twice { type_of (codes "2*uint8[3]") ≡ None }
    ensures most { type_of (codes "uint8[9999999999999999999]") ≡ Some (Base.Uint8, 9999999999999999999) }
    ensures digits { type_of (codes "uint8[00000000000000000001]") ≡ None }
    ensures other { type_of (codes "float16") ≡ None }
    ensures one { canonical_type Base.Float64 1 ≡ codes "float64" }
    ensures more { canonical_type Base.Int16 12 ≡ codes "int16[12]" }
{}

/// Lists of fields as they stand in a text, and as they are written.
#[tactic(auto, unfolding(crate::specs::Base::base_of, crate::specs::FieldType::type_of, crate::specs::FieldType::canonical_type, crate::specs::Field::field_of, crate::specs::Field::field_text, crate::specs::Fields::listed_fields, crate::specs::Fields::fields_of, idx_text::specs::Number::number_of,))]
pub fn worked_fields()
    ensures one { fields_of (codes "a uint8")
        ≡ Ok (record { name = codes "a"; base = Base.Uint8; count = 1; attributes = [] } ∷ []) }
    ensures two { fields_of (codes "p 1*float64 + v 3*float64") ≡ Ok (pressure ∷ velocity ∷ []) }
    ensures samples { map sample_bytes (pressure ∷ velocity ∷ []) ≡ 8 ∷ 24 ∷ [] }
    ensures blanks { fields_of (codes "p 1*float64  +  v 3*float64") ≡ Ok (pressure ∷ velocity ∷ []) }
    ensures words { fields_of (codes "DATA int16[3] default_compression(zip) min(0) max(9)") ≡ Ok (data_field ∷ []) }
    ensures text { field_text data_field ≡ codes "DATA int16[3] default_compression(zip) min(0) max(9)" }
    ensures row { fields_text (pressure ∷ velocity ∷ []) ≡ codes "p float64 + v float64[3]" }
{}

/// Texts that list no fields.
#[tactic(auto, unfolding(crate::specs::Base::base_of, crate::specs::FieldType::type_of, crate::specs::Field::field_of, crate::specs::Fields::listed_fields, crate::specs::Fields::fields_of, idx_text::specs::Number::number_of,))]
pub fn worked_faults()
    ensures empty { fields_of [] ≡ Err FieldsFault.BadField }
    ensures no_type { fields_of (codes "a uint8 + b") ≡ Err FieldsFault.BadField }
    ensures no_field { fields_of (codes "a uint8 +") ≡ Err FieldsFault.BadField }
    ensures plus { fields_of (codes "a uint8 max(1e+05)") ≡ Err FieldsFault.BadField }
    ensures twice { fields_of (codes "a uint8 + a uint8") ≡ Err FieldsFault.BadField }
    ensures zero { fields_of (codes "a uint8[0]") ≡ Err FieldsFault.BadField }
    ensures large { fields_of (codes "a uint8[65]") ≡ Err FieldsFault.OverLimit }
    ensures larger { fields_of (codes "a uint8[9999999999999999999]") ≡ Err FieldsFault.OverLimit }
    ensures bad_first { fields_of (codes "a uint8[65] + b") ≡ Err FieldsFault.BadField }
{}
