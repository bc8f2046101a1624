//! Worked values of the definitions.
ghost use Rattle.std.specs.Prelude.{◌≡◌, [], ◌∷◌, ◌++◌, Ok, Err, Some, None, codes};
ghost use Rattle.idx_header.specs.declared.header_kind.HeaderKind.TheVariants as kinds;
ghost use Rattle.idx_header.specs.HeaderOf.{header_of};
ghost use Rattle.idx_header.specs.Header.{at_revision};
ghost use Rattle.idx_header.specs.Names.{file_name};
ghost use Rattle.idx_header.specs.Revisions.{header_that_stands, header_to_write, next_revision};
ghost use Rattle.idx_header.specs.Worked.{file_in, small_text, small_header, untimed_header, with_line_at};

/// A small header, and lines of it that are wrong.
#[tactic(auto, unfolding(idx_text::specs::Number::number_of, idx_text::specs::Numbers::numbers_of, idx_text::specs::Lines::lines, idx_text::specs::Sections::sections, idx_hz::specs::MaskText::mask_of, idx_fields::specs::Base::base_of, idx_fields::specs::Field::field_of, idx_fields::specs::Field::field_text, idx_fields::specs::FieldType::type_of, idx_fields::specs::FieldType::canonical_type, idx_fields::specs::Fields::listed_fields, idx_names::specs::Pieces::first_piece, idx_names::specs::Pieces::pieces_behind, idx_names::specs::Pieces::part_of, idx_names::specs::Pieces::pieces_text, idx_names::specs::Template::parts_of, idx_names::specs::Template::of_parts, idx_names::specs::Template::template_of, idx_names::specs::Template::template_text, idx_names::specs::Template::room, idx_names::specs::TimeTemplate::time_template_of, idx_names::specs::TimeTemplate::time_template_text, crate::specs::Keys::section_of, crate::specs::Keys::repeated, crate::specs::Keys::unknown_sections, crate::specs::Box::pairs_of, crate::specs::Box::box_of, crate::specs::Time::steps_of, crate::specs::HeaderOf::value_faults, crate::specs::HeaderOf::faults_of, crate::specs::HeaderOf::header_in, crate::specs::HeaderOf::header_of,))]
pub fn worked_headers()
    ensures read { header_of small_text ≡ Ok small_header }
    ensures digit { header_of (with_line_at 7 (codes "V0501")) ≡ Err (record { line = 7; kind = kinds.BadMask }) }
    ensures outside { header_of (with_line_at 3 (codes "0 4 0 3")) ≡ Err (record { line = 3; kind = kinds.BoxOutsideMask }) }
    ensures small { header_of (with_line_at 7 (codes "V0101010101")) ≡
        Err (record { line = 13; kind = kinds.TemplateTooSmall }) }
    ensures empty { header_of [] ≡ Err (record { line = 1; kind = kinds.MissingKey }) }
{}

/// Revisions of a step by the folders of the committed files, and the name of a file at revision 2.
#[tactic(auto, unfolding(idx_names::specs::Numeral::numeral, idx_names::specs::TimeTemplate::folder_text, idx_names::specs::TimeTemplate::folder_name, idx_names::specs::Path::numbered, idx_names::specs::Path::step_folder, idx_names::specs::Path::file_path, crate::specs::Names::file_name, crate::specs::Names::step_folder, crate::specs::Revisions::next_revision))]
pub fn worked_revisions()
    ensures none { next_revision small_header 3 (file_in (codes "time0004") ∷ []) ≡ 0 }
    ensures first { next_revision small_header 3 (file_in (codes "time0003") ∷ []) ≡ 1 }
    ensures gap { next_revision small_header 3
        (file_in (codes "time0003") ∷ file_in (codes "time0003.r2") ∷ []) ≡ 1 }
    ensures two { next_revision small_header 3
        (file_in (codes "time0003.r1") ∷ file_in (codes "time0003") ∷ []) ≡ 2 }
    ensures untimed { next_revision untimed_header 0 [] ≡ 1 }
    ensures nothing_stands { header_that_stands small_header 3 [] ≡ None }
    ensures stands { header_that_stands small_header 3 (file_in (codes "time0003") ∷ []) ≡ Some small_header }
    ensures to_write { header_to_write small_header 3 (file_in (codes "time0003") ∷ []) ≡
        Some (at_revision 1 small_header) }
    ensures name { file_name (at_revision 2 small_header) 3 0 ≡ codes "time0003.r2/0.bin" }
{}
