//! Laws of the definitions, each the contract of a function that does nothing.
ghost use Rattle.std.specs.Prelude.{◌≡◌, ◌≢◌, ℕ, ◌*◌, ◌/◌, ◌%◌, ◌^◌, ◌≤◌, List, [], ◌∷◌, ◌++◌, Some, None, All};
ghost use Rattle.idx_names.specs.declared.mark_kind.MarkKind.TheVariants.{File};
ghost use Rattle.idx_names.specs.declared.piece.Piece.{Piece};
ghost use Rattle.idx_names.specs.declared.piece.Piece.TheVariants.{Mark};
ghost use Rattle.idx_names.specs.Numeral.{hexadecimal};
ghost use Rattle.idx_names.specs.Pieces.{pieces_text, mark_count, IsWordByte};
ghost use Rattle.idx_names.specs.Template.{TemplateValue, template_of, template_text, IsTemplate};
ghost use Rattle.idx_names.specs.TimeTemplate.{TimeTemplateValue, time_template_of, time_template_text, IsTimeTemplate};
ghost use Rattle.idx_names.specs.Path.{numbered, file_path, step_folder};

/// The text of a template spells that template, also with `./` before it, and what some text spells is a template.
pub fn texts_read_back()
    ensures plain { (t : TemplateValue) → IsTemplate t → template_of (template_text t) ≡ Some t }
    ensures dot { (t : TemplateValue) → IsTemplate t → template_of (46 ∷ 47 ∷ template_text t) ≡ Some t }
    ensures spelled { (text : List ℕ) (t : TemplateValue) → template_of text ≡ Some t → IsTemplate t }
{}

/// The text of a time template spells that time template, and what some text spells is a time template.
pub fn time_texts_read_back()
    ensures plain { (t : TimeTemplateValue) → IsTimeTemplate t → time_template_of (time_template_text t) ≡ Some t }
    ensures spelled { (text : List ℕ) (t : TimeTemplateValue) → time_template_of text ≡ Some t → IsTimeTemplate t }
{}

/// The text of a template, and that of a time template, is one word: it has bytes, and each of them prints and is no
/// blank.
pub fn texts_are_words()
    ensures template_some { (t : TemplateValue) → IsTemplate t → template_text t ≢ [] }
    ensures template { (t : TemplateValue) → IsTemplate t → All IsWordByte (template_text t) }
    ensures time_some { (t : TimeTemplateValue) → IsTimeTemplate t → time_template_text t ≢ [] }
    ensures time { (t : TimeTemplateValue) → IsTimeTemplate t → All IsWordByte (time_template_text t) }
{}

/// Different triples of a step, a revision and a file have different paths; so have different files where there are no
/// steps, and so have the folders of different pairs of a step and a revision.
pub fn paths_differ()
    ensures steps { (t : TemplateValue) (time : TimeTemplateValue) (s u r q f g : ℕ) → IsTemplate t →
        IsTimeTemplate time → file_path t (Some (time, s, r)) f ≡ file_path t (Some (time, u, q)) g →
        (s ≡ u) × (r ≡ q) × (f ≡ g) }
    ensures files { (t : TemplateValue) (f g : ℕ) → IsTemplate t → file_path t None f ≡ file_path t None g → f ≡ g }
    ensures folders { (t : TemplateValue) (time : TimeTemplateValue) (s u r q : ℕ) → IsTimeTemplate time →
        step_folder t time s r ≡ step_folder t time u q → (s ≡ u) × (r ≡ q) }
{}

/// The last of several marks takes the lowest bits of a file's number, four for each of its digits, and the marks before
/// it the bits above them; a mark alone takes the whole number. So the marks are filled from the right, and the leftmost
/// one takes all bits that are left.
pub fn marks_are_filled_from_the_right()
    ensures last { (ps qs : List Piece) (digits file : ℕ) → 1 ≤ mark_count ps → mark_count qs ≡ 0 →
        numbered (ps ++ Mark digits ∷ qs) file ≡ numbered ps (file / 2 ^ (4 * digits)) ++
        (hexadecimal digits (file % 2 ^ (4 * digits)) ++ pieces_text File qs) }
    ensures alone { (ps qs : List Piece) (digits file : ℕ) → mark_count ps ≡ 0 → mark_count qs ≡ 0 →
        numbered (ps ++ Mark digits ∷ qs) file ≡ pieces_text File ps ++
        (hexadecimal digits file ++ pieces_text File qs) }
{}

/// No path is empty.
pub fn paths_are_not_empty()
    ensures file { (t : TemplateValue) (f : ℕ) → IsTemplate t → file_path t None f ≢ [] }
    ensures step_file { (t : TemplateValue) (time : TimeTemplateValue) (s r f : ℕ) →
        file_path t (Some (time, s, r)) f ≢ [] }
    ensures folder { (t : TemplateValue) (time : TimeTemplateValue) (s r : ℕ) → IsTimeTemplate time →
        step_folder t time s r ≢ [] }
{}
