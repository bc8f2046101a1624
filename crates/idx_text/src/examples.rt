//! Worked values of the definitions.
ghost use Rattle.std.specs.Prelude.{◌≡◌, [], ◌∷◌, ◌++◌, Some, None, codes};
ghost use Rattle.idx_text.specs.Lines.{lines, trimmed_lines, wrong_line};
ghost use Rattle.idx_text.specs.Number.{number_of};
ghost use Rattle.idx_text.specs.Numbers.{numbers_of};
ghost use Rattle.idx_text.specs.BoxText.{both_ends};
ghost use Rattle.idx_text.specs.Sections.{sections};

/// Numbers and lists of numbers as they stand in a text.
#[tactic(auto, unfolding(crate::specs::Number::number_of, crate::specs::Numbers::numbers_of))]
pub fn worked_texts()
    ensures zeros { number_of (codes "0042") ≡ Some 42 }
    ensures most { number_of (codes "9999999999999999999") ≡ Some 9999999999999999999 }
    ensures digits { number_of (codes "00000000000000000000") ≡ None }
    ensures sign { number_of (codes "+1") ≡ None }
    ensures blanks { numbers_of (codes "  0 3 1  2 ") ≡ Some (both_ends ((0, 3) ∷ (1, 2) ∷ [])) }
    ensures tabs { numbers_of (9 ∷ codes "7" ++ 9 ∷ codes " 8") ≡ Some (7 ∷ 8 ∷ []) }
    ensures comma { numbers_of (codes "0 3,1 2") ≡ None }
    ensures empty { numbers_of [] ≡ Some [] }
{}

/// Lines, and the keys that they hold.
#[tactic(auto, unfolding(crate::specs::Lines::lines, crate::specs::Sections::sections))]
pub fn worked_lines()
    ensures empty { lines [] ≡ [] }
    ensures last_end { lines (codes "a" ++ 10 ∷ []) ≡ codes "a" ∷ [] }
    ensures blank { lines (10 ∷ 10 ∷ []) ≡ [] ∷ [] ∷ [] }
    ensures returns { lines (codes "a" ++ 13 ∷ 10 ∷ codes "b" ++ 13 ∷ []) ≡ codes "a" ∷ codes "b" ∷ [] }
    ensures last_return { lines (codes "a" ++ 10 ∷ 13 ∷ []) ≡ codes "a" ∷ [] ∷ [] }
    ensures two_returns { wrong_line (codes "a" ++ 10 ∷ codes "b" ++ 13 ∷ 13 ∷ 10 ∷ []) ≡ Some 2 }
    ensures high_bytes { wrong_line (0x80 ∷ 0xff ∷ 9 ∷ 10 ∷ []) ≡ None }
    ensures delete { wrong_line (10 ∷ 0x7f ∷ []) ≡ Some 2 }
    ensures trims { trimmed_lines (codes "  a b  " ++ 9 ∷ 10 ∷ []) ≡ codes "a b" ∷ [] }
    ensures keys { sections (codes "x" ++ 10 ∷ codes " (box) " ++ 10 ∷ codes "0 3" ++ 10 ∷ 10 ∷ codes " 0 3" ++ 10 ∷ codes "( a )")
        ≡ record { line = 2; key = codes "box"; value = codes "0 3 0 3" } ∷ record { line = 6; key = codes " a "; value = [] } ∷ [] }
    ensures parenthesis { sections (codes "(" ++ 10 ∷ codes "()") ≡ record { line = 2; key = []; value = [] } ∷ [] }
{}
