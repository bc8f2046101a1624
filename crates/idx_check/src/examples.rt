//! Worked values of the definitions.
ghost use Rattle.std.specs.Prelude.{◌≡◌, [], ◌∷◌, ◌++◌, None, Some, false, true};
ghost use Rattle.idx_layout.specs.Worked.{square};
ghost use Rattle.idx_check.specs.Difference.{first_difference};
ghost use Rattle.idx_check.specs.Verdict.{all_files, is_written, same, wrong_in};
ghost use Rattle.idx_check.specs.Wanted.{is_of_box, wanted_bytes};
ghost use Rattle.idx_check.specs.Worked.{with_blocks};
ghost use Rattle.idx_check.specs.declared.verdict.Verdict.{Verdict};
ghost use Rattle.idx_check.specs.declared.verdict.WrongKind.{WrongKind};

/// Texts that differ, and that do not.
pub fn worked_differences()
    ensures same { first_difference (1 ∷ 2 ∷ []) (1 ∷ 2 ∷ []) ≡ None }
    ensures byte { first_difference (1 ∷ 2 ∷ 3 ∷ []) (1 ∷ 4 ∷ 3 ∷ []) ≡ Some 1 }
    ensures shorter { first_difference (1 ∷ []) (1 ∷ 4 ∷ []) ≡ Some 1 }
    ensures longer { first_difference (1 ∷ 2 ∷ 3 ∷ []) (1 ∷ 2 ∷ []) ≡ Some 2 }
{}

/// Under a mask of two axes with two bits each, in blocks of four samples of one byte and files of two blocks: the second
/// block of a box of three by three points has two samples of the box, and the others are zeros.
pub fn worked_files()
    ensures numbers { all_files (square ((0, 3) ∷ (0, 3) ∷ []) (1 ∷ [])) ≡ 0 ∷ 2 ∷ [] }
    ensures counts { same (square ((0, 3) ∷ (0, 3) ∷ []) (1 ∷ [])) ≡ Verdict.Same 2 256 }
    ensures right { wanted_bytes (square ((0, 2) ∷ (0, 2) ∷ []) (1 ∷ [])) 0
        (with_blocks ((0 ∷ 2 ∷ 6 ∷ 8 ∷ []) ++ (1 ∷ 7 ∷ 0 ∷ 0 ∷ []))) ≡
        with_blocks ((0 ∷ 2 ∷ 6 ∷ 8 ∷ []) ++ (1 ∷ 7 ∷ 0 ∷ 0 ∷ [])) }
    ensures zeros { wanted_bytes (square ((0, 2) ∷ (0, 2) ∷ []) (1 ∷ [])) 0
        (with_blocks ((9 ∷ 9 ∷ 9 ∷ 9 ∷ []) ++ (9 ∷ 9 ∷ 9 ∷ 9 ∷ []))) ≡
        with_blocks ((9 ∷ 9 ∷ 9 ∷ 9 ∷ []) ++ (9 ∷ 9 ∷ 0 ∷ 0 ∷ [])) }
    ensures within { is_of_box (square ((0, 2) ∷ (0, 2) ∷ []) (1 ∷ [])) 5 ≡ true }
    ensures outside { is_of_box (square ((0, 2) ∷ (0, 2) ∷ []) (1 ∷ [])) 6 ≡ false }
{}

/// What is wrong with files of such datasets: a byte of 1 where the box has no point, a table without its rows, a file that
/// is cut short, one byte too many, a file that is not there, and one that should not be.
pub fn worked_verdicts()
    ensures byte { wrong_in (square ((0, 2) ∷ (0, 2) ∷ []) (1 ∷ [])) 0 true
        (Some (with_blocks ((0 ∷ 2 ∷ 6 ∷ 8 ∷ []) ++ (1 ∷ 7 ∷ 0 ∷ 1 ∷ [])))) ≡ Some (Verdict.Wrong 0 127 WrongKind.Byte) }
    ensures table { wrong_in (square ((0, 3) ∷ (0, 3) ∷ []) (1 ∷ [])) 0 true (Some (1 ∷ [])) ≡
        Some (Verdict.Wrong 0 0 WrongKind.Byte) }
    ensures shorter { wrong_in (square ((0, 3) ∷ (0, 3) ∷ []) (1 ∷ [])) 0 true
        (Some (with_blocks (0 ∷ 2 ∷ 8 ∷ 10 ∷ []))) ≡ Some (Verdict.Wrong 0 124 WrongKind.Byte) }
    ensures longer { wrong_in (square ((0, 3) ∷ (0, 3) ∷ []) (1 ∷ [])) 0 true
        (Some (with_blocks ((0 ∷ 2 ∷ 8 ∷ 10 ∷ []) ++ (1 ∷ 9 ∷ 3 ∷ 11 ∷ 0 ∷ [])))) ≡
        Some (Verdict.Wrong 0 128 WrongKind.Byte) }
    ensures missing { wrong_in (square ((0, 3) ∷ (0, 3) ∷ []) (1 ∷ [])) 2 true None ≡
        Some (Verdict.Wrong 2 0 WrongKind.Missing) }
    ensures extra { wrong_in (square ((0, 0) ∷ (0, 0) ∷ []) (1 ∷ [])) 2
        (is_written (square ((0, 0) ∷ (0, 0) ∷ []) (1 ∷ [])) 2) (Some []) ≡
        Some (Verdict.Wrong 2 0 WrongKind.Extra) }
    ensures same { wrong_in (square ((0, 3) ∷ (0, 3) ∷ []) (1 ∷ [])) 0 true
        (Some (with_blocks ((0 ∷ 2 ∷ 8 ∷ 10 ∷ []) ++ (1 ∷ 9 ∷ 3 ∷ 11 ∷ [])))) ≡ None }
{}
