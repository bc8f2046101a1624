//! Worked values of the definitions.
ghost use Rattle.std.specs.Prelude.{◌≡◌, [], ◌∷◌, None, Some, true, false, codes};
ghost use Rattle.idx_header.specs.Worked.{small_text, with_line_at};
ghost use Rattle.idx_words.specs.Built.{built_with};
ghost use Rattle.idx_rowmajor.specs.declared.layout.Layout.{Layout};
ghost use Rattle.idx_words.specs.declared.setting.Setting.{Setting};
ghost use Rattle.idx_words.specs.CheckGrammar.{AreCheckWords, AreSomeCheckWords};
ghost use Rattle.idx_words.specs.Options.{
  are_options,
  cache_of,
  convert_options,
  layout_of,
  number_given,
  query_options,
  ranks_of,
  serve_options,
};
ghost use Rattle.idx_words.specs.ServeGrammar.{ingest_of};
ghost use Rattle.idx_words.specs.Worked.{small_words};

/// The header text of a small dataset is that of the small header which is known to be read.
#[tactic(auto, unfolding(crate::specs::Built::built_with))]
pub fn worked_words()
    ensures given { built_with small_words (codes "V0101") ≡ small_text }
    ensures none { built_with small_words (codes "V") ≡ with_line_at 7 (codes "V") }
{}

/// Options have leading zeros and limits, and stand in any order, each at most once.
#[tactic(auto, unfolding(idx_text::specs::Number::number_of))]
pub fn worked_options()
    ensures zeros { cache_of (codes "--cache" ∷ codes "064" ∷ []) ≡ 64 }
    ensures most { are_options query_options (codes "--cache" ∷ codes "65536" ∷ []) ≡ true }
    ensures more { are_options query_options (codes "--cache" ∷ codes "65537" ∷ []) ≡ false }
    ensures order { are_options serve_options
        (codes "--links" ∷ codes "1" ∷ codes "--cache" ∷ codes "2" ∷ []) ≡ true }
    ensures second { number_given
        (codes "--links" ∷ codes "1" ∷ codes "--cache" ∷ codes "2" ∷ []) Setting.Cache ≡ Some 2 }
    ensures twice { are_options serve_options
        (codes "--links" ∷ codes "1" ∷ codes "--links" ∷ codes "1" ∷ []) ≡ false }
    ensures other { are_options query_options (codes "--workers" ∷ codes "2" ∷ []) ≡ false }
    ensures missing { are_options query_options (codes "--cache" ∷ []) ≡ false }
{}

/// The order of the samples of a block is `rows` or `hz`, and `hz` where it is not given; it is given once.
#[tactic(auto, unfolding(idx_text::specs::Number::number_of))]
pub fn worked_layout()
    ensures right { are_options convert_options
        (codes "--ranks" ∷ codes "4" ∷ codes "--layout" ∷ codes "rows" ∷ []) ≡ true }
    ensures rows { layout_of (codes "--ranks" ∷ codes "4" ∷ codes "--layout" ∷ codes "rows" ∷ []) ≡ Layout.Rows }
    ensures hz { layout_of (codes "--layout" ∷ codes "hz" ∷ codes "--ranks" ∷ codes "4" ∷ []) ≡ Layout.Hz }
    ensures ranks { ranks_of (codes "--layout" ∷ codes "hz" ∷ codes "--ranks" ∷ codes "4" ∷ []) ≡ 4 }
    ensures absent { layout_of (codes "--ranks" ∷ codes "4" ∷ []) ≡ Layout.Hz }
    ensures other { are_options convert_options (codes "--layout" ∷ codes "Rows" ∷ []) ≡ false }
    ensures twice { are_options convert_options
        (codes "--layout" ∷ codes "hz" ∷ codes "--layout" ∷ codes "rows" ∷ []) ≡ false }
{}

/// A step and its raw volume are given in any order; the step may be 0, and the volume's path is no option's name.
#[tactic(auto, unfolding(idx_text::specs::Number::number_of, crate::specs::PathWord::is_path))]
pub fn worked_ingest()
    ensures right { are_options serve_options
        (codes "--raw" ∷ codes "r" ∷ codes "--ingest" ∷ codes "00" ∷ []) ≡ true }
    ensures both { ingest_of (codes "--raw" ∷ codes "r" ∷ codes "--ingest" ∷ codes "00" ∷ [])
        ≡ Some (record { step = 0; raw = codes "r" }) }
    ensures alone { ingest_of (codes "--raw" ∷ codes "r" ∷ []) ≡ None }
    ensures no_path { are_options serve_options
        (codes "--ingest" ∷ codes "7" ∷ codes "--raw" ∷ codes "--links" ∷ []) ≡ false }
{}

/// Behind `check` stand a path and the number of a step, and no more.
#[tactic(auto, unfolding(idx_text::specs::Number::number_of, crate::specs::PathWord::is_path))]
pub fn worked_check()
    ensures right { AreCheckWords (codes "/tmp/v.idx" ∷ codes "007" ∷ []) 7 }
    ensures missing { ¬ AreSomeCheckWords (codes "/tmp/v.idx" ∷ []) }
    ensures no_number { ¬ AreSomeCheckWords (codes "/tmp/v.idx" ∷ codes "7.0" ∷ []) }
    ensures more { ¬ AreSomeCheckWords (codes "/tmp/v.idx" ∷ codes "7" ∷ codes "7" ∷ []) }
{}
