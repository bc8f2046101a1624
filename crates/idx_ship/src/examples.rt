//! Worked values of the definitions.
ghost use Rattle.std.specs.Prelude.{◌≡◌, [], ◌∷◌, filter};
ghost use Rattle.std.specs.List.{range_with_len};
ghost use Rattle.idx_layout.specs.Placing.{file_numbers};
ghost use Rattle.idx_pieces.specs.Runs.{has_address};
ghost use Rattle.idx_ship.specs.Spans.{span_addresses};
ghost use Rattle.idx_ship.specs.Made.{run_made};

/// The piece of 2 by 2 points at the origin of 4 by 4 points, whose samples are 10, 11, 12 and 13: its addresses, the
/// files of two blocks of four addresses in which they are, and what its run at the addresses 8 and 9 holds.
#[tactic(auto, unfolding(idx_block::specs::Stored::stored))]
pub fn worked_runs()
    ensures addresses { filter (has_address (0 ∷ 1 ∷ 0 ∷ 1 ∷ []) ((0, 1) ∷ (0, 1) ∷ [])) (range_with_len 0 16) ≡
        0 ∷ 4 ∷ 8 ∷ 9 ∷ [] }
    ensures files { file_numbers (record {
      mask = 0 ∷ 1 ∷ 0 ∷ 1 ∷ [];
      region = (0, 1) ∷ (0, 1) ∷ [];
      bits = 2;
      per_file = 2;
      sizes = 1 ∷ [];
    }) ≡ 0 ∷ 2 ∷ [] }
    ensures span { span_addresses (record { bits = 1; number = 4 }) ≡ 8 ∷ 9 ∷ [] }
    ensures run { (run_made (0 ∷ 1 ∷ 0 ∷ 1 ∷ []) ((0, 1) ∷ (0, 1) ∷ []) 1 (10 ∷ 11 ∷ 12 ∷ 13 ∷ []) 0
        (record { bits = 1; number = 4 })).bytes ≡ 12 ∷ 13 ∷ [] }
{}
