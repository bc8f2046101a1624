//! Worked values of the definitions.
ghost use Rattle.std.specs.Prelude.{◌≡◌, [], ◌∷◌, None, Some, codes, filter};
ghost use Rattle.idx_hz.specs.Address.{z_address, level, hz_address};
ghost use Rattle.idx_hz.specs.Answer.{answer, has_level};
ghost use Rattle.idx_hz.specs.Guess.{guessed_mask, upper_bits};
ghost use Rattle.idx_hz.specs.MaskText.{mask_of};
ghost use Rattle.idx_hz.specs.Stride.{stride};
ghost use Rattle.idx_geom.specs.Volume.{samples_of};
ghost use Rattle.idx_geom.specs.Region.{points};

/// Z addresses, levels and hierarchical addresses of a mask of two axes with two bits each.
pub fn worked_addresses()
    ensures inner { z_address (0 ∷ 1 ∷ 0 ∷ 1 ∷ []) (1 ∷ 1 ∷ []) ≡ 3 }
    ensures inner_level { level (0 ∷ 1 ∷ 0 ∷ 1 ∷ []) (1 ∷ 1 ∷ []) ≡ 4 }
    ensures corner { hz_address (0 ∷ 1 ∷ 0 ∷ 1 ∷ []) (3 ∷ 3 ∷ []) ≡ 15 }
    ensures corner_level { level (0 ∷ 1 ∷ 0 ∷ 1 ∷ []) (3 ∷ 3 ∷ []) ≡ 4 }
    ensures middle { z_address (0 ∷ 1 ∷ 0 ∷ 1 ∷ []) (2 ∷ 2 ∷ []) ≡ 12 }
    ensures middle_level { level (0 ∷ 1 ∷ 0 ∷ 1 ∷ []) (2 ∷ 2 ∷ []) ≡ 2 }
    ensures middle_address { hz_address (0 ∷ 1 ∷ 0 ∷ 1 ∷ []) (2 ∷ 2 ∷ []) ≡ 3 }
    ensures origin { hz_address (0 ∷ 1 ∷ 0 ∷ 1 ∷ []) (0 ∷ 0 ∷ []) ≡ 0 }
    ensures origin_level { level (0 ∷ 1 ∷ 0 ∷ 1 ∷ []) (0 ∷ 0 ∷ []) ≡ 0 }
{}

/// The samples of a box of four by four points, sample number n being the byte n.
pub fn worked_answers()
    ensures coarse { answer (0 ∷ 1 ∷ 0 ∷ 1 ∷ []) ((0, 3) ∷ (0, 3) ∷ [])
        (samples_of 1 16 (0 ∷ 1 ∷ 2 ∷ 3 ∷ 4 ∷ 5 ∷ 6 ∷ 7 ∷ 8 ∷ 9 ∷ 10 ∷ 11 ∷ 12 ∷ 13 ∷ 14 ∷ 15 ∷ []))
        ((0, 3) ∷ (0, 3) ∷ []) 0 2 ≡ 0 ∷ 2 ∷ 8 ∷ 10 ∷ [] }
    ensures finer { answer (0 ∷ 1 ∷ 0 ∷ 1 ∷ []) ((0, 3) ∷ (0, 3) ∷ [])
        (samples_of 1 16 (0 ∷ 1 ∷ 2 ∷ 3 ∷ 4 ∷ 5 ∷ 6 ∷ 7 ∷ 8 ∷ 9 ∷ 10 ∷ 11 ∷ 12 ∷ 13 ∷ 14 ∷ 15 ∷ []))
        ((0, 3) ∷ (0, 3) ∷ []) 0 3 ≡ 0 ∷ 1 ∷ 2 ∷ 3 ∷ 8 ∷ 9 ∷ 10 ∷ 11 ∷ [] }
    ensures whole { answer (0 ∷ 1 ∷ 0 ∷ 1 ∷ []) ((0, 3) ∷ (0, 3) ∷ [])
        (samples_of 1 16 (0 ∷ 1 ∷ 2 ∷ 3 ∷ 4 ∷ 5 ∷ 6 ∷ 7 ∷ 8 ∷ 9 ∷ 10 ∷ 11 ∷ 12 ∷ 13 ∷ 14 ∷ 15 ∷ []))
        ((0, 3) ∷ (0, 3) ∷ []) 0 4 ≡
        0 ∷ 1 ∷ 2 ∷ 3 ∷ 4 ∷ 5 ∷ 6 ∷ 7 ∷ 8 ∷ 9 ∷ 10 ∷ 11 ∷ 12 ∷ 13 ∷ 14 ∷ 15 ∷ [] }
    ensures none { answer (0 ∷ 1 ∷ 0 ∷ 1 ∷ []) ((0, 3) ∷ (0, 3) ∷ [])
        (samples_of 1 16 (0 ∷ 1 ∷ 2 ∷ 3 ∷ 4 ∷ 5 ∷ 6 ∷ 7 ∷ 8 ∷ 9 ∷ 10 ∷ 11 ∷ 12 ∷ 13 ∷ 14 ∷ 15 ∷ []))
        ((1, 1) ∷ (1, 1) ∷ []) 0 0 ≡ [] }

    // The only point of level 3 in a box of 2 by 3 points.
    ensures one { filter (has_level (0 ∷ 1 ∷ 0 ∷ 1 ∷ []) 3 3) (points ((1, 2) ∷ (1, 3) ∷ [])) ≡ (1 ∷ 2 ∷ []) ∷ [] }
{}

/// Guessed masks: of a box of 8 by 2 points, of one of 3 by 3, and the bits of a box of one point.
pub fn worked_guesses()
    ensures long { guessed_mask ((0, 7) ∷ (0, 1) ∷ []) ≡ 0 ∷ 0 ∷ 0 ∷ 1 ∷ [] }
    ensures square { guessed_mask ((0, 2) ∷ (0, 2) ∷ []) ≡ 0 ∷ 1 ∷ 0 ∷ 1 ∷ [] }
    ensures point { upper_bits ((0, 0) ∷ (0, 0) ∷ []) ≡ 0 ∷ 0 ∷ [] }
{}

/// The strides of level 3 of that mask of two axes with two bits each: the points of level 3 have an odd first
/// coordinate and an even second one.
pub fn worked_strides()
    ensures first { stride (0 ∷ 1 ∷ 0 ∷ 1 ∷ []) 3 0 ≡ 1 }
    ensures second { stride (0 ∷ 1 ∷ 0 ∷ 1 ∷ []) 3 1 ≡ 2 }
    ensures coarsest { stride (0 ∷ 1 ∷ 0 ∷ 1 ∷ []) 0 1 ≡ 4 }
    ensures level { level (0 ∷ 1 ∷ 0 ∷ 1 ∷ []) (1 ∷ 2 ∷ []) ≡ 3 }
{}

/// Masks of texts: of four digits, and of texts without digits, without the letter, and with a digit that is no axis.
#[tactic(auto, unfolding(crate::specs::MaskText::mask_of))]
pub fn worked_texts()
    ensures four { mask_of (codes "V0101") ≡ Some (0 ∷ 1 ∷ 0 ∷ 1 ∷ []) }
    ensures empty { mask_of (codes "V") ≡ None }
    ensures letter { mask_of (codes "X0") ≡ None }
    ensures digit { mask_of (codes "V0501") ≡ None }
{}
