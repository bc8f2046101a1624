//! Laws of the definitions, each the contract of a function that does nothing.
ghost use Rattle.std.specs.Prelude.{◌≡◌, ◌+◌, ◌-◌, ◌^◌, ◌≤◌, ℕ, List, [], ◌∷◌, Ok, Some, length, map};
ghost use Rattle.std.specs.List.{range_with_len, sum_by};
ghost use Rattle.idx_hz.specs.Guess.{guessed_mask};
ghost use Rattle.idx_header.specs.Header.{IsHeader, block_count, volume_bytes};
ghost use Rattle.idx_header.specs.HeaderOf.{header_of};
ghost use Rattle.idx_pieces.specs.Digits.{piece_digits};
ghost use Rattle.idx_hall.specs.Hall.{HallValue, after_fill, after_look};
ghost use Rattle.idx_hall.specs.Posts.{Post};
ghost use Rattle.idx_hall.specs.declared.key.Key.{Key};
ghost use Rattle.idx_plan.specs.Needed.{needed};
ghost use Rattle.idx_plan.specs.Rounds.{rounds};
ghost use Rattle.idx_query.specs.Rounds.{IsRound, missed_in};
ghost use Rattle.idx_events.specs.Queries.{found_in, misses};
ghost use Rattle.idx_core_model.specs.Layers.{setting_of};
ghost use Rattle.idx_core_model.specs.Headline.{CanBeAsked, IsDivided, IsTaken};
ghost use Rattle.idx_drill_model.specs.Drill.{drill_ask, drill_asks, drill_bits, drill_box, drill_capacity, drill_depth, drill_header, drill_mask, drill_text, drill_volume};
ghost use Rattle.idx_drill_model.specs.Blocks.{blocks_at, drill_key, new_blocks};
ghost use Rattle.idx_drill_model.specs.Cache.{CacheAt, IsOnePost};

/// The text of a drill reads as its header; the mask is the guess of the box; the box can be divided into pieces, and
/// among four ranks; the volume has a byte for each point, and each question can be asked; so a world takes both.
pub fn drills_are_datasets()
    ensures read { (n : ℕ) → 1 ≤ n → n ≤ 8 → header_of (drill_text n) ≡ Ok (drill_header n) }
    ensures header { (n : ℕ) → 1 ≤ n → n ≤ 8 → IsHeader (drill_header n) }
    ensures mask { (n : ℕ) → 1 ≤ n → n ≤ 8 → guessed_mask (drill_box n) ≡ drill_mask n }
    ensures divided { (n : ℕ) → 1 ≤ n → n ≤ 8 →
        IsDivided (drill_header n) (piece_digits (drill_header n) (2 ^ 28)) 4 }
    ensures bytes { (n : ℕ) → volume_bytes (drill_header n) ≡ 2 ^ drill_depth n }
    ensures whole { (n : ℕ) → length (drill_volume n) ≡ volume_bytes (drill_header n) }
    ensures asked { (n level : ℕ) → n ≤ 8 → level ≤ drill_depth n →
        CanBeAsked (drill_header n) (drill_ask n level) }
    ensures taken { (n : ℕ) → n ≤ 8 → IsTaken (drill_header n) ((0, drill_volume n) ∷ []) (drill_asks n) }
{}

/// The question of a level needs block 0, where the level's samples are in it, and otherwise as many blocks as there
/// were below the level, in one round. The new blocks of all levels are as many as there are blocks.
pub fn levels_need_their_blocks()
    ensures needed { (n level : ℕ) → level ≤ drill_depth n →
        needed (drill_header n) (drill_ask n level) ≡ blocks_at n level }
    ensures round { (n level : ℕ) → n ≤ 8 → level ≤ drill_depth n →
        rounds (drill_header n) (drill_ask n level) ≡ map drill_key (blocks_at n level) ∷ [] }
    ensures blocks { (n level : ℕ) → n ≤ 8 → level ≤ drill_depth n →
        map (λ keys. map (λ key. key.block) keys) (rounds (drill_header n) (drill_ask n level)) ≡
        blocks_at n level ∷ [] }
    ensures events { (n level e ranks : ℕ) → n ≤ 8 → level ≤ drill_depth n →
        (setting_of (drill_header n) e ranks).rounds (drill_ask n level) ≡ blocks_at n level ∷ [] }
    ensures sum { (n : ℕ) → sum_by (λ level. length (new_blocks n level)) (range_with_len 0 (drill_depth n + 1)) ≡
        block_count (drill_header n) }
    ensures count { (n : ℕ) → block_count (drill_header n) ≡ 2 ^ (drill_depth n - drill_bits n) }
{}

/// Before the question of each level exactly its new blocks are missing of the cache, where the questions come in
/// order: an empty cache is as it is before level 0, and what the question of a level leaves is as before the next.
pub fn caches_keep_up()
    ensures empty { (n : ℕ) (h : HallValue) → IsOnePost h.board → h.cache.cap ≡ drill_capacity →
        h.cache.pairs ≡ [] → CacheAt n 0 h }
    ensures missing { (n level : ℕ) (h : HallValue) → CacheAt n level h →
        misses (blocks_at n level) (found_in (Some 0) (map drill_key (blocks_at n level)) h) ≡ new_blocks n level }
    ensures missed { (n level : ℕ) (h : HallValue) → CacheAt n level h →
        missed_in 0 (map drill_key (blocks_at n level)) h ≡ map drill_key (new_blocks n level) }
    ensures look { (n level : ℕ) (h : HallValue) → CacheAt n level h → new_blocks n level ≡ [] →
        CacheAt n (level + 1) (after_look 0 (map drill_key (blocks_at n level)) h) }
    ensures fill { (n level : ℕ) (h : HallValue) → CacheAt n level h → (pairs : List (Key × List ℕ)) →
        map (λ pair. pair.0) pairs ≡ map drill_key (new_blocks n level) →
        CacheAt n (level + 1) (after_fill 0 pairs (after_look 0 (map drill_key (blocks_at n level)) h)) }
    ensures round { (n level : ℕ) (h after : HallValue) (post : Post) → CacheAt n level h →
        IsRound post 0 (map drill_key (blocks_at n level)) h after → CacheAt n (level + 1) after }
{}
