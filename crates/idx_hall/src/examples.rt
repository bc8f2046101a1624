//! Worked values of the definitions.
ghost use Rattle.std.specs.Prelude.{◌≡◌, [], ◌∷◌, true, false, None, Some, nat_eq, if◌then◌else◌};
ghost use Rattle.idx_cache.specs.Cached.{cached};
ghost use Rattle.idx_hall.specs.Posts.{bytes_at, has_at, is_newest, newest, post_of};
ghost use Rattle.idx_hall.specs.Hall.{after_evict, after_fill, after_look, after_publish, key_eq, name_eq, noted, stale_of};
ghost use Rattle.idx_hall.specs.Examples.{block_at, half_post, key_at, one_step, posts_again, step_again, two_blocks};

/// Steps of two blocks of two bytes, and a hall with room for two blocks: what its calls find and leave.
pub fn worked_hall()
    ensures post { post_of two_blocks 7 (λ field block. nat_eq block 0)
        (Some (λ field block. if nat_eq block 0 then 1 ∷ 2 ∷ [] else 0 ∷ 0 ∷ [])) ≡ record {
          time = 7;
          has = (true ∷ false ∷ []) ∷ [];
          stored = Some (((1 ∷ 2 ∷ []) ∷ (0 ∷ 0 ∷ []) ∷ []) ∷ []);
        } }
    ensures untold { half_post 9 ≡ record { time = 9; has = (true ∷ false ∷ []) ∷ []; stored = None } }
    ensures has { has_at (half_post 7) 0 0 ≡ true }
    ensures lacks { has_at (half_post 7) 0 1 ≡ false }
    ensures bytes { bytes_at (((1 ∷ 2 ∷ []) ∷ (0 ∷ 0 ∷ []) ∷ []) ∷ []) 0 0 ≡ 1 ∷ 2 ∷ [] }
    ensures no_field { bytes_at (((1 ∷ 2 ∷ []) ∷ (0 ∷ 0 ∷ []) ∷ []) ∷ []) 1 0 ≡ [] }
    ensures one_key { key_eq (key_at 7 1) (key_at 7 1) ≡ true }
    ensures two_steps { key_eq (key_at 7 1) (key_at 9 1) ≡ false }
    ensures one_name { name_eq (block_at 2 7 1) (block_at 2 7 1) ≡ true }
    ensures two_posts { name_eq (block_at 2 7 1) (block_at 0 7 1) ≡ false }
    ensures noted { noted (block_at 0 7 1 ∷ block_at 0 7 0 ∷ block_at 0 7 1 ∷ [])
        ((block_at 1 9 1, 5 ∷ 6 ∷ []) ∷ (block_at 0 7 1, 0 ∷ 0 ∷ []) ∷ []) ≡
        Some (0 ∷ 0 ∷ []) ∷ None ∷ Some (0 ∷ 0 ∷ []) ∷ [] }
    ensures looked { after_look 0 (key_at 7 0 ∷ key_at 7 1 ∷ [])
        (one_step ((block_at 0 7 1, 0 ∷ 0 ∷ []) ∷ (block_at 0 7 0, 1 ∷ 2 ∷ []) ∷ [])) ≡
        one_step ((block_at 0 7 1, 0 ∷ 0 ∷ []) ∷ (block_at 0 7 0, 1 ∷ 2 ∷ []) ∷ []) }
    ensures moved { after_look 0 (key_at 7 0 ∷ [])
        (one_step ((block_at 0 7 1, 0 ∷ 0 ∷ []) ∷ (block_at 0 7 0, 1 ∷ 2 ∷ []) ∷ [])) ≡
        one_step ((block_at 0 7 0, 1 ∷ 2 ∷ []) ∷ (block_at 0 7 1, 0 ∷ 0 ∷ []) ∷ []) }
    ensures other_post { after_look 0 (key_at 7 0 ∷ [])
        (step_again ((block_at 2 7 1, 0 ∷ 0 ∷ []) ∷ (block_at 2 7 0, 1 ∷ 2 ∷ []) ∷ [])) ≡
        step_again ((block_at 2 7 1, 0 ∷ 0 ∷ []) ∷ (block_at 2 7 0, 1 ∷ 2 ∷ []) ∷ []) }
    ensures filled { after_fill 0 ((key_at 7 0, 1 ∷ 2 ∷ []) ∷ (key_at 7 1, 0 ∷ 0 ∷ []) ∷ [])
        (one_step ((block_at 0 7 1, 5 ∷ 6 ∷ []) ∷ [])) ≡
        one_step ((block_at 0 7 1, 0 ∷ 0 ∷ []) ∷ (block_at 0 7 0, 1 ∷ 2 ∷ []) ∷ []) }
    ensures filled_newest { after_fill 2 ((key_at 7 0, 1 ∷ 2 ∷ []) ∷ []) (step_again ((block_at 1 9 1, 5 ∷ 6 ∷ []) ∷ [])) ≡
        step_again ((block_at 2 7 0, 1 ∷ 2 ∷ []) ∷ (block_at 1 9 1, 5 ∷ 6 ∷ []) ∷ []) }
    ensures none_stale { stale_of 2 1 (step_again []) ≡ 0 }
    ensures not_filled { after_fill 0 ((key_at 7 0, 1 ∷ 2 ∷ []) ∷ []) (step_again ((block_at 1 9 1, 5 ∷ 6 ∷ []) ∷ [])) ≡
        step_again ((block_at 1 9 1, 5 ∷ 6 ∷ []) ∷ []) }
    ensures all_stale { stale_of 0 3 (step_again []) ≡ 3 }
    ensures evicted { after_evict 1 (one_step ((block_at 0 7 1, 0 ∷ 0 ∷ []) ∷ (block_at 0 7 0, 1 ∷ 2 ∷ []) ∷ [])) ≡
        one_step ((block_at 0 7 1, 0 ∷ 0 ∷ []) ∷ []) }
    ensures all_evicted { after_evict 9 (one_step ((block_at 0 7 1, 0 ∷ 0 ∷ []) ∷ [])) ≡ one_step [] }
    ensures published { (after_publish (half_post 9) (one_step [])).board ≡ half_post 7 ∷ half_post 9 ∷ [] }
    ensures dropped { after_publish (half_post 7) (step_again
        ((block_at 2 7 1, 0 ∷ 0 ∷ []) ∷ (block_at 1 9 1, 5 ∷ 6 ∷ []) ∷ [])) ≡ record {
          shape = two_blocks;
          board = half_post 7 ∷ half_post 9 ∷ half_post 7 ∷ half_post 7 ∷ [];
          cache = cached ((block_at 1 9 1, 5 ∷ 6 ∷ []) ∷ []) 2;
        } }
    ensures newest { newest posts_again 7 ≡ Some 2 }
    ensures newest_other { newest posts_again 9 ≡ Some 1 }
    ensures no_newest { newest posts_again 8 ≡ None }
    ensures is_newest { is_newest posts_again 2 ≡ true }
    ensures is_older { is_newest posts_again 0 ≡ false }
    ensures is_not_there { is_newest posts_again 3 ≡ false }
{}
